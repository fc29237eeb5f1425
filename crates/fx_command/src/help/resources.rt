//! Pages of help on the forms that clean up.
ghost use Rattle.std.specs.Prelude.{◌≡◌, option_map};
ghost use Rattle.fx_command.specs.Help.{resource_page};

const BRACKET: &str = "\
(bracket x A U R)

Acquires by A, whose value is x in U and R, uses by U, and releases by R,
whatever U came to: a value, an error, or cancellation. Gives the value of U. A
and R are masked, and what A acquired is released once.

    $ echo '(queue q 1)
        (main (bracket x (pure 7) (raise 3) (offer q x)))' | fibers
    fiber 0 errored 3
    queue q left 7
";

const BRACKETCASE: &str = "\
(bracketcase x A U (y S) (z E) C)

Acquires by A, whose value is x in the others, uses by U, and releases by how U
ended: by S where it succeeded, with its value as y; by E where it erred, with
its error as z; by C where it was canceled. All else is as in a bracket.

    $ echo '(queue q 1) (main (bracketcase x (pure 7) (raise 3)
        (y (cede)) (z (offer q z)) (cede)))' | fibers
    fiber 0 errored 3
    queue q left 3
";

const GUARANTEE: &str = "\
(guarantee A F)

A, and then F, masked, whatever A came to. Gives the value of A.

    $ echo '(queue q 1) (main (guarantee (raise 5) (offer q 6)))' | fibers
    fiber 0 errored 5
    queue q left 6
";

const USING: &str = "\
(using ((x A R) ..) U)

One resource or more, each with a name x, an acquire A and a release R, and then
U, which uses them. They are released in the inverse order. This is Resource of
Cats Effect.

    $ echo '(queue q 2)
        (main (using ((x (pure 1) (offer q x)) (y (pure 2) (offer q y)))
        (cede)))' | fibers
    fiber 0 succeeded 0
    queue q left 2 1
";

const FORCER: &str = "\
(forcer A B)

A, and then B where A succeeded or erred. This is forceR of Cats Effect.

    $ echo '(main (forcer (raise 1) (pure 2)))' | fibers
    fiber 0 succeeded 2
";

/// The page on a form that cleans up.
pub(super) fn page_on(word: &str) -> Option<&'static str>
    ensures { option_map (λ page. page.now) result ≡ resource_page word.now }
{
    match word {
        "bracket" => Some(BRACKET),
        "bracketcase" => Some(BRACKETCASE),
        "guarantee" => Some(GUARANTEE),
        "using" => Some(USING),
        "forcer" => Some(FORCER),
        _ => None,
    }
}
