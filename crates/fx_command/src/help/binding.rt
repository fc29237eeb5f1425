//! Pages of help on the forms that say what comes after what.
ghost use Rattle.std.specs.Prelude.{◌≡◌, option_map};
ghost use Rattle.fx_command.specs.Help.{binding_page};

const SEQ: &str = "\
(seq A B ..)

One term or more, one after the other; gives the value of the last. An error of
one ends the whole.

    $ echo '(main (seq (pure 1) (pure 2)))' | fibers
    fiber 0 succeeded 2
";

const LET: &str = "\
(let x A B)

B, with x as the value of A. An error of A is that of the whole, and B does not
run. This is flatMap of Cats Effect.

    $ echo '(main (let x (pure 4) (raise x)))' | fibers
    fiber 0 errored 4
";

const HANDLE: &str = "\
(handle A x B)

A, and where it errs B, with x as the error. Cancellation is no error, and is
not handled. This is handleErrorWith of Cats Effect.

    $ echo '(main (handle (raise 4) x (pure x)))' | fibers
    fiber 0 succeeded 4
";

const IF: &str = "\
(if v A B)

A where v is not 0, else B. This is ifM of Cats Effect.

    $ echo '(main (if 0 (pure 1) (pure 2)))' | fibers
    fiber 0 succeeded 2
";

const FOR: &str = "\
(for i n A)

A with i as 0, 1 and so on to below n, one turn after the other; gives 0. n is a
number, and the turns of loops in loops are at most 1000000. An error of a turn
ends the loop.

    $ echo '(queue q 4) (main (for i 3 (offer q i)))' | fibers
    fiber 0 succeeded 0
    queue q left 0 1 2
";

/// The page on a form that says what comes after what.
pub(super) fn page_on(word: &str) -> Option<&'static str>
    ensures { option_map (λ page. page.now) result ≡ binding_page word.now }
{
    match word {
        "seq" => Some(SEQ),
        "let" => Some(LET),
        "handle" => Some(HANDLE),
        "if" => Some(IF),
        "for" => Some(FOR),
        _ => None,
    }
}
