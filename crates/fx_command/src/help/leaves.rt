//! Pages of help on the forms with no part that runs.
ghost use Rattle.std.specs.Prelude.{◌≡◌, option_map};
ghost use Rattle.fx_command.specs.Help.{leaf_page};

const PURE: &str = "\
(pure v)

Gives v, a number or the name of a value.

    $ echo '(main (pure 5))' | fibers
    fiber 0 succeeded 5
";

const RAISE: &str = "\
(raise v)

Errs with v, a number or the name of a value. This is raiseError of Cats Effect.

    $ echo '(main (raise 4))' | fibers
    fiber 0 errored 4
";

const CANCELED: &str = "\
(canceled)

Cancels the fiber that runs it: what it was at is given up, and its finalizers
run, the inner ones first. Where cancellation is masked it gives 0, and the
fiber is canceled at the next open place.

    $ echo '(main (seq (canceled) (pure 5)))' | fibers
    fiber 0 canceled
";

const NEVER: &str = "\
(never)

Does not end. The fiber waits here until it is canceled.

    $ echo '(main (race (never) (pure 5)))' | fibers
    fiber 0 succeeded 5
    fiber 1 canceled
    fiber 2 succeeded 5
";

const CEDE: &str = "\
(cede)

Yields to other fibers, and gives 0.

    $ echo '(main (cede))' | fibers
    fiber 0 succeeded 0
";

/// The page on a form with no part that runs.
pub(super) fn page_on(word: &str) -> Option<&'static str>
    ensures { option_map (λ page. page.now) result ≡ leaf_page word.now }
{
    match word {
        "pure" => Some(PURE),
        "raise" => Some(RAISE),
        "canceled" => Some(CANCELED),
        "never" => Some(NEVER),
        "cede" => Some(CEDE),
        _ => None,
    }
}
