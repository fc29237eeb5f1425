//! Pages of help on the forms that start fibers and wait for them.
ghost use Rattle.std.specs.Prelude.{◌≡◌, option_map};
ghost use Rattle.fx_command.specs.Help.{fiber_page};

const START: &str = "\
(start h A B)

A in a new fiber, and then B, in which h is the name of that fiber. No name of a
poll that stands outside is known in A.

    $ echo '(queue q 1) (main (start h (offer q 7) (take q)))' | fibers
    fiber 0 succeeded 7
    fiber 1 succeeded 0
    queue q left
";

const JOIN: &str = "\
(join h (x S) (e E) C)

Waits until the fiber h has ended: then S where it succeeded, with its value as
x; E where it erred, with its error as e; C where it was canceled.

    $ echo '(main (start h (raise 3)
        (join h (x (pure 0)) (e (pure e)) (pure 9))))' | fibers
    fiber 0 succeeded 3
    fiber 1 errored 3
";

const CANCEL: &str = "\
(cancel h)

Requests the cancellation of the fiber h, waits until it has ended, and gives 0.

    $ echo '(main (start h (never) (cancel h)))' | fibers
    fiber 0 succeeded 0
    fiber 1 canceled
";

const FIRST: &str = "\
(first h k)

Waits until one of the two fibers has ended, however it did; gives 0 for the
left one, and 1 for the right one. The other goes on.

    $ echo '(main (start a (never) (start b (pure 2)
        (let n (first a b) (seq (cancel a) (pure n))))))' | fibers
    fiber 0 succeeded 1
    fiber 1 canceled
    fiber 2 succeeded 2
";

const RACE: &str = "\
(race A B)

A and B in new fibers; the outcome of the first to succeed or err, and the other
is canceled.

    $ echo '(main (race (never) (raise 5)))' | fibers
    fiber 0 errored 5
    fiber 1 canceled
    fiber 2 errored 5
";

/// The page on a form that starts a fiber, or waits for one.
pub(super) fn page_on(word: &str) -> Option<&'static str>
    ensures { option_map (λ page. page.now) result ≡ fiber_page word.now }
{
    match word {
        "start" => Some(START),
        "join" => Some(JOIN),
        "cancel" => Some(CANCEL),
        "first" => Some(FIRST),
        "race" => Some(RACE),
        _ => None,
    }
}
