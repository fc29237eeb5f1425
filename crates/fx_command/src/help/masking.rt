//! Pages of help on the forms that keep cancellation out, let it in, and wait for it.
ghost use Rattle.std.specs.Prelude.{◌≡◌, option_map};
ghost use Rattle.fx_command.specs.Help.{masking_page};

const MASK: &str = "\
(mask p A)

A with cancellation kept out. p is the poll of this mask: (poll p B) in A lets
cancellation in again. This is uncancelable of Cats Effect.

    $ echo '(queue q 1) (main (mask p (seq (canceled) (offer q 7))))' | fibers
    fiber 0 canceled
    queue q left 7
";

const POLL: &str = "\
(poll p A)

A with the mask of p taken off, where no other mask is on inside that one. Only
the fiber that entered the mask has its poll.

    $ echo '(queue q 1)
        (main (mask p (seq (canceled) (poll p (offer q 7)))))' | fibers
    fiber 0 canceled
    queue q left
";

const ONCANCEL: &str = "\
(oncancel A F)

A; where the fiber is canceled inside it, F, its finalizer, is run, masked. This
is onCancel of Cats Effect.

    $ echo '(queue q 1) (main (oncancel (canceled) (offer q 7)))' | fibers
    fiber 0 canceled
    queue q left 7
";

/// The page on a form that keeps cancellation out, lets it in, or waits for it.
pub(super) fn page_on(word: &str) -> Option<&'static str>
    ensures { option_map (λ page. page.now) result ≡ masking_page word.now }
{
    match word {
        "mask" => Some(MASK),
        "poll" => Some(POLL),
        "oncancel" => Some(ONCANCEL),
        _ => None,
    }
}
