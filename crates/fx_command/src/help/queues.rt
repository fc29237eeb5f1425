//! Pages of help on the forms that put into a queue, and take from it.
ghost use Rattle.std.specs.Prelude.{◌≡◌, option_map};
ghost use Rattle.fx_command.specs.Help.{queue_page};

const OFFER: &str = "\
(offer q v)

Waits until the queue q has room, puts v at its back, and gives 0.

    $ echo '(queue q 1)
        (main (start h (take q) (seq (offer q 1) (offer q 2))))' | fibers
    fiber 0 succeeded 0
    fiber 1 succeeded 1
    queue q left 2
";

const TAKE: &str = "\
(take q)

Waits until the queue q has an element, takes the one at its front, and gives
its value.

    $ echo '(queue q 1) (main (seq (offer q 7) (take q)))' | fibers
    fiber 0 succeeded 7
    queue q left
";

const TRYOFFER: &str = "\
(tryoffer q v)

Where the queue q has room, puts v at its back and gives 1; else gives 0. It
does not wait. This is tryOffer of Cats Effect.

    $ echo '(queue q 1) (main (seq (offer q 1) (tryoffer q 2)))' | fibers
    fiber 0 succeeded 0
    queue q left 1
";

const TRYTAKE: &str = "\
(trytake q x A B)

Where the queue q has an element, takes the one at its front and goes on with A,
with its value as x; else with B. It does not wait. This is tryTake of Cats
Effect.

    $ echo '(queue q 1) (main (trytake q x (pure x) (raise 1)))' | fibers
    fiber 0 errored 1
    queue q left
";

/// The page on a form that puts into a queue, or takes from it.
pub(super) fn page_on(word: &str) -> Option<&'static str>
    ensures { option_map (λ page. page.now) result ≡ queue_page word.now }
{
    match word {
        "offer" => Some(OFFER),
        "take" => Some(TAKE),
        "tryoffer" => Some(TRYOFFER),
        "trytake" => Some(TRYTAKE),
        _ => None,
    }
}
