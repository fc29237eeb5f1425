//! What the type of a thread port names.
use std::marker::Brand;

/// The nodes of the code that the fibers of a run have, the words and the queues that they share, and
/// the numbers that may be requested from outside. Each run picks its own.
pub trait RunBrand {
    ghost use Rattle.std.specs.Prelude.{ℕ, Bool, List};
    ghost use Rattle.fx_term.specs.declared.node.Node.{Node};
    ghost use Rattle.fx_word.specs.Words.{WordsId};
    ghost use Rattle.fx_queue.specs.Queues.{QueueId};

    ghost nodes: { List Node };

    ghost words: { WordsId };

    ghost queues: { List QueueId };

    ghost may: { ℕ → Bool };
}

impl RunBrand for Brand {
    ghost use Rattle.std.specs.Prelude.{[], true};
    ghost use Rattle.fx_port.specs.PortView.{no_words};

    ghost nodes = { [] };

    ghost words = { no_words };

    ghost queues = { [] };

    ghost may = { λ _. true };
}
