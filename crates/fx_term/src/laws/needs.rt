//! Laws of the fiber numbers that a code can use.
ghost use Rattle.std.specs.Prelude.{◌<◌, ◌≤◌, ℕ, List, length};
ghost use Rattle.fx_term.specs.declared.node.Node.{Node};
ghost use Rattle.fx_term.specs.Need.{need, most_need};
ghost use Rattle.fx_term.specs.Meaning.{term_of};
ghost use Rattle.fx_term.specs.Code.{IsCode};

/// No node of a code can use more than the most fiber numbers, the root as little as the others.
pub fn each_node_needs_few()
    ensures { (queues : ℕ) (nodes : List Node) → IsCode queues nodes → (id : ℕ) → id < length nodes
        → need (term_of nodes id) ≤ most_need }
{}
