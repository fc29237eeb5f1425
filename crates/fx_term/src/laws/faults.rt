//! Laws of the first fault of a list of nodes.
ghost use Rattle.std.specs.Prelude.{◌≡◌, ℕ, List};
ghost use Rattle.fx_term.specs.declared.code.CodeFault.{CodeFault};
ghost use Rattle.fx_term.specs.declared.node.Node.{Node};
ghost use Rattle.fx_term.specs.Code.{IsCode, IsFault};

/// A list of nodes has one first fault at most.
#[tactic(auto, using(crate::proofs::FaultLaws::one_fault))]
pub fn first_fault_is_one()
    ensures { (queues : ℕ) (nodes : List Node) (f g : CodeFault) → IsFault queues nodes f
        → IsFault queues nodes g → f ≡ g }
{}

/// A list of nodes that has a fault is no code.
pub fn code_has_no_fault()
    ensures { (queues : ℕ) (nodes : List Node) (f : CodeFault) → IsFault queues nodes f
        → ¬ IsCode queues nodes }
{}
