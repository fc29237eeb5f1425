//! Laws of what a fiber begins with. A function here does nothing: its contract is the law.
ghost use Rattle.std.specs.Prelude.{◌≡◌, List};
ghost use Rattle.fx_term.specs.declared.node.Node.{Node};
ghost use Rattle.fx_term.specs.Meaning.{root_term};
ghost use Rattle.fx_model.specs.Origin.{main_origin, origin_of, main_begin_of};

/// What the main fiber of a code is given is its whole term, and the numbers that this can use. So
/// what other laws say of runs from there holds of each fiber that is given so.
pub fn main_fiber_begins_at_the_root()
    ensures { (nodes : List Node)
        → origin_of nodes (main_begin_of nodes) ≡ main_origin (root_term nodes) }
{}
