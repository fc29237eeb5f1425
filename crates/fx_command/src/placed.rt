//! Where the nodes of a script stand in its text.
ghost use Rattle.std.specs.Prelude.{IfOk};
ghost use Rattle.fx_text.specs.Grammar.{IsScript};
ghost use Rattle.fx_text.specs.View.{meaning};
ghost use Rattle.fx_command.specs.Placed.{ArePlacesOrNone};

use fx_follow::Stand;
use fx_places::{FormPlace, PlaceFault, places};
use fx_report::Blocked;
use fx_term::Memory;
use fx_text::Script;
use std::alloc::Global;

/// The place of each node of the script in its text; none where the text does not fit, as none is known not to.
pub(crate) fn places_in(
    alloc: Global,
    script: &Script,
    text: &[u8],
) -> Result<Vec<FormPlace>, Memory>
    requires { IsScript text.now (meaning script.now) }
    ensures { IfOk result (λ places.
        ArePlacesOrNone text.now script.now.code.nodes places.items) }
{
    match places(alloc, text, &script.code) {
        Ok(places) => Ok(places),
        Err(PlaceFault::Unfit) => Ok(Vec::new(alloc)),
        Err(PlaceFault::Memory) => Err(Memory),
    }
}

/// The places that the words about these blocked fibers need: of no node where none is blocked.
pub(crate) fn places_of_blocked(
    alloc: Global,
    script: &Script,
    text: &[u8],
    blocked: &[Blocked],
) -> Result<Vec<FormPlace>, Memory>
    requires { IsScript text.now (meaning script.now) }
    ensures { IfOk result (λ places.
        ArePlacesOrNone text.now script.now.code.nodes places.items) }
{
    if blocked.is_empty() {
        return Ok(Vec::new(alloc));
    }
    places_in(alloc, script, text)
}

/// The places that the picture of a run needs, in which these fibers are blocked, and of whose fibers that is told.
pub(crate) fn places_of_run(
    alloc: Global,
    script: &Script,
    text: &[u8],
    told: &[Vec<Stand>],
    blocked: &[Blocked],
) -> Result<Vec<FormPlace>, Memory>
    requires { IsScript text.now (meaning script.now) }
    ensures { IfOk result (λ places.
        ArePlacesOrNone text.now script.now.code.nodes places.items) }
{
    if told.is_empty() {
        places_of_blocked(alloc, script, text, blocked)
    } else {
        places_in(alloc, script, text)
    }
}
