//! How what is drawn looks. Colors are told apart by people who see red and green alike; beside them what
//! an event did is told by a mark that is filled or hollow.
ghost use Rattle.std.specs.Prelude.{◌≡◌};
ghost use Rattle.fx_model.specs.FiberReport.{is_ended};
ghost use Rattle.fx_picture.specs.Look.{event_class, end_class};

use fx_model::State;
use fx_term::{Event, Outcome};

/// The style of all elements.
pub(crate) const STYLE: &str =
    "svg{background:#fff;font:12px sans-serif}text{text-anchor:middle;fill:#333}\
    .name{font-weight:bold}.again{fill:#777}.said,.visited{text-anchor:start}.visited{fill:#00664b}\
    .holds{font-size:10px;font-weight:bold;fill:#00664b}.visited,.again,.holds{paint-order:stroke;stroke:#fff;stroke-width:3px}\
    .waits{fill:#a34700;font-weight:bold}.lane{stroke:#e4e4e4}\
    .queue{stroke:#009e73;stroke-width:3;opacity:.35}.life{stroke:#888;stroke-width:2}\
    .masked{stroke:#56b4e9;stroke-width:4}\
    .unwinding{stroke:#d55e00;stroke-width:14;opacity:.25}.holding{stroke:#cc79a7;stroke-width:4}\
    .open{stroke-dasharray:4 4}circle{stroke-width:2;stroke:#555;fill:#fff}\
    .start{stroke:#0072b2;fill:#0072b2}.learn{stroke:#0072b2}\
    .put{stroke:#009e73;fill:#009e73}.got{stroke:#009e73}.held{stroke:#cc79a7;fill:#cc79a7}\
    .free{stroke:#cc79a7}.cancel{stroke:#d55e00;fill:#d55e00}.seen{stroke:#d55e00}\
    .end{stroke:#333;fill:#333}.gone{stroke:#d55e00;fill:#333}\
    .arrow{stroke-width:1.5;marker-end:url(#head)}.dashed{stroke-dasharray:5 3}\
    .visit{stroke:#009e73}.fold rect{fill:#fff;stroke:#555;stroke-width:2}\
    .count{font-size:10px;font-weight:bold}.visit.put{marker-end:url(#head)}.visit.got{marker-start:url(#head)}\
    .visit.none{stroke:#555;stroke-dasharray:1 3}";

/// The name by which the style means the marks of such events.
pub(crate) fn event_class(event: Event) -> &'static str
    ensures { result.now ≡ event_class event }
{
    match event {
        Event::Start(_) => "start",
        Event::Awaited(_) | Event::Joined(_, _) | Event::First(_) => "learn",
        Event::Put(_, _) => "put",
        Event::Got(_, _) => "got",
        Event::Refused(_) | Event::Empty(_) => "none",
        Event::Acquired(_) => "held",
        Event::Begin(_) | Event::End(_) => "free",
        Event::Request(_) | Event::SelfRequest | Event::Cancelled => "cancel",
        Event::Seen => "seen",
        Event::Ended(Outcome::Canceled) => "gone",
        Event::Ended(_) => "end",
    }
}

/// The name by which the style means the words for a fiber that is so at the end.
pub(crate) fn end_class(state: State) -> &'static str
    ensures { result.now ≡ end_class (is_ended state) }
{
    match state {
        State::Ended => "ended",
        State::Blocked => "waits",
    }
}
