//! What is reported of a run of a script's fibers.

use crate::fiber_report::FiberReport;
use fx_term::Item;
use std::marker::Model;

/// The report of a run: the fibers that have started, ascending by number; what is left in each queue,
/// from front to back; the numbers that were requested from outside, ascending, each once; and how
/// many waiting fibers only a sweep put back.
#[derive(Drop)]
pub struct Report {
    pub fibers: Vec<FiberReport>,
    pub left: Vec<Vec<Item>>,
    pub outside: Vec<u32>,
    pub late: u64,
}

impl Model for Report {
    ghost use Rattle.std.specs.Prelude.{map};
    ghost use Rattle.fx_model.specs.Report.{ReportView};
    ghost use Rattle.fx_term.specs.Element.{elements_of};

    ghost Value = { ReportView };

    ghost view = { λ r. record {
      fibers = r.fibers.items;
      left = map (λ items. elements_of items.items) r.left.items;
      outside = r.outside.items;
      late = r.late;
    } };
}

impl Report {
    ghost use Rattle.std.specs.Prelude.{◌≡◌};
    ghost use Rattle.std.specs.Bool.{OnTrue};
    ghost use Rattle.std.specs.List.{list_all};
    ghost use Rattle.fx_model.specs.Report.{AllEnded};
    ghost use Rattle.fx_model.specs.Report.{FiberReportView};

    /// Whether each fiber has ended, so that none waits for good.
    pub fn all_ended(&self) -> bool
        ensures each { result ≡ list_all (λ (x : FiberReportView). x.has_ended) self.now.fibers }
        ensures by_number { OnTrue result (AllEnded self.now) }
    {
        self.has_each_ended()
    }

    /// Whether each fiber in the list has ended.
    fn has_each_ended(&self) -> bool
        ensures { result ≡ list_all (λ (x : FiberReportView). x.has_ended) self.now.fibers }
    {
        self.fibers.iter().all(|f| f.state.has_ended())
    }
}
