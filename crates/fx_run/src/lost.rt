//! The test for lost fibers.
ghost use Rattle.std.specs.Prelude.{◌≡◌, ◌<◌, All, IfOk, IfErr, OnOk};
ghost use Rattle.fx_term.specs.Script.{total};
ghost use Rattle.fx_text.specs.View.{meaning};
ghost use Rattle.fx_report.specs.Script.{script_of};
ghost use Rattle.fx_fiber.specs.Bare.{BareView};
ghost use Rattle.fx_run.specs.Reported.{AreAscending, NoneIsLost};
ghost use Rattle.fx_run.specs.Ledger.{empty_ledger, with_fibers};
ghost use Rattle.fx_run.specs.RunFault.{IsLostFault};

use crate::ledger::Ledger;
use crate::run_fault::RunFault;
use fx_fiber::Bare;
use fx_text::Script;
use std::alloc::Global;

/// Tests whether all fibers of a script's run are given: the main one, and each that one of them
/// started. Where all are, what their ports had can be closed.
pub fn test_for_lost(alloc: Global, script: &Script, bares: &[Bare]) -> Result<(), RunFault>
    requires ascending { AreAscending bares.now }
    requires below { All (λ (x : BareView). x.id < total (script_of (meaning script.now))) bares.now }
    ensures whole { OnOk result (NoneIsLost bares.now) }
    ensures fault { IfErr result (λ fault. IsLostFault bares.now fault) }
{
    whole_ledger(alloc, script.total(), bares)?;
    Ok(())
}

/// What these fibers tell, where none is lost.
pub(crate) fn whole_ledger(alloc: Global, total: u32, bares: &[Bare]) -> Result<Ledger, RunFault>
    requires some { 0 < total }
    requires ascending { AreAscending bares.now }
    requires below { All (λ (x : BareView). x.id < total) bares.now }
    ensures told { IfOk result (λ ledger. ledger ≡ with_fibers bares.now (empty_ledger total)) }
    ensures whole { OnOk result (NoneIsLost bares.now) }
    ensures fault { IfErr result (λ fault. IsLostFault bares.now fault) }
{
    let mut ledger = Ledger::new(alloc, total)?;
    ledger.fibers(bares);
    match ledger.lost(total) {
        Some(id) => Err(RunFault::Lost(id)),
        None => Ok(ledger),
    }
}
