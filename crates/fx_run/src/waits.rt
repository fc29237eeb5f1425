//! Where fibers stand that a run left, and what they wait for.
ghost use Rattle.std.specs.Prelude.{◌≡◌, option_map, All, IfOk, IfSome};
ghost use Rattle.fx_report.specs.declared.blocked.Blocked.{Blocked as AnyBlocked};
ghost use Rattle.fx_report.specs.Waits.{waits_in};
ghost use Rattle.fx_run.specs.Reported.{RanCode};
ghost use Rattle.fx_run.specs.RunWaits.{wait_of, all_waits, StandsAs, StandsAmong};

use fx_fiber::Bare;
use fx_report::{Blocked, Wait};
use fx_term::{Code, Memory};
use std::alloc::Global;

/// What the fiber waits for and where it stands, if that is where a fiber can wait.
fn blocked(code: &Code, bare: &Bare) -> Option<Blocked>
    requires { code.now.nodes ≡ bare.now.nodes }
    ensures wait { option_map (λ (b : AnyBlocked). b.wait) result ≡ wait_of bare.now }
    ensures node { IfSome result (StandsAs bare.now) }
{
    let source = bare.waits_for(code)?;
    Some(Blocked {
        wait: Wait {
            fiber: bare.id(),
            source,
        },
        node: bare.node(code),
    })
}

/// What each of these fibers of one code waits for that stands where a fiber can wait, and where that is, in
/// their order.
pub(crate) fn all_blocked(
    alloc: Global,
    code: &Code,
    bares: &[Bare],
) -> Result<Vec<Blocked>, Memory>
    requires { RanCode code.now.nodes bares.now }
    ensures waits { IfOk result (λ all. waits_in all.items ≡ all_waits bares.now) }
    ensures nodes { IfOk result (λ all. All (StandsAmong bares.now) all.items) }
{
    let mut all = Vec::new(alloc);
    for k in 0..bares.len() {
        if let Some(it) = blocked(code, &bares[k]) {
            all.push(it)?;
        }
    }
    Ok(all)
}
