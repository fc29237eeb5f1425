//! Where the blocked fibers of a machine stand that has halted.
ghost use Rattle.std.specs.Prelude.{◌≡◌, None, All, IfOk, slice_index_or};
ghost use Rattle.fx_report.specs.Waits.{waits_in};
ghost use Rattle.fx_plain.specs.Standing.{IsNodeAt, StandsIn};

use super::PlainMachine;
use fx_report::{Blocked, Wait};
use fx_term::{Code, CodeBrand, Memory};
use std::alloc::Global;

impl<J: CodeBrand> PlainMachine<J> {
    /// Where the fiber stands that waits for this.
    fn blocked(&self, code: &Code, wait: Wait) -> Blocked
        requires code { code.now.nodes ≡ J.nodes }
        ensures wait { result.wait ≡ wait }
        ensures node { IsNodeAt J.nodes (slice_index_or self.now.fibers.items wait.fiber None)
            result.node }
    {
        let before = self.before_step(code, wait.fiber);
        Blocked {
            wait,
            node: before.node,
        }
    }

    /// Where each of the fibers stands that wait for these, in their order.
    pub fn all_blocked(
        &self,
        alloc: Global,
        code: &Code,
        waits: &[Wait],
    ) -> Result<Vec<Blocked>, Memory>
        requires code { code.now.nodes ≡ J.nodes }
        ensures waits { IfOk result (λ blocked. waits_in blocked.items ≡ waits.now) }
        ensures nodes { IfOk result (λ blocked. All (StandsIn J.nodes self.now) blocked.items) }
    {
        let mut all = Vec::with_capacity(alloc, waits.len())?;
        for wait in waits {
            all.push(self.blocked(code, *wait))?;
        }
        Ok(all)
    }
}
