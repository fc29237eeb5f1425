//! Scripts that race, by gates that cancel any fiber at any turn and hold turns.
ghost use Rattle.std.specs.Prelude.{true};

use crate::accounts::assert_adds_up;
use crate::races::SCRIPTS;
use fx_sched::Gate;
use fx_text::parse;
use std::sync::atomic::{AtomicU64, Ordering};
use std::test::Fail;
use std::thread;

/// Before each turn it draws whether it holds the turn for a while, and whom it names, if anybody. What is
/// drawn follows from the seed and the number of turns so far.
#[derive(Drop)]
struct Storm {
    seed: u64,
    begun: AtomicU64,
}

/// A number that looks like any other one for the next seed.
fn drawn(seed: u64) -> u64 {
    let one = (seed ^ (seed >> 30)).wrapping_mul(0xbf58_476d_1ce4_e5b9);
    let two = (one ^ (one >> 27)).wrapping_mul(0x94d0_49bb_1331_11eb);
    two ^ (two >> 31)
}

impl Gate for Storm {
    ghost may = { λ gate id. true };

    ghost answers = { λ gate worker fiber named. Unit {0} };

    fn turn(&self, _worker: u32, _fiber: u32) -> Option<u32> {
        let begun = self.begun.fetch_add(1, Ordering::SeqCst);
        let drawn = drawn(self.seed.wrapping_add(begun));
        for _ in 0..drawn % 8 {
            thread::yield_now();
        }
        if (drawn >> 8) % 4 == 0 {
            Some(((drawn >> 16) % 6) as u32)
        } else {
            None
        }
    }
}

/// How often each script is run by each number of workers.
const RUNS: u64 = 5;

#[test]
fn each_report_adds_up_in_a_storm_of_cancellations(rt: HostRuntime) -> Result<(), Fail> {
    for text in &SCRIPTS {
        let script = parse(rt.alloc(), text.as_bytes())?;
        for workers in [1u32, 2, 4, 16] {
            for seed in 0..RUNS {
                let gate = Storm {
                    seed: seed << 32,
                    begun: AtomicU64::new(0),
                };
                assert_adds_up(&rt, &script, workers, &gate)?;
            }
        }
    }
    Ok(())
}
