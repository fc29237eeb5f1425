//! The tour's example of a library: a world with one fiber.
ghost use Rattle.std.specs.Prelude.{◌≡◌};

use fx_fiber::{Fiber, Stepped};
use fx_plain::PlainWorld;
use fx_term::{CodeBrand, Memory, Outcome};
use fx_text::{Script, parse};
use std::alloc::Global;
use std::marker::Brand;
use std::test::Fail;

/// How the main fiber of a script ends, if it comes to its end with no other one.
fn run_alone<J: CodeBrand>(alloc: Global, script: &Script) -> Result<Option<Outcome>, Memory>
    requires { script.now.code.nodes ≡ J.nodes }
{
    let (mut world, port) = PlainWorld::new::<J>(alloc, script)?;
    let mut fiber = Fiber::new(alloc, &script.code, port)?;
    while !fiber.has_ended() {
        match fiber.step(&script.code, &mut world)? {
            Stepped::Went | Stepped::Gave | Stepped::Ended => {}
            Stepped::Child(_) | Stepped::Waits(_) => break,
        }
    }
    Ok(world.outcome(fiber.id()))
}

#[test]
fn one_fiber_runs_in_a_world_of_its_own(rt: HostRuntime) -> Result<(), Fail> {
    let alloc = rt.alloc();
    let raises = parse(alloc, b"(main (let x (pure 4) (raise x)))")?;
    assert_eq!(rt;
        run_alone::<Brand>(alloc, &raises)?,
        Some(Outcome::Errored(4))
    );
    let waits = parse(alloc, b"(main (never))")?;
    assert_eq!(rt; run_alone::<Brand>(alloc, &waits)?, None);
    Ok(())
}
