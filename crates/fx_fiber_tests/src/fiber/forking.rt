//! Forks of a fiber, and whether they stand as it does.
ghost use Rattle.std.specs.Prelude.{◌≡◌};

use super::{Looks, TestPort, main_fiber, stepped};
use fx_fiber::Fiber;
use fx_term::{Arg, Code, CodeBrand, Memory, Node, NodeId};
use std::alloc::Global;
use std::marker::Brand;
use std::test::Fail;

/// What is seen of a fork of a fiber that made so many steps.
#[derive(Clone, Copy, PartialEq, Eq, Debug)]
struct Forked {
    /// It stands as its fiber.
    at_first: bool,
    /// So it does once it has made a step that the fiber has not.
    ahead: bool,
    /// So it does once the fiber has made that step too.
    level: bool,
    /// The two have one trace.
    traces: bool,
}

/// Whether the two stand at one place.
fn stand_alike<J: CodeBrand>(
    code: &Code,
    one: &Fiber<TestPort<J>>,
    other: &Fiber<TestPort<J>>,
) -> Result<bool, Memory>
    requires { code.now.nodes ≡ J.nodes }
{
    Ok(one.standing(code)?.is_same(&other.standing(code)?))
}

/// Forks the main fiber of a code after so many steps, and has first the fork and then the fiber step.
fn fork<J: CodeBrand>(
    alloc: Global,
    code: &Code,
    request: Option<u32>,
    steps: u32,
) -> Result<Forked, Fail>
    requires { code.now.nodes ≡ J.nodes }
{
    let mut looks = Looks::new(request);
    let mut fiber = main_fiber::<J>(alloc, code)?;
    stepped(alloc, code, &mut fiber, &mut looks, steps)?;
    let port: TestPort<J> = fiber.port().copied()?;
    let mut fork = fiber.fork(port)?;
    let at_first = stand_alike(code, &fork, &fiber)?;
    stepped(alloc, code, &mut fork, &mut looks, 1)?;
    let ahead = stand_alike(code, &fork, &fiber)?;
    stepped(alloc, code, &mut fiber, &mut looks, 1)?;
    Ok(Forked {
        at_first,
        ahead,
        level: stand_alike(code, &fork, &fiber)?,
        traces: fork.trace() == fiber.trace(),
    })
}

/// The same of the code of these nodes.
fn fork_of(
    alloc: Global,
    nodes: &[Node],
    request: Option<u32>,
    steps: u32,
) -> Result<Forked, Fail> {
    let code = Code::build(alloc, Vec::from_slice(alloc, nodes)?, 1)?;
    fork::<Brand>(alloc, &code, request, steps)
}

/// Codes, the look at which they are requested, and how many steps are made before the fork.
static FORKS: [(&str, &[Node], Option<u32>, u32); 5] = [
    (
        "before its first step",
        &[pure!(1), pure!(2), seq!(0, 1)],
        None,
        0,
    ),
    (
        "under a mask",
        &[pure!(1), mask!(0, 0), pure!(2), seq!(1, 2)],
        None,
        1,
    ),
    (
        "with a number for a name, in an acquire part that has ended",
        &[pure!(1), pure!(2), pure!(3), bracket!(Some(0), 0, 1, 2)],
        None,
        1,
    ),
    (
        "which has put an element",
        &[Node::Offer(0, Arg::Number(5)), pure!(2), seq!(0, 1)],
        None,
        1,
    ),
    (
        "which is canceled, before its first clean-up",
        &[Node::Never, pure!(7), on_cancel!(0, 1)],
        Some(1),
        2,
    ),
];

#[test]
fn a_fork_stands_as_its_fiber_until_one_steps(rt: HostRuntime) -> Result<(), Fail> {
    for &(row, nodes, request, steps) in &FORKS {
        let found = fork_of(rt.alloc(), nodes, request, steps)?;
        let wanted = Forked {
            at_first: true,
            ahead: false,
            level: true,
            traces: true,
        };
        assert!(rt; found == wanted, "{row}");
    }
    Ok(())
}
