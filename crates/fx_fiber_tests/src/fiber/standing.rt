//! Where fibers stand, told apart by the terms that they have left.
ghost use Rattle.std.specs.Prelude.{◌≡◌};

use super::{Looks, main_fiber, stepped};
use fx_fiber::Standing;
use fx_term::{Arg, Code, CodeBrand, Node, NodeId};
use std::alloc::Global;
use std::marker::Brand;
use std::test::Fail;

/// The place of a main fiber: its code, the look at which it is requested, and how many steps it has made.
#[derive(Clone, Copy)]
struct Place {
    nodes: &'static [Node],
    request: Option<u32>,
    steps: u32,
}

/// After so many steps of a fiber that nobody requests.
macro_rules! after {
    ($steps:expr, $nodes:expr) => {
        Place { nodes: $nodes, request: None, steps: $steps }
    };
}

/// `(let x (pure ..) ..)`.
macro_rules! bind {
    ($value:expr, $then:expr) => { Node::Let(Some(0), NodeId($value), NodeId($then)) };
}

/// `(pure x)`.
macro_rules! named {
    () => { Node::Pure(Arg::Slot(0)) };
}

/// Where the main fiber of a code stands after so many steps.
fn standing_in<J: CodeBrand>(alloc: Global, code: &Code, place: Place) -> Result<Standing, Fail>
    requires { code.now.nodes ≡ J.nodes }
{
    let mut looks = Looks::new(place.request);
    let mut fiber = main_fiber::<J>(alloc, code)?;
    stepped(alloc, code, &mut fiber, &mut looks, place.steps)?;
    Ok(fiber.standing(code)?)
}

/// The same of the code of these nodes.
fn standing_at(alloc: Global, place: Place) -> Result<Standing, Fail> {
    let code = Code::build(alloc, Vec::from_slice(alloc, place.nodes)?, 1)?;
    standing_in::<Brand>(alloc, &code, place)
}

/// Two places, and whether they are one: whether what the fibers keep and what they have left is the same.
static PLACES: [(&str, Place, Place, bool); 11] = [
    (
        "a name that stands for a number, and the number",
        after!(2, &[pure!(5), named!(), bind!(0, 1)]),
        after!(0, &[pure!(5)]),
        true,
    ),
    (
        "a name that stands for another number",
        after!(2, &[pure!(6), named!(), bind!(0, 1)]),
        after!(0, &[pure!(5)]),
        false,
    ),
    (
        "names that are in scope and not used",
        after!(2, &[pure!(5), pure!(1), pure!(2), seq!(1, 2), bind!(0, 3)]),
        after!(2, &[pure!(6), pure!(1), pure!(2), seq!(1, 2), bind!(0, 3)]),
        true,
    ),
    (
        "names that are used later",
        after!(2, &[pure!(5), pure!(1), named!(), seq!(1, 2), bind!(0, 3)]),
        after!(2, &[pure!(6), pure!(1), named!(), seq!(1, 2), bind!(0, 3)]),
        false,
    ),
    (
        "one term at two nodes",
        after!(0, &[pure!(1), pure!(2), seq!(0, 1)]),
        after!(2, &[pure!(7), pure!(1), pure!(2), seq!(1, 2), seq!(0, 3)]),
        true,
    ),
    (
        "one leaf in two contexts",
        after!(0, &[pure!(1), pure!(2), seq!(0, 1)]),
        after!(0, &[pure!(1), pure!(3), seq!(0, 1)]),
        false,
    ),
    (
        "one term under a mask and under none",
        after!(1, &[pure!(1), mask!(0, 0)]),
        after!(0, &[pure!(1)]),
        false,
    ),
    (
        "uses of two brackets with one release",
        after!(2, &[pure!(1), pure!(2), pure!(3), bracket!(None, 0, 1, 2)]),
        after!(2, &[pure!(9), pure!(2), pure!(3), bracket!(None, 0, 1, 2)]),
        true,
    ),
    (
        "uses of two brackets with other releases",
        after!(2, &[pure!(1), pure!(2), pure!(3), bracket!(None, 0, 1, 2)]),
        after!(2, &[pure!(1), pure!(2), pure!(4), bracket!(None, 0, 1, 2)]),
        false,
    ),
    (
        "two canceled fibers with one finalizer",
        Place {
            nodes: &[Node::Never, pure!(7), on_cancel!(0, 1)],
            request: Some(1),
            steps: 2,
        },
        Place {
            nodes: &[Node::Cede, pure!(7), on_cancel!(0, 1)],
            request: Some(1),
            steps: 2,
        },
        true,
    ),
    (
        "two that have ended with one value",
        after!(2, &[pure!(1)]),
        after!(4, &[pure!(3), pure!(1), seq!(0, 1)]),
        true,
    ),
];

#[test]
fn fibers_stand_alike_where_what_they_have_left_is_one_term(rt: HostRuntime) -> Result<(), Fail> {
    for &(row, one, other, alike) in &PLACES {
        let one = standing_at(rt.alloc(), one)?;
        let other = standing_at(rt.alloc(), other)?;
        assert!(rt; one.is_same(&other) == alike, "{row}");
    }
    Ok(())
}
