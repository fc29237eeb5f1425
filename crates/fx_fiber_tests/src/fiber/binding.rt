//! `let` and `handle`.

use super::*;

static LETS_AND_HANDLES: [Row; 1] = [(
    "handle (let x (pure 4) (raise x)) e (pure e)",
    &[
        pure!(4),
        Node::Raise(Arg::Slot(0)),
        Node::Let(Some(0), NodeId(0), NodeId(1)),
        Node::Pure(Arg::Slot(0)),
        Node::Handle(NodeId(2), Some(0), NodeId(3)),
    ],
    None,
    &[Event::Ended(Outcome::Succeeded(4))],
    6,
)];

#[test]
fn let_value_and_handle_error(rt: HostRuntime) -> Result<(), Fail> {
    assert_runs(&rt, rt.alloc(), &LETS_AND_HANDLES)
}
