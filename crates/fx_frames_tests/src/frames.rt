//! Contexts of each kind, entered and left.
use fx_frames::{Cleanup, Frame, Frames};
use fx_mask::Region;
use fx_term::{Done, NodeId};
use std::test::Fail;

/// A context of each kind.
static CONTEXTS: [(&str, Frame); 11] = [
    ("let", Frame::Let(Some(2), NodeId(5))),
    ("handle", Frame::Handle(None, NodeId(4))),
    ("oncancel", Frame::OnCancel(NodeId(3))),
    ("acquire", Frame::Acquire(NodeId(8))),
    ("use", Frame::Using(1, NodeId(9))),
    ("acquire by case", Frame::AcquireCase(NodeId(8))),
    ("use by case", Frame::UsingCase(2, NodeId(8), NodeId(1))),
    ("release", Frame::Releasing(1, Done::Err(7))),
    ("mask", Frame::Masked),
    ("poll", Frame::Opened(Region(6), true)),
    ("loop", Frame::Loop(NodeId(2), 10)),
];

#[test]
fn contexts_end_at_the_inside(rt: HostRuntime) -> Result<(), Fail> {
    let mut frames = Frames::new(rt.alloc());
    for &(_, frame) in &CONTEXTS {
        frames.push(frame)?;
    }
    for &(row, frame) in CONTEXTS.iter().rev() {
        let last = frames.last().copied();
        assert_eq!(rt; (last, frames.pop()), (Some(frame), Some(frame)), "{row}");
    }
    let last = frames.last().copied();
    assert_eq!(rt; (last, frames.pop()), (None, None));
    Ok(())
}

#[test]
fn the_innermost_is_replaced(rt: HostRuntime) -> Result<(), Fail> {
    let mut frames = Frames::new(rt.alloc());
    frames.push(Frame::Let(None, NodeId(5)))?;
    frames.push(Frame::Acquire(NodeId(8)))?;
    frames.replace(Frame::Using(0, NodeId(6)));
    let (inner, outer) = (frames.pop(), frames.pop());
    assert_eq!(rt;
        (inner, outer),
        (
            Some(Frame::Using(0, NodeId(6))),
            Some(Frame::Let(None, NodeId(5)))
        )
    );
    Ok(())
}

/// Contexts with and without a clean-up, and the clean-ups of these.
static ENTERED: [Frame; 6] = [
    Frame::OnCancel(NodeId(3)),
    Frame::Let(None, NodeId(4)),
    Frame::Using(0, NodeId(5)),
    Frame::UsingCase(1, NodeId(9), NodeId(8)),
    Frame::Loop(NodeId(6), 1),
    Frame::OnCancel(NodeId(7)),
];

static CLEANUPS: [Option<Cleanup>; 6] = [
    Some(Cleanup::Finalizer(NodeId(7))),
    Some(Cleanup::Release(1, NodeId(8))),
    Some(Cleanup::Release(0, NodeId(5))),
    Some(Cleanup::Finalizer(NodeId(3))),
    None,
    None,
];

#[test]
fn cleanups_from_the_inside(rt: HostRuntime) -> Result<(), Fail> {
    let mut frames = Frames::new(rt.alloc());
    for &frame in &ENTERED {
        frames.push(frame)?;
    }
    let mut unwinding = frames.unwind();
    for &cleanup in &CLEANUPS {
        assert_eq!(rt; unwinding.next(), cleanup);
    }
    Ok(())
}
