//! The nodes of a code.

/// The number of a node: its place in the list of nodes, from 0.
#[derive(Clone, Copy, PartialEq, Eq, Debug)]
pub struct NodeId(pub u32);

/// A number, or a name, which is written as its slot: the number of names in scope where it was bound.
#[derive(Clone, Copy, PartialEq, Eq, Debug)]
pub enum Arg {
    Number(u64),
    Slot(u32),
}

/// One form of a script, with its parts in the order of the text.
#[derive(Clone, Copy, PartialEq, Eq, Debug)]
pub enum Node {
    /// Gives the value.
    Pure(Arg),
    /// Errs with the value (`raiseError`).
    Raise(Arg),
    /// Cancels the fiber that runs it (`canceled`).
    Canceled,
    /// Does not end (`never`).
    Never,
    /// Yields to other fibers, and gives 0 (`cede`).
    Cede,
    /// The first part's value, by this slot, in the second part (`flatMap`).
    Let(Option<u32>, NodeId, NodeId),
    /// The first part's error, by this slot, in the second part (`handleErrorWith`).
    Handle(NodeId, Option<u32>, NodeId),
    /// The second part where the value is not 0, else the third.
    If(Arg, NodeId, NodeId),
    /// The part with this slot's number from 0 to below the count, one after the other; gives 0.
    For(u32, u32, NodeId),
    /// The part with the fiber masked; by this slot its poll is in scope there (`uncancelable`).
    Mask(u32, NodeId),
    /// The part with the mask of this slot's poll taken off (the `poll` of `uncancelable`).
    Poll(u32, NodeId),
    /// The first part; where that is canceled, the second one is run (`onCancel`).
    OnCancel(NodeId, NodeId),
    /// Acquires by the first part, whose value has this slot in the others; uses by the second part;
    /// releases by the third, once (`bracket`).
    Bracket(Option<u32>, NodeId, NodeId, NodeId),
    /// Acquires by the first part, whose value has this slot in the others; uses by the second part;
    /// releases, once: where the use succeeded, with its value, by the next slot, by the third part;
    /// where it erred, with its error, by the last slot, by the fourth; where it was canceled, by the
    /// fifth (`bracketCase`).
    BracketCase(u32, NodeId, NodeId, u32, NodeId, u32, NodeId, NodeId),
    /// Starts a fiber that runs the first part; by this slot it is known in the second one (`start`).
    Start(u32, NodeId, NodeId),
    /// Waits until the fiber of the first slot has ended, and goes on by how it did: where it
    /// succeeded, with its value, by the next slot, in the first part; where it erred, with its error,
    /// by the last slot, in the second; where it was canceled, with the third (`join`).
    Join(u32, u32, NodeId, u32, NodeId, NodeId),
    /// Cancels the fiber of this slot, waits until it has ended, and gives 0 (`cancel`).
    Cancel(u32),
    /// Waits until one of these fibers has ended: gives 0 for the left one, 1 for the right.
    First(u32, u32),
    /// Puts the value at the back of the queue of this number, waits while that is full, and gives 0
    /// (`Queue.offer`).
    Offer(u8, Arg),
    /// Puts the value at the back of the queue of this number and gives 1, or gives 0 where that is
    /// full (`Queue.tryOffer`).
    TryOffer(u8, Arg),
    /// Takes the front of the queue of this number, waits while that is empty, and gives it
    /// (`Queue.take`).
    Take(u8),
    /// Takes the front of the queue of this number, and goes on with it, by this slot, in the first
    /// part; or with the second part where the queue is empty (`Queue.tryTake`).
    TryTake(u8, u32, NodeId, NodeId),
}
