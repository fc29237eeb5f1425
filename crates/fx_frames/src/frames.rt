//! The contexts that a fiber has entered.
ghost use Rattle.std.specs.Prelude.{◌≡◌, ℕ, ◌+◌, ◌^◌, ◌<◌, List, [], ◌∷◌, IfOk, OnOk, OnErr, MatchOption};
ghost use Rattle.fx_frames.specs.Frames.{cleanups_of};

use crate::frame::Frame;
use crate::unwinding::Unwinding;
use fx_term::Memory;
use std::alloc::Global;
use std::marker::Model;

/// The contexts, seen as the list of them, the innermost first.
#[derive(Drop)]
pub struct Frames {
    items: Vec<Frame>,
}

impl Model for Frames {
    ghost use Rattle.std.specs.Prelude.{List, reverse};
    ghost use Rattle.fx_frames.specs.declared.frame.Frame.{Frame};

    ghost Value = { List Frame };

    ghost view = { λ f. reverse f.items.items };
}

impl Frames {
    ghost use Rattle.fx_term.specs.declared.node.NodeId.{NodeId};
    ghost use Rattle.fx_frames.specs.declared.frame.Frame.{Frame};
    ghost use Rattle.fx_frames.specs.declared.frame.Frame.TheVariants.{Loop};

    /// No contexts. Only `push` takes memory.
    pub fn new(alloc: Global) -> Frames
        ensures { result ≡ [] }
    {
        Frames {
            items: Vec::new(alloc),
        }
    }

    /// Enters a context, which is the innermost from then on.
    #[inline(always)]
    pub fn push(&mut self, frame: Frame) -> Result<(), Memory>
        ensures ok { OnOk result (self.new ≡ frame ∷ self.old) }
        ensures err { OnErr result (self.new ≡ self.old) }
    {
        self.items.reserve(1)?;
        self.items.push_reserved(frame);
        Ok(())
    }

    /// The same contexts in memory of their own.
    pub fn copied(&self, alloc: Global) -> Result<Frames, Memory>
        ensures { IfOk result (λ copy. copy ≡ self.now) }
    {
        Ok(Frames {
            items: Vec::from_slice(alloc, &self.items)?,
        })
    }

    /// The innermost context.
    pub fn last(&self) -> Option<&Frame>
        ensures { MatchOption result (self.now ≡ [])
            (λ frame. (outer : List Frame) × (self.now ≡ frame.now ∷ outer)) }
    {
        self.items.last()
    }

    /// Takes the innermost context off.
    pub fn pop(&mut self) -> Option<Frame>
        ensures taken { MatchOption result ((self.old ≡ []) × (self.new ≡ []))
            (λ frame. self.old ≡ frame ∷ self.new) }
        ensures rest { (frame : Frame) (outer : List Frame)
            → self.old ≡ frame ∷ outer → self.new ≡ outer }
    {
        self.items.pop()
    }

    /// Puts a context in place of the innermost, for which there is room.
    pub fn replace(&mut self, frame: Frame)
        requires { (inner : Frame) × (outer : List Frame) × (self.old ≡ inner ∷ outer) }
        ensures { (inner : Frame) (outer : List Frame)
            → self.old ≡ inner ∷ outer → self.new ≡ frame ∷ outer }
    {
        let items = &mut self.items;
        let _ = items.pop();
        items.push_reserved(frame);
    }

    /// Has the innermost context, a loop of which a turn runs, go on to the turn after the next one.
    pub fn next_turn(&mut self)
        requires { (id : NodeId) × (turn : ℕ) × (outer : List Frame)
            × (self.old ≡ Loop id turn ∷ outer) × (turn + 1 < 2 ^ 32) }
        ensures { (id : NodeId) (turn : ℕ) (outer : List Frame)
            → self.old ≡ Loop id turn ∷ outer → self.new ≡ Loop id (turn + 1) ∷ outer }
    {
        let last = self.items.len() - 1;
        self.items[last].next_turn();
    }

    /// Gives all contexts up for their clean-ups.
    pub fn unwind(self) -> Unwinding
        ensures { result ≡ cleanups_of self }
    {
        Unwinding::of(self.items)
    }
}
