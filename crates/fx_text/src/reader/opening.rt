//! The tokens before the parts of a form, and those after them.
ghost use Rattle.std.specs.Prelude.{ℕ, ◌≡◌, ◌+◌, ◌<◌, ◌≤◌, ◌^◌, List, length, IfOk};
ghost use Rattle.fx_term.specs.Meaning.{term_of};
ghost use Rattle.fx_term.specs.Turns.{most_turns};
ghost use Rattle.fx_text.specs.Limits.{most_bytes, most_queues};
ghost use Rattle.fx_text.specs.Group.{OfTerm};
ghost use Rattle.fx_text.specs.Reading.{kept};
ghost use Rattle.fx_text.specs.Given.{Gives};
ghost use Rattle.fx_text.specs.Needs.{AreMade};
ghost use Rattle.fx_text.specs.ReaderState.{scope_of, IsReady};
ghost use Rattle.fx_text.specs.Head.{named_at, spared, TurnsFit, Enters, GoesIn, Opens, closes, Leaves};

use crate::fault::ReadError;
use crate::part::{binder, closing, form, opening, too_deep, too_many_fibers};
use crate::place::Place;
use crate::reader::Reader;
use crate::reader::head::{Head, Inner};
use crate::scope::Bound;
use fx_term::{MOST_NEED, NameKind, NodeId};
use std::alloc::AllocError;

/// Where the reader stood before it went into a part: how many names were in scope, and what else
/// was known.
#[derive(Clone, Copy)]
pub(crate) struct Outside<'a> {
    pub(crate) names: usize,
    pub(crate) place: Place<'a>,
}

/// A form up to its first part, with the bytes after its `(`, and how many more may be open in it.
#[derive(Clone, Copy)]
pub(crate) struct Opened<'a> {
    pub(crate) head: Head<'a>,
    pub(crate) room: usize,
    pub(crate) inside: &'a [u8],
    pub(crate) rest: &'a [u8],
}

impl<'a> Reader<'a> {
    pub(super) fn outside(&self) -> Outside<'a>
        ensures names { result.names ≡ length self.now.names.items }
        ensures place { result.place ≡ self.now.place }
    {
        Outside {
            names: self.names.len(),
            place: self.place,
        }
    }

    /// The `(` of a group that is no form, and the name that it binds. So many more `(` may be open
    /// in it.
    #[tactic(auto, using(crate::proofs::GroupLaws::name_is))]
    pub(super) fn named(
        &self,
        room: usize,
        bytes: &'a [u8],
    ) -> Result<(&'a [u8], usize, &'a [u8]), ReadError>
        ensures read { Gives (λ x. (x.0.now, x.2.now)) result
            (named_at room (scope_of self.now) bytes.now) }
        ensures inside { IfOk result (λ x. x.1 + 1 ≡ room) }
        ensures shorter { IfOk result (λ x. length x.2.now + 2 ≤ length bytes.now) }
    {
        if room == 0 {
            return Err(too_deep(bytes));
        }
        let rest = opening(bytes)?;
        let (name, rest) = binder(&self.names, self.place, rest)?;
        Ok((name, room - 1, rest))
    }

    /// Goes into the scope of a part.
    #[tactic(auto, using(crate::proofs::ScopeLaws::scope_push))]
    fn enter(&mut self, inner: Inner<'a>) -> Result<(), AllocError>
        requires small { length self.old.names.items + spared inner ≤ most_bytes }
        requires outside { self.old.place.foreign ≤ length self.old.names.items }
        requires some { 0 < self.old.place.turns }
        requires few { self.old.place.turns ≤ most_turns }
        requires queues { length self.old.place.queues.now ≤ most_queues }
        requires turns { TurnsFit self.old.place.turns inner }
        ensures { IfOk result (λ _. Enters inner.entry self.old self.new) }
    {
        match inner {
            Inner::Same | Inner::Outcome => Ok(()),
            Inner::Name(kind, name) => Ok(self.names.push(Bound { name, kind })?),
            Inner::OutcomeUnder(name) => {
                let kind = NameKind::Value;
                Ok(self.names.push(Bound { name, kind })?)
            }
            Inner::Elsewhere => {
                self.place.foreign = self.names.len();
                Ok(())
            }
            Inner::RaceLeft => {
                self.names.push(Bound::nameless(NameKind::Poll))?;
                self.place.foreign = self.names.len();
                Ok(())
            }
            Inner::RaceRight => {
                self.names.push(Bound::nameless(NameKind::Poll))?;
                self.names.push(Bound::nameless(NameKind::Fiber))?;
                self.place.foreign = self.names.len();
                Ok(())
            }
            Inner::Loop(count, name) => {
                let kind = NameKind::Value;
                self.names.push(Bound { name, kind })?;
                self.place.turns = self.place.turns * count.max(1);
                Ok(())
            }
        }
    }

    /// Goes into what comes after an outcome, up to its term.
    fn outcome(&mut self, room: usize, bytes: &'a [u8]) -> Result<(usize, &'a [u8]), ReadError>
        requires { IsReady 0 self.old bytes.now }
        ensures { GoesIn Inner.Outcome room self.old self.new bytes.now result }
    {
        let (name, room, rest) = self.named(room, bytes)?;
        let kind = NameKind::Value;
        self.names.push(Bound { name, kind })?;
        Ok((room, rest))
    }

    /// Goes into a part, up to its term.
    fn go_in(
        &mut self,
        inner: Inner<'a>,
        room: usize,
        bytes: &'a [u8],
    ) -> Result<(usize, &'a [u8]), ReadError>
        requires ready { IsReady (spared inner) self.old bytes.now }
        requires turns { TurnsFit self.old.place.turns inner }
        ensures { GoesIn inner.entry room self.old self.new bytes.now result }
    {
        match inner {
            Inner::Outcome => self.outcome(room, bytes),
            Inner::OutcomeUnder(_) => {
                self.enter(inner)?;
                self.outcome(room, bytes)
            }
            _ => {
                self.enter(inner)?;
                Ok((room, bytes))
            }
        }
    }

    /// Goes into a part, up to the first part of the form there.
    pub(super) fn open(
        &mut self,
        inner: Inner<'a>,
        room: usize,
        bytes: &'a [u8],
    ) -> Result<Opened<'a>, ReadError>
        requires ready { IsReady (spared inner) self.old bytes.now }
        requires turns { TurnsFit self.old.place.turns inner }
        ensures { Opens inner.entry room self.old self.new bytes.now result }
    {
        let (room, bytes) = self.go_in(inner, room, bytes)?;
        if room == 0 {
            return Err(too_deep(bytes));
        }
        let inside = opening(bytes)?;
        let (form, rest) = form(inside)?;
        let (head, rest) = self.head(form, rest)?;
        let room = room - 1;
        Ok(Opened {
            head,
            room,
            inside,
            rest,
        })
    }

    /// Tests how many fibers a form can start, by its root and the bytes after its `(`.
    fn few_fibers(&self, root: NodeId, inside: &[u8]) -> Result<(), ReadError>
        requires made { AreMade self.now.nodes.items self.now.needs.items }
        requires has_node { root.0 < length self.now.nodes.items }
        requires small { length inside.now < 2 ^ 32 }
        ensures { (rest : List ℕ)
            → Gives (λ _. (term_of self.now.nodes.items root.0, rest)) result
            (kept OfTerm (length inside.now + 1) (term_of self.now.nodes.items root.0, rest)) }
    {
        if self.needs[root.0 as usize] > MOST_NEED {
            return Err(too_many_fibers(inside));
        }
        Ok(())
    }

    /// Goes out of the scope of a part.
    fn leave(&mut self, outside: Outside<'a>)
        ensures { Leaves outside.entry self.old self.new }
    {
        self.names.truncate(outside.names);
        self.place = outside.place;
    }

    /// Goes out of a part whose term has this root, and whose form had these bytes after its `(`.
    pub(super) fn close(
        &mut self,
        inner: Inner<'a>,
        outside: Outside<'a>,
        root: NodeId,
        inside: &'a [u8],
        bytes: &'a [u8],
    ) -> Result<&'a [u8], ReadError>
        requires made { AreMade self.old.nodes.items self.old.needs.items }
        requires has_node { root.0 < length self.old.nodes.items }
        requires small { length inside.now < 2 ^ 32 }
        ensures read { Gives (λ x. (term_of self.old.nodes.items root.0, x.now)) result
            (closes inner.entry inside.now (term_of self.old.nodes.items root.0, bytes.now)) }
        ensures leaves { IfOk result (λ _. Leaves outside.entry self.old self.new) }
        ensures shorter { IfOk result (λ x. length x.now ≤ length bytes.now) }
    {
        self.few_fibers(root, inside)?;
        self.leave(outside);
        match inner {
            Inner::Outcome | Inner::OutcomeUnder(_) => closing(bytes),
            _ => Ok(bytes),
        }
    }
}
