//! Goes through a text and gives each node the place of its form.
ghost use Rattle.std.specs.Prelude.{◌≡◌, ℕ, ◌∷◌, List, All, IfOk, IfSome, OnOk};
ghost use Rattle.fx_term.specs.declared.node.Node.{Node};
ghost use Rattle.fx_places.specs.Places.{StandsAt, IsFormPlace, ArePlaces};
ghost use Rattle.fx_places.specs.Walk.{IsGroupIn, IsWalk};

use crate::form::Form;
use crate::group::{Group, GroupKind};
use crate::makes::makes;
use crate::place::{FormPlace, PlaceFault};
use crate::word::next_word;
use fx_term::{Code, NodeId};
use fx_text::Position;
use std::alloc::Global;

/// The groups that are open, the outermost first, and the places of the nodes so far.
#[derive(Drop)]
pub(crate) struct Walk {
    pub(crate) open: Vec<Group>,
    pub(crate) places: Vec<FormPlace>,
}

/// The form of a term that has a `(` at this position, and these bytes after that.
fn form_at(position: Position, inside: &[u8]) -> Result<FormPlace, PlaceFault>
    ensures { (text : List ℕ) → StandsAt text (40 ∷ inside.now) position
        → IfOk result (IsFormPlace text) }
{
    let Some(word) = next_word(inside) else {
        return Err(PlaceFault::Unfit);
    };
    match Form::of_word(word) {
        Some(form) => Ok(FormPlace { form, position }),
        None => Err(PlaceFault::Unfit),
    }
}

impl Walk {
    pub(crate) fn new(alloc: Global) -> Walk
        ensures { (text : List ℕ) (nodes : List Node) → IsWalk text nodes result }
    {
        Walk {
            open: Vec::new(alloc),
            places: Vec::new(alloc),
        }
    }

    /// What the next `(` opens.
    fn next_kind(&self) -> GroupKind {
        match self.open.last() {
            Some(group) => group.kind_of_part(),
            None => GroupKind::Top,
        }
    }

    /// Gives the next node this place.
    fn push(&mut self, code: &Code, place: FormPlace) -> Result<(), PlaceFault>
        ensures { OnOk result ((text : List ℕ) → IsFormPlace text place
            → IsWalk text code.now.nodes self.old → IsWalk text code.now.nodes self.new) }
    {
        let next = self.places.len();
        if next >= code.len() as usize || !makes(place.form, *code.node(NodeId(next as u32))) {
            return Err(PlaceFault::Unfit);
        }
        self.places.push(place)?;
        Ok(())
    }

    /// Gives the next nodes, as many as these, the place of a form.
    fn add(&mut self, code: &Code, place: Option<FormPlace>, count: usize) -> Result<(), PlaceFault>
        ensures { OnOk result ((text : List ℕ) → IfSome place (IsFormPlace text)
            → IsWalk text code.now.nodes self.old → IsWalk text code.now.nodes self.new) }
    {
        let Some(place) = place else {
            return Ok(());
        };
        for _ in 0..count {
            self.push(code, place)?;
        }
        Ok(())
    }

    /// The `(` of a group at this position, with these bytes after it.
    fn open(&mut self, position: Position, inside: &[u8]) -> Result<(), PlaceFault>
        ensures { OnOk result ((text : List ℕ) (nodes : List Node)
            → StandsAt text (40 ∷ inside.now) position → IsWalk text nodes self.old
            → IsWalk text nodes self.new) }
    {
        let kind = self.next_kind();
        let place = match kind {
            GroupKind::Form => Some(form_at(position, inside)?),
            _ => None,
        };
        self.open.push(Group {
            kind,
            place,
            parts: 0,
            resources: 0,
        })?;
        Ok(())
    }

    /// Goes on in the group round one that has ended.
    fn go_on(&mut self, code: &Code, ended: Group) -> Result<(), PlaceFault>
        ensures { OnOk result ((text : List ℕ) → IsWalk text code.now.nodes self.old
            → IsWalk text code.now.nodes self.new) }
    {
        let Some(group) = self.open.pop() else {
            return Ok(());
        };
        self.add(code, group.place, group.nodes_after_part())?;
        self.open.push(group.after(ended))?;
        Ok(())
    }

    /// The `)` of the group that was opened last.
    fn close(&mut self, code: &Code) -> Result<(), PlaceFault>
        ensures { OnOk result ((text : List ℕ) → IsWalk text code.now.nodes self.old
            → IsWalk text code.now.nodes self.new) }
    {
        let Some(group) = self.open.pop() else {
            return Err(PlaceFault::Unfit);
        };
        self.add(code, group.place, group.nodes_at_end())?;
        self.go_on(code, group)
    }

    /// The next byte, at this position, with these bytes after it.
    pub(crate) fn step(
        &mut self,
        code: &Code,
        position: Position,
        byte: u8,
        inside: &[u8],
    ) -> Result<(), PlaceFault>
        ensures { OnOk result ((text : List ℕ) → StandsAt text (byte ∷ inside.now) position
            → IsWalk text code.now.nodes self.old → IsWalk text code.now.nodes self.new) }
    {
        match byte {
            b'(' => self.open(position, inside),
            b')' => self.close(code),
            _ => Ok(()),
        }
    }

    /// The places, at the end of the text.
    pub(crate) fn end(self, code: &Code) -> Result<Vec<FormPlace>, PlaceFault>
        ensures { (text : List ℕ) → IsWalk text code.now.nodes self
            → IfOk result (λ places. ArePlaces text code.now.nodes places.items) }
    {
        if self.places.len() != code.len() as usize {
            return Err(PlaceFault::Unfit);
        }
        Ok(self.places)
    }
}
