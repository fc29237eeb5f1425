//! What a `(` opens.
ghost use Rattle.std.specs.Prelude.{◌≡◌};

use crate::form::Form;
use crate::place::FormPlace;

/// What a `(` opens.
#[derive(Clone, Copy, PartialEq, Eq)]
pub(crate) enum GroupKind {
    /// A form at the top.
    Top,
    /// The form of a term.
    Form,
    /// What a `join` or a `bracketcase` does after an outcome.
    Outcome,
    /// The resources of a `using`.
    Resources,
    Resource,
}

/// A group that is open: its place if it is the form of a term, how many groups in it have ended, and how many resources
/// a `using` has, once these have ended.
#[derive(Clone, Copy)]
pub(crate) struct Group {
    pub(crate) kind: GroupKind,
    pub(crate) place: Option<FormPlace>,
    pub(crate) parts: usize,
    pub(crate) resources: usize,
}

impl Form {
    /// What the next `(` opens in this form, of which so many groups have ended.
    fn kind_of_part(self, parts: usize) -> GroupKind {
        match (self, parts) {
            (Form::Using, 0) => GroupKind::Resources,
            (Form::Join, 0 | 1) | (Form::BracketCase, 2 | 3) => GroupKind::Outcome,
            _ => GroupKind::Form,
        }
    }

    /// How many nodes it makes at its end, where it has so many parts, and so many resources.
    fn nodes_at_end(self, parts: usize, resources: usize) -> usize {
        match self {
            Form::Seq => parts.saturating_sub(1),
            Form::Using => resources,
            Form::Guarantee => 2,
            Form::Race => 47,
            _ => 1,
        }
    }

    /// How many nodes it makes after a part, where so many had ended before.
    fn nodes_after_part(self, parts: usize) -> usize {
        match (self, parts) {
            (Form::Forcer, 0) => 2,
            _ => 0,
        }
    }
}

impl Group {
    /// What the next `(` opens in it.
    pub(crate) fn kind_of_part(&self) -> GroupKind {
        match (self.kind, self.place) {
            (GroupKind::Resources, _) => GroupKind::Resource,
            (_, Some(place)) => place.form.kind_of_part(self.parts),
            (_, None) => GroupKind::Form,
        }
    }

    /// How many nodes it makes at its end.
    pub(crate) fn nodes_at_end(&self) -> usize {
        match self.place {
            Some(place) => place.form.nodes_at_end(self.parts, self.resources),
            None => 0,
        }
    }

    /// How many nodes it makes after its next part.
    pub(crate) fn nodes_after_part(&self) -> usize {
        match self.place {
            Some(place) => place.form.nodes_after_part(self.parts),
            None => 0,
        }
    }

    /// The group after this one in it has ended.
    pub(crate) fn after(self, ended: Group) -> Group
        ensures { result.place ≡ self.place }
    {
        let resources = match ended.kind {
            GroupKind::Resources => ended.parts,
            _ => self.resources,
        };
        Group {
            parts: self.parts.saturating_add(1),
            resources,
            ..self
        }
    }
}
