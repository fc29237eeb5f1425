//! What is open at a place of a script, and what is wanted there.

use crate::explain::word_len;
use crate::parts::{OF_OUTCOME, OF_RESOURCE, Part, Wanted, parts_of};
use crate::printable::quoted;
use std::alloc::{AllocError, Global};

/// What a `(` opens.
#[derive(Clone, Copy, PartialEq, Eq)]
enum GroupKind {
    Form,
    /// The resources of a `using`.
    Resources,
    Resource,
    /// What a `join` or a `bracketcase` does after an outcome.
    Outcome,
}

/// What stands after a `(` that is open.
#[derive(Clone, Copy)]
struct Group<'a> {
    kind: GroupKind,
    /// How many bytes of the text stand before the `(`.
    at: usize,
    /// The first word.
    word: Option<&'a [u8]>,
    /// The word after that, if it is no part of another group.
    name: Option<&'a [u8]>,
    /// How many parts there are after the first word.
    count: usize,
}

impl Group<'_> {
    fn is_form(&self, word: &[u8]) -> bool {
        self.kind == GroupKind::Form && self.word == Some(word)
    }

    /// What a `(` opens as the next part of this group.
    fn kind_of_part(&self) -> GroupKind {
        match self.wanted() {
            Wanted::Resources => GroupKind::Resources,
            Wanted::Outcome => GroupKind::Outcome,
            _ if self.kind == GroupKind::Resources => GroupKind::Resource,
            _ => GroupKind::Form,
        }
    }

    /// Whether the next part runs in a new fiber.
    fn starts_a_fiber(&self) -> bool {
        self.is_form(b"race") || self.is_form(b"start") && self.count == 1
    }

    /// Whether this is a mask whose poll has that name.
    fn is_mask_of(&self, poll: &[u8]) -> bool {
        self.is_form(b"mask") && self.name == Some(poll)
    }

    /// The next part, where one is wanted after the first word.
    fn next_part(&self) -> Option<Part> {
        let word = self.word?;
        let parts = match self.kind {
            GroupKind::Form => parts_of(word),
            GroupKind::Resource => OF_RESOURCE,
            GroupKind::Outcome => OF_OUTCOME,
            GroupKind::Resources => return None,
        };
        parts.get(self.count).copied()
    }

    /// What is wanted next.
    fn wanted(&self) -> Wanted {
        match self.next_part() {
            Some(part) => part.wanted,
            None if self.is_form(b"seq") => Wanted::TermOrClose,
            None if self.word.is_some() => Wanted::Close,
            None => self.first_wanted(),
        }
    }

    /// What is wanted next where no word stands yet.
    fn first_wanted(&self) -> Wanted {
        match self.kind {
            GroupKind::Form => Wanted::Word,
            GroupKind::Resources if self.count == 0 => Wanted::Resource,
            GroupKind::Resources => Wanted::Close,
            GroupKind::Resource | GroupKind::Outcome => Wanted::Name,
        }
    }
}

/// A name that a group gives, and how many bytes of the text stand before it.
#[derive(Clone, Copy)]
struct Bound<'a> {
    name: &'a [u8],
    at: usize,
    /// How many groups are open round all that the name is in scope in.
    depth: usize,
}

/// The groups that are open after some tokens, the outermost first, and the names that they give.
#[derive(Drop)]
pub(crate) struct OpenGroups<'a> {
    groups: Vec<Group<'a>>,
    names: Vec<Bound<'a>>,
}

impl<'a> OpenGroups<'a> {
    /// The groups that are open after these tokens of a script.
    pub(crate) fn after(alloc: Global, before: &'a [u8]) -> Result<OpenGroups<'a>, AllocError> {
        let mut open = OpenGroups {
            groups: Vec::new(alloc),
            names: Vec::new(alloc),
        };
        let mut at = 0;
        while at < before.len() {
            let rest = &before[at..];
            let len = word_len(rest);
            if len > 0 {
                open.add_word(&rest[..len], at)?;
                at += len;
            } else {
                open.add_byte(rest[0], at)?;
                at += 1;
            }
        }
        Ok(open)
    }

    fn add_word(&mut self, word: &'a [u8], at: usize) -> Result<(), AllocError> {
        if self.wanted() == Wanted::Name {
            self.names.push(Bound {
                name: word,
                at,
                depth: self.groups.len(),
            })?;
        }
        if let Some(group) = self.groups.last_mut() {
            if group.word.is_none() && group.count == 0 {
                group.word = Some(word);
            } else {
                if group.count == 0 {
                    group.name = Some(word);
                }
                group.count = group.count.saturating_add(1);
            }
        }
        Ok(())
    }

    fn add_byte(&mut self, byte: u8, at: usize) -> Result<(), AllocError> {
        match byte {
            b'(' => self.open(at),
            b')' => {
                self.close();
                Ok(())
            }
            _ => Ok(()),
        }
    }

    fn open(&mut self, at: usize) -> Result<(), AllocError> {
        let kind = self
            .groups
            .last()
            .map_or(GroupKind::Form, |group| group.kind_of_part());
        self.groups.push(Group {
            kind,
            at,
            word: None,
            name: None,
            count: 0,
        })?;
        Ok(())
    }

    fn close(&mut self) {
        if let Some(group) = self.groups.pop() {
            self.keep_name(&group);
        }
        self.forget_names();
        if let Some(group) = self.groups.last_mut() {
            group.count = group.count.saturating_add(1);
        }
    }

    /// Keeps the name of a group that is closed, where it stays in scope round it: the name of a queue,
    /// and that of a resource in its `using`.
    fn keep_name(&mut self, closed: &Group<'a>) {
        let stays = closed.kind == GroupKind::Resource || closed.is_form(b"queue");
        let depth = self.groups.len().saturating_sub(1);
        match self.names.last_mut() {
            Some(bound) if stays => bound.depth = depth,
            _ => {}
        }
    }

    /// Drops the names of groups that are closed.
    fn forget_names(&mut self) {
        let depth = self.groups.len();
        let kept = match self.names.iter().rposition(|bound| bound.depth <= depth) {
            Some(last) => last + 1,
            None => 0,
        };
        self.names.truncate(kept);
    }

    /// How many groups are open.
    pub(crate) fn count(&self) -> usize {
        self.groups.len()
    }

    /// How many bytes of the text stand before the `(` of the group that the place is in.
    pub(crate) fn begin(&self) -> usize {
        self.groups.last().map_or(0, |group| group.at)
    }

    /// Whether the place is in the declaration of a queue.
    pub(crate) fn is_in_declaration(&self) -> bool {
        self.groups.last().is_some_and(|g| g.is_form(b"queue"))
    }

    /// Whether a mask has this poll, and what is open at the place runs in another fiber than the mask.
    pub(crate) fn is_poll_of_another_fiber(&self, poll: &[u8]) -> bool {
        let mut is_of_another = false;
        for group in &self.groups {
            is_of_another = if group.is_mask_of(poll) {
                false
            } else {
                is_of_another || group.starts_a_fiber()
            };
        }
        is_of_another && self.groups.iter().any(|g| g.is_mask_of(poll))
    }

    /// How many bytes of the text stand before the place where the name is bound that is in scope here.
    pub(crate) fn where_bound(&self, name: &[u8]) -> Option<usize> {
        let index = self.names.iter().rposition(|bound| bound.name == name)?;
        Some(self.names.get(index)?.at)
    }

    /// What is wanted at the place.
    pub(crate) fn wanted(&self) -> Wanted {
        self.groups
            .last()
            .map_or(Wanted::Open, |group| group.wanted())
    }

    /// Which part is wanted at the place, after the first word of its group.
    pub(crate) fn role(&self) -> Option<&'static str> {
        Some(self.groups.last()?.next_part()?.role)
    }

    /// The group that the place is in, in words.
    pub(crate) fn owner(&self, alloc: Global) -> Result<String, AllocError> {
        let Some(group) = self.groups.last() else {
            return String::from_str(alloc, "the script");
        };
        let kind = match group.kind {
            GroupKind::Form => "",
            GroupKind::Resources => "the resources of ",
            GroupKind::Resource => "the resource ",
            GroupKind::Outcome => "the group `(x T)` with the name ",
        };
        let word = quoted(alloc, group.word.unwrap_or(b"("))?;
        format!(in alloc; "{kind}{word}")
    }
}
