//! The closed regions of the place where a fiber stands.
ghost use Rattle.std.specs.Prelude.{◌≡◌, ◌≢◌, ℕ, ◌-◌, ◌^◌, ◌<◌, List, [], ◌∷◌, IsTrue, MatchBool, OnOk, OnErr, IfOk, option_map};
ghost use Rattle.std.specs.Bool.{OnTrue};
ghost use Rattle.fx_mask.specs.Closing as closing;
ghost use Rattle.fx_mask.specs.Closing.{Closing, innermost_region, without_region, is_none_closed};
ghost use Rattle.fx_mask.specs.Masks.{closed_by, entered, IsOpened};

use crate::member::Member;
use fx_term::Memory;
use std::alloc::Global;
use std::marker::Model;

/// The number of a region.
#[derive(Clone, Copy, PartialEq, Eq, Debug)]
pub struct Region(pub u64);

/// How many there is room for at first: as many as fill a line of a processor's cache, so that fibers that run side
/// by side hardly write to one line.
const ROOM: usize = 8;

/// The closed regions, with the number of regions ever entered and of those that are opened.
#[derive(Drop)]
pub struct Masks {
    // the innermost last, with room for the opened ones above
    members: Vec<Member>,
    entries: u64,
    opened: usize,
}

impl Model for Masks {
    ghost use Rattle.std.specs.Prelude.{◌+◌, ◌≤◌, vec_len, vec_capacity};
    ghost use Rattle.fx_mask.specs.Masks.{MasksView};
    ghost use Rattle.fx_mask.specs.View.{closings_of};

    ghost Value = { MasksView };

    ghost view = { λ m. record {
      regions = closings_of m.members.items;
      entries = m.entries;
      opened = m.opened;
    } };

    ghost invariant = { λ m. vec_len m.members + m.opened ≤ vec_capacity m.members };
}

impl Masks {
    ghost use Rattle.fx_mask.specs.View.{closing_of};

    /// Masks that close nothing.
    pub fn new(alloc: Global) -> Masks
        ensures { result ≡ record { regions = []; entries = 0; opened = 0 } }
    {
        Masks {
            members: Vec::new(alloc),
            entries: 0,
            opened: 0,
        }
    }

    /// Whether nothing closes the place.
    pub fn is_open(&self) -> bool
        ensures { result ≡ is_none_closed self.now.regions }
    {
        self.members.is_empty()
    }

    /// The number of regions entered so far, which is the number of the next one.
    pub fn entries(&self) -> u64
        ensures { result ≡ self.now.entries }
    {
        self.entries
    }

    /// The innermost of what closes the place, if it is a region.
    pub fn innermost(&self) -> Option<Region>
        ensures { option_map (λ region. region.0) result ≡ innermost_region self.now.regions }
    {
        let member = self.members.last()?;
        member.as_region()
    }

    /// The same masks in memory of their own, with room for each opened region.
    pub fn copied(&self, alloc: Global) -> Result<Masks, Memory>
        ensures { IfOk result (λ copy. copy ≡ self.now) }
    {
        let mut members = Vec::from_slice(alloc, &self.members)?;
        members.reserve(self.opened)?;
        Ok(Masks {
            members,
            entries: self.entries,
            opened: self.opened,
        })
    }

    /// Closes a new region, and gives its number.
    #[inline(always)]
    pub fn enter(&mut self) -> Result<Region, Memory>
        requires { self.old.entries < 2 ^ 63 }
        ensures region { IfOk result (λ region. region.0 ≡ self.old.entries) }
        ensures ok { OnOk result (self.new ≡ entered self.old) }
        ensures err { OnErr result (self.new ≡ self.old) }
    {
        let region = Region(self.entries);
        self.close(Member::region(region))?;
        self.entries += 1;
        Ok(region)
    }

    /// Closes the place by a seal, which no poll opens.
    pub fn seal(&mut self) -> Result<(), Memory>
        ensures ok { OnOk result (self.new ≡ closed_by closing.Seal self.old) }
        ensures err { OnErr result (self.new ≡ self.old) }
    {
        self.close(Member::seal())
    }

    /// Adds the innermost, with room left for the opened regions.
    #[inline(always)]
    fn close(&mut self, member: Member) -> Result<(), Memory>
        ensures ok { OnOk result (self.new ≡ closed_by (closing_of member) self.old) }
        ensures err { OnErr result (self.new ≡ self.old) }
    {
        if self.members.capacity() - self.members.len() <= self.opened {
            self.members.reserve((self.opened + 1).max(ROOM))?;
        }
        self.members.push_reserved(member);
        Ok(())
    }

    /// Takes the innermost off, a region that is left or a seal.
    pub fn leave(&mut self)
        requires { self.old.regions ≢ [] }
        ensures { (c : Closing) (outer : List Closing)
            → self.old.regions ≡ c ∷ outer → self.new ≡ record self.old { regions = outer } }
    {
        let _ = self.members.pop();
    }

    /// Opens the region where it is the innermost, and answers whether it was.
    pub fn open(&mut self, region: Region) -> bool
        ensures innermost { (outer : List Closing)
            → self.old.regions ≡ closing.Region region.0 ∷ outer → IsTrue result }
        ensures opened { MatchBool result (IsOpened region.0 self.old self.new)
            (self.new ≡ self.old) }
        ensures regions { self.new.regions ≡ without_region region.0 self.old.regions }
        ensures number { OnTrue result (region.0 < 2 ^ 64 - 1) }
    {
        match self.members.last() {
            Some(member) if member.is_region(region) => {}
            _ => return false,
        }
        self.members.pop();
        self.opened += 1;
        true
    }

    /// Closes a region again that was opened, as the innermost. Room for it was kept. None that was opened has
    /// the greatest number.
    pub fn reclose(&mut self, region: Region)
        requires opened { 0 < self.old.opened }
        requires number { region.0 < 2 ^ 64 - 1 }
        ensures { IsOpened region.0 self.new self.old }
    {
        self.members.push_reserved(Member::region(region));
        self.opened -= 1;
    }
}
