//! One thing that closes a place.
ghost use Rattle.std.specs.Prelude.{◌≡◌, ◌<◌, ◌-◌, ◌^◌, option_map};
ghost use Rattle.std.specs.Bool.{Decides};
ghost use Rattle.fx_mask.specs.Closing as closing;
ghost use Rattle.fx_mask.specs.Closing.{region_in};
ghost use Rattle.fx_mask.specs.View.{closing_of};

use crate::masks::Region;

/// One thing that closes a place: a region or a seal. Many are held, so it is one number: that of the region, and
/// the greatest one, which no region has, for a seal.
#[derive(Clone, Copy, PartialEq, Eq, Debug)]
pub(crate) struct Member {
    number: u64,
}

impl Member {
    /// A seal.
    #[inline(always)]
    pub fn seal() -> Member
        ensures { closing_of result ≡ closing.Seal }
    {
        Member { number: u64::MAX }
    }

    /// A region.
    #[inline(always)]
    pub fn region(region: Region) -> Member
        requires { region.0 < 2 ^ 64 - 1 }
        ensures { closing_of result ≡ closing.Region region.0 }
    {
        Member { number: region.0 }
    }

    /// Whether it is that region.
    #[inline(always)]
    pub fn is_region(&self, region: Region) -> bool
        ensures { Decides result (closing_of self.now ≡ closing.Region region.0) }
    {
        self.number == region.0 && region.0 != u64::MAX
    }

    /// The region that it is, if it is one.
    pub fn as_region(&self) -> Option<Region>
        ensures { option_map (λ region. region.0) result ≡ region_in (closing_of self.now) }
    {
        if self.number == u64::MAX {
            return None;
        }
        Some(Region(self.number))
    }
}
