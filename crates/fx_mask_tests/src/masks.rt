//! Regions and seals, entered and left one after the other.
use fx_mask::{Masks, Region};
use std::test::Fail;

#[test]
fn regions_open_from_the_inside(rt: HostRuntime) -> Result<(), Fail> {
    let mut masks = Masks::new(rt.alloc());
    let entered = (masks.enter()?, masks.enter()?);
    assert_eq!(rt; entered, (Region(0), Region(1)));
    // a region, whether it opens, and whether nothing closes the place then
    for (region, answers) in [(0, (false, false)), (1, (true, false)), (0, (true, true))] {
        assert_eq!(rt; (masks.open(Region(region)), masks.is_open()), answers);
    }
    Ok(())
}

#[test]
fn regions_that_were_opened_are_closed_again(rt: HostRuntime) -> Result<(), Fail> {
    let mut masks = Masks::new(rt.alloc());
    let (outer, inner) = (masks.enter()?, masks.enter()?);
    masks.open(inner);
    masks.open(outer);
    masks.reclose(outer);
    masks.reclose(inner);
    masks.leave();
    masks.leave();
    assert!(rt; masks.is_open());
    Ok(())
}

#[test]
fn a_seal_closes(rt: HostRuntime) -> Result<(), Fail> {
    let mut masks = Masks::new(rt.alloc());
    masks.seal()?;
    assert!(rt; !masks.is_open());
    Ok(())
}
