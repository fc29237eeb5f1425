//! The numbers of names that are bound one below the other.
use fx_term::{Arg, Registers};
use std::test::Fail;

#[test]
fn keeps_the_numbers_by_slot(rt: HostRuntime) -> Result<(), Fail> {
    let mut registers = Registers::new(rt.alloc());
    registers.bind(Some(0), 5)?;
    registers.bind(None, 6)?;
    registers.bind(Some(1), 7)?;
    assert_eq!(rt; registers.number_of(Arg::Slot(0)), 5);
    assert_eq!(rt; registers.number_of(Arg::Slot(1)), 7);
    assert_eq!(rt; registers.number_of(Arg::Number(8)), 8);
    registers.bind(Some(0), 9)?;
    assert_eq!(rt; registers.number_of(Arg::Slot(0)), 9);
    let copy = registers.copied(rt.alloc())?;
    registers.rebind(0, 4);
    assert_eq!(rt; registers.number_of(Arg::Slot(0)), 4);
    assert_eq!(rt; copy.number_of(Arg::Slot(0)), 9);
    Ok(())
}
