// How much of an input is read.
use crate::calls::status_of;
use crate::ports::{NONE, Ports};
use crate::texts::{READING, SUM};
use std::test::Fail;

// One byte more than an input may have.
const TOO_LONG: usize = 1_048_577;

#[test]
fn an_input_too_long(rt: HostRuntime) -> Result<(), Fail> {
    let alloc = rt.alloc();
    let blanks = vec![in alloc; b' '; TOO_LONG]?;
    let mut ports = Ports::new(alloc, READING, &blanks, &NONE)?;
    assert_eq!(rt; status_of(&rt, alloc, "run f", &mut ports)?, 9);
    assert!(rt; ports.took("", "input longer than 1048576 bytes\n"));
    let mut ports = Ports::new(alloc, SUM, &blanks, &NONE)?;
    assert_eq!(rt; status_of(&rt, alloc, "run f", &mut ports)?, 0);
    assert!(rt; ports.took("3", ""));
    Ok(())
}
