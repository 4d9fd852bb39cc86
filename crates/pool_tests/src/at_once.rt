// Two processes run at once.
use crate::texts::{UNITS, driven};
use held_passes::Meeting;
use std::test::Fail;

const TWO: &str = "M: MODULE p: PROCESS (); END p; START p(); START p(); END M;";

#[test]
fn two_at_once(rt: HostRuntime) -> Result<(), Fail> {
    let gate = Meeting::new();
    let driven = driven(&rt, rt.alloc(), TWO.as_bytes(), UNITS, 2, &gate);
    assert!(rt; gate.has_met());
    assert!(rt; driven.is_some());
    Ok(())
}
