// What a call writes goes by the order in which a gate lets its workers commit.
use crate::calls::call;
use crate::ports::{NONE, Ports};
use chill_base::Memory;
use held_passes::Behind;
use std::alloc::Global;
use std::sync::Wait;
use std::test::Fail;
use std::thread::Threads;

const NUMBERED: &str =
    "M: MODULE p: PROCESS (k INT); PUT_INT(k); END p; START p(2); START p(3); END M;";

// Whether this is written where one instance is held behind another.
fn writes<R: Threads + Wait + Sync>(
    rt: &R,
    alloc: Global,
    gate: &Behind,
    output: &str,
) -> Result<bool, Memory> {
    let mut ports = Ports::new(alloc, NUMBERED, b"", &NONE)?;
    let mut watchers = Vec::new(alloc);
    let answered = call(
        rt,
        alloc,
        "run f --workers 2",
        &mut ports,
        gate,
        &mut watchers,
    )?;
    Ok(answered.status == 0 && ports.took(output, ""))
}

// With one thread for all, or with a run that isn't the workers', both outputs would be equal.
#[test]
fn order_by_gate(rt: HostRuntime) -> Result<(), Fail> {
    let alloc = rt.alloc();
    let gate = Behind::new(2, 3);
    assert!(rt; writes(&rt, alloc, &gate, "32")?);
    assert!(rt; !gate.has_given_up());
    let gate = Behind::new(3, 2);
    assert!(rt; writes(&rt, alloc, &gate, "23")?);
    assert!(rt; !gate.has_given_up());
    Ok(())
}
