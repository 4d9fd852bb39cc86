// A code that is accepted, and one that comes back.
use crate::tables::{Body, Shape, code_of};
use chill_base::List;
use code_guard::{GuardRefusal, guard};
use code_types::Instr::Finish;
use std::alloc::Global;
use std::process::Abort;
use std::test::Fail;

/// The outermost process, with four locals.
pub const OUTERMOST: Body = Body {
    first: 0,
    params: 0,
    locals: 4,
    results: 0,
    height: 16,
    listed: &[],
};

/// Whether the code is guarded.
fn is_guarded(alloc: Global, shape: &Shape) -> Result<bool, Fail> {
    match guard(alloc, code_of(alloc, shape)?) {
        Ok(_) => Ok(true),
        Err(GuardRefusal::Disagrees(_)) => Ok(false),
        Err(GuardRefusal::Memory) => Err(Fail::from("no memory")),
    }
}

#[test]
fn a_code_without_bodies_comes_back(rt: HostRuntime) -> Result<(), Fail> {
    assert!(rt; !is_guarded(rt.alloc(), &Shape(&[Finish], &[], &[]))?);
    assert!(rt; is_guarded(rt.alloc(), &Shape(&[Finish], &[], &[OUTERMOST]))?);
    Ok(())
}
