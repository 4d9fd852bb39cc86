// What is no whole run isn't gathered.
ghost use Rattle.worker_pool.specs.Pools.{IsPool};

use crate::texts::{UNITS, built, facts, pool};
use code_guard::Guarded;
use outside_ports::OpenGate;
use std::test::Fail;
use worker_pool::{Pool, gather};

const TWO: &str = "M: MODULE p: PROCESS (); END p; START p(); START p(); END M;";

// The pool without its last log.
fn without_last(_code: &Guarded, pool: Pool) -> Pool
    requires { IsPool _code.now pool }
    ensures { IsPool _code.now result }
{
    let mut pool = pool;
    let _last = pool.workers.pop();
    pool
}

#[test]
fn other_units_are_not_gathered(rt: HostRuntime) -> Result<(), Fail> {
    let alloc = rt.alloc();
    let built = built(alloc, TWO.as_bytes()).expect(&rt, "a program");
    let made_from = facts(alloc, &built, UNITS).expect(&rt, "facts");
    let others = facts(alloc, &built, UNITS - 1).expect(&rt, "facts");
    let pool = pool(&rt, alloc, &built.code, &made_from, 2, &OpenGate).expect(&rt, "a pool");
    let driven = gather(&built.code, &others, pool)
        .ok()
        .expect(&rt, "memory");
    assert!(rt; driven.is_none());
    Ok(())
}

// How many logs there are.
fn count_of(pool: &Pool) -> usize {
    pool.workers.len()
}

#[test]
fn a_pool_without_a_log_is_not_gathered(rt: HostRuntime) -> Result<(), Fail> {
    let alloc = rt.alloc();
    let built = built(alloc, TWO.as_bytes()).expect(&rt, "a program");
    let facts = facts(alloc, &built, UNITS).expect(&rt, "facts");
    let pool = pool(&rt, alloc, &built.code, &facts, 2, &OpenGate).expect(&rt, "a pool");
    assert_eq!(rt; count_of(&pool), 3);
    let pool = without_last(&built.code, pool);
    let driven = gather(&built.code, &facts, pool).ok().expect(&rt, "memory");
    assert!(rt; driven.is_none());
    Ok(())
}
