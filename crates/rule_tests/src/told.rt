// What is told of short texts, each of which breaks rules of one phase.
use chill_base::Pos;
use chill_lexer::lex;
use chill_parser::parse;
use diagnostics::{Diagnostics, Rule};
use mode_rules::{evaluate, told_of_modes};
use process_checks::check_processes;
use static_checks::check_statements;
use std::alloc::Global;
use std::test::Fail;
use visibility::{Refusal, resolve};

// How long a text may be.
const LONGEST: usize = 2000;

// All that is told of a text's modes and constants, or none where it isn't read or a name isn't resolved.
fn of_modes(alloc: Global, text: &[u8]) -> Option<Diagnostics> {
    if text.len() > LONGEST {
        return None;
    }
    let tokens = lex(alloc, text).ok()?;
    let tree = parse(alloc, tokens.as_slice()).ok()?;
    let names = resolve(alloc, &tree).ok()?;
    told_of_modes(alloc, &tree, &names).ok()
}

// All that is told of a text's statements, or none where it isn't read or a name isn't resolved.
fn of_statements(alloc: Global, text: &[u8]) -> Option<Diagnostics> {
    if text.len() > LONGEST {
        return None;
    }
    let tokens = lex(alloc, text).ok()?;
    let tree = parse(alloc, tokens.as_slice()).ok()?;
    let names = resolve(alloc, &tree).ok()?;
    let mut evaluation = evaluate(alloc, &tree, &names).ok()?;
    match check_statements(&mut evaluation, &tree) {
        Ok(()) => Some(Diagnostics::new(alloc)),
        Err(Refusal::Broken(list)) => Some(list),
        Err(Refusal::Memory) => None,
    }
}

// All that is told of a text's processes, or none where another rule is broken.
fn of_processes(alloc: Global, text: &[u8]) -> Option<Diagnostics> {
    if text.len() > LONGEST {
        return None;
    }
    let tokens = lex(alloc, text).ok()?;
    let tree = parse(alloc, tokens.as_slice()).ok()?;
    let names = resolve(alloc, &tree).ok()?;
    let mut evaluation = evaluate(alloc, &tree, &names).ok()?;
    if check_statements(&mut evaluation, &tree).is_err() {
        return None;
    }
    match check_processes(&evaluation, &tree) {
        Ok(()) => Some(Diagnostics::new(alloc)),
        Err(Refusal::Broken(list)) => Some(list),
        Err(Refusal::Memory) => None,
    }
}

// Whether one rule is told, at a column of the first line.
fn is_told(list: Option<Diagnostics>, rule: Rule, column: u32) -> bool {
    let Some(list) = list else {
        return false;
    };
    match list.as_slice() {
        [only] => only.rule == rule && only.at == (Pos { line: 1, column }),
        _ => false,
    }
}

#[test]
fn a_bound_above_the_other(rt: HostRuntime) -> Result<(), Fail> {
    let told = of_modes(rt.alloc(), b"M: MODULE DCL x INT (5:3); END M;");
    assert!(rt; is_told(told, Rule::M2, 22));
    Ok(())
}

#[test]
fn a_value_of_another_mode(rt: HostRuntime) -> Result<(), Fail> {
    let told = of_statements(rt.alloc(), b"M: MODULE DCL x INT; x := TRUE; END M;");
    assert!(rt; is_told(told, Rule::S2, 27));
    Ok(())
}

#[test]
fn a_process_in_a_region(rt: HostRuntime) -> Result<(), Fail> {
    let told = of_processes(rt.alloc(), b"R: REGION p: PROCESS (); END p; END R;");
    assert!(rt; is_told(told, Rule::P1, 11));
    Ok(())
}
