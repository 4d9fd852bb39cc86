// The elaborated program of a text that breaks no rule.
use chill_lexer::lex;
use chill_parser::parse;
use elaborate::{Program, elaborate};
use process_checks::check_processes;
use static_checks::{check_statements, evaluate};
use std::alloc::Global;
use visibility::resolve;

// How long a text may be.
const LONGEST: usize = 262_144;

/// The elaborated program of a text, or what stopped it.
pub fn elaborated(alloc: Global, text: &[u8]) -> Result<Program, &'static str> {
    if text.len() > LONGEST {
        return Err("it is too long");
    }
    let Ok(tokens) = lex(alloc, text) else {
        return Err("a byte begins no token");
    };
    let Ok(tree) = parse(alloc, tokens.as_slice()) else {
        return Err("it is no program");
    };
    let Ok(names) = resolve(alloc, &tree) else {
        return Err("it breaks a rule on names");
    };
    let Ok(mut evaluation) = evaluate(alloc, &tree, &names) else {
        return Err("there is no memory");
    };
    if check_statements(&mut evaluation, &tree).is_err() {
        return Err("it breaks a rule on modes or statements");
    }
    if check_processes(&evaluation, &tree).is_err() {
        return Err("it breaks a rule on processes");
    }
    match elaborate(&evaluation, &tree) {
        Ok(program) => Ok(program),
        Err(_) => Err("it isn't elaborated"),
    }
}
