// Readers of procedures and processes (Z.200, chapters on program structure and on concurrent execution). `inner` is
// the number of levels of nesting that are left behind an opening token.
ghost use Rattle.std.specs.Prelude.{map, option_map};
ghost use Rattle.chill_tree.specs.ItemTree.{boxed_procedure, boxed_process, param_tree};
ghost use Rattle.chill_tree.specs.ModeTree.{mode_tree};
ghost use Rattle.chill_tree.specs.StatementTree.{body_trees, boxed_handler};
ghost use Rattle.chill_tree.specs.declared.token.Word.TheVariants as words;
ghost use Rattle.chill_parser.specs.Tails.{block_end_at, procedure_block_at};
ghost use Rattle.expr_parser.specs.Giving.{Gives};
ghost use Rattle.rules_model.specs.ItemReading.{block_at, exceptions_at, procedure_at, procedure_rest_at, process_at, process_rest_at, result_at};
ghost use Rattle.rules_model.specs.SimpleReading.{clause_at};

use crate::param::{read_formals, read_params};
use chill_base::{List, Pos};
use chill_tree::tree::{BodyPart, Handler, Mode, Name, Param, Procedure, Process};
use chill_tree::{Sign, Token, Word};
use expr_parser::{
    ParseRefusal, boxed, less, read_name, read_names, read_sign, read_word, starts_with,
};
use mode_parser::read_mode;
use statement_parser::{read_body, read_closing, read_handler};
use std::alloc::Global;

/// Reads a procedure.
#[tactic(auto, unfolding(rules_model::specs::ItemReading::procedure_at))]
pub(crate) fn read_procedure(
    alloc: Global,
    tokens: &[Token],
    inner: usize,
) -> Result<(Box<Procedure>, &[Token]), ParseRefusal>
    ensures { Gives (λ x. (boxed_procedure x.0, x.1.now)) result (procedure_at inner tokens.now) }
{
    let (name, rest) = read_name(tokens)?;
    let (_, rest) = read_sign(rest, Sign::Colon)?;
    let (at, rest) = read_word(rest, Word::Proc)?;
    let (_, rest) = read_sign(rest, Sign::Open)?;
    procedure_rest(alloc, name, rest, inner, at)
}

// Reads a procedure from behind its opening parenthesis on.
#[tactic(auto, unfolding(rules_model::specs::ItemReading::procedure_rest_at))]
fn procedure_rest(
    alloc: Global,
    name: Name,
    tokens: &[Token],
    inner: usize,
    opened: Pos,
) -> Result<(Box<Procedure>, &[Token]), ParseRefusal>
    ensures { Gives (λ x. (boxed_procedure x.0, x.1.now)) result (procedure_rest_at inner name opened tokens.now) }
{
    let (params, rest) = read_params(alloc, tokens, less(less(inner)))?;
    let (returns, rest) = read_returns(alloc, rest, less(inner))?;
    let (exceptions, rest) = read_exceptions(alloc, rest)?;
    let head = Head {
        name,
        params,
        returns,
        exceptions,
    };
    procedure_block(alloc, head, rest, inner, opened)
}

// What stands before the body of a procedure.
#[derive(Drop)]
struct Head {
    name: Name,
    params: List<Param>,
    returns: Option<Mode>,
    exceptions: Option<List<Name>>,
}

// Reads the semicolon behind a procedure's head, and its block.
fn procedure_block(
    alloc: Global,
    head: Head,
    tokens: &[Token],
    inner: usize,
    opened: Pos,
) -> Result<(Box<Procedure>, &[Token]), ParseRefusal>
    ensures { Gives (λ x. (boxed_procedure x.0, x.1.now)) result (procedure_block_at inner head.name opened (map param_tree head.params) (option_map mode_tree head.returns) head.exceptions tokens.now) }
{
    let (_, rest) = read_sign(tokens, Sign::Semicolon)?;
    let (block, rest) = read_block(alloc, &head.name, rest, inner, opened)?;
    let procedure = Procedure {
        name: head.name,
        params: head.params,
        returns: head.returns,
        exceptions: head.exceptions,
        body: block.body,
        handler: block.handler,
        closing: block.closing,
    };
    Ok((boxed(alloc, procedure)?, rest))
}

/// Reads a process.
#[tactic(auto, unfolding(rules_model::specs::ItemReading::process_at))]
pub(crate) fn read_process(
    alloc: Global,
    tokens: &[Token],
    inner: usize,
) -> Result<(Box<Process>, &[Token]), ParseRefusal>
    ensures { Gives (λ x. (boxed_process x.0, x.1.now)) result (process_at inner tokens.now) }
{
    let (name, rest) = read_name(tokens)?;
    let (_, rest) = read_sign(rest, Sign::Colon)?;
    let (at, rest) = read_word(rest, Word::Process)?;
    let (_, rest) = read_sign(rest, Sign::Open)?;
    process_rest(alloc, name, rest, inner, at)
}

// Reads a process from behind its opening parenthesis on.
#[tactic(auto, unfolding(rules_model::specs::ItemReading::process_rest_at))]
fn process_rest(
    alloc: Global,
    name: Name,
    tokens: &[Token],
    inner: usize,
    opened: Pos,
) -> Result<(Box<Process>, &[Token]), ParseRefusal>
    ensures { Gives (λ x. (boxed_process x.0, x.1.now)) result (process_rest_at inner name opened tokens.now) }
{
    let (formals, rest) = read_formals(alloc, tokens, less(less(inner)))?;
    let (_, rest) = read_sign(rest, Sign::Semicolon)?;
    let (block, rest) = read_block(alloc, &name, rest, inner, opened)?;
    let process = Process {
        name,
        formals,
        body: block.body,
        handler: block.handler,
        closing: block.closing,
    };
    Ok((boxed(alloc, process)?, rest))
}

// A body, its handler and the name at its end.
#[derive(Drop)]
struct Block {
    body: List<BodyPart>,
    handler: Option<Box<Handler>>,
    closing: Option<Name>,
}

// Reads a block of this name, behind an opening token at the place `opened`.
#[tactic(auto, unfolding(rules_model::specs::ItemReading::block_at))]
fn read_block<'a>(
    alloc: Global,
    name: &Name,
    tokens: &'a [Token],
    inner: usize,
    opened: Pos,
) -> Result<(Block, &'a [Token]), ParseRefusal>
    ensures { Gives (λ x. ((body_trees x.0.body, option_map boxed_handler x.0.handler, x.0.closing), x.1.now)) result (block_at inner name.now opened tokens.now) }
{
    let (body, rest) = read_body(alloc, tokens, inner, opened)?;
    let (_, rest) = read_word(rest, Word::End)?;
    block_end(alloc, name, body, rest, inner)
}

// Reads what stands behind the END of a block.
fn block_end<'a>(
    alloc: Global,
    name: &Name,
    body: List<BodyPart>,
    tokens: &'a [Token],
    inner: usize,
) -> Result<(Block, &'a [Token]), ParseRefusal>
    ensures { Gives (λ x. ((body_trees x.0.body, option_map boxed_handler x.0.handler, x.0.closing), x.1.now)) result (block_end_at inner name.now (body_trees body) tokens.now) }
{
    let (handler, rest) = read_handler(alloc, tokens, inner)?;
    let (closing, rest) = read_closing(rest, Some(name))?;
    let (_, rest) = read_sign(rest, Sign::Semicolon)?;
    Ok((
        Block {
            body,
            handler,
            closing,
        },
        rest,
    ))
}

// Reads the mode of a procedure's result, where it has one.
#[tactic(auto, unfolding(rules_model::specs::SimpleReading::clause_at))]
fn read_returns(
    alloc: Global,
    tokens: &[Token],
    inner: usize,
) -> Result<(Option<Mode>, &[Token]), ParseRefusal>
    ensures { Gives (λ x. (option_map mode_tree x.0, x.1.now)) result (clause_at words.Returns (result_at inner) tokens.now) }
{
    if !starts_with(tokens, Word::Returns) {
        return Ok((None, tokens));
    }
    let (_, rest) = read_word(tokens, Word::Returns)?;
    let (mode, rest) = read_result(alloc, rest, inner)?;
    Ok((Some(mode), rest))
}

// Reads a mode in parentheses.
#[tactic(auto, unfolding(rules_model::specs::ItemReading::result_at))]
fn read_result(
    alloc: Global,
    tokens: &[Token],
    inner: usize,
) -> Result<(Mode, &[Token]), ParseRefusal>
    ensures { Gives (λ x. (mode_tree x.0, x.1.now)) result (result_at inner tokens.now) }
{
    let (_, rest) = read_sign(tokens, Sign::Open)?;
    let (mode, rest) = read_mode(alloc, rest, less(inner))?;
    let (_, rest) = read_sign(rest, Sign::Close)?;
    Ok((mode, rest))
}

// Reads the exceptions that a procedure may cause, where they are written.
#[tactic(auto, unfolding(rules_model::specs::SimpleReading::clause_at))]
fn read_exceptions(
    alloc: Global,
    tokens: &[Token],
) -> Result<(Option<List<Name>>, &[Token]), ParseRefusal>
    ensures { Gives (λ x. (x.0, x.1.now)) result (clause_at words.Exceptions exceptions_at tokens.now) }
{
    if !starts_with(tokens, Word::Exceptions) {
        return Ok((None, tokens));
    }
    let (_, rest) = read_word(tokens, Word::Exceptions)?;
    let (names, rest) = names_within(alloc, rest)?;
    Ok((Some(names), rest))
}

// Reads names in parentheses.
#[tactic(auto, unfolding(rules_model::specs::ItemReading::exceptions_at))]
fn names_within(alloc: Global, tokens: &[Token]) -> Result<(List<Name>, &[Token]), ParseRefusal>
    ensures { Gives (λ x. (x.0, x.1.now)) result (exceptions_at tokens.now) }
{
    let (_, rest) = read_sign(tokens, Sign::Open)?;
    let (names, rest) = read_names(alloc, rest)?;
    let (_, rest) = read_sign(rest, Sign::Close)?;
    Ok((names, rest))
}
