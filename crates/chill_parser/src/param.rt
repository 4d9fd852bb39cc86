// Readers of parameters (Z.200, chapters on program structure and on concurrent execution). `inner` is the number of
// levels of nesting that are left behind an opening token.
ghost use Rattle.std.specs.Prelude.{map};
ghost use Rattle.chill_tree.specs.ItemTree.{formal_tree, param_tree};
ghost use Rattle.expr_parser.specs.Giving.{Gives};
ghost use Rattle.rules_model.specs.ItemReading.{formal_at, param_at, within_at};
ghost use Rattle.rules_model.specs.Reading.{listed_at};

use crate::heading::read_passing;
use chill_base::List;
use chill_tree::tree::{Formal, Param};
use chill_tree::{Sign, Token};
use expr_parser::{Listed, ParseRefusal, read_list, read_names, read_sign, starts};
use mode_parser::read_mode;
use std::alloc::Global;

/// Reads the parameters of a procedure, and the parenthesis that closes them.
#[tactic(auto, unfolding(rules_model::specs::ItemReading::within_at))]
pub(crate) fn read_params(
    alloc: Global,
    tokens: &[Token],
    inner: usize,
) -> Result<(List<Param>, &[Token]), ParseRefusal>
    ensures { Gives (λ x. (map param_tree x.0, x.1.now)) result (within_at (param_at inner) tokens.now) }
{
    if starts(tokens, Sign::Close) {
        let (_, rest) = read_sign(tokens, Sign::Close)?;
        return Ok((List::new(alloc), rest));
    }
    let (params, rest) = listed_params(alloc, tokens, inner)?;
    let (_, rest) = read_sign(rest, Sign::Close)?;
    Ok((params, rest))
}

// Parameters of a procedure, by the levels that are left.
#[derive(Drop)]
struct Params {
    inner: usize,
}

impl Listed for Params {
    type Item = Param;

    ghost use Rattle.chill_tree.specs.ItemTree.{ParamTree};

    ghost Tree = { ParamTree };

    ghost tree = { param_tree };

    ghost reads = { λ s. param_at s.inner };
}

// Reads parameters with commas between them, at least one.
fn listed_params(
    alloc: Global,
    tokens: &[Token],
    inner: usize,
) -> Result<(List<Param>, &[Token]), ParseRefusal>
    ensures { Gives (λ x. (map param_tree x.0, x.1.now)) result (listed_at (param_at inner) tokens.now) }
{
    read_list(alloc, tokens, &Params { inner }, |item| {
        read_param(alloc, item, inner)
    })
}

// Reads parameters of a procedure that have one mode.
#[tactic(auto, unfolding(rules_model::specs::ItemReading::param_at))]
fn read_param(
    alloc: Global,
    tokens: &[Token],
    inner: usize,
) -> Result<(Param, &[Token]), ParseRefusal>
    ensures { Gives (λ x. (param_tree x.0, x.1.now)) result (param_at inner tokens.now) }
{
    let (names, rest) = read_names(alloc, tokens)?;
    let (mode, rest) = read_mode(alloc, rest, inner)?;
    let (passing, rest) = read_passing(rest)?;
    Ok((
        Param {
            names,
            mode,
            passing,
        },
        rest,
    ))
}

/// Reads the parameters of a process, and the parenthesis that closes them.
#[tactic(auto, unfolding(rules_model::specs::ItemReading::within_at))]
pub(crate) fn read_formals(
    alloc: Global,
    tokens: &[Token],
    inner: usize,
) -> Result<(List<Formal>, &[Token]), ParseRefusal>
    ensures { Gives (λ x. (map formal_tree x.0, x.1.now)) result (within_at (formal_at inner) tokens.now) }
{
    if starts(tokens, Sign::Close) {
        let (_, rest) = read_sign(tokens, Sign::Close)?;
        return Ok((List::new(alloc), rest));
    }
    let (formals, rest) = listed_formals(alloc, tokens, inner)?;
    let (_, rest) = read_sign(rest, Sign::Close)?;
    Ok((formals, rest))
}

// Parameters of a process, by the levels that are left.
#[derive(Drop)]
struct Formals {
    inner: usize,
}

impl Listed for Formals {
    type Item = Formal;

    ghost use Rattle.chill_tree.specs.ItemTree.{FormalTree};

    ghost Tree = { FormalTree };

    ghost tree = { formal_tree };

    ghost reads = { λ s. formal_at s.inner };
}

// Reads parameters with commas between them, at least one.
fn listed_formals(
    alloc: Global,
    tokens: &[Token],
    inner: usize,
) -> Result<(List<Formal>, &[Token]), ParseRefusal>
    ensures { Gives (λ x. (map formal_tree x.0, x.1.now)) result (listed_at (formal_at inner) tokens.now) }
{
    read_list(alloc, tokens, &Formals { inner }, |item| {
        read_formal(alloc, item, inner)
    })
}

// Reads parameters of a process that have one mode.
#[tactic(auto, unfolding(rules_model::specs::ItemReading::formal_at))]
fn read_formal(
    alloc: Global,
    tokens: &[Token],
    inner: usize,
) -> Result<(Formal, &[Token]), ParseRefusal>
    ensures { Gives (λ x. (formal_tree x.0, x.1.now)) result (formal_at inner tokens.now) }
{
    let (names, rest) = read_names(alloc, tokens)?;
    let (mode, rest) = read_mode(alloc, rest, inner)?;
    Ok((Formal { names, mode }, rest))
}
