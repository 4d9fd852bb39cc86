// Readers of what controls a loop (Z.200, DO action).
ghost use Rattle.std.specs.Prelude.{option_map};
ghost use Rattle.chill_tree.specs.ExprTree.{boxed_expr};
ghost use Rattle.chill_tree.specs.SimpleTree.{control_tree};
ghost use Rattle.expr_parser.specs.Giving.{Gives};
ghost use Rattle.rules_model.specs.SimpleReading.{members_at, steps_at, for_at, control_at};
ghost use Rattle.statement_parser.specs.Tails.{steps_end_at};

use crate::clause::{flag, value_clause};
use chill_base::Pos;
use chill_tree::tree::{Control, Expr, Name};
use chill_tree::{Sign, Token, Word};
use expr_parser::{ParseRefusal, read_name, read_sign, read_value, read_word, starts_with};
use std::alloc::Global;

/// Reads what controls a loop; `inner` levels of nesting are left behind an opening token.
#[tactic(auto, unfolding(rules_model::specs::SimpleReading::control_at))]
pub fn read_control(
    alloc: Global,
    tokens: &[Token],
    inner: usize,
) -> Result<(Control, &[Token]), ParseRefusal>
    ensures { Gives (λ x. (control_tree x.0, x.1.now)) result (control_at inner tokens.now) }
{
    if starts_with(tokens, Word::While) {
        let (at, rest) = read_word(tokens, Word::While)?;
        let (condition, rest) = read_value(alloc, rest, inner)?;
        return Ok((Control::While { at, condition }, rest));
    }
    let (at, rest) = read_word(tokens, Word::For)?;
    counted(alloc, at, rest, inner)
}

// Reads what stands behind FOR.
#[tactic(auto, unfolding(rules_model::specs::SimpleReading::for_at))]
fn counted(
    alloc: Global,
    at: Pos,
    tokens: &[Token],
    inner: usize,
) -> Result<(Control, &[Token]), ParseRefusal>
    ensures { Gives (λ x. (control_tree x.0, x.1.now)) result (for_at inner at tokens.now) }
{
    if starts_with(tokens, Word::Ever) {
        let (_, rest) = read_word(tokens, Word::Ever)?;
        return Ok((Control::Forever { at }, rest));
    }
    let (counter, rest) = read_name(tokens)?;
    if starts_with(rest, Word::In) {
        return members(alloc, at, counter, rest, inner);
    }
    steps(alloc, at, counter, rest, inner)
}

// Reads the powerset whose members are counted.
#[tactic(auto, unfolding(rules_model::specs::SimpleReading::members_at))]
fn members(
    alloc: Global,
    at: Pos,
    counter: Name,
    tokens: &[Token],
    inner: usize,
) -> Result<(Control, &[Token]), ParseRefusal>
    ensures { Gives (λ x. (control_tree x.0, x.1.now)) result (members_at inner at counter tokens.now) }
{
    let (_, rest) = read_word(tokens, Word::In)?;
    let (set, rest) = read_value(alloc, rest, inner)?;
    let (condition, rest) = value_clause(alloc, rest, Word::While, inner)?;
    let control = Control::Members {
        at,
        counter,
        set,
        condition,
    };
    Ok((control, rest))
}

// Reads the start, the step and the direction of a loop by steps, and what comes behind.
#[tactic(auto, unfolding(rules_model::specs::SimpleReading::steps_at, crate::specs::Tails::steps_end_at))]
fn steps(
    alloc: Global,
    at: Pos,
    counter: Name,
    tokens: &[Token],
    inner: usize,
) -> Result<(Control, &[Token]), ParseRefusal>
    ensures { Gives (λ x. (control_tree x.0, x.1.now)) result (steps_at inner at counter tokens.now) }
{
    let (_, rest) = read_sign(tokens, Sign::Becomes)?;
    let (start, rest) = read_value(alloc, rest, inner)?;
    let (step, rest) = value_clause(alloc, rest, Word::By, inner)?;
    let (down, rest) = flag(rest, Word::Down)?;
    let begun = Begun {
        at,
        counter,
        start,
        step,
        down,
    };
    steps_end(alloc, begun, rest, inner)
}

// A loop by steps up to its TO.
#[derive(Drop)]
struct Begun {
    at: Pos,
    counter: Name,
    start: Box<Expr>,
    step: Option<Box<Expr>>,
    down: bool,
}

// Reads a loop by steps from its TO on.
#[tactic(auto, unfolding(crate::specs::Tails::steps_end_at))]
fn steps_end(
    alloc: Global,
    begun: Begun,
    tokens: &[Token],
    inner: usize,
) -> Result<(Control, &[Token]), ParseRefusal>
    ensures { Gives (λ x. (control_tree x.0, x.1.now)) result (steps_end_at inner begun.at begun.counter (boxed_expr begun.start) (option_map boxed_expr begun.step) begun.down tokens.now) }
{
    let (_, rest) = read_word(tokens, Word::To)?;
    let (end, rest) = read_value(alloc, rest, inner)?;
    let (condition, rest) = value_clause(alloc, rest, Word::While, inner)?;
    let Begun {
        at,
        counter,
        start,
        step,
        down,
    } = begun;
    let control = Control::Steps {
        at,
        counter,
        start,
        step,
        down,
        end,
        condition,
    };
    Ok((control, rest))
}
