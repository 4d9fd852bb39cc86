// What is told in expressions and in modes.
ghost use Rattle.std.specs.Prelude.{◌≡◌, ◌++◌, OnOk, map, flat_map, option_map};
ghost use Rattle.chill_tree.specs.ExprTree.{expr_tree, expr_trees, boxed_expr, range_tree, range_trees};
ghost use Rattle.chill_tree.specs.ModeTree as written;
ghost use Rattle.checks_model.specs.ConstantRules.{told_of_constants, told_of_some_constants, told_needed, told_some_needed};
ghost use Rattle.checks_model.specs.WrittenModes.{told_of_mode, told_of_some_mode};
ghost use Rattle.constant_operators.specs.Grounds.{ground_of};
ghost use Rattle.written_modes.specs.Wholes.{is_whole};
ghost use Rattle.mode_rules.specs.Ready.{IsReady};
ghost use Rattle.mode_rules.specs.Walk.{over_all, over_some_all, over_label, over_labels};

use chill_base::{List, Memory};
use chill_tree::tree::{Expr, Mode, ValueRange};
use constant_operators::Evaluation;
use constant_rules::{known, needed};
use definition_origins::Told;
use written_modes::{Standing, written_mode};

/// What is told in an expression.
pub fn tell_in(ground: &Evaluation<'_>, expr: &Expr, told: &mut Told) -> Result<(), Memory>
    ensures { IsReady ground.now → OnOk result (told.new ≡ told.old ++ told_of_constants (ground_of ground.now) (expr_tree expr.now)) }
{
    let _known = known(ground, expr, told)?;
    Ok(())
}

/// What is told in an expression that may be written.
pub fn tell_in_some(
    ground: &Evaluation<'_>,
    expr: &Option<Box<Expr>>,
    told: &mut Told,
) -> Result<(), Memory>
    ensures { IsReady ground.now → OnOk result (told.new ≡ told.old ++ told_of_some_constants (ground_of ground.now) (option_map boxed_expr expr.now)) }
{
    match expr {
        None => Ok(()),
        Some(expr) => tell_in(ground, expr, told),
    }
}

/// What is told in expressions.
pub fn tell_in_all(ground: &Evaluation<'_>, exprs: &[Expr], told: &mut Told) -> Result<(), Memory>
    ensures { IsReady ground.now → OnOk result (told.new ≡ told.old ++ over_all (ground_of ground.now) (expr_trees exprs.now)) }
{
    for expr in exprs {
        tell_in(ground, expr, told)?;
    }
    Ok(())
}

/// What is told in expressions that may be written.
pub fn tell_in_some_all(
    ground: &Evaluation<'_>,
    exprs: &Option<List<Expr>>,
    told: &mut Told,
) -> Result<(), Memory>
    ensures { IsReady ground.now → OnOk result (told.new ≡ told.old ++ over_some_all (ground_of ground.now) (option_map expr_trees exprs.now)) }
{
    match exprs {
        None => Ok(()),
        Some(exprs) => tell_in_all(ground, exprs.as_slice(), told),
    }
}

// What is told where a constant is needed.
fn tell_needed(ground: &Evaluation<'_>, expr: &Expr, told: &mut Told) -> Result<(), Memory>
    ensures { IsReady ground.now → OnOk result (told.new ≡ told.old ++ told_needed (ground_of ground.now) (expr_tree expr.now)) }
{
    let _known = needed(ground, expr, told)?;
    Ok(())
}

/// What is told where a constant that may be written is needed.
pub fn tell_some_needed(
    ground: &Evaluation<'_>,
    expr: &Option<Box<Expr>>,
    told: &mut Told,
) -> Result<(), Memory>
    ensures { IsReady ground.now → OnOk result (told.new ≡ told.old ++ told_some_needed (ground_of ground.now) (option_map boxed_expr expr.now)) }
{
    match expr {
        None => Ok(()),
        Some(expr) => tell_needed(ground, expr, told),
    }
}

// What is told in a label of a CASE.
#[tactic(auto, using(crate::proofs::BodyViews::range_views))]
fn tell_in_label(ground: &Evaluation<'_>, label: &ValueRange, told: &mut Told) -> Result<(), Memory>
    ensures { IsReady ground.now → OnOk result (told.new ≡ told.old ++ over_label (ground_of ground.now) (range_tree label.now)) }
{
    tell_needed(ground, &label.first, told)?;
    match &label.last {
        None => Ok(()),
        Some(last) => tell_needed(ground, last, told),
    }
}

/// What is told in labels of a CASE.
pub fn tell_in_labels(
    ground: &Evaluation<'_>,
    labels: &[ValueRange],
    told: &mut Told,
) -> Result<(), Memory>
    ensures { IsReady ground.now → OnOk result (told.new ≡ told.old ++ over_labels (ground_of ground.now) (range_trees labels.now)) }
{
    for label in labels {
        tell_in_label(ground, label, told)?;
    }
    Ok(())
}

/// What is told in a mode that stands somewhere.
pub fn tell_in_mode(
    ground: &Evaluation<'_>,
    mode: &Mode,
    standing: Standing,
    told: &mut Told,
) -> Result<(), Memory>
    ensures { IsReady ground.now → OnOk result (told.new ≡ told.old ++ told_of_mode (ground_of ground.now) (is_whole standing) (written.mode_tree mode.now)) }
{
    let _mode = written_mode(ground, mode, standing, told)?;
    Ok(())
}

/// What is told in a mode that may be written.
pub fn tell_in_some_mode(
    ground: &Evaluation<'_>,
    mode: &Option<Mode>,
    told: &mut Told,
) -> Result<(), Memory>
    ensures { IsReady ground.now → OnOk result (told.new ≡ told.old ++ told_of_some_mode (ground_of ground.now) (option_map written.mode_tree mode.now)) }
{
    match mode {
        None => Ok(()),
        Some(mode) => tell_in_mode(ground, mode, Standing::Part, told),
    }
}
