// The names in expressions.
ghost use Rattle.std.specs.Prelude.{◌≡◌, ◌++◌, None, Some, OnOk, option_map};
ghost use Rattle.std.specs.Option.{option_copied};
ghost use Rattle.names_model.specs.declared.kind.Need.TheVariants as needs;
ghost use Rattle.chill_tree.specs.ExprTree.{expr_tree, boxed_expr, expr_trees, range_tree, range_trees};
ghost use Rattle.names_model.specs.ExprMentions.{used, tuple_mode, begun, callee_of, mentions_as, mentions_in_range, mentions_of, mentions_of_some, mentions_of_args, mentions_of_ranges};

use chill_base::{List, Memory};
use chill_tree::tree::{Expr, Name, ValueRange};
use names_model::{Identifier, Mention, Need};
use std::alloc::Global;

/// Adds a name of which something is needed.
pub(crate) fn add_used(
    alloc: Global,
    need: Need,
    name: &Name,
    out: &mut List<Mention>,
) -> Result<(), Memory>
    ensures { OnOk result (out.new ≡ out.old ++ used need name.now) }
{
    let name = Identifier::of(alloc, name)?;
    out.push(Mention::Use { name, need })
}

// Adds the name of a mode before a tuple.
fn add_tuple_mode(alloc: Global, mode: &Option<Name>, out: &mut List<Mention>) -> Result<(), Memory>
    ensures { OnOk result (out.new ≡ out.old ++ tuple_mode mode.now) }
{
    match mode {
        None => Ok(()),
        Some(name) => add_used(alloc, Need::Mode, name, out),
    }
}

// Adds a name that begins a value or a location.
fn add_begun(
    alloc: Global,
    callee: Option<&Name>,
    name: &Name,
    out: &mut List<Mention>,
) -> Result<(), Memory>
    ensures { OnOk result (out.new ≡ out.old ++ begun (option_copied callee.entry) name.now) }
{
    match callee {
        None => add_used(alloc, Need::Value, name, out),
        Some(routine) => add_argument(alloc, routine, name, out),
    }
}

// Adds a name that is the whole argument of what is called.
fn add_argument(
    alloc: Global,
    routine: &Name,
    name: &Name,
    out: &mut List<Mention>,
) -> Result<(), Memory>
    ensures { OnOk result (out.new ≡ out.old ++ begun (Some routine.now) name.now) }
{
    let name = Identifier::of(alloc, name)?;
    let routine = Identifier::of(alloc, routine)?;
    out.push(Mention::Argument { name, routine })
}

// What is called, where it is a name alone.
#[tactic(auto, using(chill_tree::proofs::ExprViews::expr_built))]
fn callee_name(of: &Expr) -> Option<&Name>
    ensures { option_copied result ≡ callee_of (expr_tree of.now) }
{
    match of {
        Expr::Name(name) => Some(name),
        Expr::Whole { .. }
        | Expr::Char { .. }
        | Expr::Text { .. }
        | Expr::This { .. }
        | Expr::Paren { .. }
        | Expr::Receive { .. }
        | Expr::Start { .. }
        | Expr::Tuple { .. }
        | Expr::Uniform { .. }
        | Expr::Apply { .. }
        | Expr::Field { .. }
        | Expr::Prefixed { .. }
        | Expr::Binary { .. } => None,
    }
}

/// Adds the names in an expression that stands by itself.
pub(crate) fn add_expr(alloc: Global, expr: &Expr, out: &mut List<Mention>) -> Result<(), Memory>
    ensures { OnOk result (out.new ≡ out.old ++ mentions_of (expr_tree expr.now)) }
{
    add_expr_as(alloc, None, expr, out)
}

/// Adds the names in two expressions.
pub(crate) fn add_exprs(
    alloc: Global,
    first: &Expr,
    second: &Expr,
    out: &mut List<Mention>,
) -> Result<(), Memory>
    ensures { OnOk result (out.new ≡ out.old ++ (mentions_of (expr_tree first.now) ++ mentions_of (expr_tree second.now))) }
{
    add_expr(alloc, first, out)?;
    add_expr(alloc, second, out)
}

/// Adds the names in an expression that may be written.
pub(crate) fn add_some_expr(
    alloc: Global,
    expr: &Option<Box<Expr>>,
    out: &mut List<Mention>,
) -> Result<(), Memory>
    ensures { OnOk result (out.new ≡ out.old ++ mentions_of_some (option_map boxed_expr expr.now)) }
{
    match expr {
        None => Ok(()),
        Some(expr) => add_expr(alloc, expr, out),
    }
}

// Adds the names in an expression, which is an argument of what is named or of nothing.
#[tactic(auto, using(crate::proofs::TreeViews::expr_views))]
#[cycle(expr)]
fn add_expr_as(
    alloc: Global,
    callee: Option<&Name>,
    expr: &Expr,
    out: &mut List<Mention>,
) -> Result<(), Memory>
    ensures { OnOk result (out.new ≡ out.old ++ mentions_as (option_copied callee.entry) (expr_tree expr.now)) }
{
    match expr {
        Expr::Whole { .. } | Expr::Char { .. } | Expr::Text { .. } | Expr::This { .. } => Ok(()),
        Expr::Paren { inner, .. } => add_expr_as(alloc, None, inner, out),
        Expr::Receive { buffer, .. } => add_used(alloc, Need::Location, buffer, out),
        Expr::Start { process, args, .. } => add_start(alloc, process, args.as_slice(), out),
        Expr::Tuple { mode, parts, .. } => add_tuple(alloc, mode, parts.as_slice(), out),
        Expr::Uniform { mode, value, .. } => add_uniform(alloc, mode, value, out),
        Expr::Name(name) => add_begun(alloc, callee, name, out),
        Expr::Apply { of, args, .. } => {
            add_expr_as(alloc, None, of, out)?;
            add_args(alloc, callee_name(of), args.as_slice(), out)
        }
        Expr::Field { of, .. } => add_expr_as(alloc, None, of, out),
        Expr::Prefixed { operand, .. } => add_expr_as(alloc, None, operand, out),
        Expr::Binary { left, right, .. } => {
            add_expr_as(alloc, None, left, out)?;
            add_expr_as(alloc, None, right, out)
        }
    }
}

// Adds the names in a process that is started.
#[cycle(expr)]
fn add_start(
    alloc: Global,
    process: &Name,
    args: &[Expr],
    out: &mut List<Mention>,
) -> Result<(), Memory>
    ensures { OnOk result (out.new ≡ out.old ++ (used needs.Process process.now ++ mentions_of_args None (expr_trees args.now))) }
{
    add_used(alloc, Need::Process, process, out)?;
    add_args(alloc, None, args, out)
}

// Adds the names in a tuple of parts.
#[cycle(expr)]
fn add_tuple(
    alloc: Global,
    mode: &Option<Name>,
    parts: &[ValueRange],
    out: &mut List<Mention>,
) -> Result<(), Memory>
    ensures { OnOk result (out.new ≡ out.old ++ (tuple_mode mode.now ++ mentions_of_ranges (range_trees parts.now))) }
{
    add_tuple_mode(alloc, mode, out)?;
    add_ranges(alloc, parts, out)
}

// Adds the names in a tuple whose elements all have one value.
#[cycle(expr)]
fn add_uniform(
    alloc: Global,
    mode: &Option<Name>,
    value: &Expr,
    out: &mut List<Mention>,
) -> Result<(), Memory>
    ensures { OnOk result (out.new ≡ out.old ++ (tuple_mode mode.now ++ mentions_of (expr_tree value.now))) }
{
    add_tuple_mode(alloc, mode, out)?;
    add_expr_as(alloc, None, value, out)
}

/// Adds the names in the arguments of what is named or of nothing.
#[cycle(expr)]
pub(crate) fn add_args(
    alloc: Global,
    callee: Option<&Name>,
    args: &[Expr],
    out: &mut List<Mention>,
) -> Result<(), Memory>
    ensures { OnOk result (out.new ≡ out.old ++ mentions_of_args (option_copied callee.entry) (expr_trees args.now)) }
{
    for arg in args {
        add_expr_as(alloc, callee, arg, out)?;
    }
    Ok(())
}

/// Adds the names in labels.
#[cycle(expr)]
pub(crate) fn add_ranges(
    alloc: Global,
    ranges: &[ValueRange],
    out: &mut List<Mention>,
) -> Result<(), Memory>
    ensures { OnOk result (out.new ≡ out.old ++ mentions_of_ranges (range_trees ranges.now)) }
{
    for range in ranges {
        add_range(alloc, range, out)?;
    }
    Ok(())
}

// Adds the names in a range.
#[cycle(expr)]
#[tactic(auto, using(crate::proofs::TreeViews::expr_views))]
fn add_range(alloc: Global, range: &ValueRange, out: &mut List<Mention>) -> Result<(), Memory>
    ensures { OnOk result (out.new ≡ out.old ++ mentions_in_range (range_tree range.now)) }
{
    add_expr_as(alloc, None, &range.first, out)?;
    if let Some(last) = &range.last {
        add_expr_as(alloc, None, last, out)?;
    }
    Ok(())
}
