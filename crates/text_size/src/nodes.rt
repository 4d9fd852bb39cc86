// How many nodes expressions have.
ghost use Rattle.std.specs.Prelude.{◌≡◌, option_map};
ghost use Rattle.chill_tree.specs.ExprTree.{expr_tree, boxed_expr, expr_trees, range_tree, range_trees};
ghost use Rattle.text_size.specs.Nodes as counts;
ghost use Rattle.text_size.specs.Nodes.{capped};

use chill_tree::tree::{Expr, ValueRange};

/// The nodes of an expression or location: each literal, name, THIS, RECEIVE, START and tuple, each operator, and each
/// part in brackets or behind a point. Parentheses alone are none, and no name is one that stands for a mode, a buffer or
/// a process.
#[tactic(auto, using(crate::proofs::ExprLemmas::expr_views))]
#[cycle(expression)]
pub fn nodes_in(expr: &Expr) -> u32
    ensures { result ≡ capped (counts.nodes (expr_tree expr.now)) }
{
    match expr {
        Expr::Whole { .. }
        | Expr::Char { .. }
        | Expr::Text { .. }
        | Expr::This { .. }
        | Expr::Receive { .. }
        | Expr::Name(_) => 1,
        Expr::Paren { inner, .. } => nodes_in(inner),
        Expr::Start { args, .. } => 1_u32.saturating_add(nodes_in_all(args.as_slice())),
        Expr::Tuple { parts, .. } => 1_u32.saturating_add(nodes_in_ranges(parts.as_slice())),
        Expr::Uniform { value, .. } => 1_u32.saturating_add(nodes_in(value)),
        Expr::Apply { of, args, .. } => {
            let own = 1_u32.saturating_add(nodes_in_all(args.as_slice()));
            own.saturating_add(nodes_in(of))
        }
        Expr::Field { of, .. } => 1_u32.saturating_add(nodes_in(of)),
        Expr::Prefixed { operand, .. } => 1_u32.saturating_add(nodes_in(operand)),
        Expr::Binary { left, right, .. } => {
            let own = 1_u32.saturating_add(nodes_in(left));
            own.saturating_add(nodes_in(right))
        }
    }
}

/// The nodes of an expression, where there is one.
pub fn nodes_in_some(expr: &Option<Box<Expr>>) -> u32
    ensures { result ≡ capped (counts.nodes_in_some (option_map boxed_expr expr.now)) }
{
    match expr {
        None => 0,
        Some(expr) => nodes_in(expr),
    }
}

/// The nodes of some expressions.
#[cycle(expression)]
pub fn nodes_in_all(exprs: &[Expr]) -> u32
    ensures { result ≡ capped (counts.nodes_in_all (expr_trees exprs.now)) }
{
    let mut count = 0_u32;
    for expr in exprs {
        count = count.saturating_add(nodes_in(expr));
    }
    count
}

/// The nodes of the parts of a tuple, or of the labels of a CASE.
#[cycle(expression)]
pub fn nodes_in_ranges(ranges: &[ValueRange]) -> u32
    ensures { result ≡ capped (counts.nodes_in_labels (range_trees ranges.now)) }
{
    let mut count = 0_u32;
    for range in ranges {
        count = count.saturating_add(nodes_in_range(range));
    }
    count
}

#[tactic(auto, using(crate::proofs::ExprLemmas::expr_views))]
#[cycle(expression)]
fn nodes_in_range(range: &ValueRange) -> u32
    ensures { result ≡ capped (counts.nodes_in_range (range_tree range.now)) }
{
    let first = nodes_in(&range.first);
    match &range.last {
        None => first,
        Some(last) => first.saturating_add(nodes_in(last)),
    }
}
