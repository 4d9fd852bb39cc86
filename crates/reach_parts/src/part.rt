// Parts that are added: one, a block, and mentions.
ghost use Rattle.std.specs.Prelude.{◌≡◌, ◌++◌, [], ◌∷◌, OnOk, option_map};
ghost use Rattle.chill_tree.specs.ExprTree.{expr_tree, boxed_expr, range_trees};
ghost use Rattle.names_model.specs.Parts.{part_tree, part_trees};
ghost use Rattle.names_model.specs.Sizes.{block_of};
ghost use Rattle.names_model.specs.ExprMentions.{used, mentions_of, mentions_of_some, mentions_of_ranges};
ghost use Rattle.names_model.specs.StatementParts.{mentioned};

use crate::expr::{add_expr, add_exprs, add_ranges, add_some_expr, add_used};
use chill_base::{List, Memory};
use chill_tree::tree::{Expr, Name, ValueRange};
use names_model::{Mention, Need, Part};
use std::alloc::Global;

/// Adds a part.
pub(crate) fn add_part(part: Part, out: &mut List<Part>) -> Result<(), Memory>
    ensures { OnOk result (part_trees out.new ≡ part_trees out.old ++ part_tree part ∷ []) }
{
    out.push(part)
}

/// Adds a block of parts.
pub(crate) fn add_block(parts: List<Part>, out: &mut List<Part>) -> Result<(), Memory>
    ensures { OnOk result (part_trees out.new ≡ part_trees out.old ++ block_of (part_trees parts) ∷ []) }
{
    let block = Part::block(parts)?;
    add_part(block, out)
}

/// Adds mentions as parts.
pub(crate) fn add_mentioned(mentions: List<Mention>, out: &mut List<Part>) -> Result<(), Memory>
    ensures { OnOk result (part_trees out.new ≡ part_trees out.old ++ mentioned mentions) }
{
    for mention in mentions.into_vec() {
        add_part(Part::mention(mention), out)?;
    }
    Ok(())
}

/// Adds a name of which something is needed, as a part.
pub(crate) fn mention_used(
    alloc: Global,
    need: Need,
    name: &Name,
    out: &mut List<Part>,
) -> Result<(), Memory>
    ensures { OnOk result (part_trees out.new ≡ part_trees out.old ++ mentioned (used need name.now)) }
{
    let mut mentions = List::new(alloc);
    add_used(alloc, need, name, &mut mentions)?;
    add_mentioned(mentions, out)
}

/// Adds the names in an expression as parts.
pub(crate) fn mention_expr(alloc: Global, expr: &Expr, out: &mut List<Part>) -> Result<(), Memory>
    ensures { OnOk result (part_trees out.new ≡ part_trees out.old ++ mentioned (mentions_of (expr_tree expr.now))) }
{
    let mut mentions = List::new(alloc);
    add_expr(alloc, expr, &mut mentions)?;
    add_mentioned(mentions, out)
}

/// Adds the names in an expression that may be written, as parts.
pub(crate) fn mention_some_expr(
    alloc: Global,
    expr: &Option<Box<Expr>>,
    out: &mut List<Part>,
) -> Result<(), Memory>
    ensures { OnOk result (part_trees out.new ≡ part_trees out.old ++ mentioned (mentions_of_some (option_map boxed_expr expr.now))) }
{
    let mut mentions = List::new(alloc);
    add_some_expr(alloc, expr, &mut mentions)?;
    add_mentioned(mentions, out)
}

/// Adds the names in two expressions as parts.
pub(crate) fn mention_exprs(
    alloc: Global,
    first: &Expr,
    second: &Expr,
    out: &mut List<Part>,
) -> Result<(), Memory>
    ensures { OnOk result (part_trees out.new ≡ part_trees out.old ++ mentioned (mentions_of (expr_tree first.now) ++ mentions_of (expr_tree second.now))) }
{
    let mut mentions = List::new(alloc);
    add_exprs(alloc, first, second, &mut mentions)?;
    add_mentioned(mentions, out)
}

/// Adds the names in labels as parts.
pub(crate) fn mention_ranges(
    alloc: Global,
    ranges: &[ValueRange],
    out: &mut List<Part>,
) -> Result<(), Memory>
    ensures { OnOk result (part_trees out.new ≡ part_trees out.old ++ mentioned (mentions_of_ranges (range_trees ranges.now))) }
{
    let mut mentions = List::new(alloc);
    add_ranges(alloc, ranges, &mut mentions)?;
    add_mentioned(mentions, out)
}
