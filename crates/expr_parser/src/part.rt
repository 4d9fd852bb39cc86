// What stands behind a name: arguments, an index, or a field (Z.200, chapter on locations).
ghost use Rattle.std.specs.Prelude.{◌≡◌, IfOk};
ghost use Rattle.chill_tree.specs.ExprTree.{boxed_expr};
ghost use Rattle.expr_parser.specs.Giving.{Gives};
ghost use Rattle.expr_parser.specs.Parts.{part_of};
ghost use Rattle.rules_model.specs.ExprReading.{field_at};
ghost use Rattle.rules_model.specs.ExprReading as reading;

use crate::ParseRefusal;
use crate::reader::{read_name, read_sign};
use chill_base::{List, Memory};
use chill_tree::tree::{Expr, Name};
use chill_tree::{Sign, Token};
use std::alloc::Global;

/// A part behind a name.
#[derive(Drop)]
pub enum NamePart {
    Args(List<Expr>),
    Field(Name),
}

/// An expression with one more part.
pub fn with_part(alloc: Global, of: Box<Expr>, part: NamePart) -> Result<Box<Expr>, Memory>
    ensures { IfOk result (λ e. boxed_expr e ≡ reading.with_part (boxed_expr of) (part_of part)) }
{
    match part {
        NamePart::Args(args) => Expr::apply(alloc, of, args),
        NamePart::Field(name) => Expr::field(alloc, of, name),
    }
}

/// Reads a field behind a dot.
#[tactic(auto, unfolding(rules_model::specs::ExprReading::field_at))]
pub fn read_field(tokens: &[Token]) -> Result<(Name, &[Token]), ParseRefusal>
    ensures { Gives (λ x. (x.0, x.1.now)) result (field_at tokens.now) }
{
    let (_, rest) = read_sign(tokens, Sign::Dot)?;
    read_name(rest)
}
