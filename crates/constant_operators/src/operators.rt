// Operators in constants: whether the operands fit, and the class and the value of the result (Z.200, chapter on operations).
ghost use Rattle.std.specs.Prelude.{Option, IfOk};
ghost use Rattle.modes.specs.ModeTree.{ClassTree, class_tree};
ghost use Rattle.checks_model.specs.ValueTrees.{ValueTree};
ghost use Rattle.constant_operators.specs.Known.{IsKnown, IsComputed, IsResult, binary_misfits, binary_raises, binary_class, binary_value, unary_misfits, unary_raises, unary_class, unary_value};

use crate::evaluation::Evaluation;
use crate::known::Known;
use checks_model::tests_law;
use chill_base::{Memory, Scalars};
use chill_tree::tree::{Operator, Prefix};
use class_operators::{class_of_binary, class_of_unary};
use constant_values::{value_of_binary, value_of_unary};
use modes::Class;

/// What comes of an operator or a routine on constants.
#[derive(Drop)]
pub enum Computed {
    /// What is known of the result: nothing where nothing is known of an operand.
    Known(Known),
    /// The operands don't fit.
    Misfit,
    /// An exception would be raised in place of a value of this class.
    OutOfRange(Class),
}

impl<'a> Evaluation<'a> {
    /// What comes of an operator between two constants.
    pub fn computed_binary(
        &self,
        operator: Operator,
        left: &Known,
        right: &Known,
    ) -> Result<Computed, Memory>
        ensures { (c d : Option ClassTree) (v w : Option ValueTree) → IsKnown c v left.now → IsKnown d w right.now →
            IfOk result (IsComputed (binary_misfits operator c d) (binary_raises operator c v d w) (binary_class operator c d) (binary_value operator v d w)) }
    {
        tests_law();
        let Some(one) = &left.class else {
            return Ok(Computed::Known(Known::unknown_constant()));
        };
        let Some(other) = &right.class else {
            return Ok(Computed::Known(Known::unknown_constant()));
        };
        let Some(class) = class_of_binary(self.alloc, operator, one, other)? else {
            return Ok(Computed::Misfit);
        };
        let Some(mine) = &left.value else {
            return Ok(Computed::Known(Known::constant_of_class(class)));
        };
        let Some(theirs) = &right.value else {
            return Ok(Computed::Known(Known::constant_of_class(class)));
        };
        let value = value_of_binary(self.alloc, operator, other, mine, theirs)?;
        Ok(with_value(class, value))
    }

    /// What comes of an operator before a constant.
    pub fn computed_unary(&self, operator: Prefix, operand: &Known) -> Result<Computed, Memory>
        ensures { (c : Option ClassTree) (v : Option ValueTree) → IsKnown c v operand.now →
            IfOk result (IsComputed (unary_misfits operator c) (unary_raises operator c v) (unary_class operator c) (unary_value operator v)) }
    {
        let Some(own) = &operand.class else {
            return Ok(Computed::Known(Known::unknown_constant()));
        };
        let Some(class) = class_of_unary(self.alloc, operator, own)? else {
            return Ok(Computed::Misfit);
        };
        let Some(value) = &operand.value else {
            return Ok(Computed::Known(Known::constant_of_class(class)));
        };
        let value = value_of_unary(self.alloc, operator, own, value)?;
        Ok(with_value(class, value))
    }
}

// A result of a class, with its value where it has one.
pub(crate) fn with_value(class: Class, value: Option<Scalars>) -> Computed
    ensures { IsResult (class_tree class) value result }
{
    match value {
        None => Computed::OutOfRange(class),
        Some(value) => Computed::Known(Known::constant(class, value)),
    }
}
