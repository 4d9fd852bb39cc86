// Operators in constants, and the rules on them.
ghost use Rattle.std.specs.Prelude.{Bool, true, ◌&&◌, List, ◌++◌, Option, IfOk};
ghost use Rattle.diagnostics.specs.declared.diagnostic.Diagnostic.{Diagnostic};
ghost use Rattle.modes.specs.ModeTree.{ClassTree};
ghost use Rattle.checks_model.specs.ValueTrees.{ValueTree};
ghost use Rattle.checks_model.specs.ConstantRules.{told_if_constant};
ghost use Rattle.constant_operators.specs.Grounds.{HasGround};
ghost use Rattle.constant_operators.specs.Known.{IsComputed, binary_class, binary_value, unary_class, unary_value};
ghost use Rattle.constant_rules.specs.Found.{IsFound, Finds, FindsAt};
ghost use Rattle.constant_rules.specs.Walks.{told_at_node, binary_told, unary_told};

use chill_base::{Memory, Pos};
use chill_tree::tree::{Operator, Prefix};
use constant_operators::{Computed, Evaluation, Known};
use definition_origins::{CheckRule, Told};

/// What is known of a result; at an operator or routine that is told what came of it.
#[tactic(auto, using(crate::proofs::OfNodes::computed_known, crate::proofs::OfNodes::computed_misfit, crate::proofs::OfNodes::computed_raised))]
pub fn told_of_computed(computed: Computed, at: Pos, told: &mut Told) -> Result<Known, Memory>
    ensures { (misfits raises : Bool) (c : Option ClassTree) (v : Option ValueTree) → IsComputed misfits raises c v computed →
        IfOk result (λ k. Finds true (told_at_node misfits raises at) c v told.old told.new k) }
{
    match computed {
        Computed::Known(known) => Ok(known),
        Computed::Misfit => {
            told.tell(CheckRule::M10, at)?;
            Ok(Known::told(true))
        }
        Computed::OutOfRange(_) => {
            told.tell(CheckRule::M11, at)?;
            Ok(Known::told(true))
        }
    }
}

/// What is known of two operands with an operator between them.
#[tactic(auto, using(crate::proofs::OfNodes::node_told, crate::proofs::OfNodes::node_varying, crate::proofs::OfNodes::node_found, crate::proofs::Finding::none_both))]
pub fn binary(
    ground: &Evaluation<'_>,
    operator: Operator,
    sign: Pos,
    left: &Known,
    right: &Known,
    told: &mut Told,
) -> Result<Known, Memory>
    ensures { HasGround ground.now → (f h : Bool) (s t : List Diagnostic) (c d : Option ClassTree) (v w : Option ValueTree) →
        IsFound f s c v left.now → IsFound h t d w right.now → IfOk result (λ k.
        FindsAt (f && h) (s ++ t) (told_if_constant (f && h) (binary_told sign operator c v d w))
        (binary_class operator c d) (binary_value operator v d w) told.old told.new k) }
{
    let is_clean = left.is_clean && right.is_clean;
    if !left.is_constant || !right.is_constant {
        return Ok(Known::varying(is_clean));
    }
    if !is_clean {
        return Ok(Known::told(true));
    }
    let computed = ground.computed_binary(operator, left, right)?;
    let known = told_of_computed(computed, sign, told)?;
    Ok(known)
}

/// What is known of an operand with an operator before it.
#[tactic(auto, using(crate::proofs::OfNodes::node_told, crate::proofs::OfNodes::node_varying, crate::proofs::OfNodes::node_found))]
pub fn unary(
    ground: &Evaluation<'_>,
    operator: Prefix,
    at: Pos,
    operand: &Known,
    told: &mut Told,
) -> Result<Known, Memory>
    ensures { HasGround ground.now → (f : Bool) (t : List Diagnostic) (c : Option ClassTree) (v : Option ValueTree) →
        IsFound f t c v operand.now → IfOk result (λ k.
        FindsAt f t (told_if_constant f (unary_told at operator c v))
        (unary_class operator c) (unary_value operator v) told.old told.new k) }
{
    if !operand.is_clean {
        return Ok(Known::told(operand.is_constant));
    }
    if !operand.is_constant {
        return Ok(Known::varying(true));
    }
    let computed = ground.computed_unary(operator, operand)?;
    let known = told_of_computed(computed, at, told)?;
    Ok(known)
}
