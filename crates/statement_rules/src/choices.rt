// The labels of CASE actions (Z.200, chapter on actions).
ghost use Rattle.std.specs.Prelude.{◌≡◌, ◌++◌, OnOk, flat_map, option_map};
ghost use Rattle.chill_tree.specs.ExprTree.{expr_tree, boxed_expr, range_tree, range_trees};
ghost use Rattle.modes.specs.ModeTree.{class_tree};
ghost use Rattle.checks_model.specs.Alike as alike;
ghost use Rattle.checks_model.specs.Told.{holds_of_both};
ghost use Rattle.checks_model.specs.ActionRules.{label_misfits, told_label_end, told_label};
ghost use Rattle.expr_rules.specs.Views.{own_class};
ghost use Rattle.statement_rules.specs.Grounds.{ground_at, IsGrounded};
ghost use Rattle.statement_rules.specs.Steps.{told_last};

use crate::walk::Statements;
use checks_model::tests_law;
use chill_base::Memory;
use chill_tree::tree::{Expr, ValueRange};
use class_operators::is_of_discrete;
use definition_origins::{CheckRule, Told};
use expr_rules::{Receiver, tell_if};
use modes::{Class, compatible};

impl<'a, 'b> Statements<'a, 'b> {
    /// What is told of labels, where the selector is of a class.
    #[tactic(auto, using(crate::proofs::Lists::lists))]
    pub fn tell_labels(
        &self,
        labels: &[ValueRange],
        selector: &Option<Class>,
        told: &mut Told,
    ) -> Result<(), Memory>
        ensures { IsGrounded self.now → OnOk result (told.new ≡ told.old ++ flat_map (told_label (ground_at self.now) (own_class selector.now)) (range_trees labels.now)) }
    {
        for label in labels {
            self.tell_label(label, selector, told)?;
        }
        Ok(())
    }

    #[tactic(auto, using(crate::proofs::Ranges::label_views))]
    fn tell_label(
        &self,
        label: &ValueRange,
        selector: &Option<Class>,
        told: &mut Told,
    ) -> Result<(), Memory>
        ensures { IsGrounded self.now → OnOk result (told.new ≡ told.old ++ told_label (ground_at self.now) (own_class selector.now) (range_tree label.now)) }
    {
        self.tell_end_of_label(&label.first, selector, told)?;
        self.tell_last(&label.last, selector, told)
    }

    // The higher end of a label, where there is one.
    fn tell_last(
        &self,
        last: &Option<Box<Expr>>,
        selector: &Option<Class>,
        told: &mut Told,
    ) -> Result<(), Memory>
        ensures { IsGrounded self.now → OnOk result (told.new ≡ told.old ++ told_last (ground_at self.now) (own_class selector.now) (option_map boxed_expr last.now)) }
    {
        match last {
            None => Ok(()),
            Some(last) => self.tell_end_of_label(last, selector, told),
        }
    }

    #[tactic(auto, using(crate::proofs::Lists::gates))]
    fn tell_end_of_label(
        &self,
        label: &Expr,
        selector: &Option<Class>,
        told: &mut Told,
    ) -> Result<(), Memory>
        ensures { IsGrounded self.now → OnOk result (told.new ≡ told.old ++ told_label_end (ground_at self.now) (own_class selector.now) (expr_tree label.now)) }
    {
        let known = self.walk.value(label, Receiver::Nothing, told)?;
        if known.is_clean {
            let _ = tell_if(
                label_misfits(&known.class, selector),
                CheckRule::S7,
                label.at(),
                told,
            )?;
        }
        Ok(())
    }
}

// Rule S7 of a label: it isn't compatible with the selector, which is discrete.
fn label_misfits(label: &Option<Class>, selector: &Option<Class>) -> bool
    ensures { result ≡ holds_of_both label_misfits (own_class selector.now) (own_class label.now) }
{
    match (label, selector) {
        (Some(label), Some(selector)) => {
            is_of_discrete(selector) && !are_compatible(label, selector)
        }
        (Some(_), None) | (None, _) => false,
    }
}

/// Whether two classes are compatible.
pub fn are_compatible(one: &Class, other: &Class) -> bool
    ensures { result ≡ alike.are_compatible (class_tree one.now) (class_tree other.now) }
{
    tests_law();
    compatible(one, other)
}
