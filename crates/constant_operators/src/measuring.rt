// UPPER, LOWER and SIZE: what they measure, and what they give (the routines that measure modes are our own form).
ghost use Rattle.std.specs.Prelude.{◌≡◌, [], ◌∷◌, Some, IfOk, IsTrue, is_some, option_map};
ghost use Rattle.chill_tree.specs.ExprTree.{expr_tree};
ghost use Rattle.modes.specs.ModeTree.{mode_tree, class_tree};
ghost use Rattle.class_operators.specs.Predefined.{predefined_tree};
ghost use Rattle.checks_model.specs.Ground.{size};
ghost use Rattle.checks_model.specs.Operations as model;
ghost use Rattle.checks_model.specs.OperatorValues.{value_of_measure};
ghost use Rattle.checks_model.specs.Classes as classes;
ghost use Rattle.checks_model.specs.Constants.{is_measured};
ghost use Rattle.constant_operators.specs.Grounds.{ground_of, mode_of_predefined, HasGround};
ghost use Rattle.constant_operators.specs.Known.{Holds, IsMeasure};
ghost use Rattle.constant_operators.specs.Laid.{is_laid};
ghost use Rattle.constant_operators.specs.Measures.{measured_tree, measured_bound, measured_named, located_named, or_misfit, or_other};
ghost use Rattle.constant_operators.specs.Plain.{IsPlain};

use crate::evaluation::{Evaluation, shared};
use crate::known::Known;
use chill_base::Memory;
use chill_tree::tree::{Expr, Name};
use class_operators::{class_of_measure, field_in, measured_mode, mode_is_meeting};
use constant_values::single;
use definition_origins::{Origin, Predefined};
use layout_map::{LayoutRefusal, layout, words};
use modes::{Bounds, Class, Mode, bounds};
use std::rc::Rc;

/// What the whole argument of UPPER, LOWER or SIZE is.
#[derive(Drop)]
pub enum Measured {
    /// A mode, or a location or parameter with its parts, of this mode.
    Mode(Rc<Mode>),
    /// A part that doesn't fit what it is a part of.
    Misfit,
    /// Something that it needs is broken.
    Broken,
    /// Neither a mode nor a location or parameter.
    Other,
}

impl<'a> Evaluation<'a> {
    /// What UPPER, LOWER or SIZE tells of a mode, or none where it doesn't fit.
    #[tactic(auto, using(crate::proofs::Measures::none_measured, crate::proofs::Measures::bound_measured))]
    pub fn measure_of(&self, own: Predefined, mode: &Rc<Mode>) -> Result<Option<Known>, Memory>
        ensures { IsPlain self.now.plain → IsTrue (model.is_measuring (predefined_tree own)) → IsTrue (is_laid (mode_tree mode.now.value)) →
            IfOk result (IsMeasure (model.class_of_measure (predefined_tree own) (mode_tree mode.now.value)) (value_of_measure (predefined_tree own) (mode_tree mode.now.value))) }
    {
        if own == Predefined::Size {
            return self.size_of(mode);
        }
        let Some(class) = class_of_measure(self.alloc, own, mode)? else {
            return Ok(None);
        };
        let Some(bounds) = bounds(measured_mode(mode)) else {
            return Ok(None);
        };
        let bound = self.constant_bound(class, own, bounds)?;
        Ok(Some(bound))
    }

    // The bound that UPPER or LOWER gives, of a class.
    fn constant_bound(&self, class: Class, own: Predefined, bounds: Bounds) -> Result<Known, Memory>
        ensures { IfOk result (Holds (Some (class_tree class)) (Some (measured_bound (predefined_tree own) bounds ∷ []))) }
    {
        let value = single(self.alloc, bound_of(own, bounds))?;
        Ok(Known::constant(class, value))
    }

    // The words of a mode's layout.
    #[tactic(auto, using(crate::proofs::Measures::size_measured, crate::proofs::Measures::meeting_measured, crate::proofs::Measures::no_overlap, crate::proofs::Measures::not_impossible))]
    fn size_of(&self, mode: &Mode) -> Result<Option<Known>, Memory>
        ensures { IsPlain self.now.plain → IsTrue (is_laid (mode_tree mode.now)) → IfOk result (IsMeasure (model.class_of_measure size (mode_tree mode.now)) (value_of_measure size (mode_tree mode.now))) }
    {
        if mode_is_meeting(mode) {
            return Ok(None);
        }
        match layout(self.alloc, mode) {
            Ok(layout) => {
                let Ok(count) = i64::try_from(words(&layout)) else {
                    return Err(Memory);
                };
                Ok(Some(self.int(count)?))
            }
            Err(LayoutRefusal::Memory) => Err(Memory),
            Err(LayoutRefusal::Impossible { .. }) | Err(LayoutRefusal::Overlap { .. }) => {
                Ok(Some(Known::unknown_constant()))
            }
        }
    }

    /// Whether the whole argument of UPPER, LOWER or SIZE is a mode, or a location or parameter with its parts.
    #[tactic(auto, using(crate::proofs::Measures::measured_parts, chill_tree::proofs::ExprViews::expr_built))]
    pub fn is_measurable(&self, arg: &Expr) -> bool
        ensures { HasGround self.now → result ≡ is_measured (classes.measured (ground_of self.now) (expr_tree arg.now)) }
    {
        match arg {
            Expr::Name(name) => self.is_measured_name(name),
            Expr::Apply { of, .. } | Expr::Field { of, .. } => self.is_place(of),
            Expr::Whole { .. }
            | Expr::Char { .. }
            | Expr::Text { .. }
            | Expr::This { .. }
            | Expr::Paren { .. }
            | Expr::Receive { .. }
            | Expr::Start { .. }
            | Expr::Tuple { .. }
            | Expr::Uniform { .. }
            | Expr::Prefixed { .. }
            | Expr::Binary { .. } => false,
        }
    }

    // Whether a name is that of a mode, or of a location or parameter.
    #[tactic(auto, using(crate::proofs::Measures::measured_names))]
    fn is_measured_name(&self, name: &Name) -> bool
        ensures { HasGround self.now → result ≡ is_measured (measured_named (ground_of self.now) name.now) }
    {
        match self.origin_used(name.at) {
            Some(Origin::SynMode(_))
            | Some(Origin::NewMode(_))
            | Some(Origin::Location { .. })
            | Some(Origin::Parameter { .. }) => true,
            Some(Origin::Predefined(own)) => is_mode(own),
            Some(Origin::Synonym { .. })
            | Some(Origin::Element(_))
            | Some(Origin::Counter(_))
            | Some(Origin::Received { .. })
            | Some(Origin::Procedure(_))
            | Some(Origin::Process(_))
            | Some(Origin::Signal(_))
            | Some(Origin::Modulion(_))
            | None => false,
        }
    }

    // Whether a name is that of a location or parameter.
    fn is_located_name(&self, name: &Name) -> bool
        ensures { HasGround self.now → result ≡ is_measured (located_named (ground_of self.now) name.now) }
    {
        matches!(
            self.origin_used(name.at),
            Some(Origin::Location { .. }) | Some(Origin::Parameter { .. })
        )
    }

    // Whether an expression begins with a location or parameter, and has nothing but parts of it.
    #[tactic(auto, using(crate::proofs::Measures::measured_parts, chill_tree::proofs::ExprViews::expr_built))]
    fn is_place(&self, expr: &Expr) -> bool
        ensures { HasGround self.now → result ≡ is_measured (classes.located (ground_of self.now) (expr_tree expr.now)) }
    {
        match expr {
            Expr::Name(name) => self.is_located_name(name),
            Expr::Apply { of, .. } | Expr::Field { of, .. } => self.is_place(of),
            Expr::Whole { .. }
            | Expr::Char { .. }
            | Expr::Text { .. }
            | Expr::This { .. }
            | Expr::Paren { .. }
            | Expr::Receive { .. }
            | Expr::Start { .. }
            | Expr::Tuple { .. }
            | Expr::Uniform { .. }
            | Expr::Prefixed { .. }
            | Expr::Binary { .. } => false,
        }
    }

    /// What the whole argument of UPPER, LOWER or SIZE is.
    #[tactic(auto, using(chill_tree::proofs::ExprViews::expr_built))]
    pub fn measured(&self, arg: &Expr) -> Result<Measured, Memory>
        ensures { HasGround self.now → IfOk result (λ m. measured_tree m ≡ classes.measured (ground_of self.now) (expr_tree arg.now)) }
    {
        match arg {
            Expr::Name(name) => self.measured_name(name),
            Expr::Apply { .. }
            | Expr::Field { .. }
            | Expr::Whole { .. }
            | Expr::Char { .. }
            | Expr::Text { .. }
            | Expr::This { .. }
            | Expr::Paren { .. }
            | Expr::Receive { .. }
            | Expr::Start { .. }
            | Expr::Tuple { .. }
            | Expr::Uniform { .. }
            | Expr::Prefixed { .. }
            | Expr::Binary { .. } => self.located(arg),
        }
    }

    // What a name stands for: a mode, or a location or parameter.
    #[tactic(auto, using(crate::proofs::Measures::measured_names))]
    fn measured_name(&self, name: &Name) -> Result<Measured, Memory>
        ensures { HasGround self.now → IfOk result (λ m. measured_tree m ≡ measured_named (ground_of self.now) name.now) }
    {
        match self.origin_used(name.at) {
            Some(Origin::SynMode(_)) | Some(Origin::NewMode(_)) => {
                Ok(of_mode(self.mode_of_name(name)?))
            }
            Some(Origin::Predefined(own)) => Ok(or_other(self.predefined_mode(own)?)),
            Some(Origin::Location { .. }) | Some(Origin::Parameter { .. }) => {
                Ok(of_mode(shared(self.mode_used(name.at))?))
            }
            Some(Origin::Synonym { .. })
            | Some(Origin::Element(_))
            | Some(Origin::Counter(_))
            | Some(Origin::Received { .. })
            | Some(Origin::Procedure(_))
            | Some(Origin::Process(_))
            | Some(Origin::Signal(_))
            | Some(Origin::Modulion(_))
            | None => Ok(Measured::Other),
        }
    }

    // What a name of a location or parameter stands for.
    fn located_name(&self, name: &Name) -> Result<Measured, Memory>
        ensures { HasGround self.now → IfOk result (λ m. measured_tree m ≡ located_named (ground_of self.now) name.now) }
    {
        match self.origin_used(name.at) {
            Some(Origin::Location { .. }) | Some(Origin::Parameter { .. }) => {
                Ok(of_mode(shared(self.mode_used(name.at))?))
            }
            Some(Origin::Synonym { .. })
            | Some(Origin::SynMode(_))
            | Some(Origin::NewMode(_))
            | Some(Origin::Element(_))
            | Some(Origin::Counter(_))
            | Some(Origin::Received { .. })
            | Some(Origin::Procedure(_))
            | Some(Origin::Process(_))
            | Some(Origin::Signal(_))
            | Some(Origin::Modulion(_))
            | Some(Origin::Predefined(_))
            | None => Ok(Measured::Other),
        }
    }

    // The element of an array or a text.
    #[tactic(auto, using(crate::proofs::Measures::measured_parts))]
    fn element_of(&self, of: Measured) -> Result<Measured, Memory>
        ensures { IsPlain self.now.plain → IfOk result (λ m. measured_tree m ≡ classes.measured_part model.element_of_form (measured_tree of)) }
    {
        match of {
            Measured::Mode(mode) => part_of(self.element_in(&mode)),
            Measured::Misfit => Ok(Measured::Misfit),
            Measured::Broken => Ok(Measured::Broken),
            Measured::Other => Ok(Measured::Other),
        }
    }

    // The mode of a location or parameter with its parts.
    #[tactic(auto, using(crate::proofs::Measures::measured_parts, chill_tree::proofs::ExprViews::expr_built))]
    fn located(&self, expr: &Expr) -> Result<Measured, Memory>
        ensures { HasGround self.now → IfOk result (λ m. measured_tree m ≡ classes.located (ground_of self.now) (expr_tree expr.now)) }
    {
        match expr {
            Expr::Name(name) => self.located_name(name),
            Expr::Apply { of, .. } => self.element_of(self.located(of)?),
            Expr::Field { of, field, .. } => field_of(field.text.as_slice(), self.located(of)?),
            Expr::Whole { .. }
            | Expr::Char { .. }
            | Expr::Text { .. }
            | Expr::This { .. }
            | Expr::Paren { .. }
            | Expr::Receive { .. }
            | Expr::Start { .. }
            | Expr::Tuple { .. }
            | Expr::Uniform { .. }
            | Expr::Prefixed { .. }
            | Expr::Binary { .. } => Ok(Measured::Other),
        }
    }
}

// The bound that UPPER or LOWER gives.
fn bound_of(own: Predefined, bounds: Bounds) -> i64
    ensures { result ≡ measured_bound (predefined_tree own) bounds }
{
    if own == Predefined::Upper {
        bounds.high
    } else {
        bounds.low
    }
}

// A mode, or something broken.
fn of_mode(mode: Option<Rc<Mode>>) -> Measured
    ensures { measured_tree result ≡ classes.a_mode_of (option_map (λ m. mode_tree m.value) mode) }
{
    match mode {
        None => Measured::Broken,
        Some(mode) => Measured::Mode(mode),
    }
}

// A mode, or nothing that can be measured.
fn or_other(mode: Option<Rc<Mode>>) -> Measured
    ensures { measured_tree result ≡ or_other (option_map (λ m. mode_tree m.value) mode) }
{
    match mode {
        None => Measured::Other,
        Some(mode) => Measured::Mode(mode),
    }
}

// Whether a predefined name is that of a mode.
fn is_mode(own: Predefined) -> bool
    ensures { result ≡ is_some (mode_of_predefined (predefined_tree own)) }
{
    matches!(
        own,
        Predefined::Int | Predefined::Bool | Predefined::Char | Predefined::Instance
    )
}

// A part, which doesn't fit where there is none.
fn part_of(part: Option<&Rc<Mode>>) -> Result<Measured, Memory>
    ensures { IfOk result (λ m. measured_tree m ≡ or_misfit (option_map (λ m. mode_tree m.now.value) part.entry)) }
{
    match part {
        None => Ok(Measured::Misfit),
        Some(part) => Ok(Measured::Mode(part.clone()?)),
    }
}

// The field of a structure.
#[tactic(auto, using(crate::proofs::Measures::measured_parts))]
fn field_of(name: &[u8], of: Measured) -> Result<Measured, Memory>
    ensures { IfOk result (λ m. measured_tree m ≡ classes.measured_part (model.field_of_form name.now) (measured_tree of)) }
{
    match of {
        Measured::Mode(mode) => part_of(field_in(&mode, name)),
        Measured::Misfit => Ok(Measured::Misfit),
        Measured::Broken => Ok(Measured::Broken),
        Measured::Other => Ok(Measured::Other),
    }
}
