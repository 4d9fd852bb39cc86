// Tuples, and the rules on them (Z.200, chapter on values).
ghost use Rattle.std.specs.Prelude.{◌≡◌, ◌++◌, ℕ, not, Some, None, IfOk, OnOk, option_map, slice_get};
ghost use Rattle.chill_tree.specs.ExprTree.{expr_tree, range_tree, range_trees, range_nodes, tuple as tuple_tree, uniform as uniform_tree};
ghost use Rattle.modes.specs.ModeTree.{mode_tree, value, field_tree, field_trees, field_nodes};
ghost use Rattle.modes.specs.Form.{form_of};
ghost use Rattle.checks_model.specs.Told.{is_none_told};
ghost use Rattle.checks_model.specs.Classes.{class_as, are_alone, has_parts, shape_fits, uniform_fits, field_mode_at, mode_of_part};
ghost use Rattle.checks_model.specs.ValueRules.{of_mode, received_mode, shape_misfits, told_in, told_in_parts};
ghost use Rattle.expr_rules.specs.Grounds.{ground_in, HasItsGround};
ghost use Rattle.expr_rules.specs.Known.{IsOwn};
ghost use Rattle.expr_rules.specs.Views.{some_mode, own_class, receiver_tree, part_of_shape, shape_misfits_at};
ghost use Rattle.expr_rules.specs.Steps.{shaped_told, shaped_class, uniform_shaped_told, uniform_shaped_class, range_told};
ghost use Rattle.expr_rules.specs.Shapes.{is_between, told_in_shape};

use crate::classed::Classed;
use crate::receiving::Receiver;
use crate::surroundings::Walk;
use crate::telling::tell_if;
use chill_base::{Memory, Pos};
use chill_tree::tree::{Expr, Name, ValueRange};
use definition_origins::{CheckRule, Told};
use modes::{Class, Field, Fields, Form, Mode, form_of, number_of_values};
use std::rc::Rc;

/// What the parts of a tuple are, by the mode that it takes.
#[derive(Clone, Copy)]
pub enum Shape<'s> {
    /// The mode isn't known.
    Unknown,
    /// There is no mode, or the tuple doesn't have its form.
    Misfit,
    /// Members of a powerset, of this mode.
    Members(&'s Rc<Mode>),
    /// Elements of an array, of this mode.
    Elements(&'s Rc<Mode>),
    /// Fields of a structure.
    Fields(&'s Fields),
}

/// What the parts of a tuple are where it goes to a receiver.
#[tactic(auto, using(crate::proofs::Shapes::shapes))]
pub fn shape_of<'s>(receiver: Receiver<'s>, parts: &[ValueRange]) -> Shape<'s>
    ensures parts { (k : ℕ) → part_of_shape result k ≡ mode_of_part (shape_fits (range_nodes (range_trees parts.now))) k (received_mode (receiver_tree receiver.entry)) }
    ensures misfit { shape_misfits_at result ≡ shape_misfits (shape_fits (range_nodes (range_trees parts.now))) None (receiver_tree receiver.entry) (received_mode (receiver_tree receiver.entry)) }
{
    match receiver {
        Receiver::Mode(None) => Shape::Unknown,
        Receiver::Mode(Some(mode)) => shape_in(mode, parts),
        Receiver::Nothing
        | Receiver::Location(_)
        | Receiver::Condition
        | Receiver::Selector
        | Receiver::Bound
        | Receiver::Members => Shape::Misfit,
    }
}

// Whether a tuple has so many parts, none of which is a range.
#[tactic(auto, using(crate::proofs::RangeViews::ranges_counted))]
fn has_parts(parts: &[ValueRange], count: u64) -> bool
    ensures { result ≡ has_parts count (range_nodes (range_trees parts.now)) }
{
    are_alone(parts) && parts.len() as u64 == count
}

// Whether no part of a tuple is a range.
#[tactic(auto, using(crate::proofs::RangeViews::alone_more))]
fn are_alone(parts: &[ValueRange]) -> bool
    ensures { result ≡ are_alone (range_nodes (range_trees parts.now)) }
{
    for part in parts {
        if is_range(part) {
            return false;
        }
    }
    true
}

// Whether a part is a range between two.
#[tactic(auto, using(crate::proofs::RangeViews::range_out))]
fn is_range(part: &ValueRange) -> bool
    ensures { result ≡ is_between (range_tree part.now) }
{
    part.last.is_some()
}

// The field at a place.
fn field_at(fields: &[Field], place: usize) -> Option<&Field>
    ensures { option_map (λ f. f.now) result ≡ slice_get fields.now place }
{
    fields.get(place)
}

// The mode of the field at a place.
#[tactic(auto, using(crate::proofs::RangeViews::field_found))]
fn field_mode_at(fields: &[Field], place: usize) -> Option<&Rc<Mode>>
    ensures { some_mode result ≡ field_mode_at place (field_nodes (field_trees fields.now)) }
{
    match field_at(fields, place) {
        None => None,
        Some(field) => Some(mode_of_field(field)),
    }
}

#[tactic(auto, using(modes::proofs::ModeViews::mode_built))]
fn mode_of_field(field: &Field) -> &Rc<Mode>
    ensures { mode_tree result.now.value ≡ (field_tree field.now).mode }
{
    &field.mode
}

// What the parts of a tuple of a mode are.
#[tactic(auto, using(crate::proofs::RangeViews::counted))]
fn shape_in<'s>(mode: &'s Mode, parts: &[ValueRange]) -> Shape<'s>
    ensures parts { (k : ℕ) → part_of_shape result k ≡ mode_of_part (shape_fits (range_nodes (range_trees parts.now))) k (Some (mode_tree mode.now)) }
    ensures misfit { shape_misfits_at result ≡ not (shape_fits (range_nodes (range_trees parts.now)) (form_of (mode_tree mode.now))) }
{
    match form_of(mode) {
        Form::Powerset(member) => Shape::Members(member),
        Form::Array { index, element, .. } => {
            if has_parts(parts, number_of_values(index)) {
                Shape::Elements(element)
            } else {
                Shape::Misfit
            }
        }
        Form::Struct { fields, .. } => {
            if has_parts(parts, fields.len() as u64) {
                Shape::Fields(fields)
            } else {
                Shape::Misfit
            }
        }
        Form::Int
        | Form::Bool
        | Form::Char
        | Form::Instance
        | Form::Set { .. }
        | Form::Chars(_)
        | Form::Meeting => Shape::Misfit,
    }
}

/// What the value in a tuple of one value for all elements is.
pub fn uniform_shape_of<'s>(receiver: Receiver<'s>) -> Shape<'s>
    ensures parts { (k : ℕ) → part_of_shape result k ≡ mode_of_part uniform_fits k (received_mode (receiver_tree receiver.entry)) }
    ensures misfit { shape_misfits_at result ≡ shape_misfits uniform_fits None (receiver_tree receiver.entry) (received_mode (receiver_tree receiver.entry)) }
{
    match receiver {
        Receiver::Mode(None) => Shape::Unknown,
        Receiver::Mode(Some(mode)) => uniform_shape_in(mode),
        Receiver::Nothing
        | Receiver::Location(_)
        | Receiver::Condition
        | Receiver::Selector
        | Receiver::Bound
        | Receiver::Members => Shape::Misfit,
    }
}

// The same of a mode.
fn uniform_shape_in(mode: &Mode) -> Shape<'_>
    ensures parts { (k : ℕ) → part_of_shape result k ≡ mode_of_part uniform_fits k (Some (mode_tree mode.now)) }
    ensures misfit { shape_misfits_at result ≡ not (uniform_fits (form_of (mode_tree mode.now))) }
{
    match form_of(mode) {
        Form::Array { element, .. } => Shape::Elements(element),
        Form::Int
        | Form::Bool
        | Form::Char
        | Form::Instance
        | Form::Set { .. }
        | Form::Powerset(_)
        | Form::Chars(_)
        | Form::Struct { .. }
        | Form::Meeting => Shape::Misfit,
    }
}

impl<'s> Shape<'s> {
    /// What receives the part at that place.
    pub fn receiver(&self, place: usize) -> Receiver<'s>
        ensures { receiver_tree result ≡ of_mode (part_of_shape self.now place) }
    {
        match self {
            Shape::Unknown | Shape::Misfit => Receiver::Mode(None),
            Shape::Members(mode) | Shape::Elements(mode) => Receiver::Mode(Some(*mode)),
            Shape::Fields(fields) => Receiver::Mode(field_mode_at(fields.as_slice(), place)),
        }
    }

    // Rule S11: there is no mode, or the tuple doesn't have its form.
    fn is_misfit(&self) -> bool
        ensures { result ≡ shape_misfits_at self.now }
    {
        match self {
            Shape::Misfit => true,
            Shape::Unknown | Shape::Members(_) | Shape::Elements(_) | Shape::Fields(_) => false,
        }
    }
}

impl<'a, 'b> Walk<'a, 'b> {
    // A tuple of parts, with its mode's name or without.
    #[cycle(expr)]
    pub(crate) fn tuple(
        &self,
        parts: &[ValueRange],
        mode: &Option<Name>,
        bracket: Pos,
        receiver: Receiver<'_>,
        told: &mut Told,
    ) -> Result<Classed, Memory>
        ensures told { HasItsGround self.now → OnOk result (told.new ≡ told.old ++ told_in (ground_in self.now) (receiver_tree receiver.entry) (tuple_tree bracket mode.now bracket (range_nodes (range_trees parts.now)))) }
        ensures known { HasItsGround self.now → IfOk result (IsOwn (told_in (ground_in self.now) (receiver_tree receiver.entry) (tuple_tree bracket mode.now bracket (range_nodes (range_trees parts.now))))
            (class_as (ground_in self.now) (received_mode (receiver_tree receiver.entry)) (tuple_tree bracket mode.now bracket (range_nodes (range_trees parts.now))))) }
    {
        match mode {
            None => self.shaped(parts, bracket, receiver, told),
            Some(name) => {
                let own = self.evaluation.mode_of_name(name)?;
                self.shaped(parts, bracket, Receiver::Mode(own.as_ref()), told)
            }
        }
    }

    // A tuple that takes its mode from a receiver.
    #[tactic(auto, using(crate::proofs::Gates::gates, crate::proofs::Shapes::shapes))]
    #[cycle(expr)]
    fn shaped(
        &self,
        parts: &[ValueRange],
        bracket: Pos,
        receiver: Receiver<'_>,
        told: &mut Told,
    ) -> Result<Classed, Memory>
        ensures told { HasItsGround self.now → OnOk result (told.new ≡ told.old ++ shaped_told (ground_in self.now) (range_nodes (range_trees parts.now)) bracket (receiver_tree receiver.entry)) }
        ensures known { HasItsGround self.now → IfOk result (IsOwn (shaped_told (ground_in self.now) (range_nodes (range_trees parts.now)) bracket (receiver_tree receiver.entry)) (shaped_class (range_nodes (range_trees parts.now)) (receiver_tree receiver.entry))) }
    {
        if !self.tell_in_parts(parts, receiver, told)? {
            return Ok(Classed::broken());
        }
        let shape = shape_of(receiver, parts);
        if !tell_if(shape.is_misfit(), CheckRule::S11, bracket, told)? {
            return Ok(Classed::broken());
        }
        Ok(Classed::clean(class_of_tuple(receiver)?))
    }

    // What the parts of a tuple that goes to a receiver break; whether it is nothing.
    #[cycle(expr)]
    fn tell_in_parts(
        &self,
        parts: &[ValueRange],
        receiver: Receiver<'_>,
        told: &mut Told,
    ) -> Result<bool, Memory>
        ensures told { HasItsGround self.now → OnOk result (told.new ≡ told.old ++ told_in_parts (ground_in self.now) (shape_fits (range_nodes (range_trees parts.now))) 0 (received_mode (receiver_tree receiver.entry)) (range_nodes (range_trees parts.now))) }
        ensures clean { HasItsGround self.now → IfOk result (λ clean. clean ≡ is_none_told (told_in_parts (ground_in self.now) (shape_fits (range_nodes (range_trees parts.now))) 0 (received_mode (receiver_tree receiver.entry)) (range_nodes (range_trees parts.now)))) }
    {
        let shape = shape_of(receiver, parts);
        self.tell_in_shape(parts, shape, told)
    }

    // What the parts of a tuple of a shape break; whether it is nothing.
    #[tactic(auto, using(crate::proofs::Gates::gates, crate::proofs::Shapes::ranges))]
    #[cycle(expr)]
    fn tell_in_shape(
        &self,
        parts: &[ValueRange],
        shape: Shape<'_>,
        told: &mut Told,
    ) -> Result<bool, Memory>
        ensures told { HasItsGround self.now → OnOk result (told.new ≡ told.old ++ told_in_shape (ground_in self.now) shape.entry 0 (range_nodes (range_trees parts.now))) }
        ensures clean { HasItsGround self.now → IfOk result (λ clean. clean ≡ is_none_told (told_in_shape (ground_in self.now) shape.entry 0 (range_nodes (range_trees parts.now)))) }
    {
        let mut is_clean = true;
        let mut place = 0;
        for part in parts {
            let is_own_clean = self.tell_in_part(part, shape.receiver(place), told)?;
            is_clean = is_clean && is_own_clean;
            place += 1;
        }
        Ok(is_clean)
    }

    // What a part of a tuple breaks; whether it is nothing.
    #[tactic(auto, using(crate::proofs::Gates::gates, crate::proofs::RangeViews::ranges))]
    #[cycle(expr)]
    fn tell_in_part(
        &self,
        part: &ValueRange,
        receiver: Receiver<'_>,
        told: &mut Told,
    ) -> Result<bool, Memory>
        ensures told { HasItsGround self.now → OnOk result (told.new ≡ told.old ++ range_told (ground_in self.now) (receiver_tree receiver.entry) (range_tree part.now)) }
        ensures clean { HasItsGround self.now → IfOk result (λ clean. clean ≡ is_none_told (range_told (ground_in self.now) (receiver_tree receiver.entry) (range_tree part.now))) }
    {
        let first = self.value(&part.first, receiver, told)?;
        match &part.last {
            None => Ok(first.is_clean),
            Some(last) => {
                let last = self.value(last, receiver, told)?;
                Ok(first.is_clean && last.is_clean)
            }
        }
    }

    // A tuple of one value for all elements of an array, with its mode's name or without.
    #[cycle(expr)]
    pub(crate) fn uniform(
        &self,
        value: &Expr,
        mode: &Option<Name>,
        bracket: Pos,
        receiver: Receiver<'_>,
        told: &mut Told,
    ) -> Result<Classed, Memory>
        ensures told { HasItsGround self.now → OnOk result (told.new ≡ told.old ++ told_in (ground_in self.now) (receiver_tree receiver.entry) (uniform_tree bracket mode.now bracket (expr_tree value.now))) }
        ensures known { HasItsGround self.now → IfOk result (IsOwn (told_in (ground_in self.now) (receiver_tree receiver.entry) (uniform_tree bracket mode.now bracket (expr_tree value.now)))
            (class_as (ground_in self.now) (received_mode (receiver_tree receiver.entry)) (uniform_tree bracket mode.now bracket (expr_tree value.now)))) }
    {
        match mode {
            None => self.uniform_shaped(value, bracket, receiver, told),
            Some(name) => {
                let own = self.evaluation.mode_of_name(name)?;
                self.uniform_shaped(value, bracket, Receiver::Mode(own.as_ref()), told)
            }
        }
    }

    // Such a tuple that takes its mode from a receiver.
    #[tactic(auto, using(crate::proofs::Gates::gates, crate::proofs::Shapes::shapes))]
    #[cycle(expr)]
    fn uniform_shaped(
        &self,
        value: &Expr,
        bracket: Pos,
        receiver: Receiver<'_>,
        told: &mut Told,
    ) -> Result<Classed, Memory>
        ensures told { HasItsGround self.now → OnOk result (told.new ≡ told.old ++ uniform_shaped_told (ground_in self.now) (expr_tree value.now) bracket (receiver_tree receiver.entry)) }
        ensures known { HasItsGround self.now → IfOk result (IsOwn (uniform_shaped_told (ground_in self.now) (expr_tree value.now) bracket (receiver_tree receiver.entry)) (uniform_shaped_class (receiver_tree receiver.entry))) }
    {
        let shape = uniform_shape_of(receiver);
        let known = self.value(value, shape.receiver(0), told)?;
        if !known.is_clean {
            return Ok(Classed::broken());
        }
        if !tell_if(shape.is_misfit(), CheckRule::S11, bracket, told)? {
            return Ok(Classed::broken());
        }
        Ok(Classed::clean(class_of_tuple(receiver)?))
    }
}

// The class of a tuple that fits a receiver.
fn class_of_tuple(receiver: Receiver<'_>) -> Result<Option<Class>, Memory>
    ensures { IfOk result (λ c. own_class c ≡ option_map value (received_mode (receiver_tree receiver.entry))) }
{
    match receiver {
        Receiver::Mode(Some(mode)) => Ok(Some(Class::Value(mode.clone()?))),
        Receiver::Mode(None)
        | Receiver::Nothing
        | Receiver::Location(_)
        | Receiver::Condition
        | Receiver::Selector
        | Receiver::Bound
        | Receiver::Members => Ok(None),
    }
}
