// Tuples, with a mode's name or of the mode of what receives them (Z.200, chapter on values).
use crate::elaborated::{Elaborated, boxed};
use crate::values::Values;
use checked_program::{Operation, Range, Received};
use chill_base::{List, Memory};
use chill_tree::tree::{Expr as Tree, Name, ValueRange};
use expr_rules::{Receiver, Shape, shape_of};
use modes::{Class, Form, Mode, bounds, form_of, number_of_values};
use program_numbers::{ElaborationRefusal, Known, TupleValue};
use std::rc::Rc;

impl<'a, 'b, 'c> Values<'a, 'b, 'c> {
    // A tuple of parts.
    #[cycle(value)]
    pub(crate) fn tuple(
        &self,
        parts: &[ValueRange],
        mode: &Option<Name>,
        receiver: Receiver<'_>,
    ) -> Result<Elaborated, ElaborationRefusal> {
        match (mode, receiver) {
            (Some(name), _) => {
                let own = self.mode_named(name)?;
                self.tuple_of(parts, &own, true)
            }
            (None, Receiver::Mode(Some(own))) => self.tuple_of(parts, own, false),
            (None, _) => Err(ElaborationRefusal::Unsound),
        }
    }

    // A tuple of one value for all elements of an array.
    #[cycle(value)]
    pub(crate) fn uniform(
        &self,
        value: &Tree,
        mode: &Option<Name>,
        receiver: Receiver<'_>,
    ) -> Result<Elaborated, ElaborationRefusal> {
        match (mode, receiver) {
            (Some(name), _) => {
                let own = self.mode_named(name)?;
                self.uniform_of(value, &own, true)
            }
            (None, Receiver::Mode(Some(own))) => self.uniform_of(value, own, false),
            (None, _) => Err(ElaborationRefusal::Unsound),
        }
    }

    // The mode before a tuple.
    fn mode_named(&self, name: &Name) -> Result<Rc<Mode>, ElaborationRefusal> {
        match self.walk.evaluation.mode_of_name(name)? {
            Some(mode) => Ok(mode),
            None => Err(ElaborationRefusal::Unsound),
        }
    }

    // A tuple of parts of a mode, with its name or without.
    #[cycle(value)]
    fn tuple_of(
        &self,
        parts: &[ValueRange],
        mode: &Rc<Mode>,
        is_named: bool,
    ) -> Result<Elaborated, ElaborationRefusal> {
        let shape = shape_of(Receiver::Mode(Some(mode)), parts);
        match shape {
            Shape::Members(member) => self.powerset(parts, mode, member, is_named),
            Shape::Elements(_) | Shape::Fields(_) => {
                let mut value = TupleValue::of_parts(self.alloc());
                let operation = self.parts(parts, shape, &mut value)?;
                let known = tuple_known(value, mode, is_named)?;
                Ok(Elaborated::found(known, operation))
            }
            Shape::Unknown | Shape::Misfit => Err(ElaborationRefusal::Unsound),
        }
    }

    // A tuple of members of a powerset.
    #[cycle(value)]
    fn powerset(
        &self,
        parts: &[ValueRange],
        mode: &Rc<Mode>,
        member: &Rc<Mode>,
        is_named: bool,
    ) -> Result<Elaborated, ElaborationRefusal> {
        let mut value = TupleValue::of_members(self.alloc(), member)?;
        let operation = self.members(parts, member, &mut value)?;
        let known = tuple_known(value, mode, is_named)?;
        Ok(Elaborated::found(known, operation))
    }

    // The members of a powerset, which are added to its value.
    #[cycle(value)]
    fn members(
        &self,
        parts: &[ValueRange],
        member: &Rc<Mode>,
        value: &mut TupleValue,
    ) -> Result<Box<Operation>, ElaborationRefusal> {
        let Some(bounds) = bounds(member) else {
            return Err(ElaborationRefusal::Unsound);
        };
        let mut members = List::new(self.alloc());
        for part in parts {
            members.push(self.range(part, member, value)?)?;
        }
        Ok(boxed(self.alloc(), Operation::Powerset { bounds, members })?)
    }

    // A member of a powerset, or the members from one to another.
    #[cycle(value)]
    fn range(
        &self,
        part: &ValueRange,
        member: &Rc<Mode>,
        value: &mut TupleValue,
    ) -> Result<Range, ElaborationRefusal> {
        let receiver = Receiver::Mode(Some(member));
        let first = self.node(&part.first, receiver)?;
        let Some(last) = &part.last else {
            value.add_span(member, &first.known, &first.known);
            let first = first.into_expr(self.alloc())?;
            return Ok(Range { first, last: None });
        };
        let last = self.node(last, receiver)?;
        value.add_span(member, &first.known, &last.known);
        let first = first.into_expr(self.alloc())?;
        let last = Some(last.into_expr(self.alloc())?);
        Ok(Range { first, last })
    }

    // The elements of an array or the fields of a structure, which are added to its value.
    #[cycle(value)]
    fn parts(
        &self,
        parts: &[ValueRange],
        shape: Shape<'_>,
        value: &mut TupleValue,
    ) -> Result<Box<Operation>, ElaborationRefusal> {
        let mut all = List::new(self.alloc());
        for (place, part) in parts.iter().enumerate() {
            all.push(self.part(&part.first, shape.receiver(place), value)?)?;
        }
        Ok(boxed(self.alloc(), Operation::Parts(all))?)
    }

    // An element or a field.
    #[cycle(value)]
    fn part(
        &self,
        expr: &Tree,
        receiver: Receiver<'_>,
        value: &mut TupleValue,
    ) -> Result<Received, ElaborationRefusal> {
        let Receiver::Mode(Some(mode)) = receiver else {
            return Err(ElaborationRefusal::Unsound);
        };
        let node = self.node(expr, receiver)?;
        value.add(&node.known)?;
        node.into_received(self.alloc(), mode)
    }

    // An array whose elements all have one value.
    #[cycle(value)]
    fn uniform_of(
        &self,
        value: &Tree,
        mode: &Rc<Mode>,
        is_named: bool,
    ) -> Result<Elaborated, ElaborationRefusal> {
        let Form::Array { index, element, .. } = form_of(mode) else {
            return Err(ElaborationRefusal::Unsound);
        };
        let count = number_of_values(index);
        let node = self.node(value, Receiver::Mode(Some(element)))?;
        let copies = self.copies(&node.known, count)?;
        let known = tuple_known(copies, mode, is_named)?;
        let value = node.into_received(self.alloc(), element)?;
        let elements = u32::try_from(count).unwrap_or(u32::MAX);
        self.found(known, Operation::Uniform { elements, value })
    }

    // The value of an array of so many elements of which this is known.
    fn copies(&self, element: &Known, count: u64) -> Result<TupleValue, Memory> {
        let mut all = TupleValue::of_parts(self.alloc());
        for _ in 0..count {
            all.add(element)?;
            if element.value.is_none() {
                break;
            }
        }
        Ok(all)
    }
}

// What is known of a tuple, whose mode is this. It is a constant where it has a value and is written with its mode's name;
// without one it has a value only to be a part of such a tuple.
fn tuple_known(value: TupleValue, mode: &Rc<Mode>, is_named: bool) -> Result<Known, Memory> {
    let value = value.into_value();
    let is_constant = is_named && value.is_some();
    Ok(Known {
        class: Some(Class::Value(mode.clone()?)),
        value,
        is_constant,
        is_clean: true,
    })
}
