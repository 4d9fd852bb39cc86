// What is known of a node by what is known of its parts: its class and, where it is a constant, its value. The checks of
// statements ask for the same classes.
use crate::values::Values;
use chill_base::Memory;
use chill_tree::tree::{Expr as Tree, Name, Operator, Prefix};
use class_operators::{class_of_binary, class_of_routine, class_of_unary};
use modes::Class;
use program_numbers::{Computed, Known, Measured, Predefined};

impl<'a, 'b, 'c> Values<'a, 'b, 'c> {
    // A whole number, with a minus before it that makes one number with it or without. It is one of INT.
    pub(crate) fn known_whole(&self, value: u64, is_negative: bool) -> Result<Known, Memory> {
        match i64::try_from(value) {
            Ok(number) if is_negative => self.walk.evaluation.int(-number),
            Ok(number) => self.walk.evaluation.int(number),
            Err(_) => Ok(Known::unknown()),
        }
    }

    // THIS, and what START gives.
    pub(crate) fn known_instance(&self) -> Result<Known, Memory> {
        Ok(Known::of_class(self.walk.class_of_instance()?))
    }

    // What RECEIVE gives of a buffer.
    pub(crate) fn known_received(&self, buffer: &Name) -> Result<Known, Memory> {
        Ok(varying(self.walk.class_of_received(buffer)?))
    }

    // A name alone.
    pub(crate) fn known_name(&self, name: &Name) -> Result<Known, Memory> {
        match self.walk.evaluation.used_at(name.at) {
            Some(number) if self.walk.evaluation.is_constant_name(number) => {
                self.walk.evaluation.constant_name(number)
            }
            Some(_) | None => Ok(varying(self.walk.class_of_name(name)?)),
        }
    }

    // An element of something: no value where it has none.
    pub(crate) fn known_element(&self, of: &Known) -> Result<Known, Memory> {
        match &of.class {
            None => Ok(Known::unknown()),
            Some(class) => Ok(Known::of_class(self.walk.class_of_element(class)?)),
        }
    }

    // A field of something: no value where it has none of that name.
    pub(crate) fn known_field(&self, of: &Known, name: &[u8]) -> Result<Known, Memory> {
        match &of.class {
            None => Ok(Known::unknown()),
            Some(class) => Ok(Known::of_class(self.walk.class_of_field(class, name)?)),
        }
    }

    // What a call of the procedure of that name gives.
    pub(crate) fn known_result(&self, name: &Name) -> Result<Known, Memory> {
        Ok(varying(self.walk.class_of_result(name)?))
    }

    // Two operands with an operator between them, or none where they don't fit it.
    pub(crate) fn known_binary(
        &self,
        operator: Operator,
        left: &Known,
        right: &Known,
    ) -> Result<Option<Known>, Memory> {
        if left.is_constant && right.is_constant {
            let computed = self.walk.evaluation.computed_binary(operator, left, right)?;
            return Ok(known_of(computed));
        }
        let (Some(one), Some(other)) = (&left.class, &right.class) else {
            return Ok(Some(Known::unknown()));
        };
        let class = class_of_binary(self.walk.evaluation.alloc, operator, one, other)?;
        Ok(varying_of(class))
    }

    // An operand with an operator before it, or none where it doesn't fit.
    pub(crate) fn known_unary(
        &self,
        operator: Prefix,
        operand: &Known,
    ) -> Result<Option<Known>, Memory> {
        if operand.is_constant {
            return Ok(known_of(self.walk.evaluation.computed_unary(operator, operand)?));
        }
        match &operand.class {
            None => Ok(Some(Known::unknown())),
            Some(class) => Ok(varying_of(class_of_unary(
                self.walk.evaluation.alloc,
                operator,
                class,
            )?)),
        }
    }

    // NUM and the like, or none where the argument doesn't fit.
    pub(crate) fn known_routine(
        &self,
        own: Predefined,
        arg: &Known,
    ) -> Result<Option<Known>, Memory> {
        if arg.is_constant {
            return Ok(known_of(self.walk.evaluation.computed_routine(own, arg)?));
        }
        match &arg.class {
            None => Ok(Some(Known::unknown())),
            Some(class) => Ok(varying_of(class_of_routine(
                self.walk.evaluation.alloc,
                own,
                class,
            )?)),
        }
    }

    // UPPER, LOWER or SIZE of a mode, or of a location or parameter with its parts.
    pub(crate) fn known_measure(
        &self,
        own: Predefined,
        arg: &Tree,
    ) -> Result<Option<Known>, Memory> {
        match self.walk.evaluation.measured(arg)? {
            Measured::Mode(mode) => self.walk.evaluation.measure_of(own, &mode),
            Measured::Misfit => Ok(None),
            Measured::Broken | Measured::Other => Ok(Some(Known::unknown())),
        }
    }

    // GET_INT.
    pub(crate) fn known_input(&self) -> Result<Known, Memory> {
        let mode = self.walk.evaluation.plain.int.clone()?;
        Ok(Known::of_class(Class::Value(mode)))
    }
}

// What isn't constant, of a class, where that is known.
fn varying(class: Option<Class>) -> Known {
    match class {
        None => Known::unknown(),
        Some(class) => Known::of_class(class),
    }
}

// What isn't constant, of a class, where there is one.
fn varying_of(class: Option<Class>) -> Option<Known> {
    match class {
        None => None,
        Some(class) => Some(Known::of_class(class)),
    }
}

// What came of an operator or a routine on constants. One that would raise an exception has a class, but no value: that is
// told in the phase of modes and constants.
fn known_of(computed: Computed) -> Option<Known> {
    match computed {
        Computed::Known(known) => Some(known),
        Computed::OutOfRange(class) => Some(Known::constant_of_class(class)),
        Computed::Misfit => None,
    }
}
