// Names with their parts: locations, and parts of other values (Z.200, chapter on locations).
use crate::elaborated::{Elaborated, boxed, number_in};
use crate::values::Values;
use checked_program::{Base, Expr, Location, Operation, Part};
use chill_base::List;
use chill_tree::tree::{Expr as Tree, Name};
use class_operators::{copied, form_in};
use expr_rules::{Callee, Receiver};
use modes::{Bounds, Class, Fields, Form, Mode, bounds, number_of_scalars};
use program_numbers::{ElaborationRefusal, Known, Thing};
use std::alloc::Global;
use std::rc::Rc;

/// A location to which a value is assigned, and its mode.
#[derive(Drop)]
pub struct Target {
    pub location: Location,
    pub mode: Rc<Mode>,
}

// What the parts of a name are of.
#[derive(Drop)]
enum Root {
    Place(Base),
    Value(Box<Expr>),
}

// A name with the parts behind it, as far as they are read, and what is known of it so far.
struct Path {
    root: Root,
    parts: List<Part>,
    known: Known,
}

// Dropped by hand, so that whoever drops one makes one call.
impl Drop for Path {
    fn drop(self) {
        let Path { root, parts, known } = self;
        drop(root);
        drop(parts);
        drop(known);
    }
}

impl Path {
    // A part more, and what is known of it.
    fn with(self, part: Part, known: Known) -> Result<Path, ElaborationRefusal> {
        let Path {
            root,
            mut parts,
            known: _,
        } = self;
        parts.push(part)?;
        Ok(Path { root, parts, known })
    }

    // The contents of the location, or the part of the value.
    fn into_operation(self, alloc: Global) -> Result<Elaborated, ElaborationRefusal> {
        let Path { root, parts, known } = self;
        let operation = match root {
            Root::Value(of) => Operation::PartOf { of, parts },
            Root::Place(base) => {
                let count = count_of(&known)?;
                let location = Location { base, parts, count };
                Operation::Contents(boxed(alloc, location)?)
            }
        };
        Ok(Elaborated::found(known, boxed(alloc, operation)?))
    }

    // The location with its mode, or Unsound where it is none.
    fn into_target(self) -> Result<Target, ElaborationRefusal> {
        let Path { root, parts, known } = self;
        let count = count_of(&known)?;
        match (root, known.into_parts().0) {
            (Root::Place(base), Some(Class::Value(mode))) => Ok(Target {
                location: Location { base, parts, count },
                mode,
            }),
            _ => Err(ElaborationRefusal::Unsound),
        }
    }
}

// How many scalars it has of which this is known.
fn count_of(known: &Known) -> Result<u32, ElaborationRefusal> {
    match &known.class {
        None => Err(ElaborationRefusal::Unsound),
        Some(class) => Ok(number_in(class)),
    }
}

impl<'a, 'b, 'c> Values<'a, 'b, 'c> {
    /// A location that gets a value: a target, the argument of a parameter that is copied out, or what SET names.
    #[cycle(value)]
    pub fn target(&self, expr: &Tree) -> Result<Target, ElaborationRefusal> {
        self.path(expr)?.into_target()
    }

    /// The same without its mode.
    pub fn location(&self, expr: &Tree) -> Result<Location, ElaborationRefusal> {
        let Target { location, mode: _ } = self.target(expr)?;
        Ok(location)
    }

    // The value of a name with the parts behind it.
    #[cycle(value)]
    pub(crate) fn named(&self, expr: &Tree) -> Result<Elaborated, ElaborationRefusal> {
        match self.alone(expr)? {
            Some(value) => Ok(value),
            None => self.path(expr)?.into_operation(self.alloc()),
        }
    }

    // The value of the name of a constant, or of a call: what is no location and no part of anything.
    #[cycle(value)]
    fn alone(&self, expr: &Tree) -> Result<Option<Elaborated>, ElaborationRefusal> {
        match expr {
            Tree::Name(name) => self.constant_named(name),
            Tree::Apply { of, args, .. } => match self.walk.callee(of) {
                Callee::Procedure(name) => Ok(Some(self.called(name, args.as_slice())?)),
                Callee::Routine(own) => Ok(Some(self.routine_value(own, args.as_slice())?)),
                Callee::Nothing => Ok(None),
            },
            _ => Ok(None),
        }
    }

    // The value of a constant's name.
    fn constant_named(&self, name: &Name) -> Result<Option<Elaborated>, ElaborationRefusal> {
        let known = self.known_name(name)?;
        Ok(if known.is_constant {
            Some(Elaborated::constant(known))
        } else {
            None
        })
    }

    // A name with the parts behind it.
    #[cycle(value)]
    fn path(&self, expr: &Tree) -> Result<Path, ElaborationRefusal> {
        if let Some(value) = self.alone(expr)? {
            return self.path_of_value(value);
        }
        match expr {
            Tree::Name(name) => self.path_of_location(name),
            Tree::Apply { .. } => self.element(expr),
            Tree::Field { of, field, .. } => {
                let path = self.path(of)?;
                self.field(path, field.text.as_slice())
            }
            _ => Err(ElaborationRefusal::Unsound),
        }
    }

    fn path_of_value(&self, value: Elaborated) -> Result<Path, ElaborationRefusal> {
        let value = value.into_expr(self.alloc())?;
        let class = copied(&value.class)?;
        Ok(Path {
            root: Root::Value(value),
            parts: List::new(self.alloc()),
            known: Known::of_class(class),
        })
    }

    fn path_of_location(&self, name: &Name) -> Result<Path, ElaborationRefusal> {
        let base = match self.numbering.thing_used(self.walk, name.at) {
            Thing::Shared(number) => Base::Shared(number),
            Thing::Local { number, .. } => Base::Local(number),
            _ => return Err(ElaborationRefusal::Unsound),
        };
        Ok(Path {
            root: Root::Place(base),
            parts: List::new(self.alloc()),
            known: self.known_name(name)?,
        })
    }

    // An element of an array or a text, which is handed down whole, since its index is a part of it too.
    #[cycle(value)]
    fn element(&self, expr: &Tree) -> Result<Path, ElaborationRefusal> {
        let Tree::Apply { of, args, .. } = expr else {
            return Err(ElaborationRefusal::Unsound);
        };
        let [index] = args.as_slice() else {
            return Err(ElaborationRefusal::Unsound);
        };
        let path = self.path(of)?;
        let Some(bounds) = index_bounds(&path.known) else {
            return Err(ElaborationRefusal::Unsound);
        };
        let receiver = Receiver::Mode(self.walk.index_mode(path.known.class.as_ref()));
        let index = self.node(index, receiver)?.into_expr(self.alloc())?;
        let known = self.known_element(&path.known)?;
        let count = count_of(&known)?;
        let part = Part::Element {
            index,
            bounds,
            count,
        };
        path.with(part, known)
    }

    // A field of a structure.
    fn field(&self, path: Path, name: &[u8]) -> Result<Path, ElaborationRefusal> {
        let known = self.known_field(&path.known, name)?;
        let Some(first) = first_of_field(&path.known, name) else {
            return Err(ElaborationRefusal::Unsound);
        };
        let count = count_of(&known)?;
        let part = Part::Field { first, count };
        path.with(part, known)
    }
}

// The bounds of the indices of an array, or of a text, whose first character has the index 0.
fn index_bounds(of: &Known) -> Option<Bounds> {
    match form_of_known(of)? {
        Form::Array { index, .. } => bounds(index),
        Form::Chars(length) => Some(Bounds {
            low: 0,
            high: i64::from(length) - 1,
        }),
        _ => None,
    }
}

// What the mode is of what this is known of.
fn form_of_known(of: &Known) -> Option<Form<'_>> {
    form_in(of.class.as_ref()?)
}

// The number of the first scalar of the field of that name.
fn first_of_field(of: &Known, name: &[u8]) -> Option<u32> {
    match form_of_known(of)? {
        Form::Struct { fields, .. } => first_in(fields, name),
        _ => None,
    }
}

fn first_in(fields: &Fields, name: &[u8]) -> Option<u32> {
    let mut first = 0_u32;
    for field in fields.as_slice() {
        if field.name.as_slice() == name {
            return Some(first);
        }
        first = first.saturating_add(number_of_scalars(&field.mode));
    }
    None
}
