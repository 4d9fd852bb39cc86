// Modes for the tables: steps, each of which takes what the steps before it left.
use crate::programs::text_of;
use chill_base::{Bits, List, Memory};
use modes::{Field, Mode, Spread};
use std::alloc::Global;
use std::rc::Rc;

/// A step. Those from `Range` on take the mode that was left last. An array takes the element, and below it the index;
/// `Field` and `At` make a field of the mode, `Struct` and `StructPack` a structure of all fields from a number on.
#[derive(Drop)]
pub enum Step {
    Int,
    Bool,
    Char,
    Instance,
    Set(u32),
    Chars(u32),
    Struct(usize),
    StructPack(usize),
    Range(i64, i64),
    Powerset,
    Read,
    Named,
    Array,
    ArrayPack,
    /// With the word and the bits of the place, and the step.
    ArrayStep(u32, u32, u32, u32),
    Field(&'static str),
    /// With the word and the bits of the place.
    At(&'static str, u32, u32, u32),
}

/// The mode that the steps make, or none where one takes what isn't there.
pub fn build(alloc: Global, steps: &[Step]) -> Result<Option<Rc<Mode>>, Memory> {
    let mut modes = Vec::new(alloc);
    let mut fields = Vec::new(alloc);
    for step in steps {
        match leaf(alloc, step, &mut fields)? {
            Some(mode) => modes.push(Rc::new(alloc, mode)?)?,
            None => {
                let Some(last) = modes.pop() else {
                    return Ok(None);
                };
                if !over(alloc, step, last, &mut modes, &mut fields)? {
                    return Ok(None);
                }
            }
        }
    }
    Ok(modes.pop())
}

// The mode of a step that takes none.
fn leaf(alloc: Global, step: &Step, fields: &mut Vec<Field>) -> Result<Option<Mode>, Memory> {
    match step {
        Step::Int => Ok(Some(Mode::Int)),
        Step::Bool => Ok(Some(Mode::Bool)),
        Step::Char => Ok(Some(Mode::Char)),
        Step::Instance => Ok(Some(Mode::Instance)),
        Step::Set(count) => Ok(Some(Mode::Set {
            definition: 0,
            count: *count,
        })),
        Step::Chars(length) => Ok(Some(Mode::Chars { length: *length })),
        Step::Struct(first) => structure(alloc, *first, false, fields),
        Step::StructPack(first) => structure(alloc, *first, true, fields),
        _ => Ok(None),
    }
}

// The structure of all fields from a number on.
fn structure(
    alloc: Global,
    first: usize,
    packed: bool,
    fields: &mut Vec<Field>,
) -> Result<Option<Mode>, Memory> {
    let mut taken = Vec::new(alloc);
    for _i in first..fields.len() {
        if let Some(field) = fields.pop() {
            taken.push(field)?;
        }
    }
    taken.reverse();
    Ok(Some(Mode::Struct {
        fields: List::from_vec(taken),
        packed,
    }))
}

// What a step makes of the mode that was left last; false where it takes an index that isn't there.
fn over(
    alloc: Global,
    step: &Step,
    last: Rc<Mode>,
    modes: &mut Vec<Rc<Mode>>,
    fields: &mut Vec<Field>,
) -> Result<bool, Memory> {
    match step {
        Step::Field(name) => {
            let name = text_of(alloc, name)?;
            fields.push(Field {
                name,
                mode: last,
                at: None,
            })?;
            Ok(true)
        }
        Step::At(name, word, start, end) => {
            let name = text_of(alloc, name)?;
            fields.push(Field {
                name,
                mode: last,
                at: Some(place(*word, *start, *end)),
            })?;
            Ok(true)
        }
        Step::Array => array(alloc, Spread::Words, last, modes),
        Step::ArrayPack => array(alloc, Spread::Packed, last, modes),
        Step::ArrayStep(word, start, end, step) => {
            let at = place(*word, *start, *end);
            array(alloc, Spread::Step { at, step: *step }, last, modes)
        }
        _ => {
            modes.push(Rc::new(alloc, around(step, last))?)?;
            Ok(true)
        }
    }
}

// Bits as a mode holds them.
fn place(word: u32, start: u32, end: u32) -> Bits {
    Bits {
        word,
        start,
        end,
        signed: false,
    }
}

// The array of this element, with the index that was left below it.
fn array(
    alloc: Global,
    how: Spread,
    element: Rc<Mode>,
    modes: &mut Vec<Rc<Mode>>,
) -> Result<bool, Memory> {
    let Some(index) = modes.pop() else {
        return Ok(false);
    };
    let made = Mode::Array {
        index,
        element,
        how,
    };
    modes.push(Rc::new(alloc, made)?)?;
    Ok(true)
}

// The mode around another.
fn around(step: &Step, of: Rc<Mode>) -> Mode {
    match step {
        Step::Range(low, high) => Mode::Range {
            parent: of,
            low: *low,
            high: *high,
        },
        Step::Powerset => Mode::Powerset { member: of },
        Step::Named => Mode::Named {
            definition: 0,
            novel: true,
            of,
        },
        _ => Mode::Read { of },
    }
}
