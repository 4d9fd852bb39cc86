// The types (Z.200, chapters on modes and on classes).
use chill_base::{Bits, List, Text};
use std::rc::Rc;

/// A mode: what values a location has, or that processes meet there (Z.200, chapter on modes). Parts are shared, so
/// one mode may stand in many others.
#[derive(Drop)]
#[cycle(mode)]
pub enum Mode {
    /// Whole numbers, -2147483648 to 2147483647.
    Int,
    /// FALSE and TRUE.
    Bool,
    /// Characters, 0 to 255.
    Char,
    /// The instances of processes, and NULL.
    Instance,
    /// `count` elements, whose first is defined as number `definition` in the text.
    Set {
        definition: u32,
        count: u32,
    },
    /// The values of a discrete mode from `low` to `high`.
    Range {
        parent: Rc<Mode>,
        low: i64,
        high: i64,
    },
    /// The sets of values of a discrete mode.
    Powerset {
        member: Rc<Mode>,
    },
    /// Texts of `length` characters.
    Chars {
        length: u32,
    },
    /// An element for each value of the index mode.
    Array {
        index: Rc<Mode>,
        element: Rc<Mode>,
        how: Spread,
    },
    /// Fields in order; `packed` tells that PACK is written.
    Struct {
        fields: Fields,
        packed: bool,
    },
    /// An event, with the length that is written.
    Event {
        length: Option<u32>,
    },
    /// A buffer, with the length that is written.
    Buffer {
        length: Option<u32>,
        element: Rc<Mode>,
    },
    /// The mode, whose locations are only read.
    Read {
        of: Rc<Mode>,
    },
    /// A name of the mode, whose definition has this number: a NEWMODE where it is `novel`, else a SYNMODE.
    Named {
        definition: u32,
        novel: bool,
        of: Rc<Mode>,
    },
}

/// How the elements of an array lie: each in words of its own, packed, or at the bits of `at` moved up by `step` bits
/// from one to the next. The places that modes hold have `signed` false.
#[derive(Clone, Copy)]
pub enum Spread {
    Words,
    Packed,
    Step { at: Bits, step: u32 },
}

/// A field of a structure, with its place where POS is written.
#[derive(Drop)]
#[cycle(mode)]
pub struct Field {
    pub name: Text,
    pub mode: Rc<Mode>,
    pub at: Option<Bits>,
}

/// Fields.
pub type Fields = List<Field>;

/// The class of a value (Z.200, chapter on modes and classes): what modes it goes with.
#[derive(Drop)]
pub enum Class {
    /// Of this mode.
    Value(Rc<Mode>),
    /// Of some mode that is similar.
    Derived(Rc<Mode>),
    /// NULL.
    Null,
    /// No class: it goes with no mode.
    Nothing,
}

/// The least and the greatest number of a discrete mode.
#[derive(Clone, Copy, Debug, PartialEq, Eq)]
pub struct Bounds {
    pub low: i64,
    pub high: i64,
}
