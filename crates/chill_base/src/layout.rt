// Where the scalars of a location lie, and lists of lengths.
ghost use Rattle.std.specs.Prelude.{◌≡◌, ◌↔◌, IfOk, IsTrue};

use crate::{Item, List, Memory};

/// Where a scalar lies in the layout of its location: bits `start` to `end` of a word of 32 bits, bit 0 the lowest.
/// A signed scalar is held in two's complement.
#[derive(Clone, Copy, PartialEq, Eq)]
pub struct Bits {
    pub word: u32,
    pub start: u32,
    pub end: u32,
    pub signed: bool,
}

/// The places of a location's scalars, in their order.
pub type Layout = List<Bits>;

/// The layouts of several locations.
pub type Layouts = List<Layout>;

/// Lengths of events and buffers, none where there is no limit; or processes of signals, none where any may receive.
pub type Lengths = List<Option<u32>>;

impl Item for Bits {
    fn copy(&self) -> Result<Self, Memory> {
        Ok(*self)
    }

    fn equals(&self, other: &Self) -> bool {
        *self == *other
    }
}

impl Item for Option<u32> {
    fn copy(&self) -> Result<Self, Memory> {
        Ok(*self)
    }

    fn equals(&self, other: &Self) -> bool {
        *self == *other
    }
}
