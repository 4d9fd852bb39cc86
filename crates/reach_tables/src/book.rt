// The definitions of a program by their numbers.
ghost use Rattle.std.specs.Prelude.{◌≡◌, []};

use crate::table::Table;
use names_model::{Definition, Kind, Need, Spelling};

/// All definitions of a program.
#[derive(Drop)]
pub struct Book {
    /// The definitions of the text in its order, and behind them the predefined ones.
    pub all: Vec<Definition>,
    /// The numbers of the predefined ones.
    pub predefined: Table,
    /// The name of a number that no definition has.
    pub nameless: Spelling,
    pub ghost nameless_is: { nameless ≡ [] },
}

impl Book {
    ghost use Rattle.std.specs.Prelude.{◌≡◌, slice_get};
    ghost use Rattle.names_model.specs.Definitions.{elements_of, is_kind_at, kind_of, spelling_at};
    ghost use Rattle.names_model.specs.Kinds.{fits, is_location, is_measuring};

    /// The name of a definition.
    pub fn spelling(&self, number: usize) -> &Spelling
        ensures { result.now ≡ spelling_at self.now.all.items number }
    {
        match self.all.get(number) {
            Some(definition) => &definition.name.spelling,
            None => &self.nameless,
        }
    }

    /// How many elements go with a definition.
    pub fn elements(&self, number: u32) -> u32
        ensures { result ≡ elements_of (slice_get self.now.all.items number) }
    {
        match self.all.get(number as usize) {
            Some(definition) => definition.elements,
            None => 0,
        }
    }

    /// What a definition is of.
    pub fn kind(&self, number: u32) -> Option<Kind>
        ensures { result ≡ kind_of (slice_get self.now.all.items number) }
    {
        match self.all.get(number as usize) {
            Some(definition) => Some(definition.kind),
            None => None,
        }
    }

    /// Whether a definition is of a location.
    pub fn is_location(&self, number: u32) -> bool
        ensures { result ≡ is_kind_at is_location self.now.all.items number }
    {
        matches!(self.kind(number), Some(Kind::Location))
    }

    /// Whether a definition is of a kind that is needed.
    pub fn is_fit(&self, need: Need, number: u32) -> bool
        ensures { result ≡ is_kind_at (fits need) self.now.all.items number }
    {
        match self.kind(number) {
            Some(kind) => need.fits(kind),
            None => false,
        }
    }

    /// Whether a definition is of UPPER, LOWER or SIZE.
    pub fn is_measuring(&self, number: u32) -> bool
        ensures { result ≡ is_kind_at is_measuring self.now.all.items number }
    {
        matches!(self.kind(number), Some(Kind::MeasuringRoutine))
    }
}
