// The exceptions of a program, by their numbers (Z.200, chapter on exception handling).
use crate::refusal::ElaborationRefusal;
use chill_base::{List, Memory, Numbers, Text};
use chill_tree::tree::Name;
use exception_names::{FIRST_OWN_EXCEPTION, exception_of_language};
use std::alloc::Global;
use std::collections::HashMap;

/// The exceptions that a text names, the language's aside.
pub struct Exceptions {
    numbers: HashMap<Vec<u8>, u32>,
    spellings: List<Text>,
}

// Dropped by hand, so that whoever drops one makes one call.
impl Drop for Exceptions {
    fn drop(self) {
        let Exceptions { numbers, spellings } = self;
        drop(numbers);
        drop(spellings);
    }
}

impl Exceptions {
    /// None yet.
    pub fn none(alloc: Global) -> Exceptions {
        Exceptions {
            numbers: HashMap::new(alloc),
            spellings: List::new(alloc),
        }
    }

    /// The number of an exception, where the text names it or the language has it.
    pub fn number(&self, name: &Name) -> Option<u32> {
        let spelling = name.text.as_slice();
        match exception_of_language(spelling) {
            Some(number) => Some(number),
            None => self.numbers.get(spelling).copied(),
        }
    }

    /// The numbers of exceptions, as they are listed.
    pub fn numbers(&self, alloc: Global, names: &[Name]) -> Result<Numbers, ElaborationRefusal> {
        let mut found = Numbers::new(alloc);
        for name in names {
            match self.number(name) {
                None => return Err(ElaborationRefusal::Unsound),
                Some(number) => found.push(number)?,
            }
        }
        Ok(found)
    }

    /// The spellings of the exceptions that aren't the language's, in the order of their numbers.
    pub fn into_spellings(self) -> List<Text> {
        let Exceptions { numbers, spellings } = self;
        drop(numbers);
        spellings
    }

    /// One more exception, where it has no number yet.
    pub fn add(&mut self, name: &Name) -> Result<(), Memory> {
        if self.number(name).is_some() {
            return Ok(());
        }
        let alloc = self.spellings.allocator();
        let number = u32::try_from(self.spellings.len()).unwrap_or(u32::MAX);
        let key = Vec::from_slice(alloc, name.text.as_slice())?;
        self.numbers
            .insert(key, number.saturating_add(FIRST_OWN_EXCEPTION))?;
        let spelling = Text::from_vec(Vec::from_slice(alloc, name.text.as_slice())?);
        self.spellings.push(spelling)
    }

    /// Those of some exceptions that have no number yet.
    pub fn add_all(&mut self, names: &[Name]) -> Result<(), Memory> {
        for name in names {
            self.add(name)?;
        }
        Ok(())
    }
}
