// What a region grants (Z.200, chapters on program structure and on visibility).
use chill_base::Memory;
use chill_tree::tree::{Item, Modulion, Name, Passed};
use std::alloc::Global;
use std::collections::HashSet;

/// The names that a modulion grants, one by one or all.
#[derive(Drop)]
pub struct Granted {
    names: HashSet<Vec<u8>>,
    all: bool,
}

impl Granted {
    /// Nothing.
    pub fn nothing(alloc: Global) -> Granted {
        Granted {
            names: HashSet::new(alloc),
            all: false,
        }
    }

    /// What a modulion grants.
    pub fn by(alloc: Global, own: &Modulion) -> Result<Granted, Memory> {
        let mut granted = Granted::nothing(alloc);
        for item in own.items.as_slice() {
            match item {
                Item::Grant {
                    passed: Passed::All(_),
                    ..
                } => granted.all = true,
                Item::Grant {
                    passed: Passed::Names(names),
                    ..
                } => granted.add(alloc, names.as_slice())?,
                _ => {}
            }
        }
        Ok(granted)
    }

    fn add(&mut self, alloc: Global, names: &[Name]) -> Result<(), Memory> {
        for name in names {
            let text = Vec::from_slice(alloc, name.text.as_slice())?;
            self.names.insert(text)?;
        }
        Ok(())
    }

    /// Whether a procedure of this name that is defined in the modulion is granted.
    pub fn has(&self, procedure: &Name) -> bool {
        self.all || self.names.contains(procedure.text.as_slice())
    }
}
