// The locals of bodies: parameters, declared names, counters and received names.
use crate::refusal::ElaborationRefusal;
use crate::source::{Source, shared};
use crate::thing::Thing;
use checked_program::{Body, LocalRow, Parameter, Passing};
use chill_base::Memory;
use chill_tree::tree;
use mode_rules::Origin;
use modes::number_of_scalars;

// Which way a parameter passes its value.
fn passing_of(written: tree::Passing) -> Passing {
    match written {
        tree::Passing::In => Passing::In,
        tree::Passing::Out => Passing::Out,
        tree::Passing::InOut => Passing::InOut,
    }
}

// The number of the first scalar behind the locals that are there.
fn behind(locals: &[LocalRow]) -> u32 {
    match locals.last() {
        None => 0,
        Some(last) => last.first.saturating_add(last.count),
    }
}

impl<'s, 'a, 'b> Source<'s, 'a, 'b> {
    /// Puts its locals into each body.
    pub fn add_locals(&self, bodies: &mut Vec<Body>) -> Result<(), ElaborationRefusal> {
        let mut number = 0_u32;
        for thing in self.things {
            if let Thing::Local { body, .. } = *thing {
                match bodies.get_mut(body as usize) {
                    None => return Err(ElaborationRefusal::Unsound),
                    Some(body) => self.add_local(number, body)?,
                }
            }
            number = number.saturating_add(1);
        }
        Ok(())
    }

    // Puts a local into its body, and what is passed by it.
    fn add_local(&self, definition: u32, body: &mut Body) -> Result<(), ElaborationRefusal> {
        self.add_passing(definition, body)?;
        let first = behind(body.locals.as_slice());
        let mode = shared(self.mode(definition)?)?;
        let count = number_of_scalars(&mode);
        let row = LocalRow {
            name: self.name(definition)?,
            mode,
            first,
            count,
        };
        body.locals.push(row)?;
        Ok(())
    }

    fn add_passing(&self, definition: u32, body: &mut Body) -> Result<(), Memory> {
        match self.walk.evaluation.origin(definition) {
            Some(Origin::Parameter { passing, .. }) => {
                let passing = passing_of(passing);
                body.parameters.push(Parameter { passing })
            }
            _ => Ok(()),
        }
    }
}
