// What the bodies of a program hold: that of the outermost process, then those of processes and procedures in the order of
// the text.
use crate::around::Around;
use crate::elaboration::Elaboration;
use checked_program::{Checked, Handler, Statement};
use chill_base::List;
use chill_tree::tree;
use chill_tree::tree::{BodyPart, Item, Modulion, Tree};
use modes::Mode;
use std::rc::Rc;
use value_elaboration::ElaborationRefusal;

/// What a body does.
#[derive(Drop)]
pub struct Inside {
    pub statements: List<Statement>,
    pub handler: Option<Box<Handler>>,
}

impl<'a, 'b, 'c> Elaboration<'a, 'b, 'c> {
    /// What the bodies of a program do.
    pub fn insides(&self, tree: &Tree) -> Result<List<Inside>, ElaborationRefusal> {
        let modulions = tree.modulions.as_slice();
        let mut insides = List::new(self.alloc());
        insides.push(Inside {
            statements: self.modulions(modulions)?,
            handler: None,
        })?;
        for modulion in modulions {
            self.add_insides(modulion, &mut insides)?;
        }
        Ok(insides)
    }

    // Adds what the bodies in a modulion do.
    #[cycle(bodies)]
    fn add_insides(
        &self,
        modulion: &Modulion,
        insides: &mut List<Inside>,
    ) -> Result<(), ElaborationRefusal> {
        for item in modulion.items.as_slice() {
            match item {
                Item::Modulion(own) => self.add_insides(own, insides)?,
                Item::Process(own) => {
                    insides.push(self.inside(own.body.as_slice(), &own.handler, None)?)?
                }
                Item::Procedure(own) => {
                    let returned = self.mode_defined(&own.name);
                    insides.push(self.inside(own.body.as_slice(), &own.handler, returned)?)?
                }
                Item::Seize { .. }
                | Item::Grant { .. }
                | Item::Local(_)
                | Item::Signals { .. }
                | Item::Statement(_) => {}
            }
        }
        Ok(())
    }

    // What a body does, with its handler, where it gives back values of a mode or none.
    fn inside<'t>(
        &self,
        body: &'t [BodyPart],
        handler: &'t Option<Box<tree::Handler>>,
        returned: Option<&Rc<Mode>>,
    ) -> Result<Inside, ElaborationRefusal> {
        let none = Vec::new(self.alloc());
        let around = Around {
            labels: &none,
            result: returned,
        };
        let statements = self.body(body, &around)?;
        let handler = self.handler(handler, &around)?;
        Ok(Inside {
            statements,
            handler,
        })
    }
}

/// Puts what they do into the bodies of a program, one by one.
pub fn fill_bodies(program: &mut Checked, insides: List<Inside>) -> Result<(), ElaborationRefusal> {
    let bodies = program.bodies.room();
    if bodies.len() != insides.len() {
        return Err(ElaborationRefusal::Unsound);
    }
    for (body, inside) in bodies.iter_mut().zip(insides.into_vec()) {
        let Inside {
            statements,
            handler,
        } = inside;
        body.statements = statements;
        body.handler = handler;
    }
    Ok(())
}
