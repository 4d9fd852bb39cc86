// What the outermost process does: modules and regions at their places (Z.200, chapter on program structure).
use crate::around::Around;
use crate::elaboration::Elaboration;
use checked_program::{Action, Statement};
use chill_base::List;
use chill_tree::tree::{Item, Local, Modulion, ModulionKind};
use value_elaboration::{ElaborationRefusal, Thing};

impl<'a, 'b, 'c> Elaboration<'a, 'b, 'c> {
    /// The statements of some modulions.
    pub fn modulions(&self, modulions: &[Modulion]) -> Result<List<Statement>, ElaborationRefusal> {
        let mut statements = List::new(self.alloc());
        for modulion in modulions {
            statements.push(self.modulion(modulion)?)?;
        }
        Ok(statements)
    }

    // A modulion with its handler.
    #[cycle(item)]
    fn modulion(&self, own: &Modulion) -> Result<Statement, ElaborationRefusal> {
        let actions = self.items(own.items.as_slice())?;
        let action = match own.kind {
            ModulionKind::Module => Action::Module { actions },
            ModulionKind::Region => self.region(own, actions)?,
        };
        let action = self.boxed(action)?;
        let handler = self.handler(&own.handler, &Around::body(None))?;
        Ok(Statement {
            labelled: false,
            action,
            handler,
        })
    }

    // A region that does nothing where none of its declarations has a value.
    fn region(
        &self,
        own: &Modulion,
        actions: List<Statement>,
    ) -> Result<Action, ElaborationRefusal> {
        match self.thing_defined(&own.name) {
            Thing::Region(_) if !has_values(own.items.as_slice()) => Ok(Action::Nothing),
            Thing::Region(region) => Ok(Action::Region { region, actions }),
            _ => Err(ElaborationRefusal::Unsound),
        }
    }

    // What the items of a modulion do.
    #[cycle(item)]
    fn items(&self, items: &[Item]) -> Result<List<Statement>, ElaborationRefusal> {
        let mut statements = List::new(self.alloc());
        for item in items {
            match item {
                Item::Local(local) => self.add_declarations(local, &mut statements)?,
                Item::Statement(statement) => {
                    statements.push(self.statement(statement, &Around::body(None))?)?
                }
                Item::Modulion(modulion) => statements.push(self.modulion(modulion)?)?,
                Item::Seize { .. }
                | Item::Grant { .. }
                | Item::Signals { .. }
                | Item::Procedure(_)
                | Item::Process(_) => {}
            }
        }
        Ok(statements)
    }
}

// Whether some declaration has a value.
fn has_values(items: &[Item]) -> bool {
    for item in items {
        if let Item::Local(Local::Locations { declarations, .. }) = item {
            if declarations
                .as_slice()
                .iter()
                .any(|own| own.initial.is_some())
            {
                return true;
            }
        }
    }
    false
}
