// The exceptions that a text names, in the order in which they first stand in it: behind CAUSE, ON and EXCEPTIONS (Z.200,
// chapter on exception handling).
use crate::exceptions::Exceptions;
use chill_base::Memory;
use chill_tree::tree::{
    BodyPart, Bracketed, CaseAlternative, ElsIf, Handler, Item, Modulion, NamedAlternative,
    Procedure, Process, ReceiveAlternative, Simple, Statement, Tree,
};
use std::alloc::Global;

impl Exceptions {
    /// All exceptions that a program names.
    pub fn of(alloc: Global, tree: &Tree) -> Result<Exceptions, Memory> {
        let mut found = Exceptions::none(alloc);
        for modulion in tree.modulions.as_slice() {
            found.add_in_modulion(modulion)?;
        }
        Ok(found)
    }

    #[cycle(item)]
    fn add_in_modulion(&mut self, own: &Modulion) -> Result<(), Memory> {
        for item in own.items.as_slice() {
            self.add_in_item(item)?;
        }
        self.add_in_some_handler(&own.handler)
    }

    #[cycle(item)]
    fn add_in_item(&mut self, item: &Item) -> Result<(), Memory> {
        match item {
            Item::Seize { .. } | Item::Grant { .. } | Item::Local(_) | Item::Signals { .. } => Ok(
                (),
            ),
            Item::Procedure(procedure) => self.add_in_procedure(procedure),
            Item::Process(process) => self.add_in_process(process),
            Item::Modulion(modulion) => self.add_in_modulion(modulion),
            Item::Statement(statement) => self.add_in_statement(statement),
        }
    }

    fn add_in_procedure(&mut self, own: &Procedure) -> Result<(), Memory> {
        if let Some(names) = &own.exceptions {
            self.add_all(names.as_slice())?;
        }
        self.add_in_body(own.body.as_slice())?;
        self.add_in_some_handler(&own.handler)
    }

    fn add_in_process(&mut self, own: &Process) -> Result<(), Memory> {
        self.add_in_body(own.body.as_slice())?;
        self.add_in_some_handler(&own.handler)
    }

    #[cycle(statement)]
    fn add_in_body(&mut self, body: &[BodyPart]) -> Result<(), Memory> {
        for part in body {
            match part {
                BodyPart::Local(_) => {}
                BodyPart::Statement(statement) => self.add_in_statement(statement)?,
            }
        }
        Ok(())
    }

    #[cycle(statement)]
    fn add_in_actions(&mut self, actions: &[Statement]) -> Result<(), Memory> {
        for statement in actions {
            self.add_in_statement(statement)?;
        }
        Ok(())
    }

    #[cycle(statement)]
    fn add_in_some_handler(&mut self, handler: &Option<Box<Handler>>) -> Result<(), Memory> {
        match handler {
            None => Ok(()),
            Some(handler) => self.add_in_handler(handler),
        }
    }

    #[cycle(statement)]
    fn add_in_handler(&mut self, handler: &Handler) -> Result<(), Memory> {
        for alternative in handler.alternatives.as_slice() {
            self.add_all(alternative.names.as_slice())?;
            self.add_in_actions(alternative.actions.as_slice())?;
        }
        match &handler.otherwise {
            None => Ok(()),
            Some(actions) => self.add_in_actions(actions.as_slice()),
        }
    }

    #[cycle(statement)]
    fn add_in_statement(&mut self, statement: &Statement) -> Result<(), Memory> {
        match statement {
            Statement::Empty { .. } => Ok(()),
            Statement::Simple {
                action,
                handler,
                ..
            } => {
                if let Simple::Cause { exception, .. } = &**action {
                    self.add(exception)?;
                }
                self.add_in_some_handler(handler)
            }
            Statement::Bracketed {
                action,
                handler,
                ..
            } => {
                self.add_in_bracketed(action)?;
                self.add_in_some_handler(handler)
            }
        }
    }

    #[cycle(statement)]
    fn add_in_bracketed(&mut self, action: &Bracketed) -> Result<(), Memory> {
        match action {
            Bracketed::If {
                actions,
                branches,
                otherwise,
                ..
            } => {
                self.add_in_actions(actions.as_slice())?;
                self.add_in_branches(branches.as_slice())?;
                match otherwise {
                    None => Ok(()),
                    Some(actions) => self.add_in_actions(actions.as_slice()),
                }
            }
            Bracketed::Case {
                alternatives,
                otherwise,
                ..
            } => {
                self.add_in_choices(alternatives.as_slice())?;
                match otherwise {
                    None => Ok(()),
                    Some(actions) => self.add_in_actions(actions.as_slice()),
                }
            }
            Bracketed::Do { actions, .. } => self.add_in_actions(actions.as_slice()),
            Bracketed::Begin { body, .. } => self.add_in_body(body.as_slice()),
            Bracketed::DelayCase { alternatives, .. } => {
                self.add_in_delaying(alternatives.as_slice())
            }
            Bracketed::ReceiveCase {
                alternatives,
                otherwise,
                ..
            } => {
                self.add_in_receiving(alternatives.as_slice())?;
                match otherwise {
                    None => Ok(()),
                    Some(actions) => self.add_in_actions(actions.as_slice()),
                }
            }
        }
    }

    #[cycle(statement)]
    fn add_in_branches(&mut self, branches: &[ElsIf]) -> Result<(), Memory> {
        for branch in branches {
            self.add_in_actions(branch.actions.as_slice())?;
        }
        Ok(())
    }

    #[cycle(statement)]
    fn add_in_choices(&mut self, alternatives: &[CaseAlternative]) -> Result<(), Memory> {
        for alternative in alternatives {
            self.add_in_actions(alternative.actions.as_slice())?;
        }
        Ok(())
    }

    // The names of these alternatives are events.
    #[cycle(statement)]
    fn add_in_delaying(&mut self, alternatives: &[NamedAlternative]) -> Result<(), Memory> {
        for alternative in alternatives {
            self.add_in_actions(alternative.actions.as_slice())?;
        }
        Ok(())
    }

    #[cycle(statement)]
    fn add_in_receiving(&mut self, alternatives: &[ReceiveAlternative]) -> Result<(), Memory> {
        for alternative in alternatives {
            self.add_in_actions(alternative.actions.as_slice())?;
        }
        Ok(())
    }
}
