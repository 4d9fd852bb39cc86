// Bodies: the outermost process, processes and procedures, without what they do (Z.200, chapter on program structure).
use crate::exceptions::Exceptions;
use crate::granted::Granted;
use crate::refusal::ElaborationRefusal;
use crate::source::{Source, shared, text};
use checked_program::{Body, Sort};
use chill_base::{List, Memory, Numbers, Text};
use chill_tree::tree::Procedure;
use mode_rules::Origin;
use modes::Mode;
use std::alloc::Global;
use std::rc::Rc;

// The name of the outermost process.
const OUTERMOST: &[u8] = b"OUTER";

// A body of a name, which has nothing yet.
fn bare(alloc: Global, definition: Option<u32>, name: Text, sort: Sort) -> Body {
    Body {
        definition,
        name,
        sort,
        region: None,
        critical: false,
        parameters: List::new(alloc),
        result: None,
        listed: Numbers::new(alloc),
        locals: List::new(alloc),
        statements: List::new(alloc),
        handler: None,
    }
}

impl<'s, 'a, 'b> Source<'s, 'a, 'b> {
    /// The outermost process, then processes and procedures, with their locals.
    pub fn bodies(&self, exceptions: &Exceptions) -> Result<List<Body>, ElaborationRefusal> {
        let mut bodies = self.heads(exceptions)?;
        self.add_locals(bodies.room())?;
        Ok(bodies)
    }

    // The bodies without their locals.
    fn heads(&self, exceptions: &Exceptions) -> Result<List<Body>, ElaborationRefusal> {
        let mut bodies = List::new(self.alloc());
        bodies.push(self.outermost()?)?;
        let mut granted = Granted::nothing(self.alloc());
        for number in 0..self.things.len() {
            let number = u32::try_from(number).unwrap_or(u32::MAX);
            match self.walk.evaluation.origin(number) {
                Some(Origin::Modulion(own)) => granted = Granted::by(self.alloc(), own)?,
                Some(Origin::Process(_)) => bodies.push(self.process(number)?)?,
                Some(Origin::Procedure(own)) => {
                    let mut body = self.procedure(number, own, exceptions)?;
                    body.critical = body.region.is_some() && granted.has(&own.name);
                    bodies.push(body)?;
                }
                _ => {}
            }
        }
        Ok(bodies)
    }

    fn outermost(&self) -> Result<Body, Memory> {
        let name = text(self.alloc(), OUTERMOST)?;
        Ok(bare(self.alloc(), None, name, Sort::Outermost))
    }

    fn process(&self, definition: u32) -> Result<Body, ElaborationRefusal> {
        let name = self.name(definition)?;
        Ok(bare(self.alloc(), Some(definition), name, Sort::Process))
    }

    fn procedure(
        &self,
        definition: u32,
        own: &Procedure,
        exceptions: &Exceptions,
    ) -> Result<Body, ElaborationRefusal> {
        let region = self.region_around(definition)?;
        let result = self.result(definition, own)?;
        let listed = match &own.exceptions {
            None => Numbers::new(self.alloc()),
            Some(names) => exceptions.numbers(self.alloc(), names.as_slice())?,
        };
        let name = self.name(definition)?;
        let mut body = bare(self.alloc(), Some(definition), name, Sort::Procedure);
        body.region = region;
        body.result = result;
        body.listed = listed;
        Ok(body)
    }

    // The mode behind RETURNS.
    fn result(
        &self,
        definition: u32,
        own: &Procedure,
    ) -> Result<Option<Rc<Mode>>, ElaborationRefusal> {
        if own.returns.is_none() {
            return Ok(None);
        }
        let entry = self.walk.evaluation.entry(definition);
        match entry.and_then(|entry| entry.mode.as_ref()) {
            None => Err(ElaborationRefusal::Unsound),
            Some(mode) => Ok(Some(shared(mode)?)),
        }
    }
}
