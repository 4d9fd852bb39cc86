// What calls, STARTs and messages are to be given.
ghost use Rattle.std.specs.Prelude.{◌≡◌, ◌++◌, IfOk, OnOk, map, flat_map, option_map};
ghost use Rattle.chill_tree.specs.ItemTree.{param_tree, formal_tree};
ghost use Rattle.checks_model.specs.Ground.{mode_of_entry, entry_defined, message_parts};
ghost use Rattle.checks_model.specs.ValueRules.{of_mode, passed, receivers_of, receivers_of_param, receivers_of_formal};
ghost use Rattle.expr_rules.specs.Grounds.{ground_in, HasItsGround};
ghost use Rattle.expr_rules.specs.Views.{part_modes, some_mode, receiver_tree, formal_receiver};

use crate::receiving::Receiver;
use crate::surroundings::Walk;
use chill_base::Memory;
use chill_tree::tree::{Formal as Written, Name, Param, Passing};
use definition_origins::Origin;
use modes::Mode;
use std::rc::Rc;

/// A parameter of a procedure or process, or a part of a message.
#[derive(Clone, Copy)]
pub struct Formal<'f> {
    pub mode: Option<&'f Rc<Mode>>,
    pub passing: Passing,
}

impl<'f> Formal<'f> {
    /// What receives the argument for it.
    pub fn receiver(&self) -> Receiver<'f>
        ensures { receiver_tree result ≡ formal_receiver self.now }
    {
        match self.passing {
            Passing::In => Receiver::Mode(self.mode),
            Passing::Out | Passing::InOut => Receiver::Location(self.mode),
        }
    }
}

impl<'a, 'b> Walk<'a, 'b> {
    /// The parameters of the procedure or process that a name stands for, in order.
    pub fn formals_of(&self, name: &Name) -> Result<Vec<Formal<'b>>, Memory>
        ensures { HasItsGround self.now → IfOk result (λ found. map formal_receiver found.items ≡ receivers_of (ground_in self.now) name.now) }
    {
        let mut found = Vec::new(self.evaluation.alloc);
        match self.evaluation.origin_used(name.at) {
            Some(Origin::Procedure(procedure)) => {
                self.add_params(procedure.params.as_slice(), &mut found)?
            }
            Some(Origin::Process(process)) => {
                self.add_written(process.formals.as_slice(), &mut found)?
            }
            Some(Origin::Synonym { .. })
            | Some(Origin::SynMode(_))
            | Some(Origin::NewMode(_))
            | Some(Origin::Element(_))
            | Some(Origin::Location { .. })
            | Some(Origin::Parameter { .. })
            | Some(Origin::Counter(_))
            | Some(Origin::Received { .. })
            | Some(Origin::Signal(_))
            | Some(Origin::Modulion(_))
            | Some(Origin::Predefined(_))
            | None => {}
        }
        Ok(found)
    }

    // Adds the parameters of a procedure.
    #[tactic(auto, using(crate::proofs::FormalLists::formals))]
    fn add_params(&self, params: &[Param], found: &mut Vec<Formal<'b>>) -> Result<(), Memory>
        ensures { HasItsGround self.now → OnOk result (map formal_receiver found.new.items ≡ map formal_receiver found.old.items ++ flat_map (receivers_of_param (ground_in self.now)) (map param_tree params.now)) }
    {
        for param in params {
            self.add_formals(param.names.as_slice(), param.passing, found)?;
        }
        Ok(())
    }

    // Adds the parameters of a process.
    #[tactic(auto, using(crate::proofs::FormalLists::formals))]
    fn add_written(&self, formals: &[Written], found: &mut Vec<Formal<'b>>) -> Result<(), Memory>
        ensures { HasItsGround self.now → OnOk result (map formal_receiver found.new.items ≡ map formal_receiver found.old.items ++ flat_map (receivers_of_formal (ground_in self.now)) (map formal_tree formals.now)) }
    {
        for formal in formals {
            self.add_formals(formal.names.as_slice(), None, found)?;
        }
        Ok(())
    }

    // Adds the parameters of some names.
    #[tactic(auto, using(crate::proofs::FormalLists::formals))]
    fn add_formals(
        &self,
        names: &[Name],
        passing: Option<Passing>,
        found: &mut Vec<Formal<'b>>,
    ) -> Result<(), Memory>
        ensures { HasItsGround self.now → OnOk result (map formal_receiver found.new.items ≡ map formal_receiver found.old.items ++ map (λ n. passed passing (mode_of_entry (entry_defined (ground_in self.now) n))) names.now) }
    {
        for name in names {
            found.push(formal_of(self.evaluation.mode_defined(name), passing))?;
        }
        Ok(())
    }

    /// The parts of the messages that are sent to a buffer or by a signal, or none where the name is neither.
    #[tactic(auto, using(statement_laws::proofs::Arguments::messages))]
    pub fn formals_of_message(&self, target: &Name) -> Result<Option<Vec<Formal<'b>>>, Memory>
        ensures { HasItsGround self.now → IfOk result (λ found. option_map (λ fs. map formal_receiver fs.items) found ≡ option_map (map of_mode) (message_parts (ground_in self.now) target.now)) }
    {
        match self.parts_of_signal(target) {
            Some(parts) => Ok(Some(self.parts_of_message(parts)?)),
            None => match self.element_of_buffer(target) {
                None => Ok(None),
                mode => {
                    let mut found = Vec::new(self.evaluation.alloc);
                    found.push(part_of_message(mode))?;
                    Ok(Some(found))
                }
            },
        }
    }

    // What the parts of a signal's messages are to be.
    #[tactic(auto, using(crate::proofs::FormalLists::formals))]
    fn parts_of_message(&self, parts: &'b [Option<Rc<Mode>>]) -> Result<Vec<Formal<'b>>, Memory>
        ensures { IfOk result (λ found. map formal_receiver found.items ≡ map of_mode (part_modes parts.now)) }
    {
        let mut found = Vec::new(self.evaluation.alloc);
        for mode in parts {
            found.push(part_of_message(mode.as_ref()))?;
        }
        Ok(found)
    }
}

// A parameter of a mode, which is passed IN where nothing is written.
fn formal_of(mode: Option<&Rc<Mode>>, passing: Option<Passing>) -> Formal<'_>
    ensures { formal_receiver result ≡ passed passing (some_mode mode.entry) }
{
    match passing {
        None => part_of_message(mode),
        Some(passing) => Formal { mode, passing },
    }
}

fn part_of_message(mode: Option<&Rc<Mode>>) -> Formal<'_>
    ensures { formal_receiver result ≡ of_mode (some_mode mode.entry) }
{
    Formal {
        mode,
        passing: Passing::In,
    }
}
