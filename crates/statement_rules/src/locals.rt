// Definitions in modulions and bodies: their values, and the expressions in their modes.
ghost use Rattle.std.specs.Prelude.{◌≡◌, ◌++◌, true, OnOk, map, option_map};
ghost use Rattle.chill_tree.specs.LocalTree.{synonym_tree, mode_definition_tree, initial_tree, declaration_tree, local_tree};
ghost use Rattle.checks_model.specs.ValueRules.{of_mode, told_some_value};
ghost use Rattle.checks_model.specs.Sites.{at_synonym, at_mode_definition, at_declaration, sites_of_local};
ghost use Rattle.checks_model.specs.Phases.{initial_expr, declared_mode, synonym_receiver, statements_told_at};
ghost use Rattle.expr_rules.specs.Views.{some_mode, receiver_tree};
ghost use Rattle.statement_laws.specs.Steps.{told_at_all};
ghost use Rattle.statement_rules.specs.Grounds.{ground_at, IsGrounded};

use crate::walk::Statements;
use chill_base::Memory;
use chill_tree::tree::{Declaration, Initial, Local, ModeDefinition, Name, Synonym};
use definition_origins::Told;
use expr_rules::Receiver;
use modes::Mode;
use std::rc::Rc;

impl<'a, 'b> Statements<'a, 'b> {
    /// What is told of definitions.
    pub fn tell_in_local(&self, local: &Local, told: &mut Told) -> Result<(), Memory>
        ensures { IsGrounded self.now → OnOk result (told.new ≡ told.old ++ told_at_all (ground_at self.now) (sites_of_local true (local_tree local.now))) }
    {
        match local {
            Local::Synonyms { synonyms, .. } => self.tell_in_synonyms(synonyms.as_slice(), told),
            Local::SynModes { modes, .. } => self.tell_in_definitions(modes.as_slice(), told),
            Local::NewModes { modes, .. } => self.tell_in_definitions(modes.as_slice(), told),
            Local::Locations { declarations, .. } => {
                self.tell_in_declarations(declarations.as_slice(), told)
            }
        }
    }

    #[tactic(auto, using(crate::proofs::Lists::lists))]
    fn tell_in_synonyms(&self, synonyms: &[Synonym], told: &mut Told) -> Result<(), Memory>
        ensures { IsGrounded self.now → OnOk result (told.new ≡ told.old ++ told_at_all (ground_at self.now) (map at_synonym (map synonym_tree synonyms.now))) }
    {
        for synonym in synonyms {
            self.tell_in_synonym(synonym, told)?;
        }
        Ok(())
    }

    #[tactic(auto, using(crate::proofs::Lists::lists))]
    fn tell_in_definitions(&self, modes: &[ModeDefinition], told: &mut Told) -> Result<(), Memory>
        ensures { IsGrounded self.now → OnOk result (told.new ≡ told.old ++ told_at_all (ground_at self.now) (map at_mode_definition (map mode_definition_tree modes.now))) }
    {
        for own in modes {
            self.tell_in_mode(&own.mode, told)?;
        }
        Ok(())
    }

    #[tactic(auto, using(crate::proofs::Lists::lists))]
    fn tell_in_declarations(
        &self,
        declarations: &[Declaration],
        told: &mut Told,
    ) -> Result<(), Memory>
        ensures { IsGrounded self.now → OnOk result (told.new ≡ told.old ++ told_at_all (ground_at self.now) (map (at_declaration true) (map declaration_tree declarations.now))) }
    {
        for declaration in declarations {
            self.tell_in_declaration(declaration, told)?;
        }
        Ok(())
    }

    // A synonym's value goes to its written mode, as the phase of modes has told; without one it goes to none.
    #[tactic(auto, using(crate::proofs::Lists::lists))]
    fn tell_in_synonym(&self, own: &Synonym, told: &mut Told) -> Result<(), Memory>
        ensures { IsGrounded self.now → OnOk result (told.new ≡ told.old ++ statements_told_at (ground_at self.now) (at_synonym (synonym_tree own.now))) }
    {
        self.tell_in_some_mode(&own.mode, told)?;
        let receiver = self.receiver_of_synonym(own);
        self.tell_value(&own.value, receiver, told)
    }

    fn receiver_of_synonym(&self, own: &Synonym) -> Receiver<'b>
        ensures { IsGrounded self.now → receiver_tree result ≡ synonym_receiver (ground_at self.now) (synonym_tree own.now) }
    {
        match &own.mode {
            None => Receiver::Nothing,
            Some(_) => Receiver::Mode(self.mode_declared(own.names.as_slice())),
        }
    }

    #[tactic(auto, using(crate::proofs::Lists::lists))]
    fn tell_in_declaration(&self, own: &Declaration, told: &mut Told) -> Result<(), Memory>
        ensures { IsGrounded self.now → OnOk result (told.new ≡ told.old ++ statements_told_at (ground_at self.now) (at_declaration true (declaration_tree own.now))) }
    {
        self.tell_in_mode(&own.mode, told)?;
        self.tell_initial(own.names.as_slice(), &own.initial, told)
    }

    // What some locations hold at first goes to their mode.
    fn tell_initial(
        &self,
        names: &[Name],
        initial: &Option<Initial>,
        told: &mut Told,
    ) -> Result<(), Memory>
        ensures { IsGrounded self.now → OnOk result (told.new ≡ told.old ++ told_some_value (ground_at self.now) (of_mode (declared_mode (ground_at self.now) names.now)) (initial_expr (option_map initial_tree initial.now))) }
    {
        match initial {
            None => Ok(()),
            Some(initial) => {
                let mode = self.mode_declared(names);
                self.tell_value(&initial.value, Receiver::Mode(mode), told)
            }
        }
    }

    // The mode of names that are defined together.
    fn mode_declared(&self, names: &[Name]) -> Option<&'b Rc<Mode>>
        ensures { IsGrounded self.now → some_mode result ≡ declared_mode (ground_at self.now) names.now }
    {
        match names.first() {
            None => None,
            Some(first) => self.walk.evaluation.mode_defined(first),
        }
    }
}
