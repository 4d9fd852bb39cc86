// Modulions, procedures and processes (Z.200, chapter on program structure).
ghost use Rattle.std.specs.Prelude.{◌≡◌, ◌++◌, OnOk, map, flat_map, option_map};
ghost use Rattle.chill_tree.specs.ModeTree.{mode_tree};
ghost use Rattle.chill_tree.specs.StatementTree.{body_trees, boxed_handler};
ghost use Rattle.chill_tree.specs.ItemTree.{signal_tree, param_tree, formal_tree, procedure_tree, process_tree, item_tree, item_trees, item_nodes, modulion_tree, modulion_item, program_tree};
ghost use Rattle.checks_model.specs.Sites.{at_mode, sites_of_modes, sites_of_result, sites_of_body, sites_of_procedure, sites_of_process, sites_of_item};
ghost use Rattle.checks_model.specs.Phases.{told_of_statements};
ghost use Rattle.constant_operators.specs.Grounds.{ground_of, HasGround};
ghost use Rattle.statement_laws.specs.Steps.{told_at_all};
ghost use Rattle.statement_rules.specs.Grounds.{ground_at, IsGrounded};
ghost use Rattle.statement_rules.specs.Views.{around_tree};
ghost use Rattle.statement_rules.specs.Steps.{told_in_items};

use crate::around::Around;
use crate::walk::Statements;
use chill_base::{List, Memory};
use chill_tree::tree::{
    BodyPart, Formal, Handler, Item, Mode, Modulion, Param, Procedure, Process, Signal, Tree,
};
use constant_operators::Evaluation;
use definition_origins::Told;
use expr_rules::Walk;

impl<'a, 'b> Statements<'a, 'b> {
    #[tactic(auto, using(crate::proofs::Items::item_views))]
    #[cycle(item)]
    fn tell_in_modulion(&self, own: &Modulion, told: &mut Told) -> Result<(), Memory>
        ensures { IsGrounded self.now → OnOk result (told.new ≡ told.old ++ told_at_all (ground_at self.now) (sites_of_item (modulion_item (modulion_tree own.now)))) }
    {
        self.tell_in_items(own.items.as_slice(), told)?;
        self.tell_in_handler(&own.handler, Around::NoProcedure, told)
    }

    #[cycle(item)]
    fn tell_in_items(&self, items: &[Item], told: &mut Told) -> Result<(), Memory>
        ensures { IsGrounded self.now → OnOk result (told.new ≡ told.old ++ told_in_items (ground_at self.now) (item_nodes (item_trees items.now))) }
    {
        for item in items {
            self.tell_in_item(item, told)?;
        }
        Ok(())
    }

    #[tactic(auto, using(crate::proofs::Items::item_views))]
    #[cycle(item)]
    fn tell_in_item(&self, item: &Item, told: &mut Told) -> Result<(), Memory>
        ensures { IsGrounded self.now → OnOk result (told.new ≡ told.old ++ told_at_all (ground_at self.now) (sites_of_item (item_tree item.now))) }
    {
        match item {
            Item::Seize { .. } | Item::Grant { .. } => Ok(()),
            Item::Signals { signals, .. } => self.tell_in_signals(signals.as_slice(), told),
            Item::Local(local) => self.tell_in_local(local, told),
            Item::Procedure(procedure) => self.tell_in_procedure(procedure, told),
            Item::Process(process) => self.tell_in_process(process, told),
            Item::Modulion(modulion) => self.tell_in_modulion(modulion, told),
            Item::Statement(statement) => {
                self.tell_in_statement(statement, Around::NoProcedure, told)
            }
        }
    }

    #[tactic(auto, using(crate::proofs::Lists::lists))]
    fn tell_in_signals(&self, signals: &[Signal], told: &mut Told) -> Result<(), Memory>
        ensures { IsGrounded self.now → OnOk result (told.new ≡ told.old ++ told_at_all (ground_at self.now) (flat_map (λ s. sites_of_modes s.parts) (map signal_tree signals.now))) }
    {
        for signal in signals {
            self.tell_in_parts(&signal.parts, told)?;
        }
        Ok(())
    }

    // The modes of the parts of a signal.
    fn tell_in_parts(&self, parts: &Option<List<Mode>>, told: &mut Told) -> Result<(), Memory>
        ensures { IsGrounded self.now → OnOk result (told.new ≡ told.old ++ told_at_all (ground_at self.now) (sites_of_modes (option_map (map mode_tree) parts.now))) }
    {
        match parts {
            None => Ok(()),
            Some(parts) => self.tell_in_modes(parts.as_slice(), told),
        }
    }

    #[tactic(auto, using(crate::proofs::Lists::lists))]
    fn tell_in_params(&self, params: &[Param], told: &mut Told) -> Result<(), Memory>
        ensures { IsGrounded self.now → OnOk result (told.new ≡ told.old ++ told_at_all (ground_at self.now) (map (λ q. at_mode q.mode) (map param_tree params.now))) }
    {
        for param in params {
            self.tell_in_mode(&param.mode, told)?;
        }
        Ok(())
    }

    #[tactic(auto, using(crate::proofs::Lists::lists))]
    fn tell_in_formals(&self, formals: &[Formal], told: &mut Told) -> Result<(), Memory>
        ensures { IsGrounded self.now → OnOk result (told.new ≡ told.old ++ told_at_all (ground_at self.now) (map (λ q. at_mode q.mode) (map formal_tree formals.now))) }
    {
        for formal in formals {
            self.tell_in_mode(&formal.mode, told)?;
        }
        Ok(())
    }

    #[tactic(auto, using(crate::proofs::Lists::lists))]
    fn tell_in_result(&self, returns: &Option<Mode>, told: &mut Told) -> Result<(), Memory>
        ensures { IsGrounded self.now → OnOk result (told.new ≡ told.old ++ told_at_all (ground_at self.now) (sites_of_result (option_map mode_tree returns.now))) }
    {
        match returns {
            None => Ok(()),
            Some(mode) => self.tell_in_mode(mode, told),
        }
    }

    #[tactic(auto, using(crate::proofs::Lists::lists))]
    fn tell_in_procedure(&self, own: &Procedure, told: &mut Told) -> Result<(), Memory>
        ensures { IsGrounded self.now → OnOk result (told.new ≡ told.old ++ told_at_all (ground_at self.now) (sites_of_procedure (procedure_tree own.now))) }
    {
        self.tell_in_params(own.params.as_slice(), told)?;
        self.tell_in_result(&own.returns, told)?;
        self.tell_locals_of_procedure(own, told)?;
        self.tell_in_whole_body(
            own.body.as_slice(),
            &own.handler,
            Around::Procedure(own),
            told,
        )
    }

    #[tactic(auto, using(crate::proofs::Lists::lists))]
    fn tell_in_process(&self, own: &Process, told: &mut Told) -> Result<(), Memory>
        ensures { IsGrounded self.now → OnOk result (told.new ≡ told.old ++ told_at_all (ground_at self.now) (sites_of_process (process_tree own.now))) }
    {
        self.tell_in_formals(own.formals.as_slice(), told)?;
        self.tell_locals_of_process(own, told)?;
        self.tell_in_whole_body(own.body.as_slice(), &own.handler, Around::NoProcedure, told)
    }

    // A body, and its handler.
    #[tactic(auto, using(crate::proofs::Lists::lists))]
    fn tell_in_whole_body(
        &self,
        body: &[BodyPart],
        handler: &Option<Box<Handler>>,
        around: Around<'_>,
        told: &mut Told,
    ) -> Result<(), Memory>
        ensures { IsGrounded self.now → OnOk result (told.new ≡ told.old ++ told_at_all (ground_at self.now) (sites_of_body (around_tree around.entry) (body_trees body.now) (option_map boxed_handler handler.now))) }
    {
        self.tell_in_body(body, around, told)?;
        self.tell_in_handler(handler, around, told)
    }

    #[tactic(auto, using(crate::proofs::Lists::lists))]
    fn tell_in_modulions(&self, modulions: &[Modulion], told: &mut Told) -> Result<(), Memory>
        ensures { IsGrounded self.now → OnOk result (told.new ≡ told.old ++ told_at_all (ground_at self.now) (flat_map sites_of_item (map modulion_item (map modulion_tree modulions.now)))) }
    {
        for modulion in modulions {
            self.tell_in_modulion(modulion, told)?;
        }
        Ok(())
    }

    #[tactic(auto, using(crate::proofs::Lists::lists))]
    fn tell_in_program(&self, tree: &Tree, told: &mut Told) -> Result<(), Memory>
        ensures { IsGrounded self.now → OnOk result (told.new ≡ told.old ++ told_of_statements (ground_at self.now) (program_tree tree.now)) }
    {
        self.tell_outermost_locals(tree, told)?;
        self.tell_in_modulions(tree.modulions.as_slice(), told)
    }
}

/// The rules on statements that a program breaks, S1 to S12, L4 and L6, one behind the other. Its definitions are evaluated,
/// its counters and received names among them.
pub fn tell_statements(
    evaluation: &Evaluation<'_>,
    tree: &Tree,
    told: &mut Told,
) -> Result<(), Memory>
    ensures { HasGround evaluation.now → OnOk result (told.new ≡ told.old ++ told_of_statements (ground_of evaluation.now) (program_tree tree.now)) }
{
    let statements = Statements {
        walk: Walk { evaluation },
    };
    statements.tell_in_program(tree, told)
}
