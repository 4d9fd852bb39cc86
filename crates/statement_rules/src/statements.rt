// Statements, and what they hold (Z.200, chapter on actions). An action that holds others is told of in the order of the text:
// what is evaluated before its actions, these with what is evaluated among them, and ELSE.
ghost use Rattle.std.specs.Prelude.{◌≡◌, ◌++◌, [], Some, OnOk, IfOk, map, flat_map, option_map};
ghost use Rattle.chill_tree.specs.StatementTree.{statement_tree, bracketed_tree, branch_tree, case_tree, named_tree, receive_tree, handler_tree, boxed_handler, body_tree, statement_trees, body_trees, statement_nodes, branch_nodes, case_nodes, named_nodes, receive_nodes, handler_node, body_nodes};
ghost use Rattle.checks_model.specs.ValueRules.{condition, told_value};
ghost use Rattle.checks_model.specs.ActionRules.{told_label, told_received_names, told_exceptions};
ghost use Rattle.checks_model.specs.Sites.{sites_of, sites_of_bracketed, sites_of_each, sites_of_branches, sites_of_handler, sites_of_parts};
ghost use Rattle.expr_rules.specs.Views.{own_class};
ghost use Rattle.statement_laws.specs.Steps.{told_at_all, told_held, told_else, told_in_cases, told_in_named, told_in_receives, told_in_exceptions};
ghost use Rattle.statement_rules.specs.Grounds.{ground_at, IsGrounded};
ghost use Rattle.statement_rules.specs.Views.{around_tree};
ghost use Rattle.statement_rules.specs.Steps.{selector_class, told_in_part};

use crate::around::Around;
use crate::exceptions::{Listed, tell_exceptions};
use crate::walk::Statements;
use chill_base::Memory;
use chill_tree::tree::{
    BodyPart, Bracketed, CaseAlternative, ElsIf, Handler, NamedAlternative, ReceiveAlternative,
    Statement,
};
use definition_origins::Told;
use expr_rules::Receiver;
use modes::Class;

impl<'a, 'b> Statements<'a, 'b> {
    /// What is told of the parts of a body.
    #[tactic(auto, using(crate::proofs::Bodies::body_views))]
    #[cycle(statement)]
    pub fn tell_in_body(
        &self,
        body: &[BodyPart],
        around: Around<'_>,
        told: &mut Told,
    ) -> Result<(), Memory>
        ensures { IsGrounded self.now → OnOk result (told.new ≡ told.old ++ told_at_all (ground_at self.now) (sites_of_parts (around_tree around.entry) (body_nodes (body_trees body.now)))) }
    {
        for part in body {
            self.tell_in_part(part, around, told)?;
        }
        Ok(())
    }

    #[tactic(auto, using(crate::proofs::Bodies::statement_views))]
    #[cycle(statement)]
    fn tell_in_part(
        &self,
        part: &BodyPart,
        around: Around<'_>,
        told: &mut Told,
    ) -> Result<(), Memory>
        ensures { IsGrounded self.now → OnOk result (told.new ≡ told.old ++ told_in_part (ground_at self.now) (around_tree around.entry) (body_tree part.now)) }
    {
        match part {
            BodyPart::Local(local) => self.tell_in_local(local, told),
            BodyPart::Statement(statement) => self.tell_in_statement(statement, around, told),
        }
    }

    /// What is told of a list of actions.
    #[tactic(auto, using(crate::proofs::Lists::lists))]
    #[cycle(statement)]
    pub fn tell_in_actions(
        &self,
        actions: &[Statement],
        around: Around<'_>,
        told: &mut Told,
    ) -> Result<(), Memory>
        ensures { IsGrounded self.now → OnOk result (told.new ≡ told.old ++ told_at_all (ground_at self.now) (sites_of_each (around_tree around.entry) (statement_nodes (statement_trees actions.now)))) }
    {
        for statement in actions {
            self.tell_in_statement(statement, around, told)?;
        }
        Ok(())
    }

    /// What is told of a statement.
    #[tactic(auto, using(crate::proofs::Bodies::statement_views))]
    #[cycle(statement)]
    pub fn tell_in_statement(
        &self,
        statement: &Statement,
        around: Around<'_>,
        told: &mut Told,
    ) -> Result<(), Memory>
        ensures { IsGrounded self.now → OnOk result (told.new ≡ told.old ++ told_at_all (ground_at self.now) (sites_of (around_tree around.entry) (statement_tree statement.now))) }
    {
        match statement {
            Statement::Empty { .. } => Ok(()),
            Statement::Simple {
                action,
                handler,
                ..
            } => {
                self.tell_in_simple(action, around, told)?;
                self.tell_in_handler(handler, around, told)
            }
            Statement::Bracketed {
                action,
                handler,
                ..
            } => {
                self.tell_in_bracketed(action, around, told)?;
                self.tell_in_handler(handler, around, told)
            }
        }
    }

    #[tactic(auto, using(crate::proofs::Bodies::bracketed_views))]
    #[cycle(statement)]
    fn tell_in_bracketed(
        &self,
        action: &Bracketed,
        around: Around<'_>,
        told: &mut Told,
    ) -> Result<(), Memory>
        ensures { IsGrounded self.now → OnOk result (told.new ≡ told.old ++ told_at_all (ground_at self.now) (sites_of_bracketed (around_tree around.entry) (bracketed_tree action.now))) }
    {
        let evaluated = self.tell_evaluated(action, told)?;
        self.tell_held(action, &evaluated.class, around, told)?;
        self.tell_in_else(action, around, told)
    }

    // What is told of the actions that an action holds, ELSE aside, and of what is evaluated for each of its alternatives. Of
    // a selector the class is known.
    #[tactic(auto, using(local_names::proofs::BodyViews::statement_views))]
    #[cycle(statement)]
    fn tell_held(
        &self,
        action: &Bracketed,
        selector: &Option<Class>,
        around: Around<'_>,
        told: &mut Told,
    ) -> Result<(), Memory>
        ensures { IsGrounded self.now → own_class selector.now ≡ selector_class (ground_at self.now) (bracketed_tree action.now) → OnOk result (told.new ≡ told.old ++ told_held (ground_at self.now) (around_tree around.entry) (bracketed_tree action.now)) }
    {
        match action {
            Bracketed::If {
                actions,
                branches,
                ..
            } => {
                self.tell_in_actions(actions.as_slice(), around, told)?;
                self.tell_in_branches(branches.as_slice(), around, told)
            }
            Bracketed::Case { alternatives, .. } => {
                self.tell_in_choices(alternatives.as_slice(), selector, around, told)
            }
            Bracketed::Do { actions, .. } => self.tell_in_actions(actions.as_slice(), around, told),
            Bracketed::Begin { body, .. } => self.tell_in_body(body.as_slice(), around, told),
            Bracketed::DelayCase { alternatives, .. } => {
                self.tell_in_delays(alternatives.as_slice(), around, told)
            }
            Bracketed::ReceiveCase { alternatives, .. } => {
                self.tell_in_receiving(alternatives.as_slice(), around, told)
            }
        }
    }

    // What is told of the actions behind ELSE.
    #[tactic(auto, using(local_names::proofs::BodyViews::statement_views))]
    #[cycle(statement)]
    fn tell_in_else(
        &self,
        action: &Bracketed,
        around: Around<'_>,
        told: &mut Told,
    ) -> Result<(), Memory>
        ensures { IsGrounded self.now → OnOk result (told.new ≡ told.old ++ told_else (ground_at self.now) (around_tree around.entry) (bracketed_tree action.now)) }
    {
        match action {
            Bracketed::If { otherwise, .. }
            | Bracketed::Case { otherwise, .. }
            | Bracketed::ReceiveCase { otherwise, .. } => match otherwise {
                None => Ok(()),
                Some(actions) => self.tell_in_actions(actions.as_slice(), around, told),
            },
            Bracketed::Do { .. } | Bracketed::Begin { .. } | Bracketed::DelayCase { .. } => Ok(()),
        }
    }

    #[tactic(auto, using(crate::proofs::Lists::lists))]
    #[cycle(statement)]
    fn tell_in_branches(
        &self,
        branches: &[ElsIf],
        around: Around<'_>,
        told: &mut Told,
    ) -> Result<(), Memory>
        ensures { IsGrounded self.now → OnOk result (told.new ≡ told.old ++ told_at_all (ground_at self.now) (sites_of_branches (around_tree around.entry) (branch_nodes (map branch_tree branches.now)))) }
    {
        for branch in branches {
            self.tell_in_branch(branch, around, told)?;
        }
        Ok(())
    }

    // An ELSIF: its condition, and its actions.
    #[tactic(auto, using(local_names::proofs::BodyViews::statement_views))]
    #[cycle(statement)]
    fn tell_in_branch(
        &self,
        branch: &ElsIf,
        around: Around<'_>,
        told: &mut Told,
    ) -> Result<(), Memory>
        ensures { IsGrounded self.now → OnOk result (told.new ≡ told.old ++ (told_value (ground_at self.now) condition (branch_tree branch.now).condition
            ++ told_at_all (ground_at self.now) (sites_of_each (around_tree around.entry) (statement_nodes (branch_tree branch.now).actions)))) }
    {
        self.tell_value(&branch.condition, Receiver::Condition, told)?;
        self.tell_in_actions(branch.actions.as_slice(), around, told)
    }

    #[tactic(auto, using(crate::proofs::Lists::lists))]
    #[cycle(statement)]
    fn tell_in_choices(
        &self,
        alternatives: &[CaseAlternative],
        selector: &Option<Class>,
        around: Around<'_>,
        told: &mut Told,
    ) -> Result<(), Memory>
        ensures { IsGrounded self.now → OnOk result (told.new ≡ told.old ++ told_in_cases (ground_at self.now) (around_tree around.entry) (own_class selector.now) (case_nodes (map case_tree alternatives.now))) }
    {
        for alternative in alternatives {
            self.tell_in_choice(alternative, selector, around, told)?;
        }
        Ok(())
    }

    // An alternative of a CASE: its labels, and its actions.
    #[tactic(auto, using(local_names::proofs::BodyViews::statement_views))]
    #[cycle(statement)]
    fn tell_in_choice(
        &self,
        alternative: &CaseAlternative,
        selector: &Option<Class>,
        around: Around<'_>,
        told: &mut Told,
    ) -> Result<(), Memory>
        ensures { IsGrounded self.now → OnOk result (told.new ≡ told.old ++ (flat_map (told_label (ground_at self.now) (own_class selector.now)) (case_tree alternative.now).labels
            ++ told_at_all (ground_at self.now) (sites_of_each (around_tree around.entry) (statement_nodes (case_tree alternative.now).actions)))) }
    {
        self.tell_labels(alternative.labels.as_slice(), selector, told)?;
        self.tell_in_actions(alternative.actions.as_slice(), around, told)
    }

    // The alternatives of a DELAY CASE.
    #[tactic(auto, using(crate::proofs::Lists::lists))]
    #[cycle(statement)]
    fn tell_in_delays(
        &self,
        alternatives: &[NamedAlternative],
        around: Around<'_>,
        told: &mut Told,
    ) -> Result<(), Memory>
        ensures { IsGrounded self.now → OnOk result (told.new ≡ told.old ++ told_in_named (ground_at self.now) (around_tree around.entry) (named_nodes (map named_tree alternatives.now))) }
    {
        for alternative in alternatives {
            self.tell_in_named(alternative, around, told)?;
        }
        Ok(())
    }

    // The actions of an alternative of a DELAY CASE.
    #[tactic(auto, using(local_names::proofs::BodyViews::statement_views))]
    #[cycle(statement)]
    fn tell_in_named(
        &self,
        alternative: &NamedAlternative,
        around: Around<'_>,
        told: &mut Told,
    ) -> Result<(), Memory>
        ensures { IsGrounded self.now → OnOk result (told.new ≡ told.old ++ told_at_all (ground_at self.now) (sites_of_each (around_tree around.entry) (statement_nodes (named_tree alternative.now).actions))) }
    {
        self.tell_in_actions(alternative.actions.as_slice(), around, told)
    }

    #[tactic(auto, using(crate::proofs::Lists::lists))]
    #[cycle(statement)]
    fn tell_in_receiving(
        &self,
        alternatives: &[ReceiveAlternative],
        around: Around<'_>,
        told: &mut Told,
    ) -> Result<(), Memory>
        ensures { IsGrounded self.now → OnOk result (told.new ≡ told.old ++ told_in_receives (ground_at self.now) (around_tree around.entry) (receive_nodes (map receive_tree alternatives.now))) }
    {
        for alternative in alternatives {
            self.tell_in_receive(alternative, around, told)?;
        }
        Ok(())
    }

    // An alternative of a RECEIVE CASE: the names that it receives, and its actions.
    #[tactic(auto, using(local_names::proofs::BodyViews::statement_views))]
    #[cycle(statement)]
    fn tell_in_receive(
        &self,
        alternative: &ReceiveAlternative,
        around: Around<'_>,
        told: &mut Told,
    ) -> Result<(), Memory>
        ensures { IsGrounded self.now → OnOk result (told.new ≡ told.old ++ (told_received_names (ground_at self.now) (receive_tree alternative.now).source (receive_tree alternative.now).received
            ++ told_at_all (ground_at self.now) (sites_of_each (around_tree around.entry) (statement_nodes (receive_tree alternative.now).actions)))) }
    {
        self.tell_received(&alternative.source, &alternative.received, told)?;
        self.tell_in_actions(alternative.actions.as_slice(), around, told)
    }

    /// What is told of a handler, where there is one.
    #[cycle(statement)]
    pub fn tell_in_handler(
        &self,
        handler: &Option<Box<Handler>>,
        around: Around<'_>,
        told: &mut Told,
    ) -> Result<(), Memory>
        ensures { IsGrounded self.now → OnOk result (told.new ≡ told.old ++ told_at_all (ground_at self.now) (sites_of_handler (around_tree around.entry) (handler_node (option_map boxed_handler handler.now)))) }
    {
        match handler {
            None => Ok(()),
            Some(handler) => self.tell_in_own_handler(handler, around, told),
        }
    }

    #[tactic(auto, using(crate::proofs::Bodies::handler_views))]
    #[cycle(statement)]
    fn tell_in_own_handler(
        &self,
        handler: &Handler,
        around: Around<'_>,
        told: &mut Told,
    ) -> Result<(), Memory>
        ensures { IsGrounded self.now → OnOk result (told.new ≡ told.old ++ told_at_all (ground_at self.now) (sites_of_handler (around_tree around.entry) (handler_node (Some (handler_tree handler.now))))) }
    {
        self.tell_in_exceptions(handler.alternatives.as_slice(), around, told)?;
        if let Some(actions) = &handler.otherwise {
            self.tell_in_actions(actions.as_slice(), around, told)?;
        }
        Ok(())
    }

    // Each alternative of a handler: the exceptions that it lists, and its actions.
    #[tactic(auto, using(crate::proofs::Lists::lists))]
    #[cycle(statement)]
    fn tell_in_exceptions(
        &self,
        alternatives: &[NamedAlternative],
        around: Around<'_>,
        told: &mut Told,
    ) -> Result<(), Memory>
        ensures { IsGrounded self.now → OnOk result (told.new ≡ told.old ++ told_in_exceptions (ground_at self.now) (around_tree around.entry) [] (named_nodes (map named_tree alternatives.now))) }
    {
        let mut listed = Listed::new(self.walk.evaluation.alloc);
        for alternative in alternatives {
            listed = self.tell_in_listed(alternative, listed, around, told)?;
        }
        Ok(())
    }

    // An alternative of a handler behind the exceptions that it lists before; all that it lists so far.
    #[tactic(auto, using(local_names::proofs::BodyViews::statement_views))]
    #[cycle(statement)]
    fn tell_in_listed<'h>(
        &self,
        alternative: &'h NamedAlternative,
        earlier: Listed<'h>,
        around: Around<'_>,
        told: &mut Told,
    ) -> Result<Listed<'h>, Memory>
        ensures told { IsGrounded self.now → OnOk result (told.new ≡ told.old ++ (told_exceptions earlier.entry (named_tree alternative.now).names
            ++ told_at_all (ground_at self.now) (sites_of_each (around_tree around.entry) (statement_nodes (named_tree alternative.now).actions)))) }
        ensures listed { IfOk result (λ listed. listed ≡ earlier.entry ++ (named_tree alternative.now).names) }
    {
        let listed = tell_exceptions(alternative.names.as_slice(), earlier, told)?;
        self.tell_in_actions(alternative.actions.as_slice(), around, told)?;
        Ok(listed)
    }
}
