// How many nodes definitions and simple actions have.
ghost use Rattle.std.specs.Prelude.{◌≡◌, map, option_map};
ghost use Rattle.chill_tree.specs.ExprTree.{expr_trees};
ghost use Rattle.chill_tree.specs.LocalTree.{local_tree, synonym_tree, mode_definition_tree, declaration_tree, initial_tree};
ghost use Rattle.chill_tree.specs.SimpleTree.{simple_tree, control_tree};
ghost use Rattle.text_size.specs.Sizes as counts;
ghost use Rattle.text_size.specs.Nodes.{capped};

use crate::mode_nodes::{nodes_in_mode, nodes_in_some_mode};
use crate::nodes::{nodes_in, nodes_in_all, nodes_in_some};
use chill_base::List;
use chill_tree::tree::{
    Control, Declaration, Expr, Initial, Local, ModeDefinition, Simple, Synonym,
};

/// The nodes in a definition statement.
pub fn nodes_in_local(local: &Local) -> u32
    ensures { result ≡ capped (counts.nodes_in_local (local_tree local.now)) }
{
    match local {
        Local::Synonyms { synonyms, .. } => nodes_in_synonyms(synonyms.as_slice()),
        Local::SynModes { modes, .. } => nodes_in_definitions(modes.as_slice()),
        Local::NewModes { modes, .. } => nodes_in_definitions(modes.as_slice()),
        Local::Locations { declarations, .. } => nodes_in_declarations(declarations.as_slice()),
    }
}

fn nodes_in_synonyms(synonyms: &[Synonym]) -> u32
    ensures { result ≡ capped (counts.nodes_in_synonyms (map synonym_tree synonyms.now)) }
{
    let mut count = 0_u32;
    for own in synonyms {
        let mode = nodes_in_some_mode(&own.mode);
        count = count
            .saturating_add(mode)
            .saturating_add(nodes_in(&own.value));
    }
    count
}

fn nodes_in_definitions(modes: &[ModeDefinition]) -> u32
    ensures { result ≡ capped (counts.nodes_in_definitions (map mode_definition_tree modes.now)) }
{
    let mut count = 0_u32;
    for own in modes {
        count = count.saturating_add(nodes_in_mode(&own.mode));
    }
    count
}

fn nodes_in_declarations(declarations: &[Declaration]) -> u32
    ensures { result ≡ capped (counts.nodes_in_declarations (map declaration_tree declarations.now)) }
{
    let mut count = 0_u32;
    for own in declarations {
        let mode = nodes_in_mode(&own.mode);
        count = count
            .saturating_add(mode)
            .saturating_add(nodes_in_initial(&own.initial));
    }
    count
}

fn nodes_in_initial(initial: &Option<Initial>) -> u32
    ensures { result ≡ capped (counts.nodes_in_initial (option_map initial_tree initial.now)) }
{
    match initial {
        None => 0,
        Some(initial) => nodes_in(&initial.value),
    }
}

/// The nodes in what controls a loop.
pub fn nodes_in_control(control: &Control) -> u32
    ensures { result ≡ capped (counts.nodes_in_control (control_tree control.now)) }
{
    match control {
        Control::While { condition, .. } => nodes_in(condition),
        Control::Forever { .. } => 0,
        Control::Members { set, condition, .. } => {
            nodes_in(set).saturating_add(nodes_in_some(condition))
        }
        Control::Steps {
            start,
            step,
            end,
            condition,
            ..
        } => {
            let first = nodes_in(start).saturating_add(nodes_in_some(step));
            first
                .saturating_add(nodes_in(end))
                .saturating_add(nodes_in_some(condition))
        }
    }
}

fn nodes_in_list(exprs: &Option<List<Expr>>) -> u32
    ensures { result ≡ capped (counts.nodes_in_list (option_map expr_trees exprs.now)) }
{
    match exprs {
        None => 0,
        Some(exprs) => nodes_in_all(exprs.as_slice()),
    }
}

/// The nodes in an action that holds no other. The name of what it calls, starts or waits for is none.
pub fn nodes_in_simple(action: &Simple) -> u32
    ensures { result ≡ capped (counts.nodes_in_simple (simple_tree action.now)) }
{
    match action {
        Simple::Assign { target, value, .. } | Simple::Update { target, value, .. } => {
            nodes_in(target).saturating_add(nodes_in(value))
        }
        Simple::Call { args, .. } => nodes_in_all(args.as_slice()),
        Simple::Start { args, .. } => nodes_in_all(args.as_slice()),
        Simple::Return { value, .. } => nodes_in_some(value),
        Simple::Result { value, .. } => nodes_in(value),
        Simple::Assert { condition, .. } => nodes_in(condition),
        Simple::Delay { priority, .. } => nodes_in_some(priority),
        Simple::Send {
            args,
            receiver,
            priority,
            ..
        } => nodes_in_list(args)
            .saturating_add(nodes_in_some(receiver))
            .saturating_add(nodes_in_some(priority)),
        Simple::Exit { .. }
        | Simple::Cause { .. }
        | Simple::Stop { .. }
        | Simple::Continue { .. } => 0,
    }
}
