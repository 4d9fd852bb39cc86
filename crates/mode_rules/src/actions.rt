// What is told in an action that holds no others, and in what controls a loop.
ghost use Rattle.std.specs.Prelude.{◌≡◌, ◌++◌, Some, None, OnOk, option_map};
ghost use Rattle.chill_tree.specs.ExprTree.{expr_trees};
ghost use Rattle.chill_tree.specs.SimpleTree.{simple_tree, control_tree};
ghost use Rattle.class_operators.specs.Predefined.{predefined_tree};
ghost use Rattle.checks_model.specs.Ground.{origin_of};
ghost use Rattle.definition_origins.specs.OriginTrees.{origin_tree};
ghost use Rattle.constant_operators.specs.Grounds.{ground_of, predefined_of, HasGround};
ghost use Rattle.mode_rules.specs.Ready.{IsReady};
ghost use Rattle.mode_rules.specs.Walk.{over_call, over_simple, over_control};

use crate::expressions::{tell_in, tell_in_all, tell_in_some, tell_in_some_all, tell_some_needed};
use chill_base::Memory;
use chill_tree::tree::{Control, Expr, Name, Simple};
use constant_operators::Evaluation;
use constant_rules::routine;
use definition_origins::{Origin, Predefined, Told};

// The predefined name that something is defined by.
fn predefined_in(origin: Option<Origin<'_>>) -> Option<Predefined>
    ensures { option_map predefined_tree result ≡ predefined_of (option_map origin_tree origin.entry) }
{
    match origin {
        Some(Origin::Predefined(own)) => Some(own),
        Some(Origin::Synonym { .. })
        | Some(Origin::SynMode(_))
        | Some(Origin::NewMode(_))
        | Some(Origin::Element(_))
        | Some(Origin::Location { .. })
        | Some(Origin::Parameter { .. })
        | Some(Origin::Counter(_))
        | Some(Origin::Received { .. })
        | Some(Origin::Procedure(_))
        | Some(Origin::Process(_))
        | Some(Origin::Signal(_))
        | Some(Origin::Modulion(_))
        | None => None,
    }
}

// The predefined name that a used name is.
fn predefined_used(ground: &Evaluation<'_>, name: &Name) -> Option<Predefined>
    ensures { HasGround ground.now → option_map predefined_tree result ≡ predefined_of (origin_of (ground_of ground.now) name.now) }
{
    let origin = ground.origin_used(name.at);
    predefined_in(origin)
}

// A predefined routine that stands as an action may be one of constants.
fn tell_in_routine(
    ground: &Evaluation<'_>,
    name: &Name,
    own: Predefined,
    args: &[Expr],
    told: &mut Told,
) -> Result<(), Memory>
    ensures { IsReady ground.now → predefined_of (origin_of (ground_of ground.now) name.now) ≡ Some (predefined_tree own) → OnOk result (told.new ≡ told.old ++ over_call (ground_of ground.now) name.now (expr_trees args.now)) }
{
    let _found = routine(ground, name.at, own, args, told)?;
    Ok(())
}

// What is told in the arguments of what is called.
fn tell_in_arguments(
    ground: &Evaluation<'_>,
    name: &Name,
    args: &[Expr],
    told: &mut Told,
) -> Result<(), Memory>
    ensures { IsReady ground.now → predefined_of (origin_of (ground_of ground.now) name.now) ≡ None → OnOk result (told.new ≡ told.old ++ over_call (ground_of ground.now) name.now (expr_trees args.now)) }
{
    tell_in_all(ground, args, told)?;
    Ok(())
}

// What is told in a call that stands as an action.
fn tell_in_call(
    ground: &Evaluation<'_>,
    name: &Name,
    args: &[Expr],
    told: &mut Told,
) -> Result<(), Memory>
    ensures { IsReady ground.now → OnOk result (told.new ≡ told.old ++ over_call (ground_of ground.now) name.now (expr_trees args.now)) }
{
    match predefined_used(ground, name) {
        Some(own) => tell_in_routine(ground, name, own, args, told),
        None => tell_in_arguments(ground, name, args, told),
    }
}

/// What is told in an action that holds no others.
pub fn tell_in_simple(
    ground: &Evaluation<'_>,
    action: &Simple,
    told: &mut Told,
) -> Result<(), Memory>
    ensures { IsReady ground.now → OnOk result (told.new ≡ told.old ++ over_simple (ground_of ground.now) (simple_tree action.now)) }
{
    match action {
        Simple::Assign { target, value, .. } => {
            tell_in(ground, target, told)?;
            tell_in(ground, value, told)
        }
        Simple::Update { target, value, .. } => {
            tell_in(ground, target, told)?;
            tell_in(ground, value, told)
        }
        Simple::Call { name, args, .. } => tell_in_call(ground, name, args.as_slice(), told),
        Simple::Start { args, .. } => tell_in_all(ground, args.as_slice(), told),
        Simple::Return { value, .. } => tell_in_some(ground, value, told),
        Simple::Result { value, .. } => tell_in(ground, value, told),
        Simple::Assert { condition, .. } => tell_in(ground, condition, told),
        Simple::Delay { priority, .. } => tell_some_needed(ground, priority, told),
        Simple::Send {
            args,
            receiver,
            priority,
            ..
        } => {
            tell_in_some_all(ground, args, told)?;
            tell_in_some(ground, receiver, told)?;
            tell_some_needed(ground, priority, told)
        }
        Simple::Exit { .. }
        | Simple::Cause { .. }
        | Simple::Stop { .. }
        | Simple::Continue { .. } => Ok(()),
    }
}

/// What is told in what controls a loop.
pub fn tell_in_control(
    ground: &Evaluation<'_>,
    control: &Control,
    told: &mut Told,
) -> Result<(), Memory>
    ensures { IsReady ground.now → OnOk result (told.new ≡ told.old ++ over_control (ground_of ground.now) (control_tree control.now)) }
{
    match control {
        Control::While { condition, .. } => tell_in(ground, condition, told),
        Control::Forever { .. } => Ok(()),
        Control::Members { set, condition, .. } => {
            tell_in(ground, set, told)?;
            tell_in_some(ground, condition, told)
        }
        Control::Steps {
            start,
            step,
            end,
            condition,
            ..
        } => {
            tell_in(ground, start, told)?;
            tell_in_some(ground, step, told)?;
            tell_in(ground, end, told)?;
            tell_in_some(ground, condition, told)
        }
    }
}
