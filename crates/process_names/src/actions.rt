// What is told in an action that holds no others, and in what controls a loop.
ghost use Rattle.std.specs.Prelude.{◌≡◌, ◌++◌, OnOk, option_map};
ghost use Rattle.chill_tree.specs.ExprTree.{boxed_expr};
ghost use Rattle.chill_tree.specs.SimpleTree.{simple_tree, control_tree};
ghost use Rattle.process_names.specs.Walk.{purpose_of_send, over_simple, over_control};

use chill_base::Memory;
use chill_tree::tree::{Control, Expr, Simple};
use definition_origins::Told;
use met_names::{Meetings, Purpose};

// What a SEND is for, which names the instance that is to receive or doesn't.
fn purpose_of_send(receiver: &Option<Box<Expr>>) -> Purpose
    ensures { result ≡ purpose_of_send (option_map boxed_expr receiver.now) }
{
    match receiver {
        None => Purpose::Messages,
        Some(_) => Purpose::Signals,
    }
}

/// What is told in an action that holds no others.
pub fn tell_in_simple(
    meetings: &Meetings<'_>,
    action: &Simple,
    told: &mut Told,
) -> Result<(), Memory>
    ensures { OnOk result (told.new ≡ told.old ++ over_simple meetings.now (simple_tree action.now)) }
{
    match action {
        Simple::Assign { target, value, .. } => {
            meetings.tell_in(target, told)?;
            meetings.tell_in(value, told)
        }
        Simple::Update { target, value, .. } => {
            meetings.tell_in(target, told)?;
            meetings.tell_in(value, told)
        }
        Simple::Call { args, .. } => meetings.tell_in_all(args.as_slice(), told),
        Simple::Start { args, .. } => meetings.tell_in_all(args.as_slice(), told),
        Simple::Return { value, .. } => meetings.tell_in_some(value, told),
        Simple::Result { value, .. } => meetings.tell_in(value, told),
        Simple::Assert { condition, .. } => meetings.tell_in(condition, told),
        Simple::Exit { .. } | Simple::Cause { .. } | Simple::Stop { .. } => Ok(()),
        Simple::Delay {
            event,
            priority,
            ..
        } => {
            meetings.tell_misfit(Purpose::Events, event, told)?;
            meetings.tell_in_some(priority, told)
        }
        Simple::Continue { event, .. } => meetings.tell_misfit(Purpose::Events, event, told),
        Simple::Send {
            target,
            args,
            receiver,
            priority,
            ..
        } => {
            meetings.tell_misfit(purpose_of_send(receiver), target, told)?;
            meetings.tell_in_some_all(args, told)?;
            meetings.tell_in_some(receiver, told)?;
            meetings.tell_in_some(priority, told)
        }
    }
}

/// What is told in what controls a loop.
pub fn tell_in_control(
    meetings: &Meetings<'_>,
    control: &Control,
    told: &mut Told,
) -> Result<(), Memory>
    ensures { OnOk result (told.new ≡ told.old ++ over_control meetings.now (control_tree control.now)) }
{
    match control {
        Control::While { condition, .. } => meetings.tell_in(condition, told),
        Control::Forever { .. } => Ok(()),
        Control::Members { set, condition, .. } => {
            meetings.tell_in(set, told)?;
            meetings.tell_in_some(condition, told)
        }
        Control::Steps {
            start,
            step,
            end,
            condition,
            ..
        } => {
            meetings.tell_in(start, told)?;
            meetings.tell_in_some(step, told)?;
            meetings.tell_in(end, told)?;
            meetings.tell_in_some(condition, told)
        }
    }
}
