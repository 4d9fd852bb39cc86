// Turns of a machine: what is done with it, and what it has to do.
ghost use Rattle.std.specs.Prelude.{IfOk, IfSome};
ghost use Rattle.code_machine.specs.Running.{RunsOn};

use crate::tables::{Asked, Given, answer_of, request_of, scalars_of};
use chill_base::{Item, Memory};
use code_guard::Guarded;
use code_machine::{Machine, Stop};
use kernel_base::{Answer, How};
use std::alloc::Global;

/// What is done with a machine, and what it has to do. The turns of a table are made one after the other.
pub enum Turn {
    /// A burst makes so many ticks and asks this request.
    Asks(u32, Asked),
    /// It asks to put this text, which is done.
    Puts(u32, &'static str),
    /// It asks to end, which is done, and it has ended.
    Ends(u32, How),
    /// A burst of so many ticks makes them all and asks nothing.
    Pauses(u32),
    /// The answer doesn't fit.
    Refuses(Given),
    /// The answer fits and is given.
    Takes(Given),
}

/// Whether a burst makes so many ticks and asks this request.
fn asks(
    alloc: Global,
    guarded: &Guarded,
    machine: &mut Machine,
    ticks: u32,
    asked: &Asked,
) -> Result<bool, Memory>
    requires { RunsOn guarded.now machine.old }
    ensures { RunsOn guarded.now machine.new }
{
    if !machine.can_burst() {
        return Ok(false);
    }
    let wanted = request_of(alloc, asked)?;
    match machine.burst(guarded, u32::MAX)? {
        Stop::Asks {
            ticks: made,
            request,
        } => Ok(made == ticks && request.equals(&wanted)),
        Stop::Paused { .. } => Ok(false),
    }
}

/// Whether a burst of so many ticks makes them all and asks nothing.
fn pauses(guarded: &Guarded, machine: &mut Machine, most: u32) -> Result<bool, Memory>
    requires { RunsOn guarded.now machine.old }
    ensures { RunsOn guarded.now machine.new }
{
    if most == 0 || !machine.can_burst() {
        return Ok(false);
    }
    match machine.burst(guarded, most)? {
        Stop::Asks { .. } => Ok(false),
        Stop::Paused { ticks } => Ok(ticks == most),
    }
}

/// Whether the answer doesn't fit.
fn refuses(alloc: Global, machine: &Machine, given: &Given) -> Result<bool, Memory> {
    Ok(!machine.can_answer(&answer_of(alloc, given)?))
}

/// Whether the answer fits, which is given then.
fn takes(
    alloc: Global,
    guarded: &Guarded,
    machine: &mut Machine,
    given: &Given,
) -> Result<bool, Memory>
    requires { RunsOn guarded.now machine.old }
    ensures { RunsOn guarded.now machine.new }
{
    let answer = answer_of(alloc, given)?;
    if !machine.can_answer(&answer) {
        return Ok(false);
    }
    machine.answer(answer);
    Ok(true)
}

/// Whether a burst makes so many ticks and asks this request, which is done then.
pub fn does(
    alloc: Global,
    guarded: &Guarded,
    machine: &mut Machine,
    ticks: u32,
    asked: &Asked,
) -> Result<bool, Memory>
    requires { RunsOn guarded.now machine.old }
    ensures { RunsOn guarded.now machine.new }
{
    if asks(alloc, guarded, machine, ticks, asked)? {
        takes(alloc, guarded, machine, &Given::Done)
    } else {
        Ok(false)
    }
}

/// Whether a burst makes so many ticks and asks to end, and the machine has ended then.
pub fn ends(
    alloc: Global,
    guarded: &Guarded,
    machine: &mut Machine,
    ticks: u32,
    how: How,
) -> Result<bool, Memory>
    requires { RunsOn guarded.now machine.old }
    ensures { RunsOn guarded.now machine.new }
{
    if !does(alloc, guarded, machine, ticks, &Asked::End(how))? {
        return Ok(false);
    }
    Ok(!machine.can_burst() && !machine.can_answer(&Answer::Done))
}

/// Whether the machine makes the turn.
fn makes_turn(
    alloc: Global,
    guarded: &Guarded,
    machine: &mut Machine,
    turn: &Turn,
) -> Result<bool, Memory>
    requires { RunsOn guarded.now machine.old }
    ensures { RunsOn guarded.now machine.new }
{
    match turn {
        Turn::Asks(ticks, asked) => asks(alloc, guarded, machine, *ticks, asked),
        Turn::Puts(ticks, text) => does(alloc, guarded, machine, *ticks, &Asked::Put(text)),
        Turn::Ends(ticks, how) => ends(alloc, guarded, machine, *ticks, *how),
        Turn::Pauses(most) => pauses(guarded, machine, *most),
        Turn::Refuses(given) => refuses(alloc, machine, given),
        Turn::Takes(given) => takes(alloc, guarded, machine, given),
    }
}

/// A machine of instance 5 at the first instruction of a body, where that has as many parameters.
pub fn started(
    alloc: Global,
    guarded: &Guarded,
    process: u32,
    numbers: &[i64],
) -> Result<Option<Machine>, Memory>
    ensures { IfOk result (λ machine. IfSome machine (RunsOn guarded.now)) }
{
    let scalars = scalars_of(alloc, numbers)?;
    if !Machine::can_start(guarded, process, &scalars) {
        return Ok(None);
    }
    Ok(Some(Machine::start(alloc, guarded, 5, process, scalars)?))
}

/// How many of the turns the process makes, up to the first that it doesn't make.
pub fn turns_made(
    alloc: Global,
    guarded: &Guarded,
    process: u32,
    turns: &[Turn],
) -> Result<usize, Memory> {
    let Some(mut machine) = started(alloc, guarded, process, &[])? else {
        return Ok(0);
    };
    for (place, turn) in turns.iter().enumerate() {
        if !makes_turn(alloc, guarded, &mut machine, turn)? {
            return Ok(place);
        }
    }
    Ok(turns.len())
}
