// The names and words of a report.
ghost use Rattle.std.specs.Prelude.{◌≡◌};
ghost use Rattle.run_texts.specs.Report as reports;

use crate::ProcessState;
use checked_program::Checked;
use kernel_base::{Exc, How, Over};

// The name of a process, empty where the program has none of this number.
pub(crate) fn process_name(program: &Checked, number: u32) -> &[u8]
    ensures { result.now ≡ reports.process_name program.now number }
{
    if (number as usize) < program.bodies.len() {
        program.bodies.at(number as usize).name.as_slice()
    } else {
        b""
    }
}

// The spelling of a user's exception, empty where the program has none of this number.
fn spelling(program: &Checked, number: u32) -> &[u8]
    ensures { result.now ≡ reports.spelling program.now number }
{
    if (number as usize) < program.exceptions.len() {
        program.exceptions.at(number as usize).as_slice()
    } else {
        b""
    }
}

// An exception as CHILL spells it.
pub(crate) fn exception_name(program: &Checked, exception: Exc) -> &[u8]
    ensures { result.now ≡ reports.exception_name program.now exception }
{
    match exception {
        Exc::Overflow => b"OVERFLOW",
        Exc::Rangefail => b"RANGEFAIL",
        Exc::Empty => b"EMPTY",
        Exc::Assertfail => b"ASSERTFAIL",
        Exc::Delayfail => b"DELAYFAIL",
        Exc::Spacefail => b"SPACEFAIL",
        Exc::Extinct => b"EXTINCT",
        Exc::User(number) => spelling(program, number),
    }
}

/// What the report tells of a process that didn't end normally or by STOP.
#[derive(Clone, Copy, PartialEq, Eq)]
pub enum Told {
    Raised(Exc),
    Suspended,
    Delayed,
    Active,
}

// What the report tells of a process, which holds regions or none once it goes on.
pub(crate) fn told_of(state: ProcessState, has_regions: bool) -> Option<Told>
    ensures { result ≡ reports.told_of state has_regions }
{
    match state {
        ProcessState::Active => Some(Told::Active),
        ProcessState::Delayed => Some(Told::Delayed),
        ProcessState::Chosen => {
            if has_regions {
                Some(Told::Suspended)
            } else {
                Some(Told::Active)
            }
        }
        ProcessState::Ended(How::Raised(exception)) => Some(Told::Raised(exception)),
        ProcessState::Ended(_) => None,
    }
}

// The last line, where there is one.
pub(crate) fn last_line(over: Over) -> &'static [u8]
    ensures { result.now ≡ reports.last_line over }
{
    match over {
        Over::AllEnded => b"",
        Over::Still => b"stuck\n",
        Over::Spent => b"spent\n",
    }
}
