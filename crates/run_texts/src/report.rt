// How far each process has come, a line each.
ghost use Rattle.std.specs.Prelude.{◌≡◌, ◌++◌, IfOk, OnOk, length};
ghost use Rattle.run_texts.specs.Report as reports;

use crate::processes::{Processes, processes_after};
use crate::words::{Told, exception_name, last_line, process_name, told_of};
use checked_program::Checked;
use chill_base::{Memory, Text};
use kernel_base::{Event, Over};
use std::alloc::Global;

/// The report of a run: by rising instance a line for each that ended with an exception or hasn't ended, and how the run was
/// over (our own choice). A process or a user's exception that the program doesn't have is told with an empty name.
pub fn report_text(
    alloc: Global,
    program: &Checked,
    events: &[Event],
    over: Over,
) -> Result<Text, Memory>
    ensures { IfOk result (λ text. text ≡ reports.report_of program.now events.now over) }
{
    let processes = processes_after(alloc, events)?;
    let mut text = Vec::new(alloc);
    push_lines(alloc, &mut text, program, &processes)?;
    text.extend_from_slice(last_line(over))?;
    Ok(Text::from_vec(text))
}

fn push_lines(
    alloc: Global,
    text: &mut Vec<u8>,
    program: &Checked,
    processes: &Processes,
) -> Result<(), Memory>
    ensures { OnOk result (text.new.items ≡ text.old.items ++ reports.lines_below program.now processes.now (length processes.now.states)) }
{
    for instance in 0..processes.states.len() {
        let told = told_of(processes.state(instance), processes.has_regions(instance));
        if let Some(told) = told {
            push_line(
                alloc,
                text,
                program,
                instance,
                processes.number(instance),
                told,
            )?;
        }
    }
    Ok(())
}

fn push_line(
    alloc: Global,
    text: &mut Vec<u8>,
    program: &Checked,
    instance: usize,
    number: u32,
    told: Told,
) -> Result<(), Memory>
    ensures { OnOk result (text.new.items ≡ text.old.items ++ reports.line_of program.now instance number told) }
{
    let head = format!(in alloc; "process {instance} ")?;
    text.extend_from_slice(head.as_bytes())?;
    text.extend_from_slice(process_name(program, number))?;
    text.extend_from_slice(b": ")?;
    push_told(text, program, told)?;
    text.push(b'\n')?;
    Ok(())
}

fn push_told(text: &mut Vec<u8>, program: &Checked, told: Told) -> Result<(), Memory>
    ensures { OnOk result (text.new.items ≡ text.old.items ++ reports.told_text program.now told) }
{
    match told {
        Told::Raised(exception) => {
            text.extend_from_slice(b"exception ")?;
            text.extend_from_slice(exception_name(program, exception))?;
        }
        Told::Suspended => text.extend_from_slice(b"suspended")?,
        Told::Delayed => text.extend_from_slice(b"delayed")?,
        Told::Active => text.extend_from_slice(b"active")?,
    }
    Ok(())
}
