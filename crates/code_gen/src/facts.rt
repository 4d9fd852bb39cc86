// The facts of a program: the lowest values and the layouts of its shared locations, its counts and lengths.
ghost use Rattle.std.specs.Prelude.{◌≡◌, ◌+◌, ℕ, pos, Any, IfOk, IsErrOf, if◌then◌else◌, map, replicate};
ghost use Rattle.modes.specs.ModeTree.{mode_tree, field_tree, field_trees, field_nodes};
ghost use Rattle.kernel_base.specs.declared.value.Value.TheVariants.{Number};
ghost use Rattle.layout_map.specs.Spots.{spots_of};
ghost use Rattle.code_gen.specs.Facts as facts;
ghost use Rattle.code_gen.specs.Facts.{HasNoLayout, mode_of};
ghost use Rattle.code_gen.specs.Lowest as lowest;

use crate::refusal::FactsRefusal;
use checked_program::{Body, BufferRow, Checked, EventRow, LocationRow, SignalRow, Sort};
use chill_base::{Layout, Layouts, Lengths, List, Memory, Text};
use kernel_base::{Facts, Value, Values};
use layout_map::{LayoutRefusal, layout};
use modes::{Field, Mode, number_of_values};
use std::alloc::Global;

/// The facts of a program with an input and a budget. The number of a process is that of its body. There are none
/// only where a location has no layout: a program that breaks no rule has no such location.
pub fn facts_of(
    alloc: Global,
    program: &Checked,
    input: Text,
    units: u64,
) -> Result<Facts, FactsRefusal>
    ensures given { IfOk result (λ f. (f.input ≡ input) × (f.units ≡ units)) }
    ensures facts { IfOk result (λ f. f ≡ facts.facts_of program.now input units) }
    ensures no_layout { IsErrOf result FactsRefusal.NoLayout → Any HasNoLayout program.now.locations }
{
    let store = values_of(alloc, program.locations.as_slice())?;
    let layouts = layouts_of(alloc, program.locations.as_slice())?;
    let events = event_lengths(alloc, program.events.as_slice())?;
    let buffers = buffer_lengths(alloc, program.buffers.as_slice())?;
    let signals = receivers(alloc, program.signals.as_slice())?;
    Ok(Facts {
        store,
        layouts,
        regions: program.regions,
        events,
        buffers,
        processes: process_count(program.bodies.as_slice()),
        signals,
        input,
        units,
    })
}

// The lowest value of each location.
fn values_of(alloc: Global, locations: &[LocationRow]) -> Result<Values, Memory>
    ensures { IfOk result (λ values. values ≡ map (λ row. lowest.lowest_value (mode_of row)) locations.now) }
{
    let mut values = List::new(alloc);
    for location in locations {
        values.push(lowest_value(alloc, &location.mode)?)?;
    }
    Ok(values)
}

// The lowest value of a mode.
#[tactic(auto, using(modes::proofs::ModeViews::mode_built))]
#[cycle(lowest)]
fn lowest_value(alloc: Global, mode: &Mode) -> Result<Value, Memory>
    ensures { IfOk result (λ value. value ≡ lowest.lowest_value (mode_tree mode.now)) }
{
    match mode {
        Mode::Int | Mode::Bool | Mode::Char | Mode::Instance | Mode::Set { .. } => {
            Ok(Value::Number(0))
        }
        Mode::Range { low, .. } => Ok(Value::Number(*low)),
        Mode::Powerset { member } => Ok(Value::Members {
            size: number_of_values(member).min(u32::MAX as u64) as u32,
            offsets: List::new(alloc),
        }),
        Mode::Chars { length } => Ok(Value::Parts(blanks(alloc, *length)?)),
        Mode::Array { index, element, .. } => {
            let mut parts = List::new(alloc);
            for _i in 0..number_of_values(index) {
                parts.push(lowest_value(alloc, element)?)?;
            }
            Ok(Value::Parts(parts))
        }
        Mode::Struct { fields, .. } => Ok(Value::Parts(lowest_values(alloc, fields.as_slice())?)),
        Mode::Event { .. } | Mode::Buffer { .. } => Ok(Value::Parts(List::new(alloc))),
        Mode::Read { of } | Mode::Named { of, .. } => lowest_value(alloc, of),
    }
}

// The number of the character that a text has everywhere at first.
const BLANK: i64 = 32;

// So many blanks.
fn blanks(alloc: Global, count: u32) -> Result<Values, Memory>
    ensures { IfOk result (λ values. values ≡ replicate count (Number (pos 32))) }
{
    let mut values = List::new(alloc);
    for _i in 0..count {
        values.push(Value::Number(BLANK))?;
    }
    Ok(values)
}

// The lowest values of the fields.
#[cycle(lowest)]
fn lowest_values(alloc: Global, fields: &[Field]) -> Result<Values, Memory>
    ensures { IfOk result (λ values. values ≡ lowest.lowest_values (field_nodes (field_trees fields.now))) }
{
    let mut values = List::new(alloc);
    for field in fields {
        values.push(lowest_of_field(alloc, field)?)?;
    }
    Ok(values)
}

// The lowest value of the field.
#[tactic(auto, using(modes::proofs::ModeViews::mode_built))]
#[cycle(lowest)]
fn lowest_of_field(alloc: Global, field: &Field) -> Result<Value, Memory>
    ensures { IfOk result (λ value. value ≡ lowest.lowest_value (field_tree field.now).mode) }
{
    lowest_value(alloc, &field.mode)
}

// The layout of each location.
fn layouts_of(alloc: Global, locations: &[LocationRow]) -> Result<Layouts, FactsRefusal>
    ensures layouts { IfOk result (λ layouts. layouts ≡ map (λ row. spots_of (mode_of row)) locations.now) }
    ensures no_layout { IsErrOf result FactsRefusal.NoLayout → Any HasNoLayout locations.now }
{
    let mut layouts = List::new(alloc);
    for location in locations {
        layouts.push(layout_of(alloc, location)?)?;
    }
    Ok(layouts)
}

// The layout of a location.
fn layout_of(alloc: Global, location: &LocationRow) -> Result<Layout, FactsRefusal>
    ensures layout { IfOk result (λ layout. layout ≡ spots_of (mode_of location.now)) }
    ensures no_layout { IsErrOf result FactsRefusal.NoLayout → HasNoLayout location.now }
{
    match layout(alloc, &location.mode) {
        Ok(laid) => Ok(laid),
        Err(LayoutRefusal::Memory) => Err(FactsRefusal::Memory),
        Err(LayoutRefusal::Overlap { .. } | LayoutRefusal::Impossible { .. }) => {
            Err(FactsRefusal::NoLayout)
        }
    }
}

fn event_lengths(alloc: Global, events: &[EventRow]) -> Result<Lengths, Memory>
    ensures { IfOk result (λ lengths. lengths ≡ map (λ row. row.length) events.now) }
{
    let mut lengths = List::new(alloc);
    for event in events {
        lengths.push(event.length)?;
    }
    Ok(lengths)
}

fn buffer_lengths(alloc: Global, buffers: &[BufferRow]) -> Result<Lengths, Memory>
    ensures { IfOk result (λ lengths. lengths ≡ map (λ row. row.length) buffers.now) }
{
    let mut lengths = List::new(alloc);
    for buffer in buffers {
        lengths.push(buffer.length)?;
    }
    Ok(lengths)
}

// For each signal the process that may receive it.
fn receivers(alloc: Global, signals: &[SignalRow]) -> Result<Lengths, Memory>
    ensures { IfOk result (λ processes. processes ≡ map (λ row. row.process) signals.now) }
{
    let mut processes = List::new(alloc);
    for signal in signals {
        processes.push(signal.process)?;
    }
    Ok(processes)
}

// One more than the greatest number of a process, the outermost one having 0.
fn process_count(bodies: &[Body]) -> u32
    ensures { result ≡ facts.process_count bodies.now }
{
    let mut behind = 0;
    let mut count = 0;
    for body in bodies {
        behind += 1;
        if is_of_process(body) {
            count = behind;
        }
    }
    count.min(u32::MAX as usize) as u32
}

fn is_of_process(body: &Body) -> bool
    ensures { (n : ℕ) → facts.number_behind body.now.sort n ≡ (if result then n + 1 else 0) }
{
    match body.sort {
        Sort::Outermost | Sort::Process => true,
        Sort::Procedure => false,
    }
}
