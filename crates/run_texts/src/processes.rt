// How far each process has come, as the events alone tell it.
ghost use Rattle.std.specs.Prelude.{◌≡◌, ◌++◌, [], ◌∷◌, IfOk, OnOk, slice_set, slice_index_or};
ghost use Rattle.world_model.specs.Lists.{without};
ghost use Rattle.run_texts.specs.Processes as states;

use chill_base::{List, Memory, Numbers};
use kernel_base::{Answer, Event, How, Request};
use std::alloc::Global;

/// How far a process has come.
#[derive(Clone, Copy, PartialEq, Eq)]
pub enum ProcessState {
    Active,
    /// It waits for anything but a region.
    Delayed,
    /// It needs nothing more but the region that it freed or asked for, if any.
    Chosen,
    Ended(How),
}

/// The instances, by their numbers. Instance 0 is none, and has ended.
#[derive(Drop)]
pub struct Processes {
    /// The number of the process of each instance.
    pub numbers: Numbers,
    /// The regions that each instance asked to enter and not to leave: once it goes on it holds them.
    pub regions: List<Numbers>,
    pub states: List<ProcessState>,
}

/// The instances at the end of these events.
pub fn processes_after(alloc: Global, events: &[Event]) -> Result<Processes, Memory>
    ensures { IfOk result (λ processes. processes ≡ states.processes_after events.now) }
{
    let mut processes = outermost(alloc)?;
    for event in events {
        apply(&mut processes, event)?;
    }
    Ok(processes)
}

impl Processes {
    /// How far an instance has come. One that was never made has ended.
    pub fn state(&self, instance: usize) -> ProcessState
        ensures { result ≡ states.state_of self.now instance }
    {
        if instance < self.states.len() {
            *self.states.at(instance)
        } else {
            ProcessState::Ended(How::Normal)
        }
    }

    /// Whether an instance holds a region once it goes on.
    pub fn has_regions(&self, instance: usize) -> bool
        ensures { result ≡ states.has_regions self.now instance }
    {
        instance < self.regions.len() && !self.regions.at(instance).is_empty()
    }

    /// The number of an instance's process.
    pub fn number(&self, instance: usize) -> u32
        ensures { result ≡ states.number_of self.now instance }
    {
        if instance < self.numbers.len() {
            *self.numbers.at(instance)
        } else {
            0
        }
    }
}

// The outermost process alone.
fn outermost(alloc: Global) -> Result<Processes, Memory>
    ensures { IfOk result (λ processes. processes ≡ states.outermost) }
{
    let mut processes = Processes {
        numbers: List::new(alloc),
        regions: List::new(alloc),
        states: List::new(alloc),
    };
    append(&mut processes, 0, ProcessState::Ended(How::Normal))?;
    append(&mut processes, 0, ProcessState::Active)?;
    Ok(processes)
}

fn append(processes: &mut Processes, number: u32, state: ProcessState) -> Result<(), Memory>
    ensures { OnOk result (processes.new ≡ states.appended processes.old number state) }
{
    processes.numbers.push(number)?;
    processes
        .regions
        .push(List::new(processes.regions.allocator()))?;
    processes.states.push(state)
}

fn apply(processes: &mut Processes, event: &Event) -> Result<(), Memory>
    ensures { OnOk result (processes.new ≡ states.after processes.old event.now) }
{
    match event {
        Event::Did {
            who,
            request,
            answer,
            refill,
            ..
        } => {
            ask(processes, *who, request)?;
            end(processes, *who, request);
            start(processes, request, answer)?;
            choose(processes, chosen_by(answer));
            choose(processes, *refill);
        }
        Event::Waits { who, request, .. } => {
            ask(processes, *who, request)?;
            set_state(processes, *who, state_in_wait(request));
        }
        Event::Goes { who, .. } => set_state(processes, *who, ProcessState::Active),
        Event::Runs { .. } => {}
    }
    Ok(())
}

fn set_state(processes: &mut Processes, who: u32, state: ProcessState)
    ensures { processes.new ≡ states.with_state processes.old who state }
{
    if (who as usize) < processes.states.len() {
        let states = processes.states.room();
        states[who as usize] = state;
    }
}

// What one is that waits with this request.
fn state_in_wait(request: &Request) -> ProcessState
    ensures { result ≡ states.state_in_wait request.now }
{
    match request {
        Request::Enter { .. } => ProcessState::Chosen,
        _ => ProcessState::Delayed,
    }
}

fn end(processes: &mut Processes, who: u32, request: &Request)
    ensures { processes.new ≡ states.ended processes.old who request.now }
{
    if let Request::End { how } = request {
        set_state(processes, who, ProcessState::Ended(*how));
    }
}

fn start(processes: &mut Processes, request: &Request, answer: &Answer) -> Result<(), Memory>
    ensures { OnOk result (processes.new ≡ states.started processes.old request.now answer.now) }
{
    match (request, answer) {
        (Request::Start { process, .. }, Answer::Instance(_)) => {
            append(processes, *process, ProcessState::Active)
        }
        _ => Ok(()),
    }
}

// The one that the answer tells to be chosen.
fn chosen_by(answer: &Answer) -> Option<u32>
    ensures { result ≡ states.chosen_by answer.now }
{
    match answer {
        Answer::Chose(chosen) => *chosen,
        Answer::Handed(receiver) => Some(*receiver),
        _ => None,
    }
}

fn choose(processes: &mut Processes, chosen: Option<u32>)
    ensures { processes.new ≡ states.with_chosen processes.old chosen }
{
    if let Some(who) = chosen {
        set_state(processes, who, ProcessState::Chosen);
    }
}

// A request may enter a region or leave it.
fn ask(processes: &mut Processes, who: u32, request: &Request) -> Result<(), Memory>
    ensures { OnOk result (processes.new ≡ states.asked processes.old who request.now) }
{
    if (who as usize) < processes.regions.len() {
        let regions = processes.regions.room();
        match request {
            Request::Enter { region } => enter(&mut regions[who as usize], *region)?,
            Request::Leave { region } => {
                let rest = all_but(&regions[who as usize], *region)?;
                regions[who as usize] = rest;
            }
            _ => {}
        }
    }
    Ok(())
}

fn enter(regions: &mut Numbers, region: u32) -> Result<(), Memory>
    ensures { OnOk result (regions.new ≡ states.entered regions.old region) }
{
    if regions.as_slice().contains(&region) {
        Ok(())
    } else {
        regions.push(region)
    }
}

fn all_but(regions: &Numbers, region: u32) -> Result<Numbers, Memory>
    ensures { IfOk result (λ rest. rest ≡ without region regions.now) }
{
    let mut rest = Vec::new(regions.allocator());
    for other in regions.as_slice() {
        if *other != region {
            rest.push(*other)?;
        }
    }
    Ok(Numbers::from_vec(rest))
}
