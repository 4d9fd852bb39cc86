// What a DELAY CASE or RECEIVE CASE lists: rules P3 and P5 of each name.
ghost use Rattle.std.specs.Prelude.{◌≡◌, ◌++◌, OnOk, map};
ghost use Rattle.chill_tree.specs.StatementTree.{named_tree, receive_tree, named_nodes, receive_nodes};
ghost use Rattle.met_names.specs.declared.purpose.Purpose.TheVariants as purposes;
ghost use Rattle.process_names.specs.Heard.{nothing_heard, heard_with, clashes, heard_name, told_listed, told_names, heard_names, told_events, told_sources};

use chill_base::Memory;
use chill_tree::tree::{Name, NamedAlternative, ReceiveAlternative};
use definition_origins::{CheckRule, Told};
use met_names::{Meeting, Meetings, Purpose};
use std::alloc::Global;
use std::collections::BTreeSet;
use std::marker::Model;

/// What an action has listed so far: the numbers of the definitions, and whether buffers or signals are among them.
#[derive(Drop)]
struct Listed {
    numbers: BTreeSet<u32>,
    has_buffer: bool,
    has_signal: bool,
}

impl Model for Listed {
    ghost use Rattle.process_names.specs.Heard.{Heard};

    ghost Value = { Heard };

    ghost view = { λ l. record { numbers = l.numbers.keys; has_buffer = l.has_buffer; has_signal = l.has_signal } };
}

impl Listed {
    // Nothing yet.
    fn new(alloc: Global) -> Listed
        ensures { result ≡ nothing_heard }
    {
        Listed {
            numbers: BTreeSet::new(alloc),
            has_buffer: false,
            has_signal: false,
        }
    }

    // Whether the definition is listed, or what is listed is of the other sort.
    fn clashes(&self, number: u32, named: Option<Meeting>) -> bool
        ensures { result ≡ clashes self.now number named }
    {
        let is_mixed = match named {
            Some(Meeting::Buffer) => self.has_signal,
            Some(Meeting::Signal) => self.has_buffer,
            Some(Meeting::Event) | Some(Meeting::Other) | None => false,
        };
        self.numbers.contains(&number) || is_mixed
    }

    // Lists one more.
    fn add(&mut self, number: u32, named: Option<Meeting>) -> Result<(), Memory>
        ensures { OnOk result (self.new ≡ heard_with self.old number named) }
    {
        self.numbers.insert(number)?;
        match named {
            Some(Meeting::Buffer) => self.has_buffer = true,
            Some(Meeting::Signal) => self.has_signal = true,
            Some(Meeting::Event) | Some(Meeting::Other) | None => {}
        }
        Ok(())
    }
}

// Rules P3 and P5 of one name behind what is listed.
fn tell_listed(
    meetings: &Meetings<'_>,
    purpose: Purpose,
    name: &Name,
    listed: &mut Listed,
    told: &mut Told,
) -> Result<(), Memory>
    ensures told { OnOk result (told.new ≡ told.old ++ told_listed meetings.now purpose listed.old name.now) }
    ensures listed { OnOk result (listed.new ≡ heard_name meetings.now listed.old name.now) }
{
    meetings.tell_misfit(purpose, name, told)?;
    let Some(number) = meetings.number_of(name) else {
        return Ok(());
    };
    let named = meetings.met_at(name);
    if listed.clashes(number, named) {
        told.tell_name(CheckRule::P5, name.at, name.text.as_slice())?;
    }
    listed.add(number, named)
}

// The events of one alternative.
fn tell_names(
    meetings: &Meetings<'_>,
    names: &[Name],
    listed: &mut Listed,
    told: &mut Told,
) -> Result<(), Memory>
    ensures told { OnOk result (told.new ≡ told.old ++ told_names meetings.now listed.old names.now) }
    ensures listed { OnOk result (listed.new ≡ heard_names meetings.now listed.old names.now) }
{
    for name in names {
        tell_listed(meetings, Purpose::Events, name, listed, told)?;
    }
    Ok(())
}

// The events of one alternative, as its tree has them.
#[tactic(auto, using(crate::proofs::BodyViews::statement_views))]
fn tell_event_names(
    meetings: &Meetings<'_>,
    alternative: &NamedAlternative,
    listed: &mut Listed,
    told: &mut Told,
) -> Result<(), Memory>
    ensures told { OnOk result (told.new ≡ told.old ++ told_names meetings.now listed.old (named_tree alternative.now).names) }
    ensures listed { OnOk result (listed.new ≡ heard_names meetings.now listed.old (named_tree alternative.now).names) }
{
    tell_names(meetings, alternative.names.as_slice(), listed, told)
}

// What one alternative receives from, as its tree has it.
#[tactic(auto, using(crate::proofs::BodyViews::statement_views))]
fn tell_source(
    meetings: &Meetings<'_>,
    alternative: &ReceiveAlternative,
    listed: &mut Listed,
    told: &mut Told,
) -> Result<(), Memory>
    ensures told { OnOk result (told.new ≡ told.old ++ told_listed meetings.now purposes.Messages listed.old (receive_tree alternative.now).source) }
    ensures listed { OnOk result (listed.new ≡ heard_name meetings.now listed.old (receive_tree alternative.now).source) }
{
    tell_listed(
        meetings,
        Purpose::Messages,
        &alternative.source,
        listed,
        told,
    )
}

/// The events that a DELAY CASE lists.
pub fn tell_events(
    meetings: &Meetings<'_>,
    alternatives: &[NamedAlternative],
    told: &mut Told,
) -> Result<(), Memory>
    ensures { OnOk result (told.new ≡ told.old ++ told_events meetings.now nothing_heard (named_nodes (map named_tree alternatives.now))) }
{
    let mut listed = Listed::new(meetings.allocator());
    for alternative in alternatives {
        tell_event_names(meetings, alternative, &mut listed, told)?;
    }
    Ok(())
}

/// The buffers and signals that a RECEIVE CASE lists.
pub fn tell_sources(
    meetings: &Meetings<'_>,
    alternatives: &[ReceiveAlternative],
    told: &mut Told,
) -> Result<(), Memory>
    ensures { OnOk result (told.new ≡ told.old ++ told_sources meetings.now nothing_heard (receive_nodes (map receive_tree alternatives.now))) }
{
    let mut listed = Listed::new(meetings.allocator());
    for alternative in alternatives {
        tell_source(meetings, alternative, &mut listed, told)?;
    }
    Ok(())
}
