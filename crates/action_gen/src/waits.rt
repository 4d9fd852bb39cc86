// DELAY CASE and RECEIVE CASE: what comes before their alternatives.
#![tactic(auto, using(expr_gen::proofs::Appending::keeping))]

ghost use Rattle.std.specs.Prelude.{◌≡◌, pos, [], ◌∷◌, length, slice_get, IfOk, OnOk};
ghost use Rattle.code_types.specs.declared.instr.Instr.TheVariants as instrs;
ghost use Rattle.program_trees.specs.ProgramTree.{body_row_tree};
ghost use Rattle.program_trees.specs.StatementTree.{set_tree};
ghost use Rattle.code_scheme.specs.Pieces.{capped};
ghost use Rattle.code_scheme.specs.StatementWaits.{set_place_size, set_kept, chosen_in, set_size, count_of_events, first_received, scalars_of_row, scalars_received, receive_instr, nothing_code, is_chosen_code};
ghost use Rattle.action_gen.specs.Trees.{delays_of};
ghost use Rattle.action_gen.specs.Receiving.{kind_of, waits_else};
ghost use Rattle.expr_gen.specs.Putting.{Keeps};
ghost use Rattle.expr_gen.specs.Puts.{PutsSome};
ghost use Rattle.action_gen.specs.Puts.{PutsAllEvents, PutsDelayWait, PutsEvents, PutsNothing, PutsOneSource, PutsReceiveWait, PutsSet, PutsSetPlace, PutsSources, hearing_size, rows_around, waiting_size};

use crate::around::Around;
use checked_program::{Body, DelayAlternative, LocalRow, Location, ReceiveAlternative};
use code_types::Instr;
use expr_gen::{
    Draft, PartRefusal, first_of_local, keep_place, offsets_kept, place_size, put_kept, put_place,
    put_store, sum, uncapped,
};

/// Which instruction a RECEIVE CASE has, and whether ELSE is written.
#[derive(Clone, Copy)]
pub enum Receives {
    Buffers(bool),
    Signals(bool),
}

impl Receives {
    fn has_else(self) -> bool
        ensures { result ≡ waits_else self }
    {
        match self {
            Receives::Buffers(otherwise) | Receives::Signals(otherwise) => otherwise,
        }
    }

    // The instruction, for so many sources.
    fn instr(self, count: u32) -> Instr
        ensures { result ≡ receive_instr (kind_of self) count (waits_else self) }
    {
        match self {
            Receives::Buffers(otherwise) => Instr::Take(count, otherwise),
            Receives::Signals(otherwise) => Instr::Hear(count, otherwise),
        }
    }
}

/// What a DELAY CASE does up to its alternatives: it waits, keeps the alternative in a scratch local, and assigns SET.
pub fn put_delay_wait(
    alternatives: &[DelayAlternative],
    set: &Option<Box<Location>>,
    priority: u32,
    around: &Around,
    draft: &mut Draft,
) -> Result<(), PartRefusal>
    ensures puts { OnOk result (PutsDelayWait around.now set.now priority alternatives.now draft.old draft.new) }
    ensures keeps { Keeps draft.old.code draft.new.code }
{
    let chosen = chosen_local(set, around)?;
    let count = uncapped(count_of_events(alternatives))?;
    put_set_place(set, around, draft)?;
    put_all_events(alternatives, draft)?;
    draft.put(Instr::Delay(count, priority))?;
    draft.put(Instr::SetLocal(chosen, 2))?;
    put_set(set, around, draft)
}

// Each event with the number of its alternative.
#[tactic(auto, using(crate::proofs::Views::statement_built, expr_gen::proofs::Appending::keeping))]
fn put_all_events(alternatives: &[DelayAlternative], draft: &mut Draft) -> Result<(), PartRefusal>
    ensures puts { OnOk result (PutsAllEvents alternatives.now draft.old draft.new) }
    ensures keeps { Keeps draft.old.code draft.new.code }
{
    for number in 0..alternatives.len() {
        put_events(number, alternatives[number].events.as_slice(), draft)?;
    }
    Ok(())
}

// The events of the alternative of this number.
fn put_events(number: usize, events: &[u32], draft: &mut Draft) -> Result<(), PartRefusal>
    ensures puts { OnOk result (PutsEvents number events.now draft.old draft.new) }
    ensures keeps { Keeps draft.old.code draft.new.code }
{
    for event in events {
        draft.put(Instr::Thing(*event))?;
        put_number(number, draft)?;
    }
    Ok(())
}

// The number of an alternative.
fn put_number(number: usize, draft: &mut Draft) -> Result<(), PartRefusal>
    ensures puts { OnOk result (PutsSome (instrs.Push (pos number) ∷ []) 1 draft.old draft.new) }
    ensures keeps { Keeps draft.old.code draft.new.code }
{
    match i64::try_from(number) {
        Ok(number) => draft.put(Instr::Push(number)),
        Err(_) => Err(PartRefusal::Memory),
    }
}

/// How many instructions a DELAY CASE has up to its alternatives.
pub fn delay_wait_size(alternatives: &[DelayAlternative], set: &Option<Box<Location>>) -> u32
    ensures { result ≡ capped (waiting_size set.now alternatives.now) }
{
    set_place_size(set)
        .saturating_add(count_of_events(alternatives).saturating_mul(2))
        .saturating_add(2)
        .saturating_add(set_size(set))
}

#[tactic(auto, using(crate::proofs::Views::statement_built))]
fn count_of_events(alternatives: &[DelayAlternative]) -> u32
    ensures { result ≡ capped (count_of_events (delays_of alternatives.now)) }
{
    let mut count = 0u32;
    for alternative in alternatives {
        count = count.saturating_add(counted(alternative.events.len()));
    }
    count
}

// A length, or the greatest number where it is greater.
fn counted(length: usize) -> u32
    ensures { result ≡ capped length }
{
    (length as u64).min(u32::MAX as u64) as u32
}

/// What a RECEIVE CASE does up to its alternatives: it waits, keeps the alternative in a scratch local, goes to this place
/// where nothing came, and assigns SET.
pub fn put_receive_wait(
    alternatives: &[ReceiveAlternative],
    set: &Option<Box<Location>>,
    receives: Receives,
    otherwise: u32,
    around: &Around,
    draft: &mut Draft,
) -> Result<(), PartRefusal>
    ensures puts { OnOk result (PutsReceiveWait around.now set.now receives alternatives.now otherwise draft.old draft.new) }
    ensures keeps { Keeps draft.old.code draft.new.code }
{
    let chosen = chosen_local(set, around)?;
    let count = uncapped(counted(alternatives.len()))?;
    put_set_place(set, around, draft)?;
    put_sources(alternatives, around, draft)?;
    draft.put(receives.instr(count))?;
    draft.put(Instr::SetLocal(chosen, 2))?;
    put_nothing(receives.has_else(), chosen, count, otherwise, draft)?;
    put_set(set, around, draft)
}

// To this place where nothing came, of so many sources, if ELSE is written.
fn put_nothing(
    has_else: bool,
    chosen: u32,
    count: u32,
    otherwise: u32,
    draft: &mut Draft,
) -> Result<(), PartRefusal>
    ensures puts { OnOk result (PutsNothing has_else chosen count otherwise draft.old draft.new) }
    ensures keeps { Keeps draft.old.code draft.new.code }
{
    if has_else {
        draft.put(Instr::Local(chosen, 1))?;
        put_count(count, draft)?;
        draft.put(Instr::Less(1))?;
        draft.put(Instr::Unless(otherwise))
    } else {
        Ok(())
    }
}

/// How many instructions a RECEIVE CASE has up to its alternatives.
pub fn receive_wait_size(
    alternatives: &[ReceiveAlternative],
    set: &Option<Box<Location>>,
    has_else: bool,
) -> u32
    ensures { result ≡ capped (hearing_size set.now alternatives.now has_else) }
{
    set_place_size(set)
        .saturating_add(counted(alternatives.len()).saturating_mul(3))
        .saturating_add(2)
        .saturating_add(nothing_size(has_else))
        .saturating_add(set_size(set))
}

// How many instructions go to ELSE, where it is written.
fn nothing_size(has_else: bool) -> u32
    ensures { result ≡ length (nothing_code has_else 0 0 0) }
{
    if has_else { 4 } else { 0 }
}

// What is received, and the locals that get it.
#[tactic(auto, using(crate::proofs::Views::statement_built, expr_gen::proofs::Appending::keeping))]
fn put_sources(
    alternatives: &[ReceiveAlternative],
    around: &Around,
    draft: &mut Draft,
) -> Result<(), PartRefusal>
    ensures puts { OnOk result (PutsSources around.now alternatives.now draft.old draft.new) }
    ensures keeps { Keeps draft.old.code draft.new.code }
{
    for alternative in alternatives {
        let received = alternative.received.as_slice();
        put_source(alternative.source, received, around, draft)?;
    }
    Ok(())
}

// What is received, and the locals that get it, which follow each other.
fn put_source(
    source: u32,
    received: &[u32],
    around: &Around,
    draft: &mut Draft,
) -> Result<(), PartRefusal>
    ensures puts { OnOk result (PutsOneSource around.now source received.now draft.old draft.new) }
    ensures keeps { Keeps draft.old.code draft.new.code }
{
    let count = scalars_received(received, around)?;
    draft.put(Instr::Thing(source))?;
    put_count(first_received(received, around), draft)?;
    put_count(count, draft)
}

// A number of sources, locals or scalars.
fn put_count(count: u32, draft: &mut Draft) -> Result<(), PartRefusal>
    ensures puts { OnOk result (PutsSome (instrs.Push (pos count) ∷ []) 1 draft.old draft.new) }
    ensures keeps { Keeps draft.old.code draft.new.code }
{
    draft.put(Instr::Push(i64::from(count)))
}

// The first scalar of the locals that get what is received, or 0 where there is none.
fn first_received(received: &[u32], around: &Around) -> u32
    ensures { result ≡ first_received (rows_around around.now) received.now }
{
    match received {
        [] => 0,
        [number, ..] => first_of_local(around.site.body, *number),
    }
}

// How many scalars these locals have.
fn scalars_received(received: &[u32], around: &Around) -> Result<u32, PartRefusal>
    ensures { IfOk result (λ n. n ≡ scalars_received (rows_around around.now) received.now) }
{
    let mut count = 0u32;
    for number in received {
        count = sum(count, scalars_of_local(around.site.body, *number))?;
    }
    Ok(count)
}

// How many scalars the local of this number has; none where there is no such local.
fn scalars_of_local(body: &Body, number: u32) -> u32
    ensures { result ≡ scalars_of_row (slice_get (body_row_tree body.now).locals number) }
{
    match body.locals.as_slice().get(number as usize) {
        Some(local) => local.count,
        None => 0,
    }
}

/// The scratch local that keeps the number of the alternative; the instance stands behind it.
pub fn chosen_local(set: &Option<Box<Location>>, around: &Around) -> Result<u32, PartRefusal>
    ensures { IfOk result (λ n. n ≡ chosen_in around.now.free (set_tree set.now)) }
{
    uncapped(around.free.saturating_add(set_kept(set)))
}

// How many scratch locals keep the place of SET.
fn set_kept(set: &Option<Box<Location>>) -> u32
    ensures { result ≡ set_kept (set_tree set.now) }
{
    match set {
        Some(location) => offsets_kept(location),
        None => 0,
    }
}

/// Whether the alternative of this number is the one that is kept in this local.
pub fn put_is_chosen(chosen: u32, number: usize, draft: &mut Draft) -> Result<(), PartRefusal>
    ensures puts { OnOk result (PutsSome (is_chosen_code chosen number) 3 draft.old draft.new) }
    ensures keeps { Keeps draft.old.code draft.new.code }
{
    draft.put(Instr::Local(chosen, 1))?;
    put_number(number, draft)?;
    draft.put(Instr::Same(1))
}

// The place of the location after SET is found and kept.
fn put_set_place(
    set: &Option<Box<Location>>,
    around: &Around,
    draft: &mut Draft,
) -> Result<(), PartRefusal>
    ensures puts { OnOk result (PutsSetPlace around.now set.now draft.old draft.new) }
    ensures keeps { Keeps draft.old.code draft.new.code }
{
    match set {
        Some(location) => {
            put_place(location, &around.site, around.free, draft)?;
            keep_place(location, around.free, draft)
        }
        None => Ok(()),
    }
}

// How many instructions that has.
fn set_place_size(set: &Option<Box<Location>>) -> u32
    ensures { result ≡ capped (set_place_size (set_tree set.now)) }
{
    match set {
        Some(location) => place_size(location).saturating_add(offsets_kept(location)),
        None => 0,
    }
}

// The location after SET gets the instance.
fn put_set(
    set: &Option<Box<Location>>,
    around: &Around,
    draft: &mut Draft,
) -> Result<(), PartRefusal>
    ensures puts { OnOk result (PutsSet around.now set.now draft.old draft.new) }
    ensures keeps { Keeps draft.old.code draft.new.code }
{
    match set {
        Some(location) => {
            let by = uncapped(chosen_local(set, around)?.saturating_add(1))?;
            put_kept(location, around.free, draft)?;
            draft.put(Instr::Local(by, 1))?;
            put_store(location, &around.site, draft)
        }
        None => Ok(()),
    }
}

// How many instructions that has.
fn set_size(set: &Option<Box<Location>>) -> u32
    ensures { result ≡ set_size (set_tree set.now) }
{
    match set {
        Some(location) => offsets_kept(location).saturating_add(2),
        None => 0,
    }
}
