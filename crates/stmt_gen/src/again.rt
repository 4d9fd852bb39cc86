// Regions: an exception that goes out of one is raised again behind the release of the region.
ghost use Rattle.std.specs.Prelude.{◌≡◌, ◌+◌, ◌++◌, length, filter, slice_get, IfOk, OnOk};
ghost use Rattle.program_trees.specs.ProgramTree.{checked_tree};
ghost use Rattle.code_scheme.specs.BodyItems.{language_exceptions, listed_in, raised_in, is_among};
ghost use Rattle.stmt_gen.specs.Appending.{KeepsFront};
ghost use Rattle.stmt_gen.specs.Marking.{HasNoMark, MarksBelow, MarksOne, MarksAll, MarksRaised, MarksAllRaised, marked_in, where_marked};
ghost use Rattle.stmt_gen.specs.Modulions.{PutsReleases, instrs_between};

use crate::handlers::put_row;
use checked_program::Checked;
use chill_base::{List, Memory, Numbers};
use code_types::Instr;
use expr_gen::{Draft, PartRefusal};
use std::alloc::Global;

/// How many exceptions the language has. The user's are numbered behind them.
const LANGUAGE: usize = 7;

/// The instructions that a handler row is for, from one place up to another, and the place of what it does. Nothing is
/// left on the stack for that.
#[derive(Clone, Copy)]
pub struct Span {
    pub from: u32,
    pub until: u32,
    pub target: u32,
}

impl Span {
    /// The same instructions with another place of what is done.
    pub fn to(self, target: u32) -> Span
        ensures { result ≡ record self { target = target } }
    {
        Span {
            from: self.from,
            until: self.until,
            target,
        }
    }
}

/// The exceptions that can arise in the instructions from one place up to another, rising: those of the language, those
/// raised there, and those listed by the procedures called there.
pub fn raised_between(
    from: u32,
    until: u32,
    program: &Checked,
    draft: &Draft,
) -> Result<Numbers, PartRefusal>
    ensures { let between = instrs_between from until draft.now in
        IfOk result (λ raised. raised ≡ raised_in (checked_tree program.now) between) }
{
    let alloc = draft.allocator();
    let instrs = draft.code.instrs.as_slice();
    let until = (until as usize).min(instrs.len());
    let from = (from as usize).min(until);
    let mut found = language_marks(alloc, count_of_exceptions(program)?)?;
    mark_all_raised(&instrs[from..until], program, &mut found);
    marked(alloc, &found)
}

// How many exceptions a program has, with those of the language.
fn count_of_exceptions(program: &Checked) -> Result<usize, Memory>
    ensures { IfOk result (λ count. count ≡ language_exceptions + length program.now.exceptions) }
{
    match program.exceptions.len().checked_add(LANGUAGE) {
        Some(count) => Ok(count),
        None => Err(Memory),
    }
}

// So many marks, of which those of the language's exceptions are set.
fn language_marks(alloc: Global, count: usize) -> Result<Vec<bool>, Memory>
    ensures { IfOk result (λ marks. MarksBelow language_exceptions count marks.items) }
{
    let mut found = no_marks(alloc, count)?;
    for number in 0..LANGUAGE {
        mark(number as u32, &mut found);
    }
    Ok(found)
}

// So many marks, of which none is set.
fn no_marks(alloc: Global, count: usize) -> Result<Vec<bool>, Memory>
    ensures { IfOk result (λ marks. HasNoMark count marks.items) }
{
    let mut marks = Vec::with_capacity(alloc, count)?;
    for _turn in 0..count {
        marks.push(false)?;
    }
    Ok(marks)
}

// The mark of this number is set, where there is one.
fn mark(number: u32, marks: &mut Vec<bool>)
    ensures { MarksOne number marks.old.items marks.new.items }
{
    let number = number as usize;
    if number < marks.len() {
        marks[number] = true;
    }
}

// Each of these exceptions is marked.
fn mark_all(exceptions: &[u32], marks: &mut Vec<bool>)
    ensures { MarksAll exceptions.now marks.old.items marks.new.items }
{
    for exception in exceptions {
        mark(*exception, marks);
    }
}

// The exceptions are marked that an instruction raises, or the procedure lists that it calls.
fn mark_raised(instr: Instr, program: &Checked, marks: &mut Vec<bool>)
    ensures { MarksRaised program.now instr marks.old.items marks.new.items }
{
    match instr {
        Instr::Raise(exception) => mark(exception, marks),
        Instr::Call(body) => mark_all(listed_by(program, body), marks),
        _ => (),
    }
}

// The exceptions that the body of this number lists; none where there is no such body.
fn listed_by(program: &Checked, number: u32) -> &[u32]
    ensures { result.now ≡ listed_in (slice_get (checked_tree program.now).bodies number) }
{
    match program.bodies.as_slice().get(number as usize) {
        Some(body) => body.listed.as_slice(),
        None => &[],
    }
}

// Those of each of these instructions.
fn mark_all_raised(instrs: &[Instr], program: &Checked, marks: &mut Vec<bool>)
    ensures { MarksAllRaised program.now instrs.now marks.old.items marks.new.items }
{
    for instr in instrs {
        mark_raised(*instr, program, marks);
    }
}

// The numbers that are marked, rising.
fn marked(alloc: Global, marks: &[bool]) -> Result<Numbers, PartRefusal>
    ensures { IfOk result (λ numbers. numbers ≡ marked_in marks.now) }
{
    let mut numbers = List::new(alloc);
    for number in 0..marks.len() {
        put_marked(number, marks[number], &mut numbers)?;
    }
    Ok(numbers)
}

// The number behind the others, where it is marked.
fn put_marked(number: usize, is_marked: bool, numbers: &mut Numbers) -> Result<(), PartRefusal>
    ensures { OnOk result (numbers.new ≡ numbers.old ++ where_marked is_marked number) }
{
    if is_marked {
        numbers.push(narrow(number)?)?;
    }
    Ok(())
}

// The number in 32 bits. There is no memory for as many exceptions as need more.
fn narrow(number: usize) -> Result<u32, Memory>
    ensures { IfOk result (λ narrow. narrow ≡ number) }
{
    match u32::try_from(number) {
        Ok(number) => Ok(number),
        Err(_) => Err(Memory),
    }
}

/// Those of the raised exceptions that are listed.
pub fn raised_and_listed(raised: &Numbers, listed: &Numbers) -> Result<Numbers, PartRefusal>
    ensures { IfOk result (λ both. both ≡ filter (λ x. is_among x listed.now) raised.now) }
{
    those_among(raised.allocator(), raised.as_slice(), listed.as_slice())
}

// Those of the numbers that are listed.
fn those_among(alloc: Global, numbers: &[u32], listed: &[u32]) -> Result<Numbers, PartRefusal>
    ensures { IfOk result (λ those. those ≡ filter (λ x. is_among x listed.now) numbers.now) }
{
    let mut those = List::new(alloc);
    for number in numbers {
        if is_among(*number, listed) {
            those.push(*number)?;
        }
    }
    Ok(those)
}

fn is_among(number: u32, numbers: &[u32]) -> bool
    ensures { result ≡ is_among number numbers.now }
{
    for other in numbers {
        if *other == number {
            return true;
        }
    }
    false
}

/// Appends, for each of these exceptions, what releases the region and raises it again, with its row for the instructions
/// from one place up to another.
#[tactic(auto, using(crate::proofs::Front::keeping_front))]
pub fn put_again(
    exceptions: &[u32],
    from: u32,
    until: u32,
    region: u32,
    draft: &mut Draft,
) -> Result<(), PartRefusal>
    ensures puts { OnOk result (PutsReleases region exceptions.now from until draft.old draft.new) }
    ensures keeps { KeepsFront draft.old.code draft.new.code }
{
    let alloc = draft.allocator();
    for exception in exceptions {
        let target = draft.target_behind(0)?;
        let mut names = List::new(alloc);
        names.push(*exception)?;
        put_row(
            Span {
                from,
                until,
                target,
            },
            names,
            false,
            draft,
        )?;
        draft.put(Instr::Leave(region))?;
        draft.put(Instr::Raise(*exception))?;
    }
    Ok(())
}
