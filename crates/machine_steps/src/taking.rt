// What an answer does to the process.
ghost use Rattle.std.specs.Prelude.{◌≡◌, ◌+◌, ◌^◌, ◌<◌, ◌≤◌, ◌∷◌, ◌++◌, [], length, map, pos, slice_index_or, vec_capacity, IsTrue};
ghost use Rattle.code_types.specs.Answers.{answered, ended, frame_after, goes_on, locals_after, no_slot, pushed_by, regions_after};
ghost use Rattle.code_types.specs.State.{Asking, Mode};
ghost use Rattle.machine_steps.specs.Answering.{takes_answer};
ghost use Rattle.machine_steps.specs.Asking.{HasFewSlots, IsUpNow};
ghost use Rattle.machine_steps.specs.Rooms.{HoldsNoFrame, KeepsPlaces, KeepsUnlessEnded};
ghost use Rattle.world_model.specs.Lists.{with_scalars};
ghost use Rattle.machine_frames.specs.Frames.{KeepsRoom, frame_of};
ghost use Rattle.machine_steps.specs.Taking.{GoesOnBehind, HasAnswerRoom, HoldsAnswer, IsAnswered, IsNoEnd, IsStored, after_answer, process_in};
ghost use Rattle.machine_steps.specs.Views.{region_of, slot_of, state_of};

use crate::process::{Doing, Process, RegionEntry, SlotEntry};
use kernel_base::{Answer, Request};
use machine_frames::Activation;
use std::mem::replace;

// Pushes two numbers.
fn push_two(stack: &mut Vec<i64>, first: u32, second: u32)
    requires { length stack.old.items + 2 ≤ vec_capacity stack.old }
    ensures items { stack.new.items ≡ stack.old.items ++ pos first ∷ pos second ∷ [] }
    ensures room { vec_capacity stack.old ≤ vec_capacity stack.new }
{
    stack.push(first as i64).unwrap();
    stack.push(second as i64).unwrap();
}

// Pushes the numbers of an answer, where the request lists so many alternatives.
fn push_answer(stack: &mut Vec<i64>, count: u32, answer: &Answer)
    requires { length stack.old.items + length (pushed_by count answer.now) ≤ vec_capacity stack.old }
    ensures items { stack.new.items ≡ stack.old.items ++ pushed_by count answer.now }
    ensures room { vec_capacity stack.old ≤ vec_capacity stack.new }
{
    match answer {
        Answer::Value(scalars) => stack.extend_from_slice(scalars.as_slice()).unwrap(),
        Answer::Woken { alternative, by } => push_two(stack, *alternative, *by),
        Answer::Got {
            alternative,
            by,
            ..
        } => push_two(stack, *alternative, *by),
        Answer::Otherwise => push_two(stack, count, 0),
        Answer::Instance(instance) => stack.push(*instance as i64).unwrap(),
        Answer::Done | Answer::Fail(_) | Answer::Chose(_) | Answer::Handed(_) | Answer::Stored => {}
    }
}

// Where the scalars of an alternative go.
fn slot_start(slots: &[SlotEntry], alternative: u32) -> usize
    ensures { result ≡ (slice_index_or (map slot_of slots.now) alternative no_slot).local }
{
    if (alternative as usize) < slots.len() {
        slots[alternative as usize].local
    } else {
        0
    }
}

// Puts these scalars into locals from one on.
fn put_scalars(locals: &mut Vec<i64>, start: usize, scalars: &[i64])
    requires { start + length scalars.now ≤ length locals.old.items }
    ensures items { locals.new.items ≡ with_scalars locals.old.items start scalars.now }
    ensures room { vec_capacity locals.old ≤ vec_capacity locals.new }
{
    locals[start..start + scalars.len()].copy_from_slice(scalars);
}

// Puts what is got into the slot of its alternative.
fn store_answer(locals: &mut Vec<i64>, slots: &[SlotEntry], answer: &Answer)
    requires { IsStored (map slot_of slots.now) (length locals.old.items) answer.now }
    ensures items { locals.new.items ≡ locals_after (map slot_of slots.now) answer.now locals.old.items }
    ensures room { vec_capacity locals.old ≤ vec_capacity locals.new }
{
    match answer {
        Answer::Got {
            alternative,
            scalars,
            ..
        } => put_scalars(locals, slot_start(slots, *alternative), scalars.as_slice()),
        Answer::Value(_)
        | Answer::Done
        | Answer::Woken { .. }
        | Answer::Otherwise
        | Answer::Instance(_)
        | Answer::Fail(_)
        | Answer::Chose(_)
        | Answer::Handed(_)
        | Answer::Stored => {}
    }
}

// The frame goes on behind the instruction that asked.
fn go_on(top: &mut Activation, slots: &[SlotEntry], answer: &Answer)
    requires stack { length top.old.stack.items + length (pushed_by (length slots.now) answer.now) ≤ vec_capacity top.old.stack }
    requires store { IsStored (map slot_of slots.now) (length top.old.locals.items) answer.now }
    requires few { length slots.now < 2 ^ 32 }
    requires place { top.old.place + 1 < 2 ^ 64 }
    ensures frame { frame_of top.new ≡ frame_after (map slot_of slots.now) answer.now (frame_of top.old) }
    ensures room { KeepsRoom top.old top.new }
{
    push_answer(&mut top.stack, slots.len() as u32, answer);
    store_answer(&mut top.locals, slots, answer);
    top.place += 1;
}

// Notes a region that is entered or left.
fn note_region(regions: &mut Vec<RegionEntry>, request: &Request, frame: usize)
    requires { length regions.old.items + 1 ≤ vec_capacity regions.old }
    ensures items { map region_of regions.new.items ≡ regions_after request.now frame (map region_of regions.old.items) }
    ensures room { vec_capacity regions.old ≤ vec_capacity regions.new }
{
    match request {
        Request::Enter { region } => regions
            .push(RegionEntry {
                region: *region,
                frame,
            })
            .unwrap(),
        Request::Leave { .. } => {
            regions.pop();
        }
        Request::Read { .. }
        | Request::Write { .. }
        | Request::Delay { .. }
        | Request::Continue { .. }
        | Request::SendBuffer { .. }
        | Request::ReceiveBuffer { .. }
        | Request::SendSignal { .. }
        | Request::ReceiveSignal { .. }
        | Request::Start { .. }
        | Request::Put { .. }
        | Request::Get
        | Request::End { .. } => {}
    }
}

// The answer to End: the process has ended, and gives up its frames with their memory.
fn give_up(process: &mut Process)
    ensures state { (mode : Mode) → state_of process.new ≡ ended (process_in process.old mode) }
    ensures ended { process.new.doing ≡ Doing.Ended }
    ensures frames { HoldsNoFrame process.new }
{
    let alloc = *process.regions.allocator();
    process.top.stack = Vec::new(alloc);
    process.top.locals = Vec::new(alloc);
    process.below = Vec::new(alloc);
    process.spare = Vec::new(alloc);
    process.regions = Vec::new(alloc);
    process.doing = Doing::Ended;
}

// Goes on with an answer that raises nothing.
fn take_in(process: &mut Process, request: &Request, slots: &[SlotEntry], answer: &Answer)
    requires running { process.old.doing ≡ Doing.Running }
    requires holds { HoldsAnswer slots.now answer.now process.old }
    ensures state { let s = process_in process.old (Asking request.now (map slot_of slots.now)) in state_of process.new ≡ goes_on s request.now (map slot_of slots.now) answer.now s.frames }
    ensures running { process.new.doing ≡ Doing.Running }
    ensures memory { KeepsPlaces process.old process.new }
{
    let frame = process.below.len() + 1;
    go_on(&mut process.top, slots, answer);
    note_region(&mut process.regions, request, frame);
}

// Takes an answer to a request other than End.
fn take_going(process: &mut Process, request: &Request, slots: &[SlotEntry], answer: &Answer)
    requires running { process.old.doing ≡ Doing.Running }
    requires holds { HoldsAnswer slots.now answer.now process.old }
    requires going { IsNoEnd request.now }
    ensures state { state_of process.new ≡ answered (process_in process.old (Asking request.now (map slot_of slots.now))) request.now (map slot_of slots.now) answer.now }
    ensures memory { KeepsUnlessEnded process.new.doing process.old process.new }
    ensures few { HasFewSlots process.new.doing }
    ensures up { IsUpNow process.new.doing }
{
    match answer {
        Answer::Fail(exception) => process.doing = Doing::Raising(*exception),
        Answer::Value(_)
        | Answer::Done
        | Answer::Woken { .. }
        | Answer::Got { .. }
        | Answer::Otherwise
        | Answer::Instance(_)
        | Answer::Chose(_)
        | Answer::Handed(_)
        | Answer::Stored => take_in(process, request, slots, answer),
    }
}

// Takes an answer to a request that waited.
fn take(process: &mut Process, request: &Request, slots: &[SlotEntry], answer: &Answer)
    requires running { process.old.doing ≡ Doing.Running }
    requires holds { HoldsAnswer slots.now answer.now process.old }
    ensures state { state_of process.new ≡ answered (process_in process.old (Asking request.now (map slot_of slots.now))) request.now (map slot_of slots.now) answer.now }
    ensures memory { KeepsUnlessEnded process.new.doing process.old process.new }
    ensures few { HasFewSlots process.new.doing }
    ensures going { GoesOnBehind request.now process.new.doing }
{
    match request {
        Request::End { .. } => give_up(process),
        Request::Read { .. }
        | Request::Write { .. }
        | Request::Enter { .. }
        | Request::Leave { .. }
        | Request::Delay { .. }
        | Request::Continue { .. }
        | Request::SendBuffer { .. }
        | Request::ReceiveBuffer { .. }
        | Request::SendSignal { .. }
        | Request::ReceiveSignal { .. }
        | Request::Start { .. }
        | Request::Put { .. }
        | Request::Get => take_going(process, request, slots, answer),
    }
}

impl Process {
    /// Takes an answer for which `can_answer` is true, in room that is there. It takes no memory.
    pub fn answer(&mut self, answer: Answer)
        requires can { IsTrue (takes_answer (state_of self.old).mode answer) }
        requires room { HasAnswerRoom self.old.doing answer self.old }
        ensures state { state_of self.new ≡ after_answer (state_of self.old) answer }
        ensures memory { KeepsUnlessEnded self.new.doing self.old self.new }
        ensures few { HasFewSlots self.new.doing }
        ensures going { IsAnswered self.old.doing self.new.doing }
    {
        let doing = replace(&mut self.doing, Doing::Running);
        match doing {
            Doing::Asking { request, slots } => take(self, &request, &slots, &answer),
            Doing::Running | Doing::Called | Doing::Raising(_) | Doing::Ended => unreachable!(),
        }
    }
}
