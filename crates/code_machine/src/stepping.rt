// One step of a process, whatever it is about.
ghost use Rattle.std.specs.Prelude.{IsSomeAnd, IsTrue, slice_get};
ghost use Rattle.machine_frames.specs.Frames.{is_elsewhere};
ghost use Rattle.machine_steps.specs.Asking.{HasFewSlots};
ghost use Rattle.machine_steps.specs.Rooms.{StaysRoomy, StaysUnlessAsked};
ghost use Rattle.machine_steps.specs.Stepping.{IsMade, Steps};
ghost use Rattle.code_machine.specs.Equipment.{IsEquipped, IsEquippedToEnter, IsEquippedToRaise, IsEquippedToStep};

use code_types::{Code, Instr};
use kernel_base::Exc;
use machine_steps::{Doing, Process, Room, Stepped, landing};

// Leaves the innermost frame with the results of its body.
fn leave(process: &mut Process, code: &Code, room: &Room) -> Stepped
    requires { IsEquipped code.now Instr.Return process.old room.now }
    ensures steps { Steps code.now process.old process.new result }
    ensures made { IsMade result }
    ensures memory { StaysRoomy process.old process.new }
    ensures few { HasFewSlots process.new.doing }
{
    let results = code.bodies.at(process.top.body as usize).results;
    process.leave(code, results)
}

// Makes an instruction that asks more than its frame.
fn make_elsewhere(process: &mut Process, code: &Code, instr: Instr, room: &mut Room) -> Stepped
    requires elsewhere { IsTrue (is_elsewhere instr) }
    requires equipped { IsEquipped code.now instr process.old room.old }
    ensures steps { Steps code.now process.old process.new result }
    ensures made { IsMade result }
    ensures memory { StaysRoomy process.old process.new }
    ensures few { HasFewSlots process.new.doing }
    ensures room { StaysUnlessAsked result room.old room.new }
{
    match instr {
        Instr::Call(callee) => process.call(code, callee),
        Instr::Return => leave(process, code, room),
        Instr::Enter(region) => process.enter_region(code, region),
        Instr::Leave(region) => process.leave_region(code, region),
        Instr::This => process.push_instance(code),
        Instr::Read(location, first, count) => process.read(code, location, first, count),
        Instr::Write(location, first, count) => process.write(code, location, first, count, room),
        Instr::Delay(count, priority) => process.delay(code, count, priority, room),
        Instr::Continue(event) => process.continue_one(code, event),
        Instr::Send(buffer, count, priority) => process.send(code, buffer, count, priority, room),
        Instr::Signal(signal, count, true, priority) => {
            process.send_to(code, signal, count, priority, room)
        }
        Instr::Signal(signal, count, false, priority) => {
            process.send_to_any(code, signal, count, priority, room)
        }
        Instr::Take(count, otherwise) => process.take_one(code, count, otherwise, room),
        Instr::Hear(count, otherwise) => process.hear(code, count, otherwise, room),
        Instr::Start(body, count) => process.start_process(code, body, count, room),
        Instr::PutInt => process.put_number(code, room),
        Instr::PutText(count) => process.put_text(code, count, room),
        Instr::PutLine => process.put_line(code, room),
        Instr::GetInt => process.get_number(code),
        Instr::Stop => process.stop(code),
        Instr::Finish => process.finish(code),
        _ => unreachable!(),
    }
}

// Makes the instruction at the place.
fn run(process: &mut Process, code: &Code, room: &mut Room) -> Stepped
    requires { IsSomeAnd (slice_get code.now.instrs process.old.top.place) (λ instr. IsEquipped code.now instr process.old room.old) }
    ensures steps { Steps code.now process.old process.new result }
    ensures made { IsMade result }
    ensures memory { StaysRoomy process.old process.new }
    ensures few { HasFewSlots process.new.doing }
    ensures room { StaysUnlessAsked result room.old room.new }
{
    let instr = *code.instrs.at(process.top.place);
    match process.make_local(code, instr) {
        Stepped::GoesOn => Stepped::GoesOn,
        Stepped::Ticks => Stepped::Ticks,
        Stepped::Asks(request) => Stepped::Asks(request),
        Stepped::Wants => make_elsewhere(process, code, instr, room),
    }
}

// Makes the frame of a call whose tick is made.
fn enter(process: &mut Process, code: &Code) -> Stepped
    requires { IsEquippedToEnter code.now process.old }
    ensures steps { Steps code.now process.old process.new result }
    ensures made { IsMade result }
    ensures memory { StaysRoomy process.old process.new }
    ensures few { HasFewSlots process.new.doing }
{
    match *code.instrs.at(process.top.place) {
        Instr::Call(callee) => process.enter(code, callee),
        _ => unreachable!(),
    }
}

// Goes on with an exception that has been raised.
fn raise(process: &mut Process, code: &Code, exception: Exc) -> Stepped
    requires { IsEquippedToRaise code.now exception process.old }
    ensures steps { Steps code.now process.old process.new result }
    ensures made { IsMade result }
    ensures memory { StaysRoomy process.old process.new }
    ensures few { HasFewSlots process.new.doing }
{
    match landing(code, process.top.place, exception) {
        Some((target, height)) => process.land(code, exception, target, height),
        None => process.unwind(code, exception),
    }
}

/// Makes one step of a process that isn't waiting and hasn't ended.
pub fn step(process: &mut Process, code: &Code, room: &mut Room) -> Stepped
    requires { IsEquippedToStep code.now process.old room.old }
    ensures steps { Steps code.now process.old process.new result }
    ensures made { IsMade result }
    ensures memory { StaysRoomy process.old process.new }
    ensures few { HasFewSlots process.new.doing }
    ensures room { StaysUnlessAsked result room.old room.new }
{
    match process.doing {
        Doing::Running => run(process, code, room),
        Doing::Called => enter(process, code),
        Doing::Raising(exception) => raise(process, code, exception),
        Doing::Asking { .. } | Doing::Ended => unreachable!(),
    }
}
