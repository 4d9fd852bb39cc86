// One instruction in its frame.
ghost use Rattle.code_types.specs.Places.{finds};
ghost use Rattle.machine_frames.specs.Frames.{CanAct, DoesOrLeaves, KeepsRoom};

use crate::activation::{Acted, Activation};
use crate::arithmetic::{
    absolute, add, check, divide, index, modulo, multiply, negate, precede, remain, subtract,
    succeed,
};
use crate::leading::{again, jump, raise, unless};
use crate::moving::{
    copy, local, local_at, part, part_at, pop, push, set_local, set_local_at, thing,
};
use crate::sets::{
    bit_and, bit_minus, bit_not, bit_or, bit_xor, card, has, least, most, span, within,
};
use crate::testing::{and, less, not, or, same, xor};
use code_types::{Code, Instr};

/// Makes an instruction that stays in its frame. One that asks more leaves the frame as it is.
pub fn act(code: &Code, top: &mut Activation, instr: Instr) -> Acted
    requires { CanAct code.now instr top.old }
    ensures does { DoesOrLeaves (finds code.now top.old.body instr) instr top.old top.new result }
    ensures room { KeepsRoom top.old top.new }
{
    match instr {
        Instr::Push(number) => push(top, number),
        Instr::Pop(n) => pop(top, n),
        Instr::Copy(n) => copy(top, n),
        Instr::Thing(number) => thing(top, number),
        Instr::Local(first, count) => local(top, first, count),
        Instr::SetLocal(first, count) => set_local(top, first, count),
        Instr::LocalAt(first, count) => local_at(top, first, count),
        Instr::SetLocalAt(first, count) => set_local_at(top, first, count),
        Instr::Part(first, count, of) => part(top, first, count, of),
        Instr::PartAt(count, of) => part_at(top, count, of),
        Instr::Index(low, high, size) => index(top, low, high, size),
        Instr::Check(low, high) => check(top, low, high),
        Instr::Add => add(top),
        Instr::Sub => subtract(top),
        Instr::Mul => multiply(top),
        Instr::Div => divide(top),
        Instr::Mod => modulo(top),
        Instr::Rem => remain(top),
        Instr::Neg => negate(top),
        Instr::Abs => absolute(top),
        Instr::Succ(bound) => succeed(top, bound),
        Instr::Pred(bound) => precede(top, bound),
        Instr::Same(n) => same(top, n),
        Instr::Less(n) => less(top, n),
        Instr::Not => not(top),
        Instr::And => and(top),
        Instr::Or => or(top),
        Instr::Xor => xor(top),
        Instr::Jump(to) => jump(top, to),
        Instr::Unless(to) => unless(top, to),
        Instr::Again(to) => again(top, to),
        Instr::Raise(exception) => raise(top, exception),
        Instr::Call(_) => Acted::Elsewhere,
        Instr::Return => Acted::Elsewhere,
        Instr::Enter(_) => Acted::Elsewhere,
        Instr::Leave(_) => Acted::Elsewhere,
        Instr::This => Acted::Elsewhere,
        Instr::Read(_, _, _) => Acted::Elsewhere,
        Instr::Write(_, _, _) => Acted::Elsewhere,
        Instr::Delay(_, _) => Acted::Elsewhere,
        Instr::Continue(_) => Acted::Elsewhere,
        Instr::Send(_, _, _) => Acted::Elsewhere,
        Instr::Signal(_, _, _, _) => Acted::Elsewhere,
        Instr::Take(_, _) => Acted::Elsewhere,
        Instr::Hear(_, _) => Acted::Elsewhere,
        Instr::Start(_, _) => Acted::Elsewhere,
        Instr::PutInt => Acted::Elsewhere,
        Instr::PutText(_) => Acted::Elsewhere,
        Instr::PutLine => Acted::Elsewhere,
        Instr::GetInt => Acted::Elsewhere,
        Instr::Stop => Acted::Elsewhere,
        Instr::BitNot(count) => bit_not(top, count),
        Instr::BitAnd => bit_and(top),
        Instr::BitOr => bit_or(top),
        Instr::BitXor => bit_xor(top),
        Instr::BitMinus => bit_minus(top),
        Instr::Within => within(top),
        Instr::Has => has(top),
        Instr::Card => card(top),
        Instr::Least => least(top),
        Instr::Most => most(top),
        Instr::Span => span(top),
        Instr::Finish => Acted::Elsewhere,
    }
}
