// What an instruction does to the height of the stack, and where it leads.
ghost use Rattle.std.specs.Prelude.{◌≡◌, ◌↔◌, ◌^◌, ◌<◌, ◌≤◌, IsTrue, slice_get};
ghost use Rattle.code_types.specs.Places.{pops, finds, pushes, is_last, jump_of, params_of, results_of};

use code_types::{Code, Instr};

/// The number of parameters of a body; 0 where there is none.
fn params_of_body(code: &Code, body: u32) -> u64
    ensures value { result ≡ params_of (slice_get code.now.bodies body) }
    ensures few { result < 2 ^ 32 }
{
    if (body as usize) < code.bodies.len() {
        code.bodies.at(body as usize).params as u64
    } else {
        0
    }
}

/// The number of results of a body; 0 where there is none.
fn results_of_body(code: &Code, body: usize) -> u64
    ensures value { result ≡ results_of (slice_get code.now.bodies body) }
    ensures few { result < 2 ^ 32 }
{
    if body < code.bodies.len() {
        code.bodies.at(body).results as u64
    } else {
        0
    }
}

/// How many numbers an instruction of this body takes off the stack.
pub fn pops_of(code: &Code, body: usize, instr: Instr) -> u64
    ensures value { result ≡ pops code.now body instr }
    ensures few { result < 2 ^ 34 }
{
    match instr {
        Instr::Pop(n) => n as u64,
        Instr::SetLocal(_, count) => count as u64,
        Instr::LocalAt(_, _) => 1,
        Instr::SetLocalAt(_, count) => 1 + count as u64,
        Instr::Part(_, _, of) => of as u64,
        Instr::PartAt(_, of) => 1 + of as u64,
        Instr::Index(_, _, _) => 1,
        Instr::Add | Instr::Sub | Instr::Mul | Instr::Div | Instr::Mod | Instr::Rem => 2,
        Instr::Neg | Instr::Abs | Instr::Succ(_) | Instr::Pred(_) => 1,
        Instr::Same(n) | Instr::Less(n) => 2 * n as u64,
        Instr::Not | Instr::BitNot(_) | Instr::Card | Instr::Least | Instr::Most => 1,
        Instr::And | Instr::Or | Instr::Xor => 2,
        Instr::BitAnd | Instr::BitOr | Instr::BitXor | Instr::BitMinus => 2,
        Instr::Within | Instr::Has | Instr::Span => 2,
        Instr::Unless(_) => 1,
        Instr::Call(callee) => params_of_body(code, callee),
        Instr::Return => results_of_body(code, body),
        Instr::Read(_, _, _) => 1,
        Instr::Write(_, _, count) => 1 + count as u64,
        Instr::Delay(n, _) => 2 * n as u64,
        Instr::Send(_, count, _) => count as u64,
        Instr::Signal(_, count, true, _) => count as u64 + 1,
        Instr::Signal(_, count, false, _) => count as u64,
        Instr::Take(n, _) | Instr::Hear(n, _) => 3 * n as u64,
        Instr::Start(_, count) => count as u64,
        Instr::PutInt => 1,
        Instr::PutText(n) => n as u64,
        Instr::Push(_) | Instr::Copy(_) | Instr::Thing(_) | Instr::Local(_, _) => 0,
        Instr::Check(_, _) | Instr::Jump(_) | Instr::Again(_) | Instr::This => 0,
        Instr::Enter(_) | Instr::Leave(_) | Instr::Raise(_) | Instr::Continue(_) => 0,
        Instr::PutLine | Instr::GetInt | Instr::Stop | Instr::Finish => 0,
    }
}

/// How many numbers an instruction of this body has to find.
pub fn finds_of(code: &Code, body: usize, instr: Instr) -> u64
    ensures { result ≡ finds code.now body instr }
{
    match instr {
        Instr::Copy(n) => n as u64,
        Instr::Check(_, _) => 1,
        _ => pops_of(code, body, instr),
    }
}

/// How many numbers an instruction puts onto the stack.
pub fn pushes_of(code: &Code, instr: Instr) -> u64
    ensures value { result ≡ pushes code.now instr }
    ensures few { result < 2 ^ 32 }
{
    match instr {
        Instr::Push(_) | Instr::Thing(_) | Instr::This | Instr::GetInt => 1,
        Instr::Copy(n) => n as u64,
        Instr::Local(_, count) | Instr::LocalAt(_, count) => count as u64,
        Instr::Part(_, count, _) | Instr::PartAt(count, _) => count as u64,
        Instr::Index(_, _, _) => 1,
        Instr::Add | Instr::Sub | Instr::Mul | Instr::Div | Instr::Mod | Instr::Rem => 1,
        Instr::Neg | Instr::Abs | Instr::Succ(_) | Instr::Pred(_) => 1,
        Instr::Same(_) | Instr::Less(_) => 1,
        Instr::Not | Instr::BitNot(_) | Instr::Card | Instr::Least | Instr::Most => 1,
        Instr::And | Instr::Or | Instr::Xor => 1,
        Instr::BitAnd | Instr::BitOr | Instr::BitXor | Instr::BitMinus => 1,
        Instr::Within | Instr::Has | Instr::Span => 1,
        Instr::Call(callee) => results_of_body(code, callee as usize),
        Instr::Read(_, _, count) => count as u64,
        Instr::Delay(_, _) | Instr::Take(_, _) | Instr::Hear(_, _) => 2,
        Instr::Start(_, _) => 1,
        Instr::Pop(_) | Instr::SetLocal(_, _) | Instr::SetLocalAt(_, _) => 0,
        Instr::Check(_, _) | Instr::Jump(_) | Instr::Unless(_) | Instr::Again(_) => 0,
        Instr::Return | Instr::Enter(_) | Instr::Leave(_) | Instr::Raise(_) => 0,
        Instr::Write(_, _, _) | Instr::Continue(_) | Instr::Send(_, _, _) => 0,
        Instr::Signal(_, _, _, _) | Instr::PutInt | Instr::PutText(_) | Instr::PutLine => 0,
        Instr::Stop | Instr::Finish => 0,
    }
}

/// Whether control doesn't come from the instruction to the next one.
pub fn ends_there(instr: Instr) -> bool
    ensures { result ≡ is_last instr }
{
    matches!(
        instr,
        Instr::Jump(_)
            | Instr::Again(_)
            | Instr::Return
            | Instr::Raise(_)
            | Instr::Stop
            | Instr::Finish
    )
}

/// Where an instruction jumps.
pub fn jump_from(instr: Instr) -> Option<u32>
    ensures { result ≡ jump_of instr }
{
    match instr {
        Instr::Jump(to) | Instr::Unless(to) | Instr::Again(to) => Some(to),
        _ => None,
    }
}
