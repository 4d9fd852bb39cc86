// The name and the operands of each instruction.
ghost use Rattle.std.specs.Prelude.{◌≡◌};
ghost use Rattle.list_texts.specs.Instructions as lines;

use code_types::Instr;

/// The name of an instruction (our own choice).
pub(crate) fn name_of(instr: Instr) -> &'static [u8]
    ensures { result.now ≡ lines.name_of instr }
{
    match instr {
        Instr::Push(_) => b"Push",
        Instr::Pop(_) => b"Pop",
        Instr::Copy(_) => b"Copy",
        Instr::Thing(_) => b"Thing",
        Instr::Local(_, _) => b"Local",
        Instr::SetLocal(_, _) => b"SetLocal",
        Instr::LocalAt(_, _) => b"LocalAt",
        Instr::SetLocalAt(_, _) => b"SetLocalAt",
        Instr::Part(_, _, _) => b"Part",
        Instr::PartAt(_, _) => b"PartAt",
        Instr::Index(_, _, _) => b"Index",
        Instr::Check(_, _) => b"Check",
        Instr::Add => b"Add",
        Instr::Sub => b"Sub",
        Instr::Mul => b"Mul",
        Instr::Div => b"Div",
        Instr::Mod => b"Mod",
        Instr::Rem => b"Rem",
        Instr::Neg => b"Neg",
        Instr::Abs => b"Abs",
        Instr::Succ(_) => b"Succ",
        Instr::Pred(_) => b"Pred",
        Instr::Same(_) => b"Same",
        Instr::Less(_) => b"Less",
        Instr::Not => b"Not",
        Instr::And => b"And",
        Instr::Or => b"Or",
        Instr::Xor => b"Xor",
        Instr::BitNot(_) => b"BitNot",
        Instr::BitAnd => b"BitAnd",
        Instr::BitOr => b"BitOr",
        Instr::BitXor => b"BitXor",
        Instr::BitMinus => b"BitMinus",
        Instr::Within => b"Within",
        Instr::Has => b"Has",
        Instr::Card => b"Card",
        Instr::Least => b"Least",
        Instr::Most => b"Most",
        Instr::Span => b"Span",
        Instr::Jump(_) => b"Jump",
        Instr::Unless(_) => b"Unless",
        Instr::Again(_) => b"Again",
        Instr::Call(_) => b"Call",
        Instr::Return => b"Return",
        Instr::Enter(_) => b"Enter",
        Instr::Leave(_) => b"Leave",
        Instr::Raise(_) => b"Raise",
        Instr::This => b"This",
        Instr::Read(_, _, _) => b"Read",
        Instr::Write(_, _, _) => b"Write",
        Instr::Delay(_, _) => b"Delay",
        Instr::Continue(_) => b"Continue",
        Instr::Send(_, _, _) => b"Send",
        Instr::Signal(_, _, _, _) => b"Signal",
        Instr::Take(_, _) => b"Take",
        Instr::Hear(_, _) => b"Hear",
        Instr::Start(_, _) => b"Start",
        Instr::PutInt => b"PutInt",
        Instr::PutText(_) => b"PutText",
        Instr::PutLine => b"PutLine",
        Instr::GetInt => b"GetInt",
        Instr::Stop => b"Stop",
        Instr::Finish => b"Finish",
    }
}

/// The operands of an instruction in the order in which they are written, flags as 0 and 1.
#[derive(Clone, Copy)]
pub enum Operands {
    None,
    One(i64),
    Two(i64, i64),
    Three(i64, i64, i64),
    Four(i64, i64, i64, i64),
}

pub(crate) fn operands_of(instr: Instr) -> Operands
    ensures { result ≡ lines.operands_of instr }
{
    match instr {
        Instr::Push(k) | Instr::Succ(k) | Instr::Pred(k) => Operands::One(k),
        Instr::Pop(a)
        | Instr::Copy(a)
        | Instr::Thing(a)
        | Instr::Same(a)
        | Instr::Less(a)
        | Instr::BitNot(a)
        | Instr::Jump(a)
        | Instr::Unless(a)
        | Instr::Again(a)
        | Instr::Call(a)
        | Instr::Enter(a)
        | Instr::Leave(a)
        | Instr::Raise(a)
        | Instr::Continue(a)
        | Instr::PutText(a) => Operands::One(a as i64),
        Instr::Check(l, u) => Operands::Two(l, u),
        Instr::Local(a, b)
        | Instr::SetLocal(a, b)
        | Instr::LocalAt(a, b)
        | Instr::SetLocalAt(a, b)
        | Instr::PartAt(a, b)
        | Instr::Delay(a, b)
        | Instr::Start(a, b) => Operands::Two(a as i64, b as i64),
        Instr::Take(n, otherwise) | Instr::Hear(n, otherwise) => Operands::Two(
            n as i64,
            flag(otherwise),
        ),
        Instr::Index(l, u, s) => Operands::Three(l, u, s as i64),
        Instr::Part(a, b, c)
        | Instr::Read(a, b, c)
        | Instr::Write(a, b, c)
        | Instr::Send(a, b, c) => Operands::Three(a as i64, b as i64, c as i64),
        Instr::Signal(s, c, to, p) => Operands::Four(s as i64, c as i64, flag(to), p as i64),
        Instr::Add
        | Instr::Sub
        | Instr::Mul
        | Instr::Div
        | Instr::Mod
        | Instr::Rem
        | Instr::Neg
        | Instr::Abs
        | Instr::Not
        | Instr::And
        | Instr::Or
        | Instr::Xor => Operands::None,
        Instr::BitAnd
        | Instr::BitOr
        | Instr::BitXor
        | Instr::BitMinus
        | Instr::Within
        | Instr::Has
        | Instr::Card
        | Instr::Least
        | Instr::Most
        | Instr::Span
        | Instr::Return
        | Instr::This
        | Instr::PutInt
        | Instr::PutLine
        | Instr::GetInt
        | Instr::Stop
        | Instr::Finish => Operands::None,
    }
}

fn flag(is: bool) -> i64
    ensures { result ≡ lines.flag is }
{
    if is { 1 } else { 0 }
}
