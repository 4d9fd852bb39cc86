// Codes, by hand: each instruction once, and handlers.
use chill_base::{List, Memory};
use code_types::{Code, Handler, Instr};
use list_texts::code_text;
use std::alloc::{AllocError, Global};
use std::test::Fail;

const NUMBERS: &[Instr] = &[
    Instr::Push(-7),
    Instr::Pop(1),
    Instr::Copy(2),
    Instr::Thing(3),
    Instr::Local(4, 5),
    Instr::SetLocal(6, 7),
    Instr::LocalAt(8, 9),
    Instr::SetLocalAt(10, 11),
    Instr::Part(1, 2, 3),
    Instr::PartAt(4, 5),
    Instr::Index(-1, 1, 2),
    Instr::Check(-2147483648, 2147483647),
    Instr::Add,
    Instr::Sub,
    Instr::Mul,
    Instr::Div,
    Instr::Mod,
    Instr::Rem,
    Instr::Neg,
    Instr::Abs,
    Instr::Succ(255),
    Instr::Pred(-3),
    Instr::Same(1),
    Instr::Less(2),
];

const NUMBERS_LISTED: &str = "code
    0 Push -7
    1 Pop 1
    2 Copy 2
    3 Thing 3
    4 Local 4 5
    5 SetLocal 6 7
    6 LocalAt 8 9
    7 SetLocalAt 10 11
    8 Part 1 2 3
    9 PartAt 4 5
   10 Index -1 1 2
   11 Check -2147483648 2147483647
   12 Add
   13 Sub
   14 Mul
   15 Div
   16 Mod
   17 Rem
   18 Neg
   19 Abs
   20 Succ 255
   21 Pred -3
   22 Same 1
   23 Less 2
";

const CONTROL: &[Instr] = &[
    Instr::Not,
    Instr::And,
    Instr::Or,
    Instr::Xor,
    Instr::BitNot(32),
    Instr::BitAnd,
    Instr::BitOr,
    Instr::BitXor,
    Instr::BitMinus,
    Instr::Within,
    Instr::Has,
    Instr::Card,
    Instr::Least,
    Instr::Most,
    Instr::Span,
    Instr::Jump(16),
    Instr::Unless(17),
    Instr::Again(0),
    Instr::Call(1),
    Instr::Return,
];

const CONTROL_LISTED: &str = "code
    0 Not
    1 And
    2 Or
    3 Xor
    4 BitNot 32
    5 BitAnd
    6 BitOr
    7 BitXor
    8 BitMinus
    9 Within
   10 Has
   11 Card
   12 Least
   13 Most
   14 Span
   15 Jump 16
   16 Unless 17
   17 Again 0
   18 Call 1
   19 Return
";

const REQUESTS: &[Instr] = &[
    Instr::Enter(0),
    Instr::Leave(1),
    Instr::Raise(7),
    Instr::This,
    Instr::Read(1, 2, 3),
    Instr::Write(4, 5, 6),
    Instr::Delay(1, 1000000),
    Instr::Continue(2),
    Instr::Send(3, 4, 5),
    Instr::Signal(1, 2, true, 3),
    Instr::Signal(1, 2, false, 3),
    Instr::Take(1, false),
    Instr::Hear(2, true),
    Instr::Start(1, 2),
    Instr::PutInt,
    Instr::PutText(4),
    Instr::PutLine,
    Instr::GetInt,
    Instr::Stop,
    Instr::Finish,
];

const REQUESTS_LISTED: &str = "code
    0 Enter 0
    1 Leave 1
    2 Raise 7
    3 This
    4 Read 1 2 3
    5 Write 4 5 6
    6 Delay 1 1000000
    7 Continue 2
    8 Send 3 4 5
    9 Signal 1 2 1 3
   10 Signal 1 2 0 3
   11 Take 1 0
   12 Hear 2 1
   13 Start 1 2
   14 PutInt
   15 PutText 4
   16 PutLine
   17 GetInt
   18 Stop
   19 Finish
";

fn code_of(alloc: Global, instrs: &[Instr]) -> Result<Code, AllocError> {
    Ok(Code {
        instrs: List::from_vec(instrs.to_vec(alloc)?),
        handlers: List::new(alloc),
        bodies: List::new(alloc),
    })
}

fn is_listed(alloc: Global, instrs: &[Instr], expected: &str) -> Result<bool, Memory> {
    let code = code_of(alloc, instrs)?;
    let text = code_text(alloc, &code)?;
    Ok(text.as_slice() == expected.as_bytes())
}

fn handler_of(
    alloc: Global,
    range: (u32, u32),
    names: &[u32],
    otherwise: bool,
    target: u32,
) -> Result<Handler, AllocError> {
    Ok(Handler {
        from: range.0,
        until: range.1,
        height: 0,
        names: List::from_vec(names.to_vec(alloc)?),
        otherwise,
        target,
    })
}

// A code of three handlers.
fn handled(alloc: Global) -> Result<Code, Memory> {
    let mut code = code_of(alloc, &[Instr::Finish])?;
    code.handlers
        .push(handler_of(alloc, (0, 3), &[0, 7], false, 4)?)?;
    code.handlers
        .push(handler_of(alloc, (1, 12), &[], true, 13)?)?;
    code.handlers
        .push(handler_of(alloc, (2, 5), &[6], true, 9)?)?;
    Ok(code)
}

#[test]
fn instructions_on_numbers_are_listed(rt: HostRuntime) -> Result<(), Fail> {
    let listed = is_listed(rt.alloc(), NUMBERS, NUMBERS_LISTED)?;
    assert!(rt; listed);
    Ok(())
}

#[test]
fn instructions_of_control_are_listed(rt: HostRuntime) -> Result<(), Fail> {
    let listed = is_listed(rt.alloc(), CONTROL, CONTROL_LISTED)?;
    assert!(rt; listed);
    Ok(())
}

#[test]
fn instructions_that_ask_are_listed(rt: HostRuntime) -> Result<(), Fail> {
    let listed = is_listed(rt.alloc(), REQUESTS, REQUESTS_LISTED)?;
    assert!(rt; listed);
    Ok(())
}

#[test]
fn handlers_are_listed(rt: HostRuntime) -> Result<(), Fail> {
    let code = handled(rt.alloc())?;
    let text = code_text(rt.alloc(), &code)?;
    let expected = "code\n    0 Finish\non 0 3 0 4 0 7\non 1 12 0 13 else\non 2 5 0 9 6 else\n";
    assert_eq!(rt; text.as_slice(), expected.as_bytes());
    Ok(())
}
