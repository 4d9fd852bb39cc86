// Small codes, and the turns of their processes, written down from the definitions by hand.
use crate::guard::OUTERMOST;
use crate::tables::{Body, Shape, code_of};
use code_guard::{Guarded, guard};
use code_machine::Machine;
use code_types::Instr::{Finish, Local, Push, PutInt, Read};
use kernel_base::How::Normal;
use kernel_base::Place;
use played_turns::Given::{Done, Value};
use played_turns::Turn::{Asks, Ends, Puts, Refuses, Takes};
use played_turns::{Asked, Turn, does, scalars_of, started, turns_made};
use std::alloc::Global;
use std::process::Abort;
use std::test::Fail;

// Reads two scalars at an offset that stands on the stack, and puts them.
const READS: Shape = Shape(
    &[Push(3), Read(2, 10, 2), PutInt, PutInt, Finish],
    &[],
    &[OUTERMOST],
);

const TURNS: &[Turn] = &[
    Asks(
        0,
        Asked::Read(Place {
            location: 2,
            first: 13,
            count: 2,
        }),
    ),
    Refuses(Value(&[7])),
    Refuses(Value(&[7, 8, 9])),
    Refuses(Done),
    Takes(Value(&[7, 8])),
    Puts(0, "8"),
    Puts(0, "7"),
    Ends(0, Normal),
];

// A second process takes two scalars.
const TAKES_TWO: Shape = Shape(
    &[Finish, Local(0, 4), PutInt, PutInt, PutInt, PutInt, Finish],
    &[],
    &[
        OUTERMOST,
        Body {
            first: 1,
            params: 2,
            ..OUTERMOST
        },
    ],
);

fn guarded_of(alloc: Global, shape: &Shape) -> Result<Guarded, Fail> {
    match guard(alloc, code_of(alloc, shape)?) {
        Ok(guarded) => Ok(guarded),
        Err(_) => Err(Fail::from("a code that isn't guarded")),
    }
}

#[test]
fn a_place_is_read_and_put(rt: HostRuntime) -> Result<(), Fail> {
    let guarded = guarded_of(rt.alloc(), &READS)?;
    let made = turns_made(rt.alloc(), &guarded, 0, TURNS)?;
    assert_eq!(rt; made, TURNS.len());
    Ok(())
}

#[test]
fn a_process_starts_with_its_scalars(rt: HostRuntime) -> Result<(), Fail> {
    let alloc = rt.alloc();
    let guarded = guarded_of(alloc, &TAKES_TWO)?;
    assert!(rt; !Machine::can_start(&guarded, 2, &scalars_of(alloc, &[8, 9])?));
    assert!(rt; !Machine::can_start(&guarded, 1, &scalars_of(alloc, &[8])?));
    let Some(mut machine) = started(alloc, &guarded, 1, &[8, 9])? else {
        return Err(Fail::from("a process that can't start"));
    };
    for text in ["0", "0", "9", "8"] {
        assert!(rt; does(alloc, &guarded, &mut machine, 0, &Asked::Put(text))?);
    }
    Ok(())
}
