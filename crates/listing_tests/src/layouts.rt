// Layouts of locations, by hand.
use crate::build::{Step, build};
use crate::programs::{add_location, program_with};
use Step::{
    Array, ArrayPack, ArrayStep, At, Bool, Char, Chars, Field, Instance, Int, Named, Powerset,
    Range, Read, Set, Struct, StructPack,
};
use chill_base::Memory;
use list_texts::layout_text;
use modes::Mode;
use std::alloc::Global;
use std::rc::Rc;
use std::test::Fail;

// A location's mode and name, and its layout.
struct Laid(&'static [Step], &'static str, &'static str);

const SCALARS: &[Laid] = &[
    Laid(&[Int], "n", "location n 1 words\n  word 0 bits 0 to 31\n"),
    Laid(
        &[Bool],
        "ready",
        "location ready 1 words\n  word 0 bits 0 to 0\n",
    ),
    Laid(
        &[Instance, Named, Read],
        "i",
        "location i 1 words\n  word 0 bits 0 to 31\n",
    ),
    Laid(
        &[Int, Range(0, 39), Powerset],
        "p",
        "location p 2 words\n  word 0 bits 0 to 31\n  word 1 bits 0 to 7\n",
    ),
    Laid(&[Chars(0)], "none", "location none 0 words\n"),
    Laid(
        &[Chars(2)],
        "c",
        "location c 2 words\n (0) word 0 bits 0 to 7\n (1) word 1 bits 0 to 7\n",
    ),
];

const ARRAYS: &[Laid] = &[
    Laid(
        &[Int, Range(-1, 1), Bool, Array],
        "a",
        "location a 3 words\n (-1) word 0 bits 0 to 0\n (0) word 1 bits 0 to 0\n (1) word 2 bits 0 to 0\n",
    ),
    Laid(
        &[Set(2), Bool, ArrayPack],
        "by_colour",
        "location by_colour 1 words\n (0) word 0 bits 0 to 0\n (1) word 0 bits 1 to 1\n",
    ),
    Laid(
        &[Bool, Char, Array],
        "b",
        "location b 2 words\n (0) word 0 bits 0 to 7\n (1) word 1 bits 0 to 7\n",
    ),
    Laid(
        &[Int, Range(0, 1), Chars(3), ArrayPack],
        "six",
        "location six 2 words\n (0)(0) word 0 bits 0 to 7\n (0)(1) word 0 bits 8 to 15\n (0)(2) word 0 bits 16 to 23\n (1)(0) word 0 bits 24 to 31\n (1)(1) word 1 bits 0 to 7\n (1)(2) word 1 bits 8 to 15\n",
    ),
    Laid(
        &[Int, Range(0, 3), Int, Range(0, 255), ArrayStep(0, 0, 7, 8)],
        "t",
        "location t 1 words\n (0) word 0 bits 0 to 7\n (1) word 0 bits 8 to 15\n (2) word 0 bits 16 to 23\n (3) word 0 bits 24 to 31\n",
    ),
];

const STRUCTURES: &[Laid] = &[
    Laid(
        &[
            Int,
            Range(0, 65535),
            Field("a"),
            Char,
            Field("b"),
            Char,
            Field("c"),
            Bool,
            Field("d"),
            StructPack(0),
        ],
        "s",
        "location s 2 words\n .a word 0 bits 0 to 15\n .b word 0 bits 16 to 23\n .c word 0 bits 24 to 31\n .d word 1 bits 0 to 0\n",
    ),
    Laid(
        &[
            Int,
            Range(0, 255),
            At("a", 0, 0, 7),
            Int,
            Range(0, 255),
            At("b", 0, 8, 15),
            Struct(0),
        ],
        "s",
        "location s 1 words\n .a word 0 bits 0 to 7\n .b word 0 bits 8 to 15\n",
    ),
    Laid(
        &[
            Int,
            Range(1, 2),
            Int,
            Field("line"),
            Chars(1),
            Field("name"),
            Struct(0),
            Named,
            Array,
        ],
        "calls",
        "location calls 4 words\n (1).line word 0 bits 0 to 31\n (1).name(0) word 1 bits 0 to 7\n (2).line word 2 bits 0 to 31\n (2).name(0) word 3 bits 0 to 7\n",
    ),
];

fn is_listed(alloc: Global, name: &str, mode: Rc<Mode>, expected: &str) -> Result<bool, Memory> {
    let program = program_with(alloc, name, mode)?;
    let text = layout_text(alloc, &program)?;
    Ok(text.as_slice() == expected.as_bytes())
}

// Whether each location has its layout.
fn all_listed(alloc: Global, rows: &[Laid]) -> Result<bool, Memory> {
    for Laid(steps, name, expected) in rows {
        let Some(mode) = build(alloc, steps)? else {
            return Ok(false);
        };
        if !is_listed(alloc, name, mode, expected)? {
            return Ok(false);
        }
    }
    Ok(true)
}

// A program of two locations.
fn two_locations(alloc: Global) -> Result<bool, Memory> {
    let mut program = program_with(alloc, "b", Rc::new(alloc, Mode::Char)?)?;
    add_location(alloc, &mut program, "a", Rc::new(alloc, Mode::Int)?)?;
    let text = layout_text(alloc, &program)?;
    let expected =
        b"location b 1 words\n  word 0 bits 0 to 7\nlocation a 1 words\n  word 0 bits 0 to 31\n";
    Ok(text.as_slice() == expected.as_slice())
}

#[test]
fn scalars_are_listed(rt: HostRuntime) -> Result<(), Fail> {
    let listed = all_listed(rt.alloc(), SCALARS)?;
    assert!(rt; listed);
    Ok(())
}

#[test]
fn elements_are_listed(rt: HostRuntime) -> Result<(), Fail> {
    let listed = all_listed(rt.alloc(), ARRAYS)?;
    assert!(rt; listed);
    Ok(())
}

#[test]
fn fields_are_listed(rt: HostRuntime) -> Result<(), Fail> {
    let listed = all_listed(rt.alloc(), STRUCTURES)?;
    assert!(rt; listed);
    Ok(())
}

#[test]
fn locations_are_listed_in_order(rt: HostRuntime) -> Result<(), Fail> {
    let listed = two_locations(rt.alloc())?;
    assert!(rt; listed);
    Ok(())
}
