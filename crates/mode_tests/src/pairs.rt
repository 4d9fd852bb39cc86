// Which of two modes are similar, v-equivalent and equivalent, and which classes go with which modes.
use crate::build::{Step, build};
use Step::{
    Array, ArrayPack, ArrayStep, At, Bool, Buffer, Char, Chars, Event, Field, Instance, Int, New,
    Powerset, Range, Read, Set, Struct, StructPack, Syn,
};
use chill_base::Memory;
use modes::{Class, Mode, compatible, equivalent, goes_with, similar, v_equivalent};
use std::alloc::Global;
use std::rc::Rc;
use std::test::Fail;

// A mode of each kind. Behind it one letter for each mode of the list: `e` equivalent, `v` only v-equivalent, `s` only similar,
// `.` not similar.
const KINDS: &[(&[Step], &[u8])] = &[
    (&[Int], b"e.....vves..........."),
    (&[Bool], b".e..................."),
    (&[Char], b"..e.................."),
    (&[Instance], b"...e................."),
    (&[Set(10, 3)], b"....e................"),
    (&[Set(20, 3)], b".....e..............."),
    (&[Int, Range(0, 7)], b"v.....evvs..........."),
    (&[Int, Read], b"v.....vevs..........."),
    (&[Int, Syn(5)], b"e.....vves..........."),
    (&[Int, New(6)], b"s.....ssse..........."),
    (&[Set(10, 3), Powerset], b"..........e.........."),
    (&[Int, Range(0, 7), Powerset], b"...........e........."),
    (&[Chars(4)], b"............e........"),
    (&[Chars(5)], b".............e......."),
    (&[Int, Range(0, 7), Bool, Array], b"..............e......"),
    (
        &[Int, Range(0, 7), Bool, ArrayPack],
        b"...............e.....",
    ),
    (
        &[Int, Field(b"a"), Bool, Field(b"b"), Struct(0)],
        b"................e....",
    ),
    (
        &[Int, Field(b"a"), Bool, Field(b"c"), Struct(0)],
        b".................e...",
    ),
    (
        &[Int, Field(b"a"), Bool, Field(b"b"), StructPack(0)],
        b"..................e..",
    ),
    (&[Event], b"....................."),
    (&[Int, Buffer], b"....................."),
];

// Two modes, and the letter for them.
const PAIRS: &[(&[Step], &[Step], u8)] = &[
    (&[Set(1, 2), Powerset], &[Set(1, 2), Syn(7), Powerset], b'e'),
    (&[Set(1, 2), Powerset], &[Set(1, 2), New(7), Powerset], b'.'),
    (&[Set(1, 2), Powerset], &[Set(1, 2), Read, Powerset], b'.'),
    (
        &[Int, Range(0, 3), Powerset],
        &[Int, Range(0, 4), Powerset],
        b'.',
    ),
    (
        &[Int, Range(0, 3), Powerset, New(8)],
        &[Int, Range(0, 3), Powerset],
        b's',
    ),
    (&[Int, New(1), Range(0, 3)], &[Int, New(1)], b'v'),
    (&[Int, New(1), Range(0, 3)], &[Int, Range(0, 3)], b's'),
    (&[Int, New(1), Read], &[Int, New(1)], b'v'),
    (&[Int, New(1), Syn(2)], &[Int, New(1)], b'e'),
    (&[Int, New(1), New(2)], &[Int, New(1)], b's'),
    (&[Int, New(1), New(2)], &[Int, Read, New(2)], b'v'),
    (&[Int, Read, Range(0, 3)], &[Int, Range(0, 3)], b'e'),
    (&[Char, Range(0, 255)], &[Char], b'e'),
    (&[Bool, Range(0, 0)], &[Bool], b'v'),
    (
        &[Int, Range(0, 7), Syn(3), Bool, Array],
        &[Int, Range(0, 7), Bool, Array],
        b'e',
    ),
    (
        &[Int, Range(0, 7), New(3), Bool, Array],
        &[Int, Range(0, 7), Bool, Array],
        b'e',
    ),
    (
        &[Int, Range(1, 8), Bool, Array],
        &[Int, Range(0, 7), Bool, Array],
        b'.',
    ),
    (
        &[Char, Range(0, 7), Bool, Array],
        &[Int, Range(0, 7), Bool, Array],
        b'.',
    ),
    (&[Bool, Bool, Read, Array], &[Bool, Bool, Array], b'.'),
    (&[Bool, Bool, Array, Read], &[Bool, Bool, Array], b'v'),
    (
        &[Bool, Bool, ArrayStep(0, 0, 0, 1)],
        &[Bool, Bool, ArrayStep(0, 0, 0, 1)],
        b'e',
    ),
    (
        &[Bool, Bool, ArrayStep(0, 0, 0, 1)],
        &[Bool, Bool, ArrayStep(0, 0, 0, 2)],
        b'.',
    ),
    (
        &[Bool, Bool, ArrayStep(0, 0, 0, 1)],
        &[Bool, Bool, ArrayPack],
        b'.',
    ),
    (
        &[Bool, At(b"a", 0, 0, 0), Struct(0)],
        &[Bool, At(b"a", 0, 0, 0), Struct(0)],
        b'e',
    ),
    (
        &[Bool, At(b"a", 0, 0, 0), Struct(0)],
        &[Bool, At(b"a", 0, 0, 1), Struct(0)],
        b'.',
    ),
    (
        &[Bool, At(b"a", 0, 0, 0), Struct(0)],
        &[Bool, Field(b"a"), Struct(0)],
        b'.',
    ),
    (
        &[Bool, Field(b"a"), Struct(0), New(4)],
        &[Bool, Field(b"a"), Struct(0), New(5)],
        b's',
    ),
    (
        &[Bool, Field(b"a"), Struct(0)],
        &[Bool, Field(b"a"), Bool, Field(b"b"), Struct(0)],
        b'.',
    ),
    (
        &[Event, Field(b"a"), Struct(0)],
        &[Event, Field(b"a"), Struct(0)],
        b'.',
    ),
];

// A mode, and whether NULL goes with it.
const NULLS: &[(&[Step], bool)] = &[
    (&[Instance], true),
    (&[Instance, Read], true),
    (&[Instance, New(3)], true),
    (&[Int], false),
    (&[Instance, Field(b"a"), Struct(0)], false),
    (&[Event], false),
];

fn letter(a: &Mode, b: &Mode) -> u8 {
    if equivalent(a, b) {
        b'e'
    } else if v_equivalent(a, b) {
        b'v'
    } else if similar(a, b) {
        b's'
    } else {
        b'.'
    }
}

// Whether the letter is the one for the two modes, also the other way round, and classes of the first go with the second so.
fn holds(a: &Rc<Mode>, b: &Rc<Mode>, expected: u8) -> Result<bool, Memory> {
    let value = Class::Value(a.clone()?);
    let derived = Class::Derived(a.clone()?);
    let of_value = expected == b'e' || expected == b'v';
    let of_derived = expected != b'.';
    Ok(
        letter(a, b) == expected
            && letter(b, a) == expected
            && goes_with(&value, b) == of_value
            && goes_with(&derived, b) == of_derived
            && compatible(&derived, &Class::Value(b.clone()?)) == of_derived
            && !goes_with(&Class::Nothing, b),
    )
}

fn kinds_hold(alloc: Global, rows: &[(&[Step], &[u8])]) -> Result<bool, Memory> {
    for (steps, letters) in rows {
        for (column, (others, _)) in rows.iter().enumerate() {
            let Some(a) = build(alloc, steps)? else {
                return Ok(false);
            };
            let Some(b) = build(alloc, others)? else {
                return Ok(false);
            };
            if column >= letters.len() || !holds(&a, &b, letters[column])? {
                return Ok(false);
            }
        }
    }
    Ok(true)
}

fn pairs_hold(alloc: Global, rows: &[(&[Step], &[Step], u8)]) -> Result<bool, Memory> {
    for (steps, others, expected) in rows {
        let Some(a) = build(alloc, steps)? else {
            return Ok(false);
        };
        let Some(b) = build(alloc, others)? else {
            return Ok(false);
        };
        if !holds(&a, &b, *expected)? {
            return Ok(false);
        }
    }
    Ok(true)
}

fn nulls_hold(alloc: Global, rows: &[(&[Step], bool)]) -> Result<bool, Memory> {
    for (steps, expected) in rows {
        let Some(mode) = build(alloc, steps)? else {
            return Ok(false);
        };
        if goes_with(&Class::Null, &mode) != *expected {
            return Ok(false);
        }
    }
    Ok(true)
}

#[test]
fn modes_compare(rt: HostRuntime) -> Result<(), Fail> {
    assert!(rt; kinds_hold(rt.alloc(), KINDS)?);
    assert!(rt; pairs_hold(rt.alloc(), PAIRS)?);
    assert!(rt; nulls_hold(rt.alloc(), NULLS)?);
    Ok(())
}
