// Layouts of modes, and numbers in bits.
use crate::build::{Step, build};
use Step::{
    Array, ArrayPack, ArrayStep, At, Bool, Char, Chars, Field, Instance, Int, New, Powerset, Range,
    Read, Set, Struct, StructPack,
};
use chill_base::{Bits, Layout};
use layout_map::{LayoutRefusal, get_bits, layout, put_bits, words};
use modes::Mode;
use std::alloc::Global;
use std::test::Fail;

// A mode, and the word, the bits and the sign of each of its scalars.
const LAID: &[(&[Step], &[(u32, u32, u32, bool)])] = &[
    (&[Int], &[(0, 0, 31, true)]),
    (&[Bool], &[(0, 0, 0, false)]),
    (&[Char], &[(0, 0, 7, false)]),
    (&[Instance], &[(0, 0, 31, false)]),
    (&[Set(0, 1)], &[(0, 0, 0, false)]),
    (&[Set(0, 2)], &[(0, 0, 0, false)]),
    (&[Set(0, 3)], &[(0, 0, 1, false)]),
    (&[Set(0, 4)], &[(0, 0, 1, false)]),
    (&[Set(0, 5)], &[(0, 0, 2, false)]),
    (&[Int, Range(0, 0)], &[(0, 0, 0, false)]),
    (&[Int, Range(0, 1)], &[(0, 0, 0, false)]),
    (&[Int, Range(0, 2)], &[(0, 0, 1, false)]),
    (&[Int, Range(0, 255)], &[(0, 0, 7, false)]),
    (&[Int, Range(0, 256)], &[(0, 0, 8, false)]),
    (&[Int, Range(5, 7)], &[(0, 0, 2, false)]),
    (&[Int, Range(-1, 0)], &[(0, 0, 0, true)]),
    (&[Int, Range(-1, 1)], &[(0, 0, 1, true)]),
    (&[Int, Range(-2, 1)], &[(0, 0, 1, true)]),
    (&[Int, Range(-2, 2)], &[(0, 0, 2, true)]),
    (&[Int, Range(-128, 127)], &[(0, 0, 7, true)]),
    (&[Int, Range(-129, 0)], &[(0, 0, 8, true)]),
    (&[Bool, Range(0, 0), Powerset], &[(0, 0, 0, false)]),
    (&[Int, Range(0, 31), Powerset], &[(0, 0, 31, false)]),
    (
        &[Int, Range(0, 32), Powerset],
        &[(0, 0, 31, false), (1, 0, 0, false)],
    ),
    (&[Chars(0)], &[]),
    (
        &[Chars(3)],
        &[(0, 0, 7, false), (1, 0, 7, false), (2, 0, 7, false)],
    ),
    (&[Bool, New(1), Read], &[(0, 0, 0, false)]),
    (
        &[Int, Range(0, 2), Bool, Array],
        &[(0, 0, 0, false), (1, 0, 0, false), (2, 0, 0, false)],
    ),
    (
        &[Int, Range(0, 2), Bool, ArrayPack],
        &[(0, 0, 0, false), (0, 1, 1, false), (0, 2, 2, false)],
    ),
    (
        &[Int, Range(0, 4), Int, Range(0, 255), ArrayPack],
        &[
            (0, 0, 7, false),
            (0, 8, 15, false),
            (0, 16, 23, false),
            (0, 24, 31, false),
            (1, 0, 7, false),
        ],
    ),
    (
        &[Int, Range(0, 5), Int, Range(0, 63), ArrayPack],
        &[
            (0, 0, 5, false),
            (0, 6, 11, false),
            (0, 12, 17, false),
            (0, 18, 23, false),
            (0, 24, 29, false),
            (1, 0, 5, false),
        ],
    ),
    (
        &[Bool, Chars(3), ArrayPack],
        &[
            (0, 0, 7, false),
            (0, 8, 15, false),
            (0, 16, 23, false),
            (0, 24, 31, false),
            (1, 0, 7, false),
            (1, 8, 15, false),
        ],
    ),
    (
        &[Bool, Chars(2), Array],
        &[
            (0, 0, 7, false),
            (1, 0, 7, false),
            (2, 0, 7, false),
            (3, 0, 7, false),
        ],
    ),
    (
        &[
            Bool,
            Bool,
            Field(b"a"),
            Bool,
            Field(b"b"),
            Struct(0),
            ArrayPack,
        ],
        &[
            (0, 0, 0, false),
            (1, 0, 0, false),
            (2, 0, 0, false),
            (3, 0, 0, false),
        ],
    ),
    (
        &[
            Bool,
            Bool,
            Field(b"a"),
            Bool,
            Field(b"b"),
            StructPack(0),
            Array,
        ],
        &[
            (0, 0, 0, false),
            (0, 1, 1, false),
            (1, 0, 0, false),
            (1, 1, 1, false),
        ],
    ),
    (
        &[
            Bool,
            Field(b"a"),
            Char,
            Field(b"b"),
            Int,
            Range(0, 255),
            Field(b"c"),
            StructPack(0),
        ],
        &[(0, 0, 0, false), (0, 1, 8, false), (0, 9, 16, false)],
    ),
    (
        &[
            Int,
            Range(0, 65535),
            Field(b"a"),
            Char,
            Field(b"b"),
            Char,
            Field(b"c"),
            Bool,
            Field(b"d"),
            StructPack(0),
        ],
        &[
            (0, 0, 15, false),
            (0, 16, 23, false),
            (0, 24, 31, false),
            (1, 0, 0, false),
        ],
    ),
    (
        &[
            Bool,
            Field(b"a"),
            Bool,
            Field(b"c"),
            Struct(1),
            Field(b"b"),
            Bool,
            Field(b"d"),
            StructPack(0),
        ],
        &[(0, 0, 0, false), (1, 0, 0, false), (2, 0, 0, false)],
    ),
    (
        &[
            Bool,
            Field(b"a"),
            Bool,
            Bool,
            ArrayPack,
            Field(b"b"),
            Bool,
            Field(b"d"),
            StructPack(0),
        ],
        &[
            (0, 0, 0, false),
            (1, 0, 0, false),
            (1, 1, 1, false),
            (2, 0, 0, false),
        ],
    ),
    (
        &[
            Bool,
            Field(b"a"),
            Int,
            Range(0, 32),
            Powerset,
            Field(b"p"),
            Bool,
            Field(b"b"),
            StructPack(0),
        ],
        &[
            (0, 0, 0, false),
            (1, 0, 31, false),
            (2, 0, 0, false),
            (2, 1, 1, false),
        ],
    ),
    (
        &[
            Bool,
            Field(b"a"),
            Chars(0),
            Field(b"t"),
            Bool,
            Field(b"b"),
            StructPack(0),
        ],
        &[(0, 0, 0, false), (0, 1, 1, false)],
    ),
    (
        &[
            Int,
            At(b"a", 0, 0, 31),
            Bool,
            At(b"b", 1, 31, 31),
            Struct(0),
        ],
        &[(0, 0, 31, true), (1, 31, 31, false)],
    ),
    (
        &[
            Int,
            Range(0, 7),
            At(b"a", 0, 0, 2),
            Int,
            Range(0, 7),
            At(b"b", 0, 29, 31),
            Struct(0),
        ],
        &[(0, 0, 2, false), (0, 29, 31, false)],
    ),
    (
        &[Int, Range(-1, 1), At(b"a", 2, 4, 9), Struct(0)],
        &[(2, 4, 9, true)],
    ),
    (
        &[Int, At(b"a", 4095, 0, 31), Struct(0)],
        &[(4095, 0, 31, true)],
    ),
    (
        &[
            Int,
            Field(b"x"),
            Bool,
            At(b"a", 1, 0, 0),
            Struct(1),
            Field(b"s"),
            Int,
            Field(b"y"),
            Struct(0),
        ],
        &[(0, 0, 31, true), (2, 0, 0, false), (3, 0, 31, true)],
    ),
    (
        &[Int, Range(0, 3), Int, Range(0, 255), ArrayStep(0, 0, 7, 8)],
        &[
            (0, 0, 7, false),
            (0, 8, 15, false),
            (0, 16, 23, false),
            (0, 24, 31, false),
        ],
    ),
    (
        &[Int, Range(0, 2), Bool, ArrayStep(1, 31, 31, 32)],
        &[(1, 31, 31, false), (2, 31, 31, false), (3, 31, 31, false)],
    ),
    (
        &[Bool, Bool, ArrayStep(0, 0, 0, 131040)],
        &[(0, 0, 0, false), (4095, 0, 0, false)],
    ),
    (
        &[Bool, Bool, Bool, ArrayStep(0, 0, 0, 1), Array],
        &[
            (0, 0, 0, false),
            (0, 1, 1, false),
            (1, 0, 0, false),
            (1, 1, 1, false),
        ],
    ),
];

// A mode, and the field whose place is impossible.
const IMPOSSIBLE: &[(&[Step], u32)] = &[
    (&[Int, At(b"a", 0, 0, 30), Struct(0)], 0),
    (&[Int, At(b"a", 0, 1, 32), Struct(0)], 0),
    (&[Int, At(b"a", 4096, 0, 31), Struct(0)], 0),
    (&[Bool, At(b"a", 0, 5, 4), Struct(0)], 0),
    (&[Bool, At(b"a", 0, 4294967295, 4294967295), Struct(0)], 0),
    (&[Bool, At(b"a", 0, 0, 4294967295), Struct(0)], 0),
    (&[Chars(1), At(b"a", 0, 0, 31), Struct(0)], 0),
    (
        &[Int, Range(0, 32), Powerset, At(b"a", 0, 0, 31), Struct(0)],
        0,
    ),
    (&[Bool, Field(b"a"), Bool, At(b"b", 0, 0, 0), Struct(0)], 1),
    (&[Bool, At(b"a", 0, 0, 0), Bool, Field(b"b"), Struct(0)], 0),
    (&[Bool, Char, ArrayStep(0, 0, 7, 7)], 0),
    (&[Bool, Char, ArrayStep(0, 0, 8, 8)], 0),
    (&[Bool, Char, ArrayStep(0, 0, 7, 28)], 0),
    (&[Bool, Bool, ArrayStep(0, 0, 0, 262144)], 0),
    (&[Bool, Range(0, 0), Bool, ArrayStep(0, 0, 0, 262145)], 0),
    (&[Bool, Chars(1), ArrayStep(0, 0, 7, 8)], 0),
    (
        &[
            Int,
            Field(b"x"),
            Bool,
            Int,
            ArrayStep(0, 0, 30, 32),
            Field(b"y"),
            Struct(0),
        ],
        2,
    ),
    (
        &[
            Bool,
            At(b"a", 0, 0, 0),
            Bool,
            At(b"b", 0, 0, 0),
            Int,
            At(b"c", 1, 0, 3),
            Struct(0),
        ],
        2,
    ),
];

// A mode, and the two fields that share a bit.
const OVERLAPS: &[(&[Step], u32, u32)] = &[
    (
        &[Bool, At(b"a", 0, 0, 0), Bool, At(b"b", 0, 0, 1), Struct(0)],
        0,
        1,
    ),
    (
        &[
            Bool,
            At(b"a", 0, 0, 3),
            Bool,
            At(b"b", 0, 4, 7),
            Bool,
            At(b"c", 0, 2, 5),
            Struct(0),
        ],
        0,
        2,
    ),
    (
        &[
            Bool,
            At(b"a", 0, 0, 0),
            Bool,
            At(b"b", 1, 0, 0),
            Bool,
            At(b"c", 1, 0, 0),
            Bool,
            At(b"d", 0, 0, 0),
            Struct(0),
        ],
        1,
        2,
    ),
    (
        &[
            Int,
            Field(b"x"),
            Bool,
            At(b"a", 0, 31, 31),
            Bool,
            At(b"b", 0, 31, 31),
            Struct(1),
            Field(b"s"),
            Struct(0),
        ],
        2,
        3,
    ),
    (
        &[
            Bool,
            Bool,
            At(b"a", 0, 9, 9),
            Bool,
            At(b"b", 0, 8, 9),
            Struct(0),
            Array,
        ],
        0,
        1,
    ),
];

fn is_laid(layout: &Layout, expected: &[(u32, u32, u32, bool)]) -> bool {
    if layout.len() != expected.len() {
        return false;
    }
    for (bits, (word, start, end, signed)) in layout.as_slice().iter().zip(expected) {
        if bits.word != *word
            || bits.start != *start
            || bits.end != *end
            || bits.signed != *signed
        {
            return false;
        }
    }
    true
}

fn laid_hold(
    alloc: Global,
    rows: &[(&[Step], &[(u32, u32, u32, bool)])],
) -> Result<bool, LayoutRefusal> {
    for (steps, expected) in rows {
        let Ok(Some(mode)) = build(alloc, steps) else {
            return Ok(false);
        };
        if !is_laid(&layout(alloc, &mode)?, expected) {
            return Ok(false);
        }
    }
    Ok(true)
}

fn refusal(alloc: Global, mode: &Mode) -> Option<LayoutRefusal> {
    match layout(alloc, mode) {
        Ok(_) => None,
        Err(refusal) => Some(refusal),
    }
}

fn impossible_hold(alloc: Global, rows: &[(&[Step], u32)]) -> bool {
    for (steps, field) in rows {
        let Ok(Some(mode)) = build(alloc, steps) else {
            return false;
        };
        if refusal(alloc, &mode) != Some(LayoutRefusal::Impossible { field: *field }) {
            return false;
        }
    }
    true
}

fn overlaps_hold(alloc: Global, rows: &[(&[Step], u32, u32)]) -> bool {
    for (steps, first, second) in rows {
        let Ok(Some(mode)) = build(alloc, steps) else {
            return false;
        };
        let expected = LayoutRefusal::Overlap {
            first: *first,
            second: *second,
        };
        if refusal(alloc, &mode) != Some(expected) {
            return false;
        }
    }
    true
}

fn large_powerset(alloc: Global) -> Result<(u64, usize), LayoutRefusal> {
    let steps = [Int, Range(1, 4096), Powerset];
    let Ok(Some(mode)) = build(alloc, &steps) else {
        return Ok((0, 0));
    };
    let layout = layout(alloc, &mode)?;
    Ok((words(&layout), layout.len()))
}

#[test]
fn modes_are_laid(rt: HostRuntime) -> Result<(), Fail> {
    assert_eq!(rt; laid_hold(rt.alloc(), LAID), Ok(true));
    assert!(rt; impossible_hold(rt.alloc(), IMPOSSIBLE));
    assert!(rt; overlaps_hold(rt.alloc(), OVERLAPS));
    assert_eq!(rt; large_powerset(rt.alloc()), Ok((128, 128)));
    Ok(())
}

#[test]
fn numbers_in_words(rt: HostRuntime) -> Result<(), Fail> {
    let mut words = [0xffff_0000u32, 0x1234_5678];
    let middle = Bits {
        word: 1,
        start: 8,
        end: 15,
        signed: true,
    };
    assert_eq!(rt; get_bits(&words, &middle), 0x56);
    put_bits(&mut words, &middle, -2);
    assert_eq!(rt; words[1], 0x1234_fe78);
    assert_eq!(rt; words[0], 0xffff_0000);
    assert_eq!(rt; get_bits(&words, &middle), -2);
    Ok(())
}
