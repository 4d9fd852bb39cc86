// What holds of one mode: root, novelty, READ, bounds, numbers of values and scalars, the lowest value, the limits.
use crate::build::{Step, build};
use Step::{
    Array, ArrayPack, At, Bool, Buffer, Char, Chars, Event, Field, Instance, Int, New, Powerset,
    Range, Read, Set, Struct, Syn,
};
use chill_base::{List, Memory};
use modes::{
    Bounds, Mode, add_lowest, bounds, equivalent, holds_read, is_discrete, is_of_language, is_read,
    novelty, number_of_leaves, number_of_scalars, number_of_values, root,
};
use std::alloc::Global;
use std::test::Fail;

// A mode, its root and its novelty.
const ROOTS: &[(&[Step], &[Step], Option<u32>)] = &[
    (&[Int], &[Int], None),
    (&[Int, Read], &[Int], None),
    (&[Int, Syn(1)], &[Int], None),
    (&[Int, New(2)], &[Int, New(2)], Some(2)),
    (&[Int, Range(0, 7)], &[Int], None),
    (&[Int, Range(0, 7), New(2)], &[Int, New(2)], Some(2)),
    (&[Int, New(2), Range(0, 7)], &[Int, New(2)], Some(2)),
    (&[Int, New(2), Read], &[Int, New(2)], Some(2)),
    (&[Int, New(2), Syn(3)], &[Int, New(2)], Some(2)),
    (&[Int, Read, New(2)], &[Int, New(2)], Some(2)),
    (&[Int, New(2), New(3)], &[Int, New(2), New(3)], Some(3)),
    (
        &[Int, New(2), Syn(4), New(3), Read],
        &[Int, New(2), New(3)],
        Some(3),
    ),
    (
        &[Int, New(2), Range(0, 9), Range(1, 3)],
        &[Int, New(2)],
        Some(2),
    ),
    (&[Set(4, 3), Syn(1), Range(0, 1)], &[Set(4, 3)], None),
    (&[Int, New(2), Powerset], &[Int, New(2), Powerset], None),
    (
        &[Bool, Int, New(2), Array],
        &[Bool, Int, New(2), Array],
        None,
    ),
    (
        &[Int, New(2), Field(b"a"), Struct(0), Syn(9)],
        &[Int, New(2), Field(b"a"), Struct(0)],
        None,
    ),
    (
        &[Chars(3), New(7), Read, Syn(8)],
        &[Chars(3), New(7)],
        Some(7),
    ),
];

// A mode, whether it is READ, and whether a location of it is only read.
const READS: &[(&[Step], bool, bool)] = &[
    (&[Int], false, false),
    (&[Int, Read], true, true),
    (&[Int, Read, Syn(1)], true, true),
    (&[Int, Read, New(1)], true, true),
    (&[Int, Read, Range(0, 3)], false, false),
    (&[Bool, Int, Read, Array], false, true),
    (&[Bool, Int, Array, Read], true, true),
    (&[Bool, Read, Int, Array], false, false),
    (
        &[Int, Field(b"a"), Int, Read, Field(b"b"), Struct(0)],
        false,
        true,
    ),
    (
        &[Int, Field(b"a"), Int, Field(b"b"), Struct(0)],
        false,
        false,
    ),
    (&[Bool, Read, Powerset], false, false),
    (
        &[Bool, Int, Read, Field(b"a"), Struct(0), Array, New(3)],
        false,
        true,
    ),
    (&[Int, Read, Buffer], false, false),
];

// A mode, its bounds where it is discrete, and its numbers of values, of scalars and of leaves.
const NUMBERS: &[(&[Step], Option<(i64, i64)>, u64, u32, u32)] = &[
    (&[Int], Some((-2147483648, 2147483647)), 4294967296, 1, 1),
    (&[Bool], Some((0, 1)), 2, 1, 1),
    (&[Char], Some((0, 255)), 256, 1, 1),
    (&[Set(0, 5)], Some((0, 4)), 5, 1, 1),
    (&[Instance], None, 0, 1, 1),
    (&[Int, Range(-3, 3)], Some((-3, 3)), 7, 1, 1),
    (&[Char, Range(65, 90), New(2)], Some((65, 90)), 26, 1, 1),
    (&[Set(0, 5), Range(1, 2), Read], Some((1, 2)), 2, 1, 1),
    (&[Int, Range(5, 4)], Some((5, 4)), 0, 1, 1),
    (&[Chars(2), Range(0, 1)], None, 0, 1, 1),
    (&[Int, Range(0, 31), Powerset], None, 0, 1, 1),
    (&[Int, Range(0, 32), Powerset], None, 0, 2, 2),
    (&[Int, Range(1, 4096), Powerset], None, 0, 128, 128),
    (&[Chars(0)], None, 0, 0, 1),
    (&[Chars(256)], None, 0, 256, 256),
    (&[Int, Range(1, 4096), Bool, Array], None, 0, 4096, 4096),
    (&[Int, Range(0, 4096), Bool, Array], None, 0, 4097, 4097),
    (
        &[Int, Range(1, 100), Int, Range(1, 100), Bool, Array, Array],
        None,
        0,
        4097,
        4097,
    ),
    (&[Bool, Chars(0), Array], None, 0, 0, 2),
    (&[Bool, Chars(3), Array], None, 0, 6, 6),
    (
        &[
            Int,
            Field(b"a"),
            Chars(0),
            Field(b"b"),
            Bool,
            Field(b"c"),
            Struct(0),
        ],
        None,
        0,
        2,
        3,
    ),
    (&[Event], None, 0, 0, 0),
    (&[Int, Buffer], None, 0, 0, 0),
];

// A mode and the scalars of its lowest value.
const LOWEST: &[(&[Step], &[i64])] = &[
    (&[Int], &[0]),
    (&[Bool], &[0]),
    (&[Char], &[0]),
    (&[Instance], &[0]),
    (&[Set(0, 5)], &[0]),
    (&[Int, Range(-3, 3)], &[-3]),
    (&[Int, Range(7, 9), Read, New(1)], &[7]),
    (&[Int, Range(3, 4), Powerset], &[0]),
    (&[Int, Range(0, 32), Powerset], &[0, 0]),
    (&[Chars(0)], &[]),
    (&[Chars(3)], &[32, 32, 32]),
    (&[Bool, Int, Range(4, 5), Array], &[4, 4]),
    (&[Bool, Chars(2), ArrayPack], &[32, 32, 32, 32]),
    (
        &[
            Int,
            Range(1, 9),
            Field(b"a"),
            Chars(1),
            Field(b"b"),
            Bool,
            Field(b"c"),
            Struct(0),
        ],
        &[1, 32, 0],
    ),
    (
        &[
            Bool,
            Int,
            Range(6, 9),
            Field(b"a"),
            Char,
            Field(b"b"),
            Struct(0),
            Array,
        ],
        &[6, 0, 6, 0],
    ),
];

// A mode, and whether a text can give it to a location.
const LIMITS: &[(&[Step], bool)] = &[
    (&[Int], true),
    (&[Set(0, 0)], false),
    (&[Set(0, 4096)], true),
    (&[Set(0, 4097)], false),
    (&[Int, Range(3, 3)], true),
    (&[Int, Range(4, 3)], false),
    (&[Int, Range(0, 2147483647)], true),
    (&[Int, Range(0, 2147483648)], false),
    (&[Int, Range(0, 7), Range(0, 8)], false),
    (&[Char, Range(-1, 3)], false),
    (&[Chars(3), Range(0, 1)], false),
    (&[Int, Powerset], false),
    (&[Int, Range(1, 32), Powerset], true),
    (&[Int, Range(0, 32), Powerset], false),
    (&[Instance, Powerset], false),
    (&[Chars(256)], true),
    (&[Chars(257)], false),
    (&[Int, Range(1, 4096), Bool, Array], true),
    (&[Int, Range(0, 4096), Bool, Array], false),
    (&[Int, Bool, Array], false),
    (
        &[Int, Range(1, 64), Int, Range(1, 64), Int, Array, Array],
        true,
    ),
    (
        &[Int, Range(1, 64), Int, Range(1, 65), Int, Array, Array],
        false,
    ),
    (&[Int, Range(1, 4096), Chars(0), Array], true),
    (
        &[Int, Range(1, 64), Int, Range(1, 65), Chars(0), Array, Array],
        false,
    ),
    (&[Struct(0)], false),
    (&[Int, At(b"a", 9, 9, 9), Struct(0)], true),
    (&[Event], false),
    (&[Event, Field(b"a"), Struct(0)], false),
    (&[Bool, Int, Buffer, Array], false),
    (&[Int, Read, New(3)], true),
];

fn roots_hold(alloc: Global, rows: &[(&[Step], &[Step], Option<u32>)]) -> Result<bool, Memory> {
    for (steps, expected, name) in rows {
        let Some(mode) = build(alloc, steps)? else {
            return Ok(false);
        };
        let Some(other) = build(alloc, expected)? else {
            return Ok(false);
        };
        let own = root(alloc, &mode)?;
        if !equivalent(&own, &other) || novelty(&mode) != *name || novelty(&own) != *name {
            return Ok(false);
        }
    }
    Ok(true)
}

fn reads_hold(alloc: Global, rows: &[(&[Step], bool, bool)]) -> Result<bool, Memory> {
    for (steps, own, holds) in rows {
        let Some(mode) = build(alloc, steps)? else {
            return Ok(false);
        };
        if is_read(&mode) != *own || holds_read(&mode) != *holds {
            return Ok(false);
        }
    }
    Ok(true)
}

fn same_bounds(mode: &Mode, expected: Option<(i64, i64)>) -> bool {
    let wanted = match expected {
        None => None,
        Some((low, high)) => Some(Bounds { low, high }),
    };
    bounds(mode) == wanted && is_discrete(mode) == wanted.is_some()
}

fn numbers_hold(
    alloc: Global,
    rows: &[(&[Step], Option<(i64, i64)>, u64, u32, u32)],
) -> Result<bool, Memory> {
    for (steps, limits, values, scalars, leaves) in rows {
        let Some(mode) = build(alloc, steps)? else {
            return Ok(false);
        };
        if !same_bounds(&mode, *limits)
            || number_of_values(&mode) != *values
            || number_of_scalars(&mode) != *scalars
            || number_of_leaves(&mode) != *leaves
        {
            return Ok(false);
        }
    }
    Ok(true)
}

fn lowest_hold(alloc: Global, rows: &[(&[Step], &[i64])]) -> Result<bool, Memory> {
    for (steps, expected) in rows {
        let Some(mode) = build(alloc, steps)? else {
            return Ok(false);
        };
        let mut scalars = List::new(alloc);
        add_lowest(&mode, &mut scalars)?;
        if scalars.as_slice() != *expected {
            return Ok(false);
        }
    }
    Ok(true)
}

fn limits_hold(alloc: Global, rows: &[(&[Step], bool)]) -> Result<bool, Memory> {
    for (steps, expected) in rows {
        let Some(mode) = build(alloc, steps)? else {
            return Ok(false);
        };
        if is_of_language(&mode) != *expected {
            return Ok(false);
        }
    }
    Ok(true)
}

#[test]
fn single_modes(rt: HostRuntime) -> Result<(), Fail> {
    assert!(rt; roots_hold(rt.alloc(), ROOTS)?);
    assert!(rt; reads_hold(rt.alloc(), READS)?);
    assert!(rt; numbers_hold(rt.alloc(), NUMBERS)?);
    assert!(rt; lowest_hold(rt.alloc(), LOWEST)?);
    assert!(rt; limits_hold(rt.alloc(), LIMITS)?);
    Ok(())
}
