// The predefined names, in upper and in lower case (our own list).
ghost use Rattle.std.specs.Prelude.{◌≡◌, ◌++◌, ◌∷◌, [], flat_map, OnOk};
ghost use Rattle.names_model.specs.declared.definition.Inside.TheVariants as places;
ghost use Rattle.names_model.specs.Definitions.{both_cases, predefined};

use chill_base::{Memory, Pos};
use names_model::{Definition, Identifier, Inside, Kind, Spelling};
use std::alloc::Global;

/// How many predefined definitions there are.
pub const COUNT: u32 = 42;

const PREDEFINED: [(&str, &str, Kind); 21] = [
    ("INT", "int", Kind::PredefinedMode),
    ("BOOL", "bool", Kind::PredefinedMode),
    ("CHAR", "char", Kind::PredefinedMode),
    ("INSTANCE", "instance", Kind::PredefinedMode),
    ("TRUE", "true", Kind::PredefinedConstant),
    ("FALSE", "false", Kind::PredefinedConstant),
    ("NULL", "null", Kind::PredefinedConstant),
    ("NUM", "num", Kind::PredefinedRoutine),
    ("SUCC", "succ", Kind::PredefinedRoutine),
    ("PRED", "pred", Kind::PredefinedRoutine),
    ("ABS", "abs", Kind::PredefinedRoutine),
    ("CARD", "card", Kind::PredefinedRoutine),
    ("MIN", "min", Kind::PredefinedRoutine),
    ("MAX", "max", Kind::PredefinedRoutine),
    ("UPPER", "upper", Kind::MeasuringRoutine),
    ("LOWER", "lower", Kind::MeasuringRoutine),
    ("SIZE", "size", Kind::MeasuringRoutine),
    ("PUT_INT", "put_int", Kind::PredefinedRoutine),
    ("PUT_TEXT", "put_text", Kind::PredefinedRoutine),
    ("PUT_NL", "put_nl", Kind::PredefinedRoutine),
    ("GET_INT", "get_int", Kind::PredefinedRoutine),
];

// A predefined name.
fn push_one(
    alloc: Global,
    spelling: &str,
    kind: Kind,
    out: &mut Vec<Definition>,
) -> Result<(), Memory>
    ensures { OnOk result (out.new.items ≡ out.old.items ++ record { name = record { at = record { line = 0; column = 0 }; spelling = spelling.now }; kind = kind; inside = places.Outermost; elements = 0 } ∷ []) }
{
    out.push(Definition {
        name: Identifier {
            at: Pos { line: 0, column: 0 },
            spelling: Spelling::from_bytes(alloc, spelling.as_bytes())?,
        },
        kind,
        inside: Inside::Outermost,
        elements: 0,
    })?;
    Ok(())
}

// A predefined name in both cases.
fn push_both(
    alloc: Global,
    upper: &str,
    lower: &str,
    kind: Kind,
    out: &mut Vec<Definition>,
) -> Result<(), Memory>
    ensures { OnOk result (out.new.items ≡ out.old.items ++ both_cases upper.now lower.now kind) }
{
    push_one(alloc, upper, kind, out)?;
    push_one(alloc, lower, kind, out)?;
    Ok(())
}

// The names of rows, one after the other.
fn push_rows(
    alloc: Global,
    rows: &[(&str, &str, Kind)],
    out: &mut Vec<Definition>,
) -> Result<(), Memory>
    ensures { OnOk result (out.new.items ≡ out.old.items ++ flat_map (λ row. both_cases row.0.now row.1.now row.2) rows.now) }
{
    for (upper, lower, kind) in rows {
        push_both(alloc, upper, lower, *kind, out)?;
    }
    Ok(())
}

/// The predefined definitions.
pub fn push_predefined(alloc: Global, out: &mut Vec<Definition>) -> Result<(), Memory>
    ensures { OnOk result (out.new.items ≡ out.old.items ++ predefined) }
{
    push_rows(alloc, &PREDEFINED, out)?;
    Ok(())
}
