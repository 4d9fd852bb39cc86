// One list of diagnostics, whose order was written by hand.
use crate::{Diagnostic, Diagnostics, Rule, list_once};
use chill_base::{Item, Memory, Pos, Text};
use std::alloc::Global;
use std::test::Fail;

fn diagnostics(
    alloc: Global,
    rows: &[(u32, u32, Rule, &str, &str)],
) -> Result<Diagnostics, Memory> {
    let mut list = Diagnostics::new(alloc);
    for (line, column, rule, first, second) in rows {
        list.push(Diagnostic {
            at: Pos {
                line: *line,
                column: *column,
            },
            rule: *rule,
            first: Text::from_vec(first.as_bytes().to_vec(alloc)?),
            second: Text::from_vec(second.as_bytes().to_vec(alloc)?),
        })?;
    }
    Ok(list)
}

#[test]
fn diagnostics_are_listed_once_in_order(rt: HostRuntime) -> Result<(), Fail> {
    let alloc = rt.alloc();
    let collected = diagnostics(
        alloc,
        &[
            (2, 1, Rule::N2, "b", ""),
            (1, 9, Rule::M1, "", ""),
            (2, 1, Rule::N2, "aa", ""),
            (2, 1, Rule::M13, "a", "c"),
            (2, 1, Rule::N2, "b", ""),
            (2, 1, Rule::N1, "z", ""),
            (2, 1, Rule::M13, "a", "b"),
            (2, 1, Rule::N2, "a", ""),
            (1, 10, Rule::T1, "", ""),
        ],
    )?;
    let wanted = diagnostics(
        alloc,
        &[
            (1, 9, Rule::M1, "", ""),
            (1, 10, Rule::T1, "", ""),
            (2, 1, Rule::N1, "z", ""),
            (2, 1, Rule::N2, "a", ""),
            (2, 1, Rule::N2, "aa", ""),
            (2, 1, Rule::N2, "b", ""),
            (2, 1, Rule::M13, "a", "b"),
            (2, 1, Rule::M13, "a", "c"),
        ],
    )?;
    let mut list = collected.into_vec();
    list_once(&mut list);
    assert!(rt; Diagnostics::from_vec(list).equals(&wanted));
    Ok(())
}
