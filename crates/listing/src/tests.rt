// One list of diagnostics, whose lines were written by hand.
use crate::diagnostics_text;
use chill_base::{Pos, Text};
use diagnostics::{Diagnostic, Diagnostics, Rule};
use std::test::Fail;

#[test]
fn diagnostics_are_lines(rt: HostRuntime) -> Result<(), Fail> {
    let alloc = rt.alloc();
    let mut list = Diagnostics::new(alloc);
    for (line, column, rule, first, second) in [
        (1, 11, Rule::T1, "", ""),
        (2, 19, Rule::N2, "x", ""),
        (1, 55, Rule::M13, "a", "b"),
        (30, 4294967295, Rule::B1, "", ""),
    ] {
        list.push(Diagnostic {
            at: Pos { line, column },
            rule,
            first: Text::from_vec(first.as_bytes().to_vec(alloc)?),
            second: Text::from_vec(second.as_bytes().to_vec(alloc)?),
        })?;
    }
    let text = diagnostics_text(alloc, &list)?;
    let wanted =
        "1:11: T1 no token\n2:19: N2 name x is not seen here\n1:55: M13 fields a and b overlap\n30:4294967295: B1 not built yet\n";
    assert_eq!(rt; text.as_slice(), wanted.as_bytes());
    Ok(())
}
