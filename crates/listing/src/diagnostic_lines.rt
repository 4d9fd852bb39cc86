// Diagnostics as text, a line each.
ghost use Rattle.std.specs.Prelude.{◌≡◌, ◌++◌, IfOk, OnOk};
ghost use Rattle.diagnostics.specs.Rules.{filled};
ghost use Rattle.listing.specs.Diagnostics.{line_of, lines_of};

use chill_base::{Memory, Text};
use diagnostics::{Diagnostic, Diagnostics};
use std::alloc::Global;

/// The diagnostics in order, each as `LINE:COLUMN: RULE TEXT` with a line feed (our own choice).
pub fn diagnostics_text(alloc: Global, list: &Diagnostics) -> Result<Text, Memory>
    ensures { IfOk result (λ text. text ≡ lines_of list.now) }
{
    let mut text = Vec::new(alloc);
    for diagnostic in list.as_slice() {
        push_line(alloc, &mut text, diagnostic)?;
    }
    Ok(Text::from_vec(text))
}

fn push_line(alloc: Global, text: &mut Vec<u8>, diagnostic: &Diagnostic) -> Result<(), Memory>
    ensures { OnOk result (text.new.items ≡ text.old.items ++ line_of diagnostic.now) }
{
    let line = diagnostic.at.line;
    let column = diagnostic.at.column;
    let rule = diagnostic.rule.name();
    let head = format!(in alloc; "{line}:{column}: {rule} ")?;
    text.extend_from_slice(head.as_bytes())?;
    push_filled(
        text,
        diagnostic.rule.text().as_bytes(),
        diagnostic.first.as_slice(),
        diagnostic.second.as_slice(),
    )?;
    text.push(b'\n')?;
    Ok(())
}

// A rule's text, with the names in the places of `{1}` and `{2}`.
fn push_filled(text: &mut Vec<u8>, rule: &[u8], first: &[u8], second: &[u8]) -> Result<(), Memory>
    ensures { OnOk result (text.new.items ≡ text.old.items ++ filled first.now second.now rule.now) }
{
    let mut rest = rule;
    'bytes: while let [byte, behind @ ..] = rest {
        match rest {
            [b'{', b'1', b'}', others @ ..] => {
                text.extend_from_slice(first)?;
                rest = others;
            }
            [b'{', b'2', b'}', others @ ..] => {
                text.extend_from_slice(second)?;
                rest = others;
            }
            _ => {
                text.push(*byte)?;
                rest = behind;
            }
        }
    }
    Ok(())
}
