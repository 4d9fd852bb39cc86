// The canonical text of a text.
ghost use Rattle.std.specs.Prelude.{◌≡◌, IfOk, IfErr};
ghost use Rattle.text_to_code.specs.Telling.{Formats, IsCanonicalOf, IsNoTree};

use crate::grammar::{NoTree, tokens_of, tree_of};
use crate::told::only;
use chill_base::{Memory, Text};
use diagnostics::Diagnostics;
use std::alloc::Global;
use tree_print::print;

/// What `format` tells of a text.
#[derive(Drop)]
pub enum Formatted {
    /// Why it has no tree.
    Refused(Diagnostics),
    /// Its canonical text.
    Canonical(Text),
}

// The canonical text of a text that has a tree.
fn canonical(alloc: Global, text: &[u8]) -> Result<Text, NoTree>
    ensures canonical { IfOk result (IsCanonicalOf text.now) }
    ensures breaks { IfErr result (IsNoTree text.now) }
{
    let tokens = tokens_of(alloc, text)?;
    let _tree = tree_of(alloc, text, tokens.as_slice())?;
    Ok(print(alloc, tokens.as_slice())?)
}

/// The canonical text of a text, or the first of the rules on tokens and grammar that it breaks (our own choice).
pub fn format_text(alloc: Global, text: &[u8]) -> Result<Formatted, Memory>
    ensures { IfOk result (λ told. Formats text.now told) }
{
    match canonical(alloc, text) {
        Ok(canonical) => Ok(Formatted::Canonical(canonical)),
        Err(NoTree::Breaks(told)) => Ok(Formatted::Refused(only(alloc, told)?)),
        Err(NoTree::Memory) => Err(Memory),
    }
}
