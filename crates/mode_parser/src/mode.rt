// Readers of modes (Z.200, chapter on modes).
ghost use Rattle.std.specs.Prelude.{map};
ghost use Rattle.chill_tree.specs.ModeTree.{mode_tree};
ghost use Rattle.expr_parser.specs.Giving.{Gives};
ghost use Rattle.mode_parser.specs.ModeParts.{read_only_at, event_at, buffer_at};
ghost use Rattle.rules_model.specs.Reading.{listed_at};
ghost use Rattle.rules_model.specs.ModeReading.{mode_at};

use crate::base::read_base;
use crate::place::read_length;
use chill_base::List;
use chill_tree::tree::Mode;
use chill_tree::{Token, Word};
use expr_parser::{Listed, ParseRefusal, read_list, read_word, starts_with};
use std::alloc::Global;

/// Reads a mode, where `inner` levels of nesting are left behind its opening tokens.
#[tactic(auto, unfolding(rules_model::specs::ModeReading::mode_at))]
pub fn read_mode(
    alloc: Global,
    tokens: &[Token],
    inner: usize,
) -> Result<(Mode, &[Token]), ParseRefusal>
    ensures { Gives (λ x. (mode_tree x.0, x.1.now)) result (mode_at inner tokens.now) }
{
    if starts_with(tokens, Word::Read) {
        return read_only(alloc, tokens, inner);
    }
    if starts_with(tokens, Word::Event) {
        return event(alloc, tokens, inner);
    }
    if starts_with(tokens, Word::Buffer) {
        return buffer(alloc, tokens, inner);
    }
    let (base, rest) = read_base(alloc, tokens, inner)?;
    Ok((Mode::Base(base), rest))
}

// Reads a mode whose locations are only read.
fn read_only(
    alloc: Global,
    tokens: &[Token],
    inner: usize,
) -> Result<(Mode, &[Token]), ParseRefusal>
    ensures { Gives (λ x. (mode_tree x.0, x.1.now)) result (read_only_at inner tokens.now) }
{
    let (at, rest) = read_word(tokens, Word::Read)?;
    let (base, rest) = read_base(alloc, rest, inner)?;
    Ok((Mode::Read { at, base }, rest))
}

// Reads an event mode.
fn event(alloc: Global, tokens: &[Token], inner: usize) -> Result<(Mode, &[Token]), ParseRefusal>
    ensures { Gives (λ x. (mode_tree x.0, x.1.now)) result (event_at inner tokens.now) }
{
    let (at, rest) = read_word(tokens, Word::Event)?;
    let (length, rest) = read_length(alloc, rest, inner)?;
    Ok((Mode::Event { at, length }, rest))
}

// Reads a buffer mode.
fn buffer(alloc: Global, tokens: &[Token], inner: usize) -> Result<(Mode, &[Token]), ParseRefusal>
    ensures { Gives (λ x. (mode_tree x.0, x.1.now)) result (buffer_at inner tokens.now) }
{
    let (at, rest) = read_word(tokens, Word::Buffer)?;
    let (length, rest) = read_length(alloc, rest, inner)?;
    let (element, rest) = read_base(alloc, rest, inner)?;
    let mode = Mode::Buffer {
        at,
        length,
        element,
    };
    Ok((mode, rest))
}

// Modes, where so many levels of nesting are left behind their opening tokens.
#[derive(Drop)]
struct Modes {
    inner: usize,
}

impl Listed for Modes {
    type Item = Mode;

    ghost use Rattle.chill_tree.specs.ModeTree.{ModeTree};

    ghost Tree = { ModeTree };

    ghost tree = { mode_tree };

    ghost reads = { λ s. mode_at s.inner };
}

/// Reads modes with commas between them, at least one, each as `read_mode` does.
pub fn read_modes(
    alloc: Global,
    tokens: &[Token],
    inner: usize,
) -> Result<(List<Mode>, &[Token]), ParseRefusal>
    ensures { Gives (λ x. (map mode_tree x.0, x.1.now)) result (listed_at (mode_at inner) tokens.now) }
{
    read_list(alloc, tokens, &Modes { inner }, |item| {
        read_mode(alloc, item, inner)
    })
}
