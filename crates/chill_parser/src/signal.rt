// Readers of signals (Z.200, chapter on concurrent execution). `inner` is the number of levels of nesting that are
// left behind an opening token.
ghost use Rattle.std.specs.Prelude.{map, option_map};
ghost use Rattle.chill_tree.specs.ItemTree.{signal_tree};
ghost use Rattle.chill_tree.specs.ModeTree.{mode_tree};
ghost use Rattle.chill_tree.specs.declared.token.Word.TheVariants as words;
ghost use Rattle.expr_parser.specs.Giving.{Gives};
ghost use Rattle.rules_model.specs.ItemReading.{signal_at, signal_parts_at};
ghost use Rattle.rules_model.specs.Reading.{listed_at, name_at};
ghost use Rattle.rules_model.specs.SimpleReading.{clause_at};

use chill_base::List;
use chill_tree::tree::{Mode, Name, Signal};
use chill_tree::{Sign, Token, Word};
use expr_parser::{
    Listed, ParseRefusal, less, read_list, read_name, read_sign, read_word, starts, starts_with,
};
use mode_parser::read_modes;
use std::alloc::Global;

// Signals, by the levels that are left.
#[derive(Drop)]
struct Signals {
    inner: usize,
}

impl Listed for Signals {
    type Item = Signal;

    ghost use Rattle.chill_tree.specs.ItemTree.{SignalTree};

    ghost Tree = { SignalTree };

    ghost tree = { signal_tree };

    ghost reads = { λ s. signal_at s.inner };
}

/// Reads signals with commas between them, at least one.
pub(crate) fn read_signals(
    alloc: Global,
    tokens: &[Token],
    inner: usize,
) -> Result<(List<Signal>, &[Token]), ParseRefusal>
    ensures { Gives (λ x. (map signal_tree x.0, x.1.now)) result (listed_at (signal_at inner) tokens.now) }
{
    read_list(alloc, tokens, &Signals { inner }, |item| {
        read_signal(alloc, item, inner)
    })
}

// Reads a signal.
#[tactic(auto, unfolding(rules_model::specs::ItemReading::signal_at))]
fn read_signal(
    alloc: Global,
    tokens: &[Token],
    inner: usize,
) -> Result<(Signal, &[Token]), ParseRefusal>
    ensures { Gives (λ x. (signal_tree x.0, x.1.now)) result (signal_at inner tokens.now) }
{
    let (name, rest) = read_name(tokens)?;
    let (parts, rest) = read_parts(alloc, rest, inner)?;
    let (process, rest) = read_receiver(rest)?;
    Ok((
        Signal {
            name,
            parts,
            process,
        },
        rest,
    ))
}

// Reads the modes of a signal's parts, where there are some.
#[tactic(auto, unfolding(rules_model::specs::ItemReading::signal_parts_at))]
fn read_parts(
    alloc: Global,
    tokens: &[Token],
    inner: usize,
) -> Result<(Option<List<Mode>>, &[Token]), ParseRefusal>
    ensures { Gives (λ x. (option_map (map mode_tree) x.0, x.1.now)) result (signal_parts_at inner tokens.now) }
{
    if !starts(tokens, Sign::Equal) {
        return Ok((None, tokens));
    }
    let (_, rest) = read_sign(tokens, Sign::Equal)?;
    let (_, rest) = read_sign(rest, Sign::Open)?;
    let (modes, rest) = read_modes(alloc, rest, less(inner))?;
    let (_, rest) = read_sign(rest, Sign::Close)?;
    Ok((Some(modes), rest))
}

// Reads the process that a signal is for, where it is named.
#[tactic(auto, unfolding(rules_model::specs::SimpleReading::clause_at))]
fn read_receiver(tokens: &[Token]) -> Result<(Option<Name>, &[Token]), ParseRefusal>
    ensures { Gives (λ x. (x.0, x.1.now)) result (clause_at words.To name_at tokens.now) }
{
    if !starts_with(tokens, Word::To) {
        return Ok((None, tokens));
    }
    let (_, rest) = read_word(tokens, Word::To)?;
    let (process, rest) = read_name(rest)?;
    Ok((Some(process), rest))
}
