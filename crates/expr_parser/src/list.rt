// Lists with commas between their items.
ghost use Rattle.std.specs.Prelude.{◌≡◌, ◌∷◌, [], map, option_map};
ghost use Rattle.expr_parser.specs.Giving.{Gives};
ghost use Rattle.rules_model.specs.Marks.{Toks};
ghost use Rattle.rules_model.specs.Reading.{Read, repeat, push, another_at, listed_at};

use crate::ParseRefusal;
use crate::reader::{read_sign, starts};
use chill_base::List;
use chill_tree::{Sign, Token};
use std::alloc::Global;

/// What stands in a list with commas: what its items are, the tree of an item, and what reading one gives.
pub trait Listed {
    type Item: Drop;

    ghost Tree: { Type 0 };

    ghost tree: { Self.Item → Tree };

    ghost reads: { Self → Toks → Read Tree };
}

/// Reads items with commas between them, at least one, each by `read`.
#[tactic(auto, unfolding(rules_model::specs::Reading::listed_at))]
pub fn read_list<'a, L: Listed, F: Fn(&'a [Token]) -> Result<(L::Item, &'a [Token]), ParseRefusal>>(
    alloc: Global,
    tokens: &'a [Token],
    listed: &L,
    read: F,
) -> Result<(List<L::Item>, &'a [Token]), ParseRefusal>
    requires callable { F.IsAlwaysCallable read }
    requires reading { (toks : _) (r : _) → F.post read toks r → Gives (λ x. (L.tree x.0, x.1.now)) r (L.reads listed.now toks.now) }
    ensures { Gives (λ x. (map L.tree x.0, x.1.now)) result (listed_at (L.reads listed.now) tokens.now) }
{
    let (first, rest) = read(tokens)?;
    let mut items = List::new(alloc);
    items.push(first)?;
    others(items, rest, listed, read, tokens.len())
}

// Reads further items, each behind a comma.
#[tactic(auto, using(crate::proofs::Repeats::repeats))]
fn others<'a, L: Listed, F: Fn(&'a [Token]) -> Result<(L::Item, &'a [Token]), ParseRefusal>>(
    first: List<L::Item>,
    tokens: &'a [Token],
    listed: &L,
    read: F,
    limit: usize,
) -> Result<(List<L::Item>, &'a [Token]), ParseRefusal>
    requires callable { F.IsAlwaysCallable read }
    requires reading { (toks : _) (r : _) → F.post read toks r → Gives (λ x. (L.tree x.0, x.1.now)) r (L.reads listed.now toks.now) }
    ensures { Gives (λ x. (map L.tree x.0, x.1.now)) result (repeat (another_at (L.reads listed.now)) push limit (map L.tree first) tokens.now) }
{
    let mut items = first;
    let mut rest = tokens;
    for _ in 0..limit {
        let Some((item, after)) = another(rest, listed, &read)? else {
            return Ok((items, rest));
        };
        items.push(item)?;
        rest = after;
    }
    Ok((items, rest))
}

// Reads a comma and an item, if the comma is there.
#[tactic(auto, unfolding(rules_model::specs::Reading::another_at))]
fn another<'a, L: Listed, F: Fn(&'a [Token]) -> Result<(L::Item, &'a [Token]), ParseRefusal>>(
    tokens: &'a [Token],
    listed: &L,
    read: &F,
) -> Result<Option<(L::Item, &'a [Token])>, ParseRefusal>
    requires callable { F.IsAlwaysCallable read.now }
    requires reading { (toks : _) (r : _) → F.post read.now toks r → Gives (λ x. (L.tree x.0, x.1.now)) r (L.reads listed.now toks.now) }
    ensures { Gives (option_map (λ x. (L.tree x.0, x.1.now))) result (another_at (L.reads listed.now) tokens.now) }
{
    if !starts(tokens, Sign::Comma) {
        return Ok(None);
    }
    let (_, rest) = read_sign(tokens, Sign::Comma)?;
    let (item, rest) = read(rest)?;
    Ok(Some((item, rest)))
}
