// The phase of names.
ghost use Rattle.chill_tree.specs.ItemTree.{program_tree};
ghost use Rattle.visibility.specs.Resolves.{Resolves};

use crate::finding::{Found, find};
use crate::refusal::Refusal;
use crate::selves::tell_selves;
use crate::surplus::tell_surplus;
use chill_base::List;
use chill_tree::tree::Tree;
use diagnostics::{Diagnostics, list_once, same_list_law};
use names_model::Names;
use reach_walk::Findings;
use std::alloc::Global;

/// What the names of a program stand for, or the rules N1 to N6 and L3 that it breaks.
pub fn resolve(alloc: Global, tree: &Tree) -> Result<Names, Refusal>
    ensures { Resolves (program_tree tree.now) result }
{
    let Found {
        book,
        count,
        findings,
    } = find(alloc, tree)?;
    let Findings {
        mut told,
        groups,
        uses,
    } = findings;
    tell_selves(alloc, &book, count, &groups, &mut told)?;
    tell_surplus(alloc, &book, count, &mut told)?;
    same_list_law();
    list_once(&mut told);
    let broken = Diagnostics::from_vec(told);
    if !broken.is_empty() {
        return Err(Refusal::Broken(broken));
    }
    Ok(Names {
        definitions: List::from_vec(book.all),
        uses: List::from_vec(uses),
    })
}
