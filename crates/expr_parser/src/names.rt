// Lists of names.
ghost use Rattle.std.specs.Prelude.{◌≡◌};
ghost use Rattle.expr_parser.specs.Giving.{Gives};
ghost use Rattle.rules_model.specs.Reading.{name_at, listed_at};

use crate::ParseRefusal;
use crate::list::{Listed, read_list};
use crate::reader::read_name;
use chill_base::List;
use chill_tree::Token;
use chill_tree::tree::Name;
use std::alloc::Global;

// Names.
#[derive(Drop)]
struct Names;

impl Listed for Names {
    type Item = Name;

    ghost use Rattle.chill_tree.specs.declared.tree.name.Name.{Name};

    ghost Tree = { Name };

    ghost tree = { λ x. x };

    ghost reads = { λ _. name_at };
}

/// Reads names with commas between them, at least one.
pub fn read_names(alloc: Global, tokens: &[Token]) -> Result<(List<Name>, &[Token]), ParseRefusal>
    ensures { Gives (λ x. (x.0, x.1.now)) result (listed_at name_at tokens.now) }
{
    read_list(alloc, tokens, &Names, |rest| read_name(rest))
}
