// Where definitions are looked up that pass the border of a modulion.
ghost use Rattle.std.specs.Prelude.{◌≡◌};

use crate::book::Book;
use crate::scope::{Scope, shown};
use crate::table::Table;
use names_model::Spelling;

/// What tells of the definitions on the other side.
#[derive(Drop)]
pub enum Source<'a> {
    /// Nothing is around.
    Nothing,
    /// What a modulion has from itself and from its modulions.
    Table(&'a Table),
    /// What is seen in the reach around.
    Around {
        book: &'a Book,
        scope: &'a Scope<'a>,
    },
}

impl<'a> Source<'a> {
    ghost use Rattle.std.specs.Prelude.{◌≡◌};
    ghost use Rattle.reach_tables.specs.Scopes.{told_by};

    /// The definitions of a name.
    pub fn find(&self, name: &Spelling) -> &'a [u32]
        ensures { result.now ≡ told_by self.now name.now }
    {
        match self {
            Source::Nothing => &[],
            Source::Table(table) => table.find(name),
            Source::Around { book, scope } => shown(book, scope, name),
        }
    }
}
