// The reaches around a place, by their tables.
ghost use Rattle.std.specs.Prelude.{◌≡◌, List};
ghost use Rattle.names_model.specs.declared.definition.Definition.{Definition};
ghost use Rattle.names_model.specs.Seeing.{Reach, or_else, seen_around, sees};
ghost use Rattle.reach_tables.specs.Scopes.{Shows, shown, shown_around};

use crate::book::Book;
use crate::table::Table;
use names_model::Spelling;

/// The table of a reach, and the reaches around it.
#[derive(Drop)]
pub enum Scope<'a> {
    Outermost {
        table: Table,
    },
    Modulion {
        table: Table,
        takes_all: bool,
        outer: &'a Scope<'a>,
    },
    Block {
        table: Table,
        outer: &'a Scope<'a>,
    },
}

/// The definitions that the tables show under a name. They are lent, and no look-up takes memory.
pub fn shown<'a>(book: &'a Book, scope: &'a Scope<'a>, name: &Spelling) -> &'a [u32]
    ensures { result.now ≡ shown book.now scope.now name.now }
{
    match scope {
        Scope::Outermost { table } => or_else(table.find(name), book.predefined.find(name)),
        Scope::Modulion {
            table,
            takes_all,
            outer,
        } => {
            let own = table.find(name);
            if !own.is_empty() {
                return own;
            }
            if *takes_all {
                return shown(book, outer, name);
            }
            book.predefined.find(name)
        }
        Scope::Block { table, outer } => {
            let local = table.find(name);
            if !local.is_empty() {
                return local;
            }
            shown(book, outer, name)
        }
    }
}

// The first numbers, or the second where there are none.
fn or_else<'a>(first: &'a [u32], second: &'a [u32]) -> &'a [u32]
    ensures { result.now ≡ or_else first.now second.now }
{
    if first.is_empty() { second } else { first }
}

/// The definitions that a reach sees under a name.
pub fn sees<'a>(book: &'a Book, scope: &'a Scope<'a>, name: &Spelling) -> &'a [u32]
    ensures { (text : List Definition) (r : Reach) → Shows book.now scope.now text r → result.now ≡ sees text r name.now }
{
    shown(book, scope, name)
}

/// The definitions that are seen around a reach under a name.
pub fn seen_around<'a>(book: &'a Book, scope: &'a Scope<'a>, name: &Spelling) -> &'a [u32]
    ensures { (text : List Definition) (r : Reach) → Shows book.now scope.now text r → result.now ≡ seen_around text r name.now }
{
    match scope {
        Scope::Outermost { .. } => &[],
        Scope::Modulion { outer, .. } => shown(book, outer, name),
        Scope::Block { outer, .. } => shown(book, outer, name),
    }
}
