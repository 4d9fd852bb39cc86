// Rules on processes, each told at one place: P1, P2 and P8.
ghost use Rattle.std.specs.Prelude.{◌≡◌, ◌++◌, OnOk};
ghost use Rattle.chill_tree.specs.StatementTree.{statement_tree};
ghost use Rattle.chill_tree.specs.ItemTree.{item_tree};
ghost use Rattle.checks_model.specs.ProcessRules.{is_region, first_place};
ghost use Rattle.process_names.specs.Rules.{told_local, told_place};

use chill_base::{Memory, Pos};
use chill_tree::tree::{Item, ModulionKind, Name, Statement};
use definition_origins::{CheckRule, Told};
use met_names::{Meeting, Meetings};

/// Whether it is a region.
pub fn is_region(kind: ModulionKind) -> bool
    ensures { result ≡ is_region kind }
{
    match kind {
        ModulionKind::Module => false,
        ModulionKind::Region => true,
    }
}

// The place of a statement's first token.
#[tactic(auto, using(chill_tree::proofs::StatementViews::statement_built))]
fn first_place(statement: &Statement) -> Pos
    ensures { result ≡ first_place (statement_tree statement.now) }
{
    match statement {
        Statement::Empty { at } => *at,
        Statement::Simple { at, .. } => *at,
        Statement::Bracketed { at, .. } => *at,
    }
}

/// Rule P8 of a name that is declared in a body.
pub fn tell_local(meetings: &Meetings<'_>, name: &Name, told: &mut Told) -> Result<(), Memory>
    ensures { OnOk result (told.new ≡ told.old ++ told_local meetings.now name.now) }
{
    match meetings.declared_at(name) {
        Some(Meeting::Event) | Some(Meeting::Buffer) => {
            told.tell_name(CheckRule::P8, name.at, name.text.as_slice())
        }
        Some(Meeting::Signal) | Some(Meeting::Other) | None => Ok(()),
    }
}

/// Rules P1 and P2 of an item that stands directly in a modulion of a kind.
#[tactic(auto, using(crate::proofs::Views::item_views))]
pub fn tell_place(around: ModulionKind, item: &Item, told: &mut Told) -> Result<(), Memory>
    ensures { OnOk result (told.new ≡ told.old ++ told_place around (item_tree item.now)) }
{
    if !is_region(around) {
        return Ok(());
    }
    match item {
        Item::Process(own) => told.tell_name(CheckRule::P1, own.name.at, own.name.text.as_slice()),
        Item::Statement(own) => told.tell(CheckRule::P2, first_place(own)),
        Item::Modulion(own) => told.tell(CheckRule::P2, own.name.at),
        Item::Seize { .. }
        | Item::Grant { .. }
        | Item::Local(_)
        | Item::Signals { .. }
        | Item::Procedure(_) => Ok(()),
    }
}
