// Modulions, procedures, processes and signals (Z.200, chapters on program structure and on concurrent
// execution).
ghost use Rattle.std.specs.Prelude.{◌≡◌};

use crate::tree::{BodyPart, Handler, Local, Mode, Name, Statement};
use chill_base::{List, Pos};

/// A program: its modules and regions.
#[derive(Drop)]
pub struct Tree {
    pub modulions: List<Modulion>,
}

/// Whether processes run through a modulion side by side or one at a time.
#[derive(Clone, Copy, PartialEq, Eq)]
pub enum ModulionKind {
    Module,
    Region,
}

/// A module or a region.
#[derive(Drop)]
#[cycle(item)]
pub struct Modulion {
    pub name: Name,
    pub kind: ModulionKind,
    pub items: List<Item>,
    pub handler: Option<Box<Handler>>,
    pub closing: Option<Name>,
}

/// What stands in a modulion.
#[derive(Drop)]
#[cycle(item)]
pub enum Item {
    Seize { at: Pos, passed: Passed },
    Grant { at: Pos, passed: Passed },
    Local(Local),
    Signals { at: Pos, signals: List<Signal> },
    Procedure(Box<Procedure>),
    Process(Box<Process>),
    Modulion(Box<Modulion>),
    Statement(Statement),
}

/// The names that pass a modulion's border, or the place of the word ALL.
#[derive(Drop)]
pub enum Passed {
    Names(List<Name>),
    All(Pos),
}

/// A signal, the modes of its parts, and the process that it is for.
#[derive(Drop)]
pub struct Signal {
    pub name: Name,
    pub parts: Option<List<Mode>>,
    pub process: Option<Name>,
}

/// A procedure.
#[derive(Drop)]
pub struct Procedure {
    pub name: Name,
    pub params: List<Param>,
    pub returns: Option<Mode>,
    pub exceptions: Option<List<Name>>,
    pub body: List<BodyPart>,
    pub handler: Option<Box<Handler>>,
    pub closing: Option<Name>,
}

/// Parameters of a procedure that have one mode.
#[derive(Drop)]
pub struct Param {
    pub names: List<Name>,
    pub mode: Mode,
    pub passing: Option<Passing>,
}

/// Which way a parameter passes its value.
#[derive(Clone, Copy, PartialEq, Eq)]
pub enum Passing {
    In,
    Out,
    InOut,
}

/// A process.
#[derive(Drop)]
pub struct Process {
    pub name: Name,
    pub formals: List<Formal>,
    pub body: List<BodyPart>,
    pub handler: Option<Box<Handler>>,
    pub closing: Option<Name>,
}

/// Parameters of a process that have one mode.
#[derive(Drop)]
pub struct Formal {
    pub names: List<Name>,
    pub mode: Mode,
}

impl Item {
    ghost use Rattle.std.specs.Prelude.{map};
    ghost use Rattle.chill_tree.specs.LocalTree.{local_tree};
    ghost use Rattle.chill_tree.specs.StatementTree.{statement_tree};
    ghost use Rattle.chill_tree.specs.ItemTree.{seize, grant, local_item, signals, procedure, process, modulion_item, action, signal_tree, boxed_procedure, boxed_process, item_tree, boxed_modulion};

    /// Names that are taken from outside.
    #[tactic(auto, using(crate::proofs::ItemViews::item_built))]
    pub fn seize(at: Pos, passed: Passed) -> Item
        ensures { item_tree result ≡ seize at passed }
    {
        Item::Seize { at, passed }
    }

    /// Names that are given to the outside.
    #[tactic(auto, using(crate::proofs::ItemViews::item_built))]
    pub fn grant(at: Pos, passed: Passed) -> Item
        ensures { item_tree result ≡ grant at passed }
    {
        Item::Grant { at, passed }
    }

    /// A definition.
    #[tactic(auto, using(crate::proofs::ItemViews::item_built))]
    pub fn local(own: Local) -> Item
        ensures { item_tree result ≡ local_item (local_tree own) }
    {
        Item::Local(own)
    }

    /// Signals.
    #[tactic(auto, using(crate::proofs::ItemViews::item_built))]
    pub fn signals(at: Pos, own: List<Signal>) -> Item
        ensures { item_tree result ≡ signals at (map signal_tree own) }
    {
        Item::Signals { at, signals: own }
    }

    /// A procedure.
    #[tactic(auto, using(crate::proofs::ItemViews::item_built))]
    pub fn procedure(own: Box<Procedure>) -> Item
        ensures { item_tree result ≡ procedure (boxed_procedure own) }
    {
        Item::Procedure(own)
    }

    /// A process.
    #[tactic(auto, using(crate::proofs::ItemViews::item_built))]
    pub fn process(own: Box<Process>) -> Item
        ensures { item_tree result ≡ process (boxed_process own) }
    {
        Item::Process(own)
    }

    /// A modulion in another.
    #[tactic(auto, using(crate::proofs::ItemViews::item_built))]
    pub fn modulion(own: Box<Modulion>) -> Item
        ensures { item_tree result ≡ modulion_item (boxed_modulion own) }
    {
        Item::Modulion(own)
    }

    /// An action of the outermost process.
    #[tactic(auto, using(crate::proofs::ItemViews::item_built))]
    pub fn action(own: Statement) -> Item
        ensures { item_tree result ≡ action (statement_tree own) }
    {
        Item::Statement(own)
    }
}

impl Modulion {
    ghost use Rattle.std.specs.Prelude.{option_map};
    ghost use Rattle.chill_tree.specs.StatementTree.{boxed_handler};
    ghost use Rattle.chill_tree.specs.ItemTree.{item_trees, modulion_tree};

    /// A module or a region.
    #[tactic(auto, using(crate::proofs::ItemViews::item_built))]
    pub fn new(
        name: Name,
        kind: ModulionKind,
        items: List<Item>,
        handler: Option<Box<Handler>>,
        closing: Option<Name>,
    ) -> Modulion
        ensures { modulion_tree result ≡ record { name = name; kind = kind; items = item_trees items; handler = option_map boxed_handler handler; closing = closing } }
    {
        Modulion {
            name,
            kind,
            items,
            handler,
            closing,
        }
    }
}
