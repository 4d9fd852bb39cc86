// Modes as they are written (Z.200, chapter on modes and classes).
ghost use Rattle.std.specs.Prelude.{◌≡◌};

use crate::tree::{Expr, Name};
use chill_base::{List, Memory, Pos};
use std::alloc::Global;

/// A mode, whose values locations hold, or through which processes meet.
#[derive(Drop)]
pub enum Mode {
    Base(Box<Base>),
    Read {
        at: Pos,
        base: Box<Base>,
    },
    Event {
        at: Pos,
        length: Option<Box<Expr>>,
    },
    Buffer {
        at: Pos,
        length: Option<Box<Expr>>,
        element: Box<Base>,
    },
}

/// A mode of values.
#[derive(Drop)]
#[cycle(base)]
pub enum Base {
    Discrete(Discrete),
    Powerset {
        at: Pos,
        member: Discrete,
    },
    Chars {
        at: Pos,
        length: Box<Expr>,
    },
    Struct {
        at: Pos,
        fields: List<Field>,
        packing: Option<Packing>,
    },
    Array {
        at: Pos,
        index: Index,
        element: Box<Base>,
        spread: Option<Spread>,
    },
}

/// A mode that is named, as a whole or in part, or a set of elements.
#[derive(Drop)]
pub enum Discrete {
    Named(Name),
    Range {
        parent: Name,
        low: Box<Expr>,
        high: Box<Expr>,
    },
    Set {
        at: Pos,
        elements: List<Name>,
    },
}

/// The indices of an array.
#[derive(Drop)]
pub enum Index {
    Named(Name),
    Range { low: Box<Expr>, high: Box<Expr> },
}

/// Fields of one mode in a structure, and their place where one is written.
#[derive(Drop)]
#[cycle(base)]
pub struct Field {
    pub names: List<Name>,
    pub base: Box<Base>,
    pub place: Option<Place>,
}

/// Whether parts are packed.
#[derive(Clone, Copy, PartialEq, Eq)]
pub enum Packing {
    Pack,
    NoPack,
}

/// How the elements of an array lie.
#[derive(Drop)]
pub enum Spread {
    Packing(Packing),
    Step(Step),
}

/// A place in words: `POS (word, start : end)` or `POS (word, start, length)`.
#[derive(Drop)]
pub struct Place {
    pub at: Pos,
    pub word: Box<Expr>,
    pub start: Box<Expr>,
    pub form: PlaceForm,
    pub bound: Box<Expr>,
}

/// What the last number of a place is.
#[derive(Clone, Copy, PartialEq, Eq)]
pub enum PlaceForm {
    End,
    Length,
}

/// The place of an array's first element, and the bits from each to the next.
#[derive(Drop)]
pub struct Step {
    pub at: Pos,
    pub place: Place,
    pub distance: Box<Expr>,
}

impl Base {
    ghost use Rattle.std.specs.Prelude.{IfOk, option_map};
    ghost use Rattle.chill_tree.specs.ExprTree.{boxed_expr};
    ghost use Rattle.chill_tree.specs.ModeTree.{discrete, powerset, chars, structure, array, field_nodes, discrete_tree, index_tree, spread_tree, boxed_base, field_trees};

    /// A discrete mode.
    #[tactic(auto, using(crate::proofs::ModeViews::base_built))]
    pub fn discrete(alloc: Global, own: Discrete) -> Result<Box<Base>, Memory>
        ensures { IfOk result (λ b. boxed_base b ≡ discrete (discrete_tree own)) }
    {
        Ok(Box::new(alloc, Base::Discrete(own))?)
    }

    /// The sets of values of a discrete mode.
    #[tactic(auto, using(crate::proofs::ModeViews::base_built))]
    pub fn powerset(alloc: Global, at: Pos, member: Discrete) -> Result<Box<Base>, Memory>
        ensures { IfOk result (λ b. boxed_base b ≡ powerset at (discrete_tree member)) }
    {
        Ok(Box::new(alloc, Base::Powerset { at, member })?)
    }

    /// Texts of a length.
    #[tactic(auto, using(crate::proofs::ModeViews::base_built))]
    pub fn chars(alloc: Global, at: Pos, length: Box<Expr>) -> Result<Box<Base>, Memory>
        ensures { IfOk result (λ b. boxed_base b ≡ chars at (boxed_expr length)) }
    {
        Ok(Box::new(alloc, Base::Chars { at, length })?)
    }

    /// A structure.
    #[tactic(auto, using(crate::proofs::ModeViews::base_built))]
    pub fn structure(
        alloc: Global,
        at: Pos,
        fields: List<Field>,
        packing: Option<Packing>,
    ) -> Result<Box<Base>, Memory>
        ensures { IfOk result (λ b. boxed_base b ≡ structure at (field_nodes (field_trees fields)) packing) }
    {
        let structure = Base::Struct {
            at,
            fields,
            packing,
        };
        Ok(Box::new(alloc, structure)?)
    }

    /// An array.
    #[tactic(auto, using(crate::proofs::ModeViews::base_built))]
    pub fn array(
        alloc: Global,
        at: Pos,
        index: Index,
        element: Box<Base>,
        spread: Option<Spread>,
    ) -> Result<Box<Base>, Memory>
        ensures { IfOk result (λ b. boxed_base b ≡ array at (index_tree index) (boxed_base element) (option_map spread_tree spread)) }
    {
        let array = Base::Array {
            at,
            index,
            element,
            spread,
        };
        Ok(Box::new(alloc, array)?)
    }
}

impl Field {
    ghost use Rattle.std.specs.Prelude.{option_map};
    ghost use Rattle.chill_tree.specs.ModeTree.{place_tree, boxed_base, field_tree};

    /// Fields of one mode.
    #[tactic(auto, using(crate::proofs::ModeViews::base_built))]
    pub fn new(names: List<Name>, base: Box<Base>, place: Option<Place>) -> Field
        ensures { field_tree result ≡ record { names = names; base = boxed_base base; place = option_map place_tree place } }
    {
        Field { names, base, place }
    }
}
