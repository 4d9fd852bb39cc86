// The parts of reaches (Z.200, chapter on general semantic properties, visibility): what a text defines, uses, seizes and
// grants, in the order of the text.
ghost use Rattle.std.specs.Prelude.{◌≡◌, IfOk};
ghost use Rattle.names_model.specs.Parts.{define, mention, seize, seize_all, grant, grant_all, stray, modulion, routine, nodes_of, part_tree, part_trees};
ghost use Rattle.names_model.specs.Sizes.{sizes_of, block_of};

use crate::identifier::Identifier;
use crate::kind::{Kind, Need};
use crate::sizes::sizes_of;
use chill_base::{List, Memory, Pos};

/// A name in a mode or an expression.
#[derive(Debug)]
pub enum Mention {
    /// It is used, where something is needed of it.
    Use {
        name: Identifier,
        need: Need,
    },
    /// It is the whole argument of what is called.
    Argument {
        name: Identifier,
        routine: Identifier,
    },
    /// It is defined, as an element of a SET.
    Element(Identifier),
}

/// Names that are defined together, and the mode or value that they are defined by.
#[derive(Debug)]
pub struct Clause {
    pub kind: Kind,
    pub names: List<Identifier>,
    pub text: List<Mention>,
}

/// A part of a reach.
#[derive(Debug)]
#[cycle(part)]
pub enum Part {
    /// A definition of names.
    Define(Clause),
    /// A name that is used otherwise.
    Mention(Mention),
    Seize(Identifier),
    /// The place of an ALL that is seized.
    SeizeAll(Pos),
    Grant(Identifier),
    /// The place of an ALL that is granted.
    GrantAll(Pos),
    /// The label of an EXIT that no action of that label encloses.
    Stray(Identifier),
    /// A module or a region, and how many definitions stand in it.
    Modulion {
        name: Identifier,
        region: bool,
        size: u32,
        parts: List<Part>,
    },
    /// A procedure or a process: its parameters, whose modes stand outside its body, the names in the mode of its result, how
    /// many definitions stand in its body, and the body.
    Routine {
        name: Identifier,
        kind: Kind,
        params: List<Clause>,
        result: List<Mention>,
        size: u32,
        parts: List<Part>,
    },
    /// A block, and how many definitions stand in it.
    Block {
        size: u32,
        parts: List<Part>,
    },
}

impl Part {
    /// A definition of names.
    #[tactic(auto, using(crate::proofs::PartViews::part_built))]
    pub fn define(own: Clause) -> Part
        ensures { part_tree result ≡ define own }
    {
        Part::Define(own)
    }

    /// A name that is used.
    #[tactic(auto, using(crate::proofs::PartViews::part_built))]
    pub fn mention(own: Mention) -> Part
        ensures { part_tree result ≡ mention own }
    {
        Part::Mention(own)
    }

    /// A name that is seized.
    #[tactic(auto, using(crate::proofs::PartViews::part_built))]
    pub fn seize(name: Identifier) -> Part
        ensures { part_tree result ≡ seize name }
    {
        Part::Seize(name)
    }

    /// All that is seized.
    #[tactic(auto, using(crate::proofs::PartViews::part_built))]
    pub fn seize_all(at: Pos) -> Part
        ensures { part_tree result ≡ seize_all at }
    {
        Part::SeizeAll(at)
    }

    /// A name that is granted.
    #[tactic(auto, using(crate::proofs::PartViews::part_built))]
    pub fn grant(name: Identifier) -> Part
        ensures { part_tree result ≡ grant name }
    {
        Part::Grant(name)
    }

    /// All that is granted.
    #[tactic(auto, using(crate::proofs::PartViews::part_built))]
    pub fn grant_all(at: Pos) -> Part
        ensures { part_tree result ≡ grant_all at }
    {
        Part::GrantAll(at)
    }

    /// The label of an EXIT that no action of that label encloses.
    #[tactic(auto, using(crate::proofs::PartViews::part_built))]
    pub fn stray(label: Identifier) -> Part
        ensures { part_tree result ≡ stray label }
    {
        Part::Stray(label)
    }

    /// A module or a region of these parts. It answers `Memory` where no `u32` holds their size.
    #[tactic(auto, using(crate::proofs::PartViews::part_built))]
    pub fn modulion(name: Identifier, region: bool, parts: List<Part>) -> Result<Part, Memory>
        ensures { IfOk result (λ p. part_tree p ≡ modulion name region (sizes_of (nodes_of parts)) (nodes_of parts)) }
    {
        let size = held_size(parts.as_slice())?;
        Ok(Part::Modulion {
            name,
            region,
            size,
            parts,
        })
    }

    /// A procedure or a process whose body has these parts. It answers `Memory` where no `u32` holds their size.
    #[tactic(auto, using(crate::proofs::PartViews::part_built))]
    pub fn routine(
        name: Identifier,
        kind: Kind,
        params: List<Clause>,
        returned: List<Mention>,
        parts: List<Part>,
    ) -> Result<Part, Memory>
        ensures { IfOk result (λ p. part_tree p ≡ routine name kind params returned (sizes_of (nodes_of parts)) (nodes_of parts)) }
    {
        let size = held_size(parts.as_slice())?;
        Ok(Part::Routine {
            name,
            kind,
            params,
            result: returned,
            size,
            parts,
        })
    }

    /// A block of these parts. It answers `Memory` where no `u32` holds their size.
    #[tactic(auto, using(crate::proofs::PartViews::part_built))]
    pub fn block(parts: List<Part>) -> Result<Part, Memory>
        ensures { IfOk result (λ p. part_tree p ≡ block_of (part_trees parts)) }
    {
        let size = held_size(parts.as_slice())?;
        Ok(Part::Block { size, parts })
    }
}

// How many definitions stand in the parts that another holds. It answers `Memory` where no `u32` below the greatest holds that
// number.
fn held_size(parts: &[Part]) -> Result<u32, Memory>
    ensures { IfOk result (λ n. n ≡ sizes_of (nodes_of parts.now)) }
{
    match sizes_of(parts) {
        u32::MAX => Err(Memory),
        size => Ok(size),
    }
}

// Dropped by hand, so that whoever drops one makes one call, and has none of its cases.
impl Drop for Mention {
    fn drop(self) {
        match self {
            Mention::Use { name, need: _ } => drop(name),
            Mention::Argument { name, routine } => {
                drop(name);
                drop(routine);
            }
            Mention::Element(own) => drop(own),
        }
    }
}

impl Drop for Clause {
    fn drop(self) {
        let Clause {
            kind: _,
            names,
            text,
        } = self;
        drop(names);
        drop(text);
    }
}

impl Drop for Part {
    fn drop(self) {
        match self {
            Part::Define(own) => drop(own),
            Part::Mention(own) => drop(own),
            Part::Seize(own) => drop(own),
            Part::SeizeAll(_) => {}
            Part::Grant(own) => drop(own),
            Part::GrantAll(_) => {}
            Part::Stray(own) => drop(own),
            Part::Modulion {
                name,
                region: _,
                size: _,
                parts,
            } => {
                drop(name);
                drop(parts);
            }
            Part::Routine {
                name,
                kind: _,
                params,
                result,
                size: _,
                parts,
            } => {
                drop(name);
                drop(params);
                drop(result);
                drop(parts);
            }
            Part::Block { size: _, parts } => drop(parts),
        }
    }
}
