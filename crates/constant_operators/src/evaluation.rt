// The modes, classes and values of all definitions, each evaluated once, behind those that it depends on.
ghost use Rattle.std.specs.Prelude.{◌≡◌, Some, IfOk, map, replicate, slice_get, option_map};
ghost use Rattle.chill_tree.specs.ItemTree.{program_tree};
ghost use Rattle.modes.specs.ModeTree.{mode_tree, named};
ghost use Rattle.modes.specs.Form.{form_of};
ghost use Rattle.class_operators.specs.Predefined.{predefined_tree};
ghost use Rattle.checks_model.specs.Ground as model;
ghost use Rattle.checks_model.specs.Operations.{element_of_form};
ghost use Rattle.checks_model.specs.WrittenModes.{set_named};
ghost use Rattle.definition_origins.specs.OriginTrees.{origin_tree};
ghost use Rattle.constant_operators.specs.Grounds.{unknown_entry, ground_of, entry_at, mode_of_predefined, IsUnknown, HasGround};
ghost use Rattle.constant_operators.specs.Plain.{IsPlain};

use chill_base::{List, Memory, Pos, Scalars};
use chill_tree::tree::{Name, Tree};
use definition_origins::{Origin, Origins, Predefined, number_at, origins, places};
use modes::{Class, Form, Mode, form_of};
use names_model::{Names, Resolved};
use std::alloc::Global;
use std::rc::Rc;

/// What is known of a definition. Each is none where there is none, or where something that it needs is broken.
pub struct Entry {
    /// The mode of a mode, location or parameter, of a synonym's names, or of what a procedure returns.
    pub mode: Option<Rc<Mode>>,
    /// The class of a synonym or an element.
    pub class: Option<Class>,
    /// The value of a synonym or an element.
    pub value: Option<Scalars>,
    /// The modes of a signal's parts.
    pub parts: List<Option<Rc<Mode>>>,
}

// Dropped by hand, so that whoever drops one makes one call.
impl Drop for Entry {
    fn drop(self) {
        let Entry {
            mode,
            class,
            value,
            parts,
        } = self;
        drop(mode);
        drop(class);
        drop(value);
        drop(parts);
    }
}

impl Entry {
    /// Nothing is known.
    pub fn unknown(alloc: Global) -> Entry
        ensures { result ≡ unknown_entry }
    {
        Entry {
            mode: None,
            class: None,
            value: None,
            parts: List::new(alloc),
        }
    }
}

/// The modes that every program has.
pub struct Plain {
    pub int: Rc<Mode>,
    pub bool: Rc<Mode>,
    pub char: Rc<Mode>,
    pub instance: Rc<Mode>,
}

// Dropped by hand, so that whoever drops one makes one call.
impl Drop for Plain {
    fn drop(self) {
        let Plain {
            int,
            bool,
            char,
            instance,
        } = self;
        drop(int);
        drop(bool);
        drop(char);
        drop(instance);
    }
}

/// A program whose definitions are evaluated.
pub struct Evaluation<'a> {
    pub alloc: Global,
    pub names: &'a Names,
    /// What each definition is defined by, by its number.
    pub origins: Origins<'a>,
    /// The places of the definitions.
    pub defined: List<Resolved>,
    /// What is known of each definition, by its number.
    pub entries: Vec<Entry>,
    pub plain: Plain,
}

// Dropped by hand, so that whoever drops one makes one call.
impl<'a> Drop for Evaluation<'a> {
    fn drop(self) {
        let Evaluation {
            alloc: _,
            names: _,
            origins,
            defined,
            entries,
            plain,
        } = self;
        drop(origins);
        drop(defined);
        drop(entries);
        drop(plain);
    }
}

#[tactic(auto, using(modes::proofs::ModeViews::mode_built))]
fn plain_modes(alloc: Global) -> Result<Plain, Memory>
    ensures { IfOk result IsPlain }
{
    Ok(Plain {
        int: Rc::new(alloc, Mode::Int)?,
        bool: Rc::new(alloc, Mode::Bool)?,
        char: Rc::new(alloc, Mode::Char)?,
        instance: Rc::new(alloc, Mode::Instance)?,
    })
}

// So many definitions of which nothing is known.
fn unknown_entries(alloc: Global, count: usize) -> Result<Vec<Entry>, Memory>
    ensures { IfOk result (λ found. found.items ≡ replicate count unknown_entry) }
{
    let mut found = Vec::new(alloc);
    for _ in 0..count {
        found.push(Entry::unknown(alloc))?;
    }
    Ok(found)
}

/// The same mode once more.
pub fn shared(mode: Option<&Rc<Mode>>) -> Result<Option<Rc<Mode>>, Memory>
    ensures { IfOk result (λ r. option_map (λ m. mode_tree m.value) r ≡ option_map (λ m. mode_tree m.now.value) mode.entry) }
{
    match mode {
        None => Ok(None),
        Some(mode) => Ok(Some(mode.clone()?)),
    }
}

impl<'a> Evaluation<'a> {
    /// A program of whose definitions nothing is known yet.
    pub fn unknown(
        alloc: Global,
        tree: &'a Tree,
        names: &'a Names,
    ) -> Result<Evaluation<'a>, Memory>
        ensures { IfOk result (IsUnknown (program_tree tree.now) names.now) }
    {
        let origins = origins(alloc, tree)?;
        let entries = unknown_entries(alloc, origins.as_slice().len())?;
        let defined = places(alloc, names.definitions.as_slice())?;
        Ok(Evaluation {
            alloc,
            names,
            origins,
            defined,
            entries,
            plain: plain_modes(alloc)?,
        })
    }

    fn origin_kept(&self, number: u32) -> Option<&Origin<'a>>
        ensures { option_map (λ o. o.now) result ≡ slice_get self.now.origins number }
    {
        self.origins.as_slice().get(number as usize)
    }

    /// What a definition is defined by.
    #[tactic(auto, using(crate::proofs::Grounds::looked_up))]
    pub fn origin(&self, number: u32) -> Option<Origin<'a>>
        ensures { option_map origin_tree result ≡ slice_get (ground_of self.now).origins number }
    {
        match self.origin_kept(number) {
            None => None,
            Some(origin) => Some(*origin),
        }
    }

    /// What is known of a definition.
    pub fn entry(&self, number: u32) -> Option<&Entry>
        ensures { option_map (λ e. e.now) result ≡ slice_get self.now.entries.items number }
    {
        self.entries.get(number as usize)
    }

    // The mode that is known of a definition.
    #[tactic(auto, using(crate::proofs::Grounds::looked_up))]
    fn mode_known(&self, number: u32) -> Option<&Rc<Mode>>
        ensures { option_map (λ m. mode_tree m.now.value) result ≡ model.mode_of_entry (slice_get (ground_of self.now).entries number) }
    {
        match self.entry(number) {
            None => None,
            Some(entry) => match &entry.mode {
                None => None,
                Some(mode) => Some(mode),
            },
        }
    }

    /// The number of the definition that the name used at a place stands for.
    pub fn used_at(&self, at: Pos) -> Option<u32>
        ensures { HasGround self.now → result ≡ model.number_at (ground_of self.now).uses at }
    {
        let uses = self.names.uses.as_slice();
        number_at(uses, at)
    }

    /// The number of the definition whose name stands at a place.
    pub fn defined_at(&self, at: Pos) -> Option<u32>
        ensures { HasGround self.now → result ≡ model.number_at (ground_of self.now).defined at }
    {
        let defined = self.defined.as_slice();
        number_at(defined, at)
    }

    /// The mode of the mode, location, parameter or synonym that a name defines, or of what the procedure that it defines
    /// returns.
    #[tactic(auto, using(crate::proofs::Grounds::looked_up))]
    pub fn mode_defined(&self, name: &Name) -> Option<&Rc<Mode>>
        ensures { HasGround self.now → option_map (λ m. mode_tree m.now.value) result ≡ model.mode_of_entry (model.entry_defined (ground_of self.now) name.now) }
    {
        match self.defined_at(name.at) {
            None => None,
            Some(number) => self.mode_known(number),
        }
    }

    /// The mode of what the name used at a place stands for, where that has one.
    #[tactic(auto, using(crate::proofs::Grounds::looked_up))]
    pub fn mode_used(&self, at: Pos) -> Option<&Rc<Mode>>
        ensures { HasGround self.now → option_map (λ m. mode_tree m.now.value) result ≡ model.mode_of_entry (entry_at (ground_of self.now) at) }
    {
        match self.used_at(at) {
            None => None,
            Some(number) => self.mode_known(number),
        }
    }

    /// The mode of the elements of an array or a text.
    pub fn element_in<'k>(&'k self, of: &'k Mode) -> Option<&'k Rc<Mode>>
        ensures { IsPlain self.now.plain → option_map (λ m. mode_tree m.now.value) result ≡ element_of_form (form_of (mode_tree of.now)) }
    {
        match form_of(of) {
            Form::Array { element, .. } => Some(element),
            Form::Chars(_) => Some(&self.plain.char),
            Form::Int
            | Form::Bool
            | Form::Char
            | Form::Instance
            | Form::Set { .. }
            | Form::Powerset(_)
            | Form::Struct { .. }
            | Form::Meeting => None,
        }
    }

    /// What the name used at a place is defined by.
    #[tactic(auto, using(crate::proofs::Grounds::looked_up))]
    pub fn origin_used(&self, at: Pos) -> Option<Origin<'a>>
        ensures { HasGround self.now → option_map origin_tree result ≡ model.origin_at (ground_of self.now) at }
    {
        match self.used_at(at) {
            None => None,
            Some(number) => self.origin(number),
        }
    }

    /// A mode that others may hold.
    pub fn made(&self, mode: Mode) -> Result<Option<Rc<Mode>>, Memory>
        ensures { IfOk result (λ m. option_map (λ m. mode_tree m.value) m ≡ Some (mode_tree mode)) }
    {
        Ok(Some(Rc::new(self.alloc, mode)?))
    }

    /// The mode of a SET of these elements.
    #[tactic(auto, using(crate::proofs::Grounds::looked_up, modes::proofs::ModeViews::mode_built))]
    pub fn set_named(&self, elements: &[Name]) -> Result<Option<Rc<Mode>>, Memory>
        ensures { HasGround self.now → IfOk result (λ m. option_map (λ m. mode_tree m.value) m ≡ set_named (ground_of self.now) elements.now) }
    {
        let Some(first) = elements.first() else {
            return Ok(None);
        };
        let Some(definition) = self.defined_at(first.at) else {
            return Ok(None);
        };
        let count = u32::try_from(elements.len()).map_err(|_| Memory)?;
        self.made(Mode::Set { definition, count })
    }

    /// The mode that a name of a mode stands for: the predefined one, or one that has this name.
    #[tactic(auto, using(crate::proofs::Grounds::looked_up))]
    pub fn mode_of_name(&self, name: &Name) -> Result<Option<Rc<Mode>>, Memory>
        ensures { HasGround self.now → IfOk result (λ m. option_map (λ m. mode_tree m.value) m ≡ model.mode_of_name (ground_of self.now) name.now) }
    {
        let Some(definition) = self.used_at(name.at) else {
            return Ok(None);
        };
        match self.origin(definition) {
            Some(Origin::Predefined(own)) => self.predefined_mode(own),
            Some(Origin::SynMode(_)) => self.mode_under_name(definition, false),
            Some(Origin::NewMode(_)) => self.mode_under_name(definition, true),
            Some(Origin::Synonym { .. })
            | Some(Origin::Element(_))
            | Some(Origin::Location { .. })
            | Some(Origin::Parameter { .. })
            | Some(Origin::Counter(_))
            | Some(Origin::Received { .. })
            | Some(Origin::Procedure(_))
            | Some(Origin::Process(_))
            | Some(Origin::Signal(_))
            | Some(Origin::Modulion(_))
            | None => Ok(None),
        }
    }

    // The mode of a definition, under its name.
    #[tactic(auto, using(crate::proofs::Grounds::looked_up, modes::proofs::ModeViews::mode_built))]
    fn mode_under_name(&self, definition: u32, novel: bool) -> Result<Option<Rc<Mode>>, Memory>
        ensures { IfOk result (λ m. option_map (λ m. mode_tree m.value) m ≡ option_map (named definition novel) (model.mode_of_entry (slice_get (ground_of self.now).entries definition))) }
    {
        let Some(of) = self.mode_known(definition) else {
            return Ok(None);
        };
        let of = of.clone()?;
        self.made(Mode::Named {
            definition,
            novel,
            of,
        })
    }

    /// The mode that a predefined name stands for.
    pub fn predefined_mode(&self, own: Predefined) -> Result<Option<Rc<Mode>>, Memory>
        ensures { IsPlain self.now.plain → IfOk result (λ m. option_map (λ m. mode_tree m.value) m ≡ mode_of_predefined (predefined_tree own)) }
    {
        match own {
            Predefined::Int => Ok(Some(self.plain.int.clone()?)),
            Predefined::Bool => Ok(Some(self.plain.bool.clone()?)),
            Predefined::Char => Ok(Some(self.plain.char.clone()?)),
            Predefined::Instance => Ok(Some(self.plain.instance.clone()?)),
            Predefined::True
            | Predefined::False
            | Predefined::Null
            | Predefined::Num
            | Predefined::Succ
            | Predefined::Pred
            | Predefined::Abs
            | Predefined::Card
            | Predefined::Min
            | Predefined::Max
            | Predefined::Upper
            | Predefined::Lower
            | Predefined::Size
            | Predefined::PutInt
            | Predefined::PutText
            | Predefined::PutLine
            | Predefined::GetInt => Ok(None),
        }
    }
}
