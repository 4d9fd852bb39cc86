// What is known of literals, and of names of constants.
ghost use Rattle.std.specs.Prelude.{◌≡◌, true, Some, IfOk, length, map, slice_get, pos, option_map};
ghost use Rattle.modes.specs.ModeTree.{class_tree, derived, int, char, chars};
ghost use Rattle.checks_model.specs.ValueTrees as trees;
ghost use Rattle.class_operators.specs.Predefined.{predefined_tree};
ghost use Rattle.checks_model.specs.Ground.{a_predefined};
ghost use Rattle.checks_model.specs.Constants.{is_constant_origin};
ghost use Rattle.constant_operators.specs.Grounds.{ground_of, class_defined, value_defined, HasGround};
ghost use Rattle.constant_operators.specs.Known.{IsKnownConstant, IsOfEntry, text_value};
ghost use Rattle.constant_operators.specs.Plain.{IsPlain};

use crate::evaluation::{Entry, Evaluation};
use crate::known::Known;
use chill_base::{Item, Memory, Scalars, Text};
use class_operators::copied;
use constant_values::single;
use definition_origins::{Origin, Predefined};
use modes::{Class, Mode};
use std::alloc::Global;
use std::rc::Rc;

impl<'a> Evaluation<'a> {
    /// A number of INT.
    pub fn int(&self, number: i64) -> Result<Known, Memory>
        ensures { IsPlain self.now.plain → IfOk result (IsKnownConstant (Some (derived int)) (Some (trees.number number))) }
    {
        let class = Class::Derived(self.plain.int.clone()?);
        Ok(Known::constant(class, single(self.alloc, number)?))
    }

    /// A character.
    pub fn character(&self, value: u8) -> Result<Known, Memory>
        ensures { IsPlain self.now.plain → IfOk result (IsKnownConstant (Some (derived char)) (Some (trees.number (pos value)))) }
    {
        let class = Class::Derived(self.plain.char.clone()?);
        Ok(Known::constant(class, single(self.alloc, i64::from(value))?))
    }

    /// A text.
    #[tactic(auto, using(modes::proofs::ModeViews::mode_built, crate::proofs::Texts::text_known))]
    pub fn text(&self, value: &Text) -> Result<Known, Memory>
        ensures { IfOk result (IsKnownConstant (Some (derived (chars (length value.now)))) (Some (text_value value.now))) }
    {
        let Ok(length) = u32::try_from(value.len()) else {
            return Err(Memory);
        };
        let mode = Rc::new(self.alloc, Mode::Chars { length })?;
        let scalars = numbers_in(self.alloc, value)?;
        Ok(Known::constant(Class::Derived(mode), scalars))
    }

    /// What is known of a definition that is one of a constant.
    #[tactic(auto, using(crate::proofs::Texts::kept_known, crate::proofs::Texts::kept_none))]
    pub fn constant_name(&self, number: u32) -> Result<Known, Memory>
        ensures { HasGround self.now → is_constant_origin (slice_get (ground_of self.now).origins number) ≡ true →
            IfOk result (IsKnownConstant (class_defined (ground_of self.now) number) (value_defined (ground_of self.now) number)) }
    {
        match self.entry(number) {
            None => Ok(Known::unknown_constant()),
            Some(entry) => of_entry(entry),
        }
    }

    /// Whether a definition is that of a constant.
    #[tactic(auto, using(crate::proofs::Grounds::looked_up))]
    pub fn is_constant_name(&self, number: u32) -> bool
        ensures { result ≡ is_constant_origin (slice_get (ground_of self.now).origins number) }
    {
        match self.origin(number) {
            Some(Origin::Synonym { .. }) | Some(Origin::Element(_)) => true,
            Some(Origin::Predefined(own)) => is_constant(own),
            Some(Origin::SynMode(_))
            | Some(Origin::NewMode(_))
            | Some(Origin::Location { .. })
            | Some(Origin::Parameter { .. })
            | Some(Origin::Counter(_))
            | Some(Origin::Received { .. })
            | Some(Origin::Procedure(_))
            | Some(Origin::Process(_))
            | Some(Origin::Signal(_))
            | Some(Origin::Modulion(_))
            | None => false,
        }
    }
}

// Whether a predefined name is that of a constant.
fn is_constant(own: Predefined) -> bool
    ensures { result ≡ is_constant_origin (Some (a_predefined (predefined_tree own))) }
{
    matches!(own, Predefined::True | Predefined::False | Predefined::Null)
}

// The numbers of the bytes of a text.
fn numbers_in(alloc: Global, text: &Text) -> Result<Scalars, Memory>
    ensures { IfOk result (λ r. r ≡ map pos text.now) }
{
    let mut scalars = Scalars::new(alloc);
    for byte in text.as_slice() {
        scalars.push(i64::from(*byte))?;
    }
    Ok(scalars)
}

// What is known of a constant by what is known of its definition.
fn of_entry(entry: &Entry) -> Result<Known, Memory>
    ensures { IfOk result (IsOfEntry entry.now) }
{
    let class = same_class(&entry.class)?;
    Ok(Known {
        class,
        value: same_value(&entry.value)?,
        is_constant: true,
        is_clean: true,
    })
}

fn same_class(class: &Option<Class>) -> Result<Option<Class>, Memory>
    ensures { IfOk result (λ r. option_map class_tree r ≡ option_map class_tree class.now) }
{
    match class {
        None => Ok(None),
        Some(class) => Ok(Some(copied(class)?)),
    }
}

fn same_value(value: &Option<Scalars>) -> Result<Option<Scalars>, Memory>
    ensures { IfOk result (λ r. r ≡ value.now) }
{
    match value {
        None => Ok(None),
        Some(value) => Ok(Some(value.copy()?)),
    }
}
