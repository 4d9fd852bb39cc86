// What is known of definitions that need no others: the elements of SETs, and predefined names.
ghost use Rattle.std.specs.Prelude.{◌≡◌, ◌+◌, List as Row, Some, IfOk, IsSome, OnOk, length, slice_get, option_map};
ghost use Rattle.names_laws.specs.Rising.{Rise, use_places};
ghost use Rattle.modes.specs.ModeTree.{ModeTree, class_tree, mode_tree, derived, boolean};
ghost use Rattle.class_operators.specs.Predefined.{predefined_tree};
ghost use Rattle.checks_model.specs.Ground as model;
ghost use Rattle.checks_model.specs.Ground.{Origin as Tree};
ghost use Rattle.checks_model.specs.Table.{named_set, set_mode};
ghost use Rattle.checks_model.specs.WrittenModes.{set_named};
ghost use Rattle.elaborated_laws.specs.Table.{AreDefined, IsDefinedSo};
ghost use Rattle.definition_origins.specs.OriginTrees.{owner_tree, origin_tree, origin_trees};
ghost use Rattle.constant_operators.specs.Grounds.{ground_of, unknown_entry};
ghost use Rattle.constant_operators.specs.Plain.{IsPlain};
ghost use Rattle.written_modes.specs.Wholes.{tree_there};
ghost use Rattle.definition_table.specs.Entries.{IsSafe, IsEntryOf, IsConstant, IsModeAlone, AreSafe};

use chill_base::{List, Memory};
use chill_tree::tree::Name;
use constant_operators::{Entry, Evaluation, single};
use definition_origins::{Element, Origin, Owner, Predefined, number_at};
use modes::{Class, Mode};
use std::rc::Rc;

// The number of the definition of a name.
fn number_defined(ground: &Evaluation<'_>, name: &Name) -> Option<u32>
    ensures { Rise (use_places ground.now.defined) → result ≡ model.number_at (ground_of ground.now).defined name.now.at }
{
    let defined = ground.defined.as_slice();
    number_at(defined, name.at)
}

// The mode of the SET of these elements.
#[tactic(auto, using(modes::proofs::ModeViews::mode_built))]
fn set_of(ground: &Evaluation<'_>, elements: &[Name]) -> Result<Option<Rc<Mode>>, Memory>
    ensures { Rise (use_places ground.now.defined) → IfOk result (λ m. tree_there m ≡ set_named (ground_of ground.now) elements.now) }
{
    let Some(first) = elements.first() else {
        return Ok(None);
    };
    let Some(definition) = number_defined(ground, first) else {
        return Ok(None);
    };
    let count = u32::try_from(elements.len()).map_err(|_| Memory)?;
    ground.made(Mode::Set { definition, count })
}

// A mode under the name that it is the whole mode of.
#[tactic(auto, using(modes::proofs::ModeViews::mode_built))]
fn under_owner(
    ground: &Evaluation<'_>,
    of: Rc<Mode>,
    owner: Owner<'_>,
) -> Result<Option<Rc<Mode>>, Memory>
    ensures { Rise (use_places ground.now.defined) → IfOk result (λ m. tree_there m ≡ named_set (ground_of ground.now) (owner_tree (Some owner.entry)) (mode_tree of.value)) }
{
    let Owner { name, novel } = owner;
    match number_defined(ground, name) {
        None => Ok(None),
        Some(definition) => ground.made(Mode::Named {
            definition,
            novel,
            of,
        }),
    }
}

// The mode of an element's SET, under the name that it is the whole mode of.
#[tactic(auto, using(crate::proofs::GivenLemmas::set_mode_by))]
fn set_mode(
    ground: &Evaluation<'_>,
    elements: &[Name],
    owner: Option<Owner<'_>>,
) -> Result<Option<Rc<Mode>>, Memory>
    ensures { Rise (use_places ground.now.defined) → IfOk result (λ m. tree_there m ≡ set_mode (ground_of ground.now) elements.now (owner_tree owner.entry)) }
{
    let Some(of) = set_of(ground, elements)? else {
        return Ok(None);
    };
    match owner {
        None => Ok(Some(of)),
        Some(owner) => under_owner(ground, of, owner),
    }
}

// A constant of a class, with its number.
fn constant_entry(
    ground: &Evaluation<'_>,
    class: Option<Class>,
    number: i64,
) -> Result<Entry, Memory>
    ensures { IfOk result (IsConstant (option_map class_tree class) number) }
{
    let mut entry = Entry::unknown(ground.alloc);
    entry.class = class;
    entry.value = Some(single(ground.alloc, number)?);
    Ok(entry)
}

// The class of a constant of a mode.
fn derived(mode: Option<Rc<Mode>>) -> Option<Class>
    ensures { option_map class_tree result ≡ option_map derived (tree_there mode) }
{
    match mode {
        None => None,
        Some(mode) => Some(Class::Derived(mode)),
    }
}

/// An element is of its SET's mode, and has its place in the SET for a value. No `i64` is the number of one behind 2 ^ 63.
pub(crate) fn element_entry(ground: &Evaluation<'_>, own: Element<'_>) -> Result<Entry, Memory>
    ensures { Rise (use_places ground.now.defined) → IsSome (set_mode (ground_of ground.now) own.entry.names.now (owner_tree own.entry.owner)) →
        IfOk result (IsEntryOf (ground_of ground.now) (model.an_element own.entry.names.now own.entry.part (owner_tree own.entry.owner))) }
{
    let Element { names, part, owner } = own;
    let number = i64::try_from(part).map_err(|_| Memory)?;
    let mode = set_mode(ground, names, owner)?;
    let entry = constant_entry(ground, derived(mode), number)?;
    Ok(entry)
}

// TRUE or FALSE.
fn truth_entry(ground: &Evaluation<'_>, number: i64) -> Result<Entry, Memory>
    ensures { IsPlain ground.now.plain → IfOk result (IsConstant (Some (derived boolean)) number) }
{
    let class = Class::Derived(ground.plain.bool.clone()?);
    constant_entry(ground, Some(class), number)
}

// What is known of the predefined name of a mode.
fn mode_entry(ground: &Evaluation<'_>, own: Predefined) -> Result<Entry, Memory>
    ensures { (m : ModeTree) → predefined_tree own ≡ model.of_mode m → IsPlain ground.now.plain → IfOk result (IsEntryOf (ground_of ground.now) (model.a_predefined (predefined_tree own))) }
{
    let mode = ground.predefined_mode(own)?;
    Ok(of_mode(ground, mode))
}

/// What is known of a predefined name.
pub(crate) fn predefined_entry(ground: &Evaluation<'_>, own: Predefined) -> Result<Entry, Memory>
    ensures { IsPlain ground.now.plain → IfOk result (IsEntryOf (ground_of ground.now) (model.a_predefined (predefined_tree own))) }
{
    match own {
        Predefined::True => truth_entry(ground, 1),
        Predefined::False => truth_entry(ground, 0),
        Predefined::Null => constant_entry(ground, Some(Class::Null), 0),
        Predefined::Int | Predefined::Bool | Predefined::Char | Predefined::Instance => {
            mode_entry(ground, own)
        }
        Predefined::Num
        | Predefined::Succ
        | Predefined::Pred
        | Predefined::Abs
        | Predefined::Card
        | Predefined::Min
        | Predefined::Max
        | Predefined::Upper
        | Predefined::Lower
        | Predefined::Size
        | Predefined::PutInt
        | Predefined::PutText
        | Predefined::PutLine
        | Predefined::GetInt => Ok(Entry::unknown(ground.alloc)),
    }
}

/// A definition of which the mode alone is known.
pub(crate) fn of_mode(ground: &Evaluation<'_>, mode: Option<Rc<Mode>>) -> Entry
    ensures { IsModeAlone (tree_there mode) result }
{
    let mut entry = Entry::unknown(ground.alloc);
    entry.mode = mode;
    entry
}

// What is known of a definition that needs no others; of any other nothing is.
fn given_entry(ground: &Evaluation<'_>, origin: Origin<'_>) -> Result<Entry, Memory>
    ensures { Rise (use_places ground.now.defined) → IsPlain ground.now.plain → IsDefinedSo (ground_of ground.now) (origin_tree origin.entry) →
        IfOk result (IsSafe (origin_tree origin.entry)) }
{
    match origin {
        Origin::Element(own) => element_entry(ground, own),
        Origin::Predefined(own) => predefined_entry(ground, own),
        Origin::Synonym { .. }
        | Origin::SynMode(_)
        | Origin::NewMode(_)
        | Origin::Location { .. }
        | Origin::Parameter { .. }
        | Origin::Counter(_)
        | Origin::Received { .. }
        | Origin::Procedure(_)
        | Origin::Process(_)
        | Origin::Signal(_)
        | Origin::Modulion(_) => Ok(Entry::unknown(ground.alloc)),
    }
}

// Puts what is known of one more definition behind the others.
fn push_given(
    ground: &Evaluation<'_>,
    origin: Origin<'_>,
    found: &mut List<Entry>,
) -> Result<(), Memory>
    ensures len { OnOk result (length found.new ≡ length found.old + 1) }
    ensures safe { Rise (use_places ground.now.defined) → IsPlain ground.now.plain → IsDefinedSo (ground_of ground.now) (origin_tree origin.entry) →
        (os : Row Tree) → slice_get os (length found.old) ≡ Some (origin_tree origin.entry) → AreSafe os found.old → OnOk result (AreSafe os found.new) }
{
    let entry = given_entry(ground, origin)?;
    found.push(entry)?;
    Ok(())
}

/// What is known of elements and predefined names; of other definitions nothing is yet.
pub(crate) fn given_entries(ground: &Evaluation<'_>) -> Result<List<Entry>, Memory>
    ensures len { IfOk result (λ found. length found ≡ length ground.now.origins) }
    ensures safe { Rise (use_places ground.now.defined) → IsPlain ground.now.plain → AreDefined (ground_of ground.now) →
        IfOk result (AreSafe (origin_trees ground.now.origins)) }
{
    let mut found = List::new(ground.alloc);
    for origin in ground.origins.as_slice() {
        push_given(ground, *origin, &mut found)?;
    }
    Ok(found)
}
