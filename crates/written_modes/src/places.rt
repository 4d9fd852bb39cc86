// Places of fields and elements, and the rules on them (Z.200, chapter on modes; the limits are our own choice).
ghost use Rattle.std.specs.Prelude.{◌≡◌, ◌++◌, ◌∷◌, [], Some, true, false, flat_map, option_map, option_and_then, IfOk, OnOk, if◌then◌else◌};
ghost use Rattle.chill_tree.specs.ExprTree.{expr_tree};
ghost use Rattle.chill_tree.specs.ModeTree as written;
ghost use Rattle.modes.specs.ModeTree.{place_tree, spread_tree};
ghost use Rattle.modes.specs.Bounds.{natural_of};
ghost use Rattle.diagnostics.specs.declared.rule.Rule.TheVariants as rules;
ghost use Rattle.std.specs.Prelude.{codes};
ghost use Rattle.names_model.specs.NameRules.{tell};
ghost use Rattle.checks_model.specs.Told.{told_if};
ghost use Rattle.checks_model.specs.ConstantRules.{told_needed};
ghost use Rattle.checks_model.specs.WrittenModes.{unless_told, held, last_bit, told_in_place, told_in_some_place, told_in_spread, told_spread, spread_there};
ghost use Rattle.constant_operators.specs.Grounds.{ground_of, HasGround};
ghost use Rattle.written_modes.specs.Wholes.{tree_there};
ghost use Rattle.written_modes.specs.Places.{number_tree, number_if, number_seen, placed_tree, place_seen, place_by, held_by, step_by, step_misfits_by, spread_misfits, told_step};

use checks_model::tests_law;
use chill_base::{Bits, Memory, Pos};
use chill_tree::tree::{
    Expr, Field as WrittenField, Packing, Place, PlaceForm, Spread as WrittenSpread, Step,
};
use constant_operators::Evaluation;
use constant_rules::needed;
use definition_origins::{CheckRule, Told};
use layout_map::is_possible_step;
use modes::{Mode, Spread, number_of_values};
use std::rc::Rc;

/// What is known of the place that a text writes.
#[derive(Clone, Copy)]
pub enum Placed {
    /// No place is written.
    Free,
    At(Bits),
    /// A number of it doesn't go with INT.
    Misfit,
    /// Something in it is broken.
    Broken,
}

impl Placed {
    /// The place as a mode holds it, or none where there is none to hold.
    pub fn held(self) -> Option<Option<Bits>>
        ensures { option_map (option_map place_tree) result ≡ held_by (placed_tree self) }
    {
        match self {
            Placed::Free => Some(None),
            Placed::At(bits) => Some(Some(bits)),
            Placed::Misfit | Placed::Broken => None,
        }
    }

    /// Whether a place is written.
    pub fn is_written(self) -> bool
        ensures { result ≡ (placed_tree self).is_written }
    {
        !matches!(self, Placed::Free)
    }
}

// A number of a place: none where something in it is broken.
#[derive(Clone, Copy)]
enum PlaceNumber {
    Number(i64),
    Misfit,
    Broken,
}

/// The place of the fields of a clause.
pub fn field_place(
    ground: &Evaluation<'_>,
    place: &Option<Place>,
    told: &mut Told,
) -> Result<Placed, Memory>
    ensures told { HasGround ground.now → OnOk result (told.new ≡ told.old ++ told_in_some_place (ground_of ground.now) (option_map written.place_tree place.now)) }
    ensures place { HasGround ground.now → IfOk result (λ p. placed_tree p ≡ place_seen (ground_of ground.now) (option_map written.place_tree place.now)) }
{
    match place {
        None => Ok(Placed::Free),
        Some(place) => place_written(ground, place, told),
    }
}

/// How an array's elements lie, or none where something is broken.
pub fn spread_of(
    ground: &Evaluation<'_>,
    at: Pos,
    spread: &Option<WrittenSpread>,
    index: &Option<Rc<Mode>>,
    element: &Option<Rc<Mode>>,
    told: &mut Told,
) -> Result<Option<Spread>, Memory>
    ensures told { HasGround ground.now → OnOk result (let g = ground_of ground.now in let s = option_map written.spread_tree spread.now in told.new ≡ told.old ++ (told_in_spread g s ++ told_spread g at (tree_there index.now) (tree_there element.now) s)) }
    ensures spread { HasGround ground.now → IfOk result (λ how. let g = ground_of ground.now in let s = option_map written.spread_tree spread.now in option_map spread_tree how ≡ unless_told (told_spread g at (tree_there index.now) (tree_there element.now) s) (spread_there g s)) }
{
    match spread {
        None | Some(WrittenSpread::Packing(Packing::NoPack)) => Ok(Some(Spread::Words)),
        Some(WrittenSpread::Packing(Packing::Pack)) => Ok(Some(Spread::Packed)),
        Some(WrittenSpread::Step(step)) => {
            let first = place_written(ground, &step.place, told)?;
            let distance = place_number(ground, &step.distance, told)?;
            let how = step_of(first, distance);
            let misfits = step_misfits(first, distance);
            let left = tell_spread(at, how, misfits, index, element, told)?;
            Ok(left)
        }
    }
}

// The bits of a place, as far as their numbers can be held.
fn place_written(ground: &Evaluation<'_>, place: &Place, told: &mut Told) -> Result<Placed, Memory>
    ensures told { HasGround ground.now → OnOk result (told.new ≡ told.old ++ told_in_place (ground_of ground.now) (written.place_tree place.now)) }
    ensures place { HasGround ground.now → IfOk result (λ p. placed_tree p ≡ place_seen (ground_of ground.now) (Some (written.place_tree place.now))) }
{
    let word = place_number(ground, &place.word, told)?;
    let start = place_number(ground, &place.start, told)?;
    let bound = place_number(ground, &place.bound, told)?;
    Ok(place_of(word, start, place.form, bound))
}

fn place_number(
    ground: &Evaluation<'_>,
    number: &Expr,
    told: &mut Told,
) -> Result<PlaceNumber, Memory>
    ensures told { HasGround ground.now → OnOk result (told.new ≡ told.old ++ told_needed (ground_of ground.now) (expr_tree number.now)) }
    ensures number { HasGround ground.now → IfOk result (λ n. number_tree n ≡ number_seen (ground_of ground.now) (expr_tree number.now)) }
{
    tests_law();
    let Some(known) = needed(ground, number, told)? else {
        return Ok(PlaceNumber::Broken);
    };
    if known.goes_not_with(&ground.plain.int) {
        return Ok(PlaceNumber::Misfit);
    }
    Ok(number_if(known.number()))
}

// A number that may be there.
fn number_if(number: Option<i64>) -> PlaceNumber
    ensures { number_tree result ≡ number_if number }
{
    match number {
        None => PlaceNumber::Broken,
        Some(number) => PlaceNumber::Number(number),
    }
}

// The place of a word, a start, and an end or a length. Each number is asked by itself, so one that doesn't go with INT is
// told also where another is broken.
fn place_of(word: PlaceNumber, start: PlaceNumber, form: PlaceForm, bound: PlaceNumber) -> Placed
    ensures { placed_tree result ≡ place_by form (number_tree word) (number_tree start) (number_tree bound) }
{
    match (word, start, bound) {
        (PlaceNumber::Number(word), PlaceNumber::Number(start), PlaceNumber::Number(bound)) => {
            Placed::At(Bits {
                word: held(word),
                start: held(start),
                end: last_bit(form, start, bound),
                signed: false,
            })
        }
        (PlaceNumber::Misfit, _, _) | (_, PlaceNumber::Misfit, _) | (_, _, PlaceNumber::Misfit) => {
            Placed::Misfit
        }
        (PlaceNumber::Broken, _, _) | (_, PlaceNumber::Broken, _) | (_, _, PlaceNumber::Broken) => {
            Placed::Broken
        }
    }
}

// The last bit as it is held: as it is written, or so many bits from the first on.
fn last_bit(form: PlaceForm, start: i64, bound: i64) -> u32
    ensures { result ≡ held (last_bit form start bound) }
{
    match form {
        PlaceForm::End => held(bound),
        PlaceForm::Length => held(start.saturating_add(bound).saturating_sub(1)),
    }
}

// The number as it is held, where it isn't too small or too large.
fn held(number: i64) -> u32
    ensures { result ≡ held number }
{
    u32::try_from(number).unwrap_or(u32::MAX)
}

// Whether a number of a step doesn't go with INT.
fn step_misfits(first: Placed, distance: PlaceNumber) -> bool
    ensures { result ≡ step_misfits_by (placed_tree first) (number_tree distance) }
{
    matches!(first, Placed::Misfit) || matches!(distance, PlaceNumber::Misfit)
}

// How elements lie from step to step, where all of its numbers are there.
fn step_of(first: Placed, distance: PlaceNumber) -> Option<Spread>
    ensures { option_map spread_tree result ≡ step_by (placed_tree first) (number_tree distance) }
{
    match (first, distance) {
        (Placed::At(at), PlaceNumber::Number(distance)) => Some(Spread::Step {
            at,
            step: held(distance),
        }),
        (Placed::Free | Placed::Misfit | Placed::Broken, _)
        | (_, PlaceNumber::Misfit | PlaceNumber::Broken) => None,
    }
}

// Rule M14 at an array: its elements have an impossible place. What is there is how they lie.
fn tell_spread(
    at: Pos,
    how: Option<Spread>,
    misfits: bool,
    index: &Option<Rc<Mode>>,
    element: &Option<Rc<Mode>>,
    told: &mut Told,
) -> Result<Option<Spread>, Memory>
    ensures told { OnOk result (told.new ≡ told.old ++ told_step at misfits (tree_there index.now) (tree_there element.now) (option_map spread_tree how)) }
    ensures spread { IfOk result (λ left. option_map spread_tree left ≡ unless_told (told_step at misfits (tree_there index.now) (tree_there element.now) (option_map spread_tree how)) (option_map spread_tree how)) }
{
    if misfits || is_impossible(index, element, how) {
        told.tell_name(CheckRule::M14, at, b"element")?;
        return Ok(None);
    }
    Ok(how)
}

// Whether so many elements of a mode, where both are known, may not lie so.
fn is_impossible(index: &Option<Rc<Mode>>, element: &Option<Rc<Mode>>, how: Option<Spread>) -> bool
    ensures { result ≡ spread_misfits (tree_there index.now) (tree_there element.now) (option_map spread_tree how) }
{
    match (index, element, how) {
        (Some(index), Some(element), Some(Spread::Step { at, step })) => {
            !is_possible_step(number_of_values(index), element, &at, step)
        }
        (None, _, _) | (_, None, _) | (_, _, None | Some(Spread::Words | Spread::Packed)) => false,
    }
}
