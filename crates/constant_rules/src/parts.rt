// What comes of the parts of a tuple of constants, each of which is known by itself (Z.200, chapter on values).
ghost use Rattle.std.specs.Prelude.{◌≡◌, ◌++◌, ◌&&◌, ◌∷◌, [], true, false, ℕ, Bool, not, List, Option, Some, None, slice_get, length, option_map, IfOk, OnOk};
ghost use Rattle.diagnostics.specs.declared.rule.Rule.TheVariants as rules;
ghost use Rattle.chill_tree.specs.ExprTree.{range_nodes, range_tree, range_trees};
ghost use Rattle.constant_rules.specs.Walks.{is_between};
ghost use Rattle.modes.specs.ModeTree.{ClassTree, field_nodes, field_tree, field_trees, mode_tree};
ghost use Rattle.modes.specs.Form.{form_of};
ghost use Rattle.modes.specs.Bounds.{bounds_of, values_of};
ghost use Rattle.constant_values.specs.Fits.{few_members};
ghost use Rattle.checks_model.specs.ValueTrees.{ValueTree};
ghost use Rattle.checks_model.specs.Told.{tell_at, told_if};
ghost use Rattle.checks_model.specs.Classes as classes;
ghost use Rattle.constant_operators.specs.Known.{IsKnown};
ghost use Rattle.constant_rules.specs.Parts.{times, passes, all_pass, clean_part, going_part, inside_part, class_goes_not, value_lies_outside, outside_part, outside_last, outside_span, outside_of, misfit_told, told_of_spans, last_or, span_widened, firsts, all_widened, flat_of_spans, joined, told_where, array_parts, few_in, none_of, is_misfit, IsTupledOf, Judges, IsOfTuple, IsReceived, IsTuplePart};

use crate::tuple_value::{TupleValue, append};
use chill_base::{Memory, Pos, Scalars};
use chill_tree::tree::ValueRange;
use constant_operators::{Known, member_count};
use definition_origins::{CheckRule, Told};
use modes::{Class, Field, Form, Mode, form_of, number_of_values};
use std::alloc::Global;
use std::rc::Rc;

/// How it is told that a tuple of constants doesn't fit its mode: of one with a mode's name, and of the tuples in it, what
/// misfits; of the value of a synonym, one rule of the whole, where nothing else is told in it.
#[derive(Clone, Copy)]
pub enum Blame {
    Each,
    Whole,
}

/// Where a tuple stands, and how its misfits are told.
#[derive(Clone, Copy)]
pub struct Place {
    pub bracket: Pos,
    pub blame: Blame,
}

/// What comes of a tuple of constants that goes to a mode.
#[derive(Drop)]
pub enum Tupled {
    /// It fits. It has no value where a part of it has none.
    Fits(Option<Scalars>),
    /// It doesn't fit, and nothing is told in it or of it.
    Misfit,
    /// Something is told in it, or of it.
    Told,
}

/// A part of a tuple: its first token, what is known of it, whether its class goes with the mode of the part, and whether its
/// value lies in that.
#[derive(Drop)]
pub struct Part {
    pub at: Pos,
    pub known: Known,
    pub goes: bool,
    pub lies_inside: bool,
}

/// The members from one to another, or one part alone.
#[derive(Drop)]
pub struct Span {
    pub first: Part,
    pub last: Option<Part>,
}

impl Tupled {
    // Whether it doesn't fit, and nothing is told of it.
    fn is_misfit(&self) -> bool
        ensures { result ≡ is_misfit self.now }
    {
        match self {
            Tupled::Misfit => true,
            Tupled::Fits(_) | Tupled::Told => false,
        }
    }
}

impl Part {
    /// The same at the first token of the parentheses round it.
    pub fn placed(self, at: Pos) -> Part
        ensures { result ≡ record self { at = at } }
    {
        let Part {
            at: _,
            known,
            goes,
            lies_inside,
        } = self;
        Part {
            at,
            known,
            goes,
            lies_inside,
        }
    }

    /// Whether it goes with the mode of the part and lies in it.
    pub fn fits(&self) -> bool
        ensures { result ≡ (self.now.goes && self.now.lies_inside) }
    {
        self.goes && self.lies_inside
    }

    /// Its value.
    pub fn into_value(self) -> Option<Scalars>
        ensures { result ≡ self.known.value }
    {
        let Part {
            at: _,
            known,
            goes: _,
            lies_inside: _,
        } = self;
        let (_, value) = known.into_parts();
        value
    }

    // Rule M11 where it lies outside the mode of the part.
    fn tell_outside(&self, told: &mut Told) -> Result<(), Memory>
        ensures { OnOk result (told.new ≡ told.old ++ outside_part self.now) }
    {
        if self.lies_inside {
            return Ok(());
        }
        told.tell(CheckRule::M11, self.at)
    }
}

impl Span {
    // Whether nothing is told in it.
    fn is_clean(&self) -> bool
        ensures { result ≡ passes clean_part self.now }
    {
        match &self.last {
            None => self.first.known.is_clean,
            Some(last) => self.first.known.is_clean && last.known.is_clean,
        }
    }

    // Whether the classes of its ends go with the mode of the part.
    fn goes(&self) -> bool
        ensures { result ≡ passes going_part self.now }
    {
        match &self.last {
            None => self.first.goes,
            Some(last) => self.first.goes && last.goes,
        }
    }

    // Whether the values of its ends lie in the mode of the part.
    fn lies_inside(&self) -> bool
        ensures { result ≡ passes inside_part self.now }
    {
        match &self.last {
            None => self.first.lies_inside,
            Some(last) => self.first.lies_inside && last.lies_inside,
        }
    }

    // Rule M11 of each end that lies outside the mode of the part.
    fn tell_outside(&self, told: &mut Told) -> Result<(), Memory>
        ensures { OnOk result (told.new ≡ told.old ++ outside_span self.now) }
    {
        self.first.tell_outside(told)?;
        match &self.last {
            None => Ok(()),
            Some(last) => last.tell_outside(told),
        }
    }

    // Its last end, which is the first where it is one part alone.
    fn last_part(&self) -> &Part
        ensures { result.now ≡ last_or self.now.first self.now.last }
    {
        match &self.last {
            None => &self.first,
            Some(last) => last,
        }
    }
}

/// A part that goes to a mode, by what is known of it.
#[tactic(auto, using(crate::proofs::PartValues::goes_told))]
pub fn part_of(at: Pos, known: Known, mode: &Mode) -> Part
    ensures { IsReceived (mode_tree mode.now) at known result }
{
    let goes = !known.goes_not_with(mode);
    let lies_inside = !is_outside(&known, mode, goes);
    Part {
        at,
        known,
        goes,
        lies_inside,
    }
}

// Whether the class goes with a mode, and the value lies outside it.
#[tactic(auto, using(crate::proofs::PartValues::outside_told, crate::proofs::PartValues::not_outside))]
fn is_outside(known: &Known, mode: &Mode, goes: bool) -> bool
    ensures { (c : Option ClassTree) (v : Option ValueTree) → IsKnown c v known.now → goes ≡ not (class_goes_not c (Some (mode_tree mode.now))) → result ≡ value_lies_outside c v (Some (mode_tree mode.now)) }
{
    if !goes {
        return false;
    }
    known.lies_outside(mode)
}

/// A part that is a tuple without a mode's name.
pub fn part_of_tuple(at: Pos, blame: Blame, tupled: Tupled, mode: &Rc<Mode>) -> Result<Part, Memory>
    ensures { IfOk result (IsTuplePart blame (mode_tree mode.now.value) at tupled) }
{
    match blame {
        Blame::Each => Ok(part_of(at, known_of_tuple(tupled, mode)?, mode)),
        Blame::Whole => {
            let goes = !tupled.is_misfit();
            let known = known_of_tuple(tupled, mode)?;
            Ok(Part {
                at,
                known,
                goes,
                lies_inside: true,
            })
        }
    }
}

/// What is known of a tuple of a mode: its class wherever it fits.
pub fn known_of_tuple(tupled: Tupled, mode: &Rc<Mode>) -> Result<Known, Memory>
    ensures { IfOk result (IsOfTuple (mode_tree mode.now.value) tupled) }
{
    match tupled {
        Tupled::Misfit => Ok(Known::unknown_constant()),
        Tupled::Told => Ok(Known::told(true)),
        Tupled::Fits(value) => Ok(Known {
            class: Some(Class::Value(mode.clone()?)),
            value,
            is_constant: true,
            is_clean: true,
        }),
    }
}

/// Whether a tuple has so many parts, none of which is a range.
#[tactic(auto, using(crate::proofs::Views::ranges_counted))]
pub fn has_parts(parts: &[ValueRange], count: u64) -> bool
    ensures { result ≡ classes.has_parts count (range_nodes (range_trees parts.now)) }
{
    are_alone(parts) && parts.len() as u64 == count
}

// Whether no part is a range.
#[tactic(auto, using(crate::proofs::Views::alone_more))]
fn are_alone(parts: &[ValueRange]) -> bool
    ensures { result ≡ classes.are_alone (range_nodes (range_trees parts.now)) }
{
    for part in parts {
        if is_range(part) {
            return false;
        }
    }
    true
}

// Whether a part is a range between two.
#[tactic(auto, using(crate::proofs::Views::range_out))]
fn is_range(part: &ValueRange) -> bool
    ensures { result ≡ is_between (range_tree part.now) }
{
    part.last.is_some()
}

/// Whether a tuple has the form of a mode.
#[tactic(auto, using(crate::proofs::Views::fields_counted))]
pub fn shape_fits(parts: &[ValueRange], mode: &Mode) -> bool
    ensures { result ≡ classes.shape_fits (range_nodes (range_trees parts.now)) (form_of (mode_tree mode.now)) }
{
    match form_of(mode) {
        Form::Powerset(_) => true,
        Form::Array { index, .. } => has_parts(parts, number_of_values(index)),
        Form::Struct { fields, .. } => has_parts(parts, fields.len() as u64),
        Form::Int
        | Form::Bool
        | Form::Char
        | Form::Instance
        | Form::Set { .. }
        | Form::Chars(_)
        | Form::Meeting => false,
    }
}

// The mode of a field.
#[tactic(auto, using(modes::proofs::ModeViews::mode_built))]
fn mode_of(field: &Field) -> &Rc<Mode>
    ensures { mode_tree result.now.value ≡ (field_tree field.now).mode }
{
    &field.mode
}

// A field by its place.
fn field_at(fields: &[Field], place: usize) -> Option<&Field>
    ensures { option_map (λ f. f.now) result ≡ slice_get fields.now place }
{
    fields.get(place)
}

// The mode of a field by its place.
#[tactic(auto, using(crate::proofs::Views::field_found))]
fn field_mode(fields: &[Field], place: usize) -> Option<&Rc<Mode>>
    ensures { option_map (λ m. mode_tree m.now.value) result ≡ classes.field_mode_at place (field_nodes (field_trees fields.now)) }
{
    match field_at(fields, place) {
        None => None,
        Some(field) => Some(mode_of(field)),
    }
}

/// The mode of a part of a tuple that has the form of a mode.
pub fn part_mode(mode: &Mode, place: usize) -> Option<&Rc<Mode>>
    ensures { option_map (λ m. mode_tree m.now.value) result ≡ classes.part_mode place (form_of (mode_tree mode.now)) }
{
    match form_of(mode) {
        Form::Powerset(member) => Some(member),
        Form::Array { element, .. } => Some(element),
        Form::Struct { fields, .. } => field_mode(fields.as_slice(), place),
        Form::Int
        | Form::Bool
        | Form::Char
        | Form::Instance
        | Form::Set { .. }
        | Form::Chars(_)
        | Form::Meeting => None,
    }
}

/// The modes of an array.
#[derive(Clone, Copy)]
pub struct Array<'k> {
    pub index: &'k Rc<Mode>,
    pub element: &'k Rc<Mode>,
}

/// The modes of an array, where the mode is one.
pub fn array_in(mode: &Mode) -> Option<Array<'_>>
    ensures { option_map (λ a. (mode_tree a.index.now.value, mode_tree a.element.now.value)) result ≡ array_parts (form_of (mode_tree mode.now)) }
{
    match form_of(mode) {
        Form::Array { index, element, .. } => Some(Array { index, element }),
        Form::Int
        | Form::Bool
        | Form::Char
        | Form::Instance
        | Form::Set { .. }
        | Form::Powerset(_)
        | Form::Chars(_)
        | Form::Struct { .. }
        | Form::Meeting => None,
    }
}

/// A tuple that hasn't the form of its mode, with what is told of that where nothing is told in its parts.
pub fn misfit_where(place: Place, is_clean: bool, told: &mut Told) -> Result<Tupled, Memory>
    ensures { IfOk result (Judges place.blame is_clean false true (tell_at rules.M10 place.bracket ∷ []) None told.old told.new) }
{
    if !is_clean {
        return Ok(Tupled::Told);
    }
    match place.blame {
        Blame::Whole => Ok(Tupled::Misfit),
        Blame::Each => {
            told.tell(CheckRule::M10, place.bracket)?;
            Ok(Tupled::Told)
        }
    }
}

/// What comes of a tuple that has the form of its mode, by what is known of its parts.
pub fn tupled_of_spans(
    alloc: Global,
    place: Place,
    spans: &[Span],
    mode: &Mode,
    told: &mut Told,
) -> Result<Tupled, Memory>
    ensures { IfOk result (Judges place.blame (all_pass clean_part spans.now) (all_pass going_part spans.now && all_pass inside_part spans.now) (few_in (form_of (mode_tree mode.now)))
        (told_of_spans place.bracket spans.now) (flat_of_spans (form_of (mode_tree mode.now)) spans.now) told.old told.new) }
{
    if !are_clean(spans) {
        return Ok(Tupled::Told);
    }
    let goes = all_go(spans);
    tell_in_spans(place, goes, spans, told)?;
    if !goes || !all_lie_inside(spans) {
        return Ok(misfit_of(place.blame));
    }
    Ok(Tupled::Fits(value_of_spans(alloc, spans, mode)?))
}

/// What comes of a tuple of one value for each index, by what is known of that.
pub fn tupled_uniform(
    alloc: Global,
    place: Place,
    part: &Part,
    index: &Mode,
    told: &mut Told,
) -> Result<Tupled, Memory>
    ensures { IfOk result (Judges place.blame part.now.known.is_clean (part.now.goes && part.now.lies_inside) true
        (misfit_told place.bracket part.now.goes ++ outside_part part.now) (option_map (times (values_of (mode_tree index.now))) part.now.known.value) told.old told.new) }
{
    if !part.known.is_clean {
        return Ok(Tupled::Told);
    }
    tell_in_uniform(place, part, told)?;
    if !part.fits() {
        return Ok(misfit_of(place.blame));
    }
    Ok(Tupled::Fits(value_for_each(alloc, part, index)?))
}

// A tuple that doesn't fit, of which that is told where it isn't the value of a synonym.
fn misfit_of(blame: Blame) -> Tupled
    ensures { IsTupledOf blame true false true None result }
{
    match blame {
        Blame::Each => Tupled::Told,
        Blame::Whole => Tupled::Misfit,
    }
}

// What is told of a tuple in whose parts nothing is told.
fn tell_in_spans(place: Place, goes: bool, spans: &[Span], told: &mut Told) -> Result<(), Memory>
    ensures { OnOk result (told.new ≡ told.old ++ told_where place.blame (misfit_told place.bracket goes ++ outside_of spans.now)) }
{
    match place.blame {
        Blame::Whole => Ok(()),
        Blame::Each => {
            tell_misfit(place.bracket, goes, told)?;
            tell_outside(spans, told)
        }
    }
}

// What is told of a tuple of one value in which nothing is told.
fn tell_in_uniform(place: Place, part: &Part, told: &mut Told) -> Result<(), Memory>
    ensures { OnOk result (told.new ≡ told.old ++ told_where place.blame (misfit_told place.bracket part.now.goes ++ outside_part part.now)) }
{
    match place.blame {
        Blame::Whole => Ok(()),
        Blame::Each => {
            tell_misfit(place.bracket, part.goes, told)?;
            part.tell_outside(told)
        }
    }
}

// Whether nothing is told in the parts.
fn are_clean(spans: &[Span]) -> bool
    ensures { result ≡ all_pass clean_part spans.now }
{
    for span in spans {
        if !span.is_clean() {
            return false;
        }
    }
    true
}

// Whether the class of each part goes with the mode of the part.
fn all_go(spans: &[Span]) -> bool
    ensures { result ≡ all_pass going_part spans.now }
{
    for span in spans {
        if !span.goes() {
            return false;
        }
    }
    true
}

// Whether the value of each part lies in the mode of the part.
fn all_lie_inside(spans: &[Span]) -> bool
    ensures { result ≡ all_pass inside_part spans.now }
{
    for span in spans {
        if !span.lies_inside() {
            return false;
        }
    }
    true
}

// Rule M10 of a tuple some part of which has a class that doesn't go with the mode of the part.
fn tell_misfit(bracket: Pos, all_go: bool, told: &mut Told) -> Result<(), Memory>
    ensures { OnOk result (told.new ≡ told.old ++ misfit_told bracket all_go) }
{
    if all_go {
        return Ok(());
    }
    told.tell(CheckRule::M10, bracket)
}

// Rule M11 of each part that lies outside the mode of the part.
fn tell_outside(spans: &[Span], told: &mut Told) -> Result<(), Memory>
    ensures { OnOk result (told.new ≡ told.old ++ outside_of spans.now) }
{
    for span in spans {
        span.tell_outside(told)?;
    }
    Ok(())
}

// The value of a tuple of a mode: a powerset of what the ranges hold, or the parts in order.
fn value_of_spans(alloc: Global, spans: &[Span], mode: &Mode) -> Result<Option<Scalars>, Memory>
    ensures { IfOk result (λ v. (v ≡ flat_of_spans (form_of (mode_tree mode.now)) spans.now) × (few_in (form_of (mode_tree mode.now)) ≡ true)) }
{
    match form_of(mode) {
        Form::Powerset(member) => value_of_members(alloc, spans, member),
        Form::Int
        | Form::Bool
        | Form::Char
        | Form::Instance
        | Form::Set { .. }
        | Form::Chars(_)
        | Form::Array { .. }
        | Form::Struct { .. }
        | Form::Meeting => value_of_parts(alloc, spans),
    }
}

// The parts in order.
#[tactic(auto, using(crate::proofs::PartLoops::joined_first, crate::proofs::PartLoops::joined_last, crate::proofs::PartLoops::joined_assoc))]
fn value_of_parts(alloc: Global, spans: &[Span]) -> Result<Option<Scalars>, Memory>
    ensures { IfOk result (λ v. v ≡ firsts spans.now) }
{
    let mut all = TupleValue::of_parts(alloc);
    for span in spans {
        all.add(&span.first.known)?;
    }
    Ok(all.into_value())
}

// How many values INT has.
const MOST_MEMBERS: u64 = 4_294_967_296;

// The powerset of what the ranges hold. No text has one of more members than INT has values, and no memory would hold it.
fn value_of_members(alloc: Global, spans: &[Span], member: &Mode) -> Result<Option<Scalars>, Memory>
    ensures { IfOk result (λ v. (v ≡ all_widened (bounds_of (mode_tree member.now)) spans.now (none_of (bounds_of (mode_tree member.now)))) × (few_members (values_of (mode_tree member.now)) ≡ true)) }
{
    if member_count(member) > MOST_MEMBERS {
        return Err(Memory);
    }
    let mut all = TupleValue::of_members(alloc, member)?;
    for span in spans {
        all.add_span(member, &span.first.known, &span.last_part().known);
    }
    Ok(all.into_value())
}

// One value for each index.
#[tactic(auto, using(crate::proofs::PartLoops::times_more))]
fn value_for_each(alloc: Global, part: &Part, index: &Mode) -> Result<Option<Scalars>, Memory>
    ensures { IfOk result (λ v. v ≡ option_map (times (values_of (mode_tree index.now))) part.now.known.value) }
{
    let Some(value) = &part.known.value else {
        return Ok(None);
    };
    let mut all = Scalars::new(alloc);
    for _ in 0..number_of_values(index) {
        append(&mut all, value)?;
    }
    Ok(Some(all))
}
