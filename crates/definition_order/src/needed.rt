// The names that what is known of a definition depends on, by their places.
ghost use Rattle.std.specs.Prelude.{◌≡◌, ◌++◌, [], ◌∷◌, OnOk, IfOk, map, flat_map, option_map};
ghost use Rattle.chill_tree.specs.ExprTree.{expr_tree, boxed_expr, expr_trees, expr_nodes, range_tree, range_trees, range_nodes};
ghost use Rattle.chill_tree.specs.ModeTree.{discrete_tree, index_tree, place_tree, spread_tree, base_tree, field_tree, field_trees, field_nodes, mode_tree};
ghost use Rattle.chill_tree.specs.LocalTree.{synonym_tree};
ghost use Rattle.chill_tree.specs.StatementTree.{receive_tree};
ghost use Rattle.chill_tree.specs.ItemTree.{signal_tree};
ghost use Rattle.table_laws.specs.Names.{some_name, names_in, names_in_each, names_in_range, names_in_ranges, names_in_some, names_in_discrete, names_in_index, names_in_place, names_in_some_place, names_in_spread, names_in_base, names_in_fields, names_in_mode, names_in_some_mode, names_in_modes, names_needed};
ghost use Rattle.definition_origins.specs.OriginTrees.{origin_tree};
ghost use Rattle.definition_order.specs.Places.{places_of};

use chill_base::{List, Memory, Pos};
use chill_tree::tree::{
    Base, Discrete, Expr, Field, Index, Mode, Name, Place, ReceiveAlternative, Signal, Spread,
    Synonym, ValueRange,
};
use definition_origins::Origin;
use std::alloc::Global;

fn add_some_name(name: &Option<Name>, places: &mut List<Pos>) -> Result<(), Memory>
    ensures { OnOk result (places.new ≡ places.old ++ places_of (some_name name.now)) }
{
    match name {
        None => Ok(()),
        Some(name) => places.push(name.at),
    }
}

// The names in an expression.
#[tactic(auto, using(crate::proofs::NameViews::expr_views))]
#[cycle(expr)]
fn add_expr(expr: &Expr, places: &mut List<Pos>) -> Result<(), Memory>
    ensures { OnOk result (places.new ≡ places.old ++ places_of (names_in (expr_tree expr.now))) }
{
    match expr {
        Expr::Whole { .. } | Expr::Char { .. } | Expr::Text { .. } | Expr::This { .. } => Ok(()),
        Expr::Paren { inner, .. } => add_expr(inner, places),
        Expr::Receive { buffer, .. } => places.push(buffer.at),
        Expr::Start { process, args, .. } => {
            places.push(process.at)?;
            add_exprs(args.as_slice(), places)
        }
        Expr::Tuple { mode, parts, .. } => {
            add_some_name(mode, places)?;
            add_ranges(parts.as_slice(), places)
        }
        Expr::Uniform { mode, value, .. } => {
            add_some_name(mode, places)?;
            add_expr(value, places)
        }
        Expr::Name(name) => places.push(name.at),
        Expr::Apply { of, args, .. } => {
            add_expr(of, places)?;
            add_exprs(args.as_slice(), places)
        }
        Expr::Field { of, .. } => add_expr(of, places),
        Expr::Prefixed { operand, .. } => add_expr(operand, places),
        Expr::Binary { left, right, .. } => {
            add_expr(left, places)?;
            add_expr(right, places)
        }
    }
}

#[tactic(auto, using(crate::proofs::NameViews::expr_views))]
#[cycle(expr)]
fn add_exprs(exprs: &[Expr], places: &mut List<Pos>) -> Result<(), Memory>
    ensures { OnOk result (places.new ≡ places.old ++ places_of (names_in_each (expr_nodes (expr_trees exprs.now)))) }
{
    for expr in exprs {
        add_expr(expr, places)?;
    }
    Ok(())
}

#[tactic(auto, using(crate::proofs::NameViews::expr_views))]
#[cycle(expr)]
fn add_ranges(ranges: &[ValueRange], places: &mut List<Pos>) -> Result<(), Memory>
    ensures { OnOk result (places.new ≡ places.old ++ places_of (names_in_ranges (range_nodes (range_trees ranges.now)))) }
{
    for range in ranges {
        add_range(range, places)?;
    }
    Ok(())
}

#[tactic(auto, using(crate::proofs::NameViews::expr_views))]
#[cycle(expr)]
fn add_range(range: &ValueRange, places: &mut List<Pos>) -> Result<(), Memory>
    ensures { OnOk result (places.new ≡ places.old ++ places_of (names_in_range (range_tree range.now))) }
{
    add_expr(&range.first, places)?;
    if let Some(last) = &range.last {
        add_expr(last, places)?;
    }
    Ok(())
}

fn add_some_expr(expr: &Option<Box<Expr>>, places: &mut List<Pos>) -> Result<(), Memory>
    ensures { OnOk result (places.new ≡ places.old ++ places_of (names_in_some (option_map boxed_expr expr.now))) }
{
    match expr {
        None => Ok(()),
        Some(expr) => add_expr(expr, places),
    }
}

// The names in modes.
#[tactic(auto, using(crate::proofs::NameViews::mode_views))]
fn add_discrete(own: &Discrete, places: &mut List<Pos>) -> Result<(), Memory>
    ensures { OnOk result (places.new ≡ places.old ++ places_of (names_in_discrete (discrete_tree own.now))) }
{
    match own {
        Discrete::Named(name) => places.push(name.at),
        Discrete::Range { parent, low, high } => {
            places.push(parent.at)?;
            add_expr(low, places)?;
            add_expr(high, places)
        }
        Discrete::Set { .. } => Ok(()),
    }
}

#[tactic(auto, using(crate::proofs::NameViews::mode_views))]
fn add_index(own: &Index, places: &mut List<Pos>) -> Result<(), Memory>
    ensures { OnOk result (places.new ≡ places.old ++ places_of (names_in_index (index_tree own.now))) }
{
    match own {
        Index::Named(name) => places.push(name.at),
        Index::Range { low, high } => {
            add_expr(low, places)?;
            add_expr(high, places)
        }
    }
}

#[tactic(auto, using(crate::proofs::NameViews::mode_views))]
fn add_place(place: &Place, places: &mut List<Pos>) -> Result<(), Memory>
    ensures { OnOk result (places.new ≡ places.old ++ places_of (names_in_place (place_tree place.now))) }
{
    add_expr(&place.word, places)?;
    add_expr(&place.start, places)?;
    add_expr(&place.bound, places)
}

fn add_some_place(place: &Option<Place>, places: &mut List<Pos>) -> Result<(), Memory>
    ensures { OnOk result (places.new ≡ places.old ++ places_of (names_in_some_place (option_map place_tree place.now))) }
{
    match place {
        None => Ok(()),
        Some(place) => add_place(place, places),
    }
}

#[tactic(auto, using(crate::proofs::NameViews::mode_views))]
fn add_spread(spread: &Option<Spread>, places: &mut List<Pos>) -> Result<(), Memory>
    ensures { OnOk result (places.new ≡ places.old ++ places_of (names_in_spread (option_map spread_tree spread.now))) }
{
    match spread {
        None | Some(Spread::Packing(_)) => Ok(()),
        Some(Spread::Step(step)) => {
            add_place(&step.place, places)?;
            add_expr(&step.distance, places)
        }
    }
}

#[tactic(auto, using(crate::proofs::NameViews::mode_views))]
#[cycle(base)]
fn add_base(base: &Base, places: &mut List<Pos>) -> Result<(), Memory>
    ensures { OnOk result (places.new ≡ places.old ++ places_of (names_in_base (base_tree base.now))) }
{
    match base {
        Base::Discrete(own) => add_discrete(own, places),
        Base::Powerset { member, .. } => add_discrete(member, places),
        Base::Chars { length, .. } => add_expr(length, places),
        Base::Struct { fields, .. } => add_fields(fields.as_slice(), places),
        Base::Array {
            index,
            element,
            spread,
            ..
        } => {
            add_index(index, places)?;
            add_base(element, places)?;
            add_spread(spread, places)
        }
    }
}

#[tactic(auto, using(crate::proofs::NameViews::mode_views))]
#[cycle(base)]
fn add_fields(fields: &[Field], places: &mut List<Pos>) -> Result<(), Memory>
    ensures { OnOk result (places.new ≡ places.old ++ places_of (names_in_fields (field_nodes (field_trees fields.now)))) }
{
    for field in fields {
        add_field(field, places)?;
    }
    Ok(())
}

#[tactic(auto, using(crate::proofs::NameViews::mode_views))]
#[cycle(base)]
fn add_field(field: &Field, places: &mut List<Pos>) -> Result<(), Memory>
    ensures { OnOk result (places.new ≡ places.old ++ places_of (names_in_base (field_tree field.now).base ++ names_in_some_place (field_tree field.now).place)) }
{
    add_base(&field.base, places)?;
    add_some_place(&field.place, places)
}

#[tactic(auto, using(crate::proofs::NameViews::mode_views))]
fn add_mode(mode: &Mode, places: &mut List<Pos>) -> Result<(), Memory>
    ensures { OnOk result (places.new ≡ places.old ++ places_of (names_in_mode (mode_tree mode.now))) }
{
    match mode {
        Mode::Base(base) => add_base(base, places),
        Mode::Read { base, .. } => add_base(base, places),
        Mode::Event { length, .. } => add_some_expr(length, places),
        Mode::Buffer {
            length,
            element,
            ..
        } => {
            add_some_expr(length, places)?;
            add_base(element, places)
        }
    }
}

fn add_some_mode(mode: &Option<Mode>, places: &mut List<Pos>) -> Result<(), Memory>
    ensures { OnOk result (places.new ≡ places.old ++ places_of (names_in_some_mode (option_map mode_tree mode.now))) }
{
    match mode {
        None => Ok(()),
        Some(mode) => add_mode(mode, places),
    }
}

#[tactic(auto, using(crate::proofs::NameViews::mode_views))]
fn add_modes(modes: &[Mode], places: &mut List<Pos>) -> Result<(), Memory>
    ensures { OnOk result (places.new ≡ places.old ++ places_of (flat_map names_in_mode (map mode_tree modes.now))) }
{
    for mode in modes {
        add_mode(mode, places)?;
    }
    Ok(())
}

#[tactic(auto, using(crate::proofs::NameViews::mode_views))]
fn add_parts(signal: &Signal, places: &mut List<Pos>) -> Result<(), Memory>
    ensures { OnOk result (places.new ≡ places.old ++ places_of (names_in_modes (signal_tree signal.now).parts)) }
{
    match &signal.parts {
        None => Ok(()),
        Some(parts) => add_modes(parts.as_slice(), places),
    }
}

#[tactic(auto, using(crate::proofs::NameViews::mode_views))]
fn add_synonym(synonym: &Synonym, places: &mut List<Pos>) -> Result<(), Memory>
    ensures { OnOk result (places.new ≡ places.old ++ places_of (names_in_some_mode (synonym_tree synonym.now).mode ++ names_in (synonym_tree synonym.now).value)) }
{
    add_some_mode(&synonym.mode, places)?;
    add_expr(&synonym.value, places)
}

// The name of what is received from.
#[tactic(auto, using(definition_origins::proofs::Views::statement_views))]
fn add_source(alternative: &ReceiveAlternative, places: &mut List<Pos>) -> Result<(), Memory>
    ensures { OnOk result (places.new ≡ places.old ++ places_of ((receive_tree alternative.now).source ∷ [])) }
{
    places.push(alternative.source.at)
}

// Puts the places of the names that what is known of a definition depends on behind others.
fn add_needed(origin: Origin<'_>, places: &mut List<Pos>) -> Result<(), Memory>
    ensures { OnOk result (places.new ≡ places.old ++ places_of (names_needed (origin_tree origin.entry))) }
{
    match origin {
        Origin::Synonym { synonym, .. } => add_synonym(synonym, places),
        Origin::SynMode(own) | Origin::NewMode(own) => add_mode(&own.mode, places),
        Origin::Location { declaration, .. } => add_mode(&declaration.mode, places),
        Origin::Parameter { mode, .. } => add_mode(mode, places),
        Origin::Received { alternative, .. } => add_source(alternative, places),
        Origin::Procedure(procedure) => add_some_mode(&procedure.returns, places),
        Origin::Signal(signal) => add_parts(signal, places),
        Origin::Element(_)
        | Origin::Counter(_)
        | Origin::Process(_)
        | Origin::Modulion(_)
        | Origin::Predefined(_) => Ok(()),
    }
}

/// The places of the names that what is known of a definition depends on.
pub fn needed_places(alloc: Global, origin: Origin<'_>) -> Result<List<Pos>, Memory>
    ensures { IfOk result (λ places. places ≡ places_of (names_needed (origin_tree origin.entry))) }
{
    let mut places = List::new(alloc);
    add_needed(origin, &mut places)?;
    Ok(places)
}
