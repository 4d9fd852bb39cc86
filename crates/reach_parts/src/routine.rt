// The parts that procedures and processes are of their reach.
ghost use Rattle.std.specs.Prelude.{◌≡◌, ◌++◌, [], ◌∷◌, IfOk, OnOk, map, option_map};
ghost use Rattle.chill_tree.specs.ModeTree.{mode_tree};
ghost use Rattle.chill_tree.specs.StatementTree.{boxed_handler, body_trees};
ghost use Rattle.chill_tree.specs.ItemTree.{param_tree, formal_tree, procedure_tree, process_tree};
ghost use Rattle.names_model.specs.Parts.{part_trees};
ghost use Rattle.names_model.specs.ModeMentions.{mentions_of_some_mode};
ghost use Rattle.names_model.specs.ItemParts.{param_clause, formal_clause, whole_body, procedure_part, process_part};

use crate::clause::clause_by_mode;
use crate::labels::Labels;
use crate::mode::add_some_mode;
use crate::part::add_part;
use crate::statement::{add_body, add_some_handler};
use chill_base::{List, Memory};
use chill_tree::tree::{BodyPart, Formal, Handler, Mode, Param, Procedure, Process};
use names_model::{Clause, Identifier, Kind, Mention, Part};
use std::alloc::Global;

// The parameters of a procedure.
fn param_clauses(alloc: Global, params: &[Param]) -> Result<List<Clause>, Memory>
    ensures { IfOk result (λ l. l ≡ map param_clause (map param_tree params.now)) }
{
    let mut clauses = List::new(alloc);
    for param in params {
        let names = param.names.as_slice();
        clauses.push(clause_by_mode(alloc, Kind::Parameter, names, &param.mode)?)?;
    }
    Ok(clauses)
}

// The parameters of a process.
fn formal_clauses(alloc: Global, formals: &[Formal]) -> Result<List<Clause>, Memory>
    ensures { IfOk result (λ l. l ≡ map formal_clause (map formal_tree formals.now)) }
{
    let mut clauses = List::new(alloc);
    for formal in formals {
        let names = formal.names.as_slice();
        clauses.push(clause_by_mode(alloc, Kind::Parameter, names, &formal.mode)?)?;
    }
    Ok(clauses)
}

// The names in the mode of a procedure's result.
fn returned_mentions(alloc: Global, returns: &Option<Mode>) -> Result<List<Mention>, Memory>
    ensures { IfOk result (λ l. l ≡ mentions_of_some_mode (option_map mode_tree returns.now)) }
{
    let mut mentions = List::new(alloc);
    add_some_mode(alloc, returns, &mut mentions)?;
    Ok(mentions)
}

// The parts of a body with its handler, around which no label is.
fn body_parts(
    alloc: Global,
    body: &[BodyPart],
    handler: &Option<Box<Handler>>,
) -> Result<List<Part>, Memory>
    ensures { IfOk result (λ l. part_trees l ≡ whole_body (body_trees body.now) (option_map boxed_handler handler.now)) }
{
    let mut parts = List::new(alloc);
    add_body(alloc, body, &Labels::Empty, &mut parts)?;
    add_some_handler(alloc, handler, &Labels::Empty, &mut parts)?;
    Ok(parts)
}

/// Adds a procedure.
pub(crate) fn add_procedure(
    alloc: Global,
    procedure: &Procedure,
    out: &mut List<Part>,
) -> Result<(), Memory>
    ensures { OnOk result (part_trees out.new ≡ part_trees out.old ++ procedure_part (procedure_tree procedure.now) ∷ []) }
{
    let name = Identifier::of(alloc, &procedure.name)?;
    let params = param_clauses(alloc, procedure.params.as_slice())?;
    let returned = returned_mentions(alloc, &procedure.returns)?;
    let parts = body_parts(alloc, procedure.body.as_slice(), &procedure.handler)?;
    let routine = Part::routine(name, Kind::Procedure, params, returned, parts)?;
    add_part(routine, out)
}

/// Adds a process.
pub(crate) fn add_process(
    alloc: Global,
    process: &Process,
    out: &mut List<Part>,
) -> Result<(), Memory>
    ensures { OnOk result (part_trees out.new ≡ part_trees out.old ++ process_part (process_tree process.now) ∷ []) }
{
    let name = Identifier::of(alloc, &process.name)?;
    let params = formal_clauses(alloc, process.formals.as_slice())?;
    let parts = body_parts(alloc, process.body.as_slice(), &process.handler)?;
    let routine = Part::routine(name, Kind::Process, params, List::new(alloc), parts)?;
    add_part(routine, out)
}
