// The locals of procedures and processes: their parameters, and those of their bodies and handlers.
ghost use Rattle.std.specs.Prelude.{◌≡◌, ◌++◌, OnOk, IfOk, map, flat_map, option_map};
ghost use Rattle.chill_tree.specs.StatementTree.{body_trees, boxed_handler};
ghost use Rattle.chill_tree.specs.ItemTree.{param_tree, formal_tree, procedure_tree, process_tree};
ghost use Rattle.checks_model.specs.Sites.{locals_of_body};
ghost use Rattle.local_names.specs.Bracketed.{locals_of_procedure, locals_of_process};
ghost use Rattle.local_names.specs.Found.{names_found};

use crate::names::add_names;
use crate::statements::{add_in_body, add_in_handler};
use chill_base::{List, Memory};
use chill_tree::tree::{BodyPart, Formal, Handler, Name, Param, Procedure, Process};
use std::alloc::Global;

fn add_in_whole_body<'a>(
    body: &'a [BodyPart],
    handler: &'a Option<Box<Handler>>,
    found: &mut List<&'a Name>,
) -> Result<(), Memory>
    ensures { OnOk result (names_found found.new ≡ names_found found.old ++ locals_of_body (body_trees body.now) (option_map boxed_handler handler.now)) }
{
    add_in_body(body, found)?;
    add_in_handler(handler, found)
}

fn add_params<'a>(params: &'a [Param], found: &mut List<&'a Name>) -> Result<(), Memory>
    ensures { OnOk result (names_found found.new ≡ names_found found.old ++ flat_map (λ q. q.names) (map param_tree params.now)) }
{
    for param in params {
        add_names(param.names.as_slice(), found)?;
    }
    Ok(())
}

fn add_formals<'a>(formals: &'a [Formal], found: &mut List<&'a Name>) -> Result<(), Memory>
    ensures { OnOk result (names_found found.new ≡ names_found found.old ++ flat_map (λ q. q.names) (map formal_tree formals.now)) }
{
    for formal in formals {
        add_names(formal.names.as_slice(), found)?;
    }
    Ok(())
}

/// The locals of a procedure, its parameters among them.
pub fn locals_of_procedure(alloc: Global, own: &Procedure) -> Result<List<&Name>, Memory>
    ensures { IfOk result (λ found. names_found found ≡ locals_of_procedure (procedure_tree own.now)) }
{
    let mut found = List::new(alloc);
    add_params(own.params.as_slice(), &mut found)?;
    add_in_whole_body(own.body.as_slice(), &own.handler, &mut found)?;
    Ok(found)
}

/// The locals of a process, its parameters among them.
pub fn locals_of_process(alloc: Global, own: &Process) -> Result<List<&Name>, Memory>
    ensures { IfOk result (λ found. names_found found ≡ locals_of_process (process_tree own.now)) }
{
    let mut found = List::new(alloc);
    add_formals(own.formals.as_slice(), &mut found)?;
    add_in_whole_body(own.body.as_slice(), &own.handler, &mut found)?;
    Ok(found)
}
