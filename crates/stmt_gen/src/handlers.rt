// The rows of a handler.
ghost use Rattle.std.specs.Prelude.{OnOk};
ghost use Rattle.stmt_gen.specs.HandlerRows.{PutsRow, PutsRows};
ghost use Rattle.stmt_gen.specs.Appending.{KeepsFront};

use crate::again::Span;
use crate::going_on::go_on;
use crate::joining::leaving_size;
use crate::sizes::statements_size;
use checked_program::Handler;
use chill_base::{Item, List, Numbers};
use expr_gen::{Draft, PartRefusal, Site};

/// Appends the rows of a handler, of which the first one's span is known, and the place behind the handler: one row for each
/// alternative, and one for ELSE.
#[tactic(auto, using(crate::proofs::Front::keeping_front))]
pub fn put_rows(
    handler: &Handler,
    first: Span,
    behind: u32,
    site: &Site,
    draft: &mut Draft,
) -> Result<(), PartRefusal>
    ensures puts { OnOk result (PutsRows site.now handler.now first behind draft.old draft.new) }
    ensures keeps { KeepsFront draft.old.code draft.new.code }
{
    let mut target = first.target;
    let alternatives = handler.alternatives.as_slice();
    for alternative in alternatives {
        let names = alternative.exceptions.copy()?;
        put_row(first.to(target), names, false, draft)?;
        let actions = alternative.actions.as_slice();
        let end = target.saturating_add(statements_size(actions, site));
        target = end.saturating_add(leaving_size(go_on(actions), behind.saturating_sub(end)));
    }
    match &handler.otherwise {
        Some(_) => put_row(first.to(target), List::new(draft.allocator()), true, draft),
        None => Ok(()),
    }
}

/// Appends a row.
#[tactic(auto, using(crate::proofs::Front::keeping_front))]
pub fn put_row(
    span: Span,
    names: Numbers,
    otherwise: bool,
    draft: &mut Draft,
) -> Result<(), PartRefusal>
    ensures puts { OnOk result (PutsRow span names otherwise draft.old draft.new) }
    ensures keeps { KeepsFront draft.old.code draft.new.code }
{
    draft.code.handlers.push(code_types::Handler {
        from: span.from,
        until: span.until,
        height: 0,
        names,
        otherwise,
        target: span.target,
    })?;
    Ok(())
}
