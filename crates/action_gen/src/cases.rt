// CASE: its selector, which is kept in a scratch local, and the tests of the labels.
#![tactic(auto, using(expr_gen::proofs::Appending::keeping))]

ghost use Rattle.std.specs.Prelude.{◌≡◌, length, OnOk};
ghost use Rattle.code_scheme.specs.Pieces.{capped};
ghost use Rattle.code_scheme.specs.StatementSize.{label_code, more_labels_code, labels_size};
ghost use Rattle.expr_gen.specs.Putting.{Keeps};
ghost use Rattle.action_gen.specs.Puts.{PutsLabel, PutsLabels, PutsMoreLabels, PutsSelector};

use crate::around::Around;
use checked_program::Expr;
use code_types::Instr;
use expr_gen::{Draft, PartRefusal, put_expr};
use modes::Bounds;

/// The selector, which is kept in the first free scratch local.
pub fn put_selector(selector: &Expr, around: &Around, draft: &mut Draft) -> Result<(), PartRefusal>
    ensures puts { OnOk result (PutsSelector around.now selector.now draft.old draft.new) }
    ensures keeps { Keeps draft.old.code draft.new.code }
{
    put_expr(selector, &around.site, around.free, draft)?;
    draft.put(Instr::SetLocal(around.free, 1))
}

/// Whether one of the labels holds the selector that is kept in this local.
pub fn put_labels(labels: &[Bounds], kept: u32, draft: &mut Draft) -> Result<(), PartRefusal>
    ensures puts { OnOk result (PutsLabels kept labels.now draft.old draft.new) }
    ensures keeps { Keeps draft.old.code draft.new.code }
{
    match labels {
        [] => draft.put(Instr::Push(0)),
        [first, others @ ..] => {
            put_label(*first, kept, draft)?;
            put_more_labels(others, kept, draft)
        }
    }
}

// Whether one of further labels does, or what is on top.
fn put_more_labels(labels: &[Bounds], kept: u32, draft: &mut Draft) -> Result<(), PartRefusal>
    ensures puts { OnOk result (PutsMoreLabels kept labels.now draft.old draft.new) }
    ensures keeps { Keeps draft.old.code draft.new.code }
{
    for label in labels {
        put_label(*label, kept, draft)?;
        draft.put(Instr::Or)?;
    }
    Ok(())
}

// Whether a label holds the selector that is kept in this local.
fn put_label(label: Bounds, kept: u32, draft: &mut Draft) -> Result<(), PartRefusal>
    ensures puts { OnOk result (PutsLabel kept label draft.old draft.new) }
    ensures keeps { Keeps draft.old.code draft.new.code }
{
    draft.put(Instr::Local(kept, 1))?;
    draft.put(Instr::Push(label.low))?;
    if label.low == label.high {
        return draft.put(Instr::Same(1));
    }
    draft.put(Instr::Less(1))?;
    draft.put(Instr::Push(label.high))?;
    draft.put(Instr::Local(kept, 1))?;
    draft.put(Instr::Less(1))?;
    draft.put(Instr::Or)?;
    draft.put(Instr::Not)
}

/// How many instructions the tests of labels have.
#[tactic(auto, using(crate::proofs::Lengths::lengths))]
pub fn labels_size(labels: &[Bounds]) -> u32
    ensures { result ≡ capped (labels_size labels.now) }
{
    match labels {
        [] => 1,
        [first, others @ ..] => label_size(*first).saturating_add(more_labels_size(others)),
    }
}

#[tactic(auto, using(crate::proofs::Lengths::lengths))]
fn more_labels_size(labels: &[Bounds]) -> u32
    ensures { result ≡ capped (length (more_labels_code 0 labels.now)) }
{
    let mut size = 0u32;
    for label in labels {
        size = size.saturating_add(label_size(*label)).saturating_add(1);
    }
    size
}

fn label_size(label: Bounds) -> u32
    ensures { result ≡ length (label_code 0 label) }
{
    if label.low == label.high { 3 } else { 8 }
}
