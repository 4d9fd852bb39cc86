// What processes ask of each other without an answer that the text names.
#![tactic(auto, using(expr_gen::proofs::Appending::keeping))]

ghost use Rattle.std.specs.Prelude.{◌≡◌, OnOk};
ghost use Rattle.program_trees.specs.StatementTree.{sent_tree};
ghost use Rattle.code_scheme.specs.Pieces.{capped};
ghost use Rattle.code_scheme.specs.StatementPlain.{delay_code, send_size, receiver_size};
ghost use Rattle.expr_gen.specs.Putting.{Keeps};
ghost use Rattle.expr_gen.specs.Puts.{PutsSome};
ghost use Rattle.action_gen.specs.Puts.{PutsReceiver, PutsSend, some_expr};

use crate::around::Around;
use checked_program::{Expr, Received, Sent};
use code_types::Instr;
use expr_gen::{
    Draft, PartRefusal, expr_size, put_all_received, put_expr, put_received, received_size,
    received_sizes, scalars_of, uncapped,
};

/// DELAY of one event.
pub fn put_delay(event: u32, priority: u32, draft: &mut Draft) -> Result<(), PartRefusal>
    ensures puts { OnOk result (PutsSome (delay_code event priority) 4 draft.old draft.new) }
    ensures keeps { Keeps draft.old.code draft.new.code }
{
    draft.put(Instr::Thing(event))?;
    draft.put(Instr::Push(0))?;
    draft.put(Instr::Delay(1, priority))?;
    draft.put(Instr::Pop(2))
}

/// SEND.
pub fn put_send(
    sent: &Sent,
    priority: u32,
    around: &Around,
    draft: &mut Draft,
) -> Result<(), PartRefusal>
    ensures puts { OnOk result (PutsSend around.now sent.now priority draft.old draft.new) }
    ensures keeps { Keeps draft.old.code draft.new.code }
{
    match sent {
        Sent::ToBuffer { buffer, value } => {
            put_received(value, &around.site, around.free, draft)?;
            draft.put(Instr::Send(*buffer, value.value.count, priority))
        }
        Sent::Signal {
            signal,
            parts,
            receiver,
        } => {
            let parts = parts.as_slice();
            put_all_received(parts, &around.site, around.free, draft)?;
            put_receiver(receiver, around, draft)?;
            let count = uncapped(scalars_of(parts))?;
            draft.put(Instr::Signal(*signal, count, receiver.is_some(), priority))
        }
    }
}

// The instance that a signal is sent to, where one is written.
fn put_receiver(
    receiver: &Option<Box<Expr>>,
    around: &Around,
    draft: &mut Draft,
) -> Result<(), PartRefusal>
    ensures puts { OnOk result (PutsReceiver around.now receiver.now draft.old draft.new) }
    ensures keeps { Keeps draft.old.code draft.new.code }
{
    match receiver {
        Some(receiver) => put_expr(receiver, &around.site, around.free, draft),
        None => Ok(()),
    }
}

/// How many instructions SEND has.
pub fn send_size(sent: &Sent) -> u32
    ensures { result ≡ capped (send_size (sent_tree sent.now)) }
{
    match sent {
        Sent::ToBuffer { value, .. } => received_size(value).saturating_add(1),
        Sent::Signal {
            parts,
            receiver,
            ..
        } => {
            let parts: &[Received] = parts.as_slice();
            received_sizes(parts)
                .saturating_add(receiver_size(receiver))
                .saturating_add(1)
        }
    }
}

fn receiver_size(receiver: &Option<Box<Expr>>) -> u32
    ensures { result ≡ capped (receiver_size (some_expr receiver.now)) }
{
    match receiver {
        Some(receiver) => expr_size(receiver),
        None => 0,
    }
}
