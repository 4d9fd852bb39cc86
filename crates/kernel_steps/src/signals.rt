// SEND and RECEIVE of signals.
ghost use Rattle.std.specs.Prelude.{◌≡◌, ℕ, ℤ, Bool, List, None};
ghost use Rattle.std.specs.declared.option.Option.{Option};
ghost use Rattle.kernel_base.specs.declared.request.Alternative.{Alternative};
ghost use Rattle.kernel_base.specs.declared.request.Request.TheVariants as requests;
ghost use Rattle.world_model.specs.World.{refusal};
ghost use Rattle.kernel_steps.specs.Kept.{world_in};
ghost use Rattle.kernel_steps.specs.Serving.{CanServe, Serves};

use crate::copies::twin;
use crate::messages::{hand, process_of, refusal};
use crate::noting::{did, goes, waits};
use crate::ranges::answer_in_range;
use crate::seats::wait;
use crate::state::Ready;
use crate::{Reply, State};
use buffers_signals::{Received, Sent};
use kernel_base::{Answer, Request};

/// SEND of a signal: it is refused where it is sent to no instance or to one that isn't live, goes to one that waits
/// for it and may receive it, or is pending. It takes no memory.
pub fn send_signal(
    s: &mut State,
    who: u32,
    ticks: u32,
    to: Option<u32>,
    request: Request,
    ready: Ready,
) -> Reply
    requires is { (signal : ℕ) × (scalars : List ℤ) × (priority : ℕ) × (request ≡ requests.SendSignal signal scalars to priority) }
    requires can { CanServe s.old who request ready }
    ensures { Serves s.old s.new who ticks request result }
{
    match refusal(s, to) {
        Some(exception) => {
            did(
                &mut s.journal,
                who,
                ticks,
                ready.request,
                Answer::Fail(exception),
            );
            Reply::Now(Answer::Fail(exception))
        }
        None => send_to(s, who, ticks, to, request, ready),
    }
}

fn send_to(
    s: &mut State,
    who: u32,
    ticks: u32,
    to: Option<u32>,
    request: Request,
    ready: Ready,
) -> Reply
    requires is { (signal : ℕ) × (scalars : List ℤ) × (priority : ℕ) × (request ≡ requests.SendSignal signal scalars to priority) }
    requires live { refusal (world_in s.old) to ≡ None }
    requires can { CanServe s.old who request ready }
    ensures { Serves s.old s.new who ticks request result }
{
    s.queues.sends += 1;
    match s.queues.signals.send(who, s.queues.sends, request) {
        Sent::Handed {
            to: receiver,
            answer,
        } => {
            let going = hand(&mut s.seats, receiver, answer, ready.first);
            did(
                &mut s.journal,
                who,
                ticks,
                ready.request,
                Answer::Handed(receiver),
            );
            goes(&mut s.journal, going);
            Reply::Now(Answer::Handed(receiver))
        }
        Sent::Stored | Sent::Delayed => {
            did(&mut s.journal, who, ticks, ready.request, Answer::Stored);
            Reply::Now(Answer::Stored)
        }
    }
}

/// RECEIVE of signals: one of highest priority is taken, or ELSE is answered where it is written, or the receiver
/// waits. It takes no memory.
pub fn receive_signal(s: &mut State, who: u32, ticks: u32, request: Request, ready: Ready) -> Reply
    requires is { (signals : List Alternative) × (otherwise : Bool) × (request ≡ requests.ReceiveSignal signals otherwise) }
    requires can { CanServe s.old who request ready }
    ensures { Serves s.old s.new who ticks request result }
{
    let process = process_of(s, who);
    match s.queues.signals.receive(who, process, request) {
        Received::Got { answer, .. } => {
            answer_in_range(&answer);
            let handed = twin(&answer, ready.first);
            did(&mut s.journal, who, ticks, ready.request, answer);
            Reply::Now(handed)
        }
        Received::Otherwise => {
            did(&mut s.journal, who, ticks, ready.request, Answer::Otherwise);
            Reply::Now(Answer::Otherwise)
        }
        Received::Delayed => {
            let going = wait(&mut s.seats, who);
            waits(&mut s.journal, who, ticks, ready.request, going)
        }
    }
}
