// SEND to and RECEIVE from buffers.
ghost use Rattle.std.specs.Prelude.{◌≡◌, ◌+◌, ◌<◌, ◌≤◌, ℕ, ℤ, Bool, List, IfSome};
ghost use Rattle.kernel_base.specs.declared.request.Alternative.{Alternative};
ghost use Rattle.kernel_base.specs.declared.request.Request.TheVariants as requests;
ghost use Rattle.kernel_steps.specs.Seated.{CanChoose};
ghost use Rattle.kernel_steps.specs.Serving.{CanServe, Serves, Refills};

use crate::copies::twin;
use crate::messages::{hand, process_of};
use crate::noting::{did, goes, took, waits};
use crate::ranges::{answer_in_range, optional_in_range};
use crate::seats::{choose, wait};
use crate::state::Ready;
use crate::{Copies, Going, Reply, Seats, State};
use buffers_signals::{Received, Sent};
use kernel_base::{Answer, Request};

/// SEND to a buffer: the value goes to one that waits for it, lies in the buffer where that has room, or its sender
/// waits. It takes no memory.
pub fn send_buffer(s: &mut State, who: u32, ticks: u32, request: Request, ready: Ready) -> Reply
    requires is { (buffer : ℕ) × (scalars : List ℤ) × (priority : ℕ) × (request ≡ requests.SendBuffer buffer scalars priority) }
    requires can { CanServe s.old who request ready }
    ensures { Serves s.old s.new who ticks request result }
{
    s.queues.sends += 1;
    match s.queues.buffers.send(who, s.queues.sends, request) {
        Sent::Handed { to, answer } => {
            let going = hand(&mut s.seats, to, answer, ready.first);
            did(
                &mut s.journal,
                who,
                ticks,
                ready.request,
                Answer::Handed(to),
            );
            goes(&mut s.journal, going);
            Reply::Now(Answer::Handed(to))
        }
        Sent::Stored => {
            did(&mut s.journal, who, ticks, ready.request, Answer::Stored);
            Reply::Now(Answer::Stored)
        }
        Sent::Delayed => {
            let going = wait(&mut s.seats, who);
            waits(&mut s.journal, who, ticks, ready.request, going)
        }
    }
}

// The sender whose value takes the place of the one that was taken is chosen, if there is one.
fn choose_sender(seats: &mut Seats, refill: Option<u32>) -> Option<Going>
    requires spare { 0 < seats.old.regions.spare }
    requires seated { IfSome refill (CanChoose seats.old) }
    ensures settles { Refills seats.old seats.new refill result }
    ensures spare { seats.old.regions.spare ≤ seats.new.regions.spare + 1 }
{
    match refill {
        Some(sender) => choose(
            seats,
            sender,
            Copies {
                noted: Answer::Stored,
                handed: Answer::Stored,
            },
        ),
        None => None,
    }
}

/// RECEIVE from buffers: a value of highest priority is taken, and where senders wait for its place one of them is
/// chosen; or ELSE is answered where it is written, or the receiver waits. It takes no memory.
pub fn receive_buffer(s: &mut State, who: u32, ticks: u32, request: Request, ready: Ready) -> Reply
    requires is { (buffers : List Alternative) × (otherwise : Bool) × (request ≡ requests.ReceiveBuffer buffers otherwise) }
    requires can { CanServe s.old who request ready }
    ensures { Serves s.old s.new who ticks request result }
{
    let process = process_of(s, who);
    match s.queues.buffers.receive(who, process, request) {
        Received::Got { answer, refill } => {
            answer_in_range(&answer);
            optional_in_range(refill);
            let handed = twin(&answer, ready.first);
            let going = choose_sender(&mut s.seats, refill);
            took(&mut s.journal, who, ticks, ready.request, answer, refill);
            goes(&mut s.journal, going);
            Reply::Now(handed)
        }
        Received::Otherwise => {
            did(&mut s.journal, who, ticks, ready.request, Answer::Otherwise);
            Reply::Now(Answer::Otherwise)
        }
        Received::Delayed => {
            let going = wait(&mut s.seats, who);
            waits(&mut s.journal, who, ticks, ready.request, going)
        }
    }
}
