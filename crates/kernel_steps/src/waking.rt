// DELAY and CONTINUE.
ghost use Rattle.std.specs.Prelude.{◌≡◌};
ghost use Rattle.kernel_base.specs.declared.answer.Answer.TheVariants as answers;
ghost use Rattle.kernel_base.specs.declared.request.Request.TheVariants as requests;
ghost use Rattle.kernel_steps.specs.Seated.{twice};
ghost use Rattle.kernel_steps.specs.Serving.{CanServe, Serves};

use crate::noting::{did, goes, waits};
use crate::seats::{choose, wait};
use crate::state::Ready;
use crate::{Copies, Reply, State};
use kernel_base::{Alternatives, Answer, Exc, Request};

/// Waits for events, where none of them is full. It takes no memory.
pub fn delay(
    s: &mut State,
    who: u32,
    ticks: u32,
    events: Alternatives,
    priority: u32,
    ready: Ready,
) -> Reply
    requires { CanServe s.old who (requests.Delay events priority) ready }
    ensures { Serves s.old s.new who ticks (requests.Delay events priority) result }
{
    if s.queues.events.full(&events) {
        did(
            &mut s.journal,
            who,
            ticks,
            ready.request,
            Answer::Fail(Exc::Delayfail),
        );
        return Reply::Now(Answer::Fail(Exc::Delayfail));
    }
    s.queues.events.delay(who, events, priority);
    let going = wait(&mut s.seats, who);
    waits(&mut s.journal, who, ticks, ready.request, going)
}

fn woken_by(alternative: u32, by: u32) -> Copies
    ensures { result ≡ twice (answers.Woken alternative by) }
{
    Copies {
        noted: Answer::Woken { alternative, by },
        handed: Answer::Woken { alternative, by },
    }
}

/// CONTINUE: the one that is first by priority among those delayed on the event goes on. It takes no memory.
pub fn resume(s: &mut State, who: u32, ticks: u32, event: u32, ready: Ready) -> Reply
    requires { CanServe s.old who (requests.Continue event) ready }
    ensures { Serves s.old s.new who ticks (requests.Continue event) result }
{
    s.queues.events.each_waits();
    match s.queues.events.wake(event) {
        Some(woken) => {
            let chosen = Answer::Chose(Some(woken.thing));
            did(&mut s.journal, who, ticks, ready.request, chosen);
            let going = choose(&mut s.seats, woken.thing, woken_by(woken.number, who));
            goes(&mut s.journal, going);
            Reply::Now(Answer::Chose(Some(woken.thing)))
        }
        None => {
            did(
                &mut s.journal,
                who,
                ticks,
                ready.request,
                Answer::Chose(None),
            );
            Reply::Now(Answer::Chose(None))
        }
    }
}
