// Events that are appended to the journal.
ghost use Rattle.std.specs.Prelude.{◌≡◌, ◌+◌, ◌<◌, ◌≤◌, ◌++◌, ◌∷◌, [], None, IfSome};
ghost use Rattle.kernel_base.specs.declared.event.Event.{Event};
ghost use Rattle.world_model.specs.Ranges.{IsNumber, IsAnswerInRange, IsInRange};
ghost use Rattle.kernel_steps.specs.Serving.{goes_of};

use crate::ranges::{answer_in_range, number_in_range, optional_in_range};
use crate::{Going, Reply};
use journal_book::Journal;
use kernel_base::{Answer, Event, Request};

/// Notes that a request was answered at once.
pub fn did(journal: &mut Journal, who: u32, ticks: u32, request: Request, answer: Answer)
    requires { 0 < journal.old.spare }
    ensures events { journal.new.events ≡ journal.old.events ++ Event.Did who ticks request answer None ∷ [] }
    ensures spare { journal.old.spare ≤ journal.new.spare + 1 }
    ensures in_range { IsAnswerInRange answer }
{
    answer_in_range(&answer);
    journal.append(Event::Did {
        who,
        ticks,
        request,
        answer,
        refill: None,
    });
}

/// Notes that a value was received from a buffer, and the sender that was chosen with it, if any.
pub fn took(
    journal: &mut Journal,
    who: u32,
    ticks: u32,
    request: Request,
    answer: Answer,
    refill: Option<u32>,
)
    requires { 0 < journal.old.spare }
    ensures events { journal.new.events ≡ journal.old.events ++ Event.Did who ticks request answer refill ∷ [] }
    ensures spare { journal.old.spare ≤ journal.new.spare + 1 }
    ensures in_range { IsAnswerInRange answer }
    ensures refill { IfSome refill IsNumber }
{
    answer_in_range(&answer);
    optional_in_range(refill);
    journal.append(Event::Did {
        who,
        ticks,
        request,
        answer,
        refill,
    });
}

/// Notes that one goes on, if any does.
pub fn goes(journal: &mut Journal, going: Option<Going>)
    requires { 0 < journal.old.spare }
    ensures events { journal.new.events ≡ journal.old.events ++ goes_of going }
    ensures spare { journal.old.spare ≤ journal.new.spare + 1 }
    ensures in_range { IfSome going (λ g. IsInRange (Event.Goes g.who g.answer)) }
{
    if let Some(going) = going {
        number_in_range(going.who);
        answer_in_range(&going.answer);
        journal.append(Event::Goes {
            who: going.who,
            answer: going.answer,
        });
    }
}

/// Notes that a request waits, and that one goes on, if any does.
pub fn waits(
    journal: &mut Journal,
    who: u32,
    ticks: u32,
    request: Request,
    going: Option<Going>,
) -> Reply
    requires { 1 < journal.old.spare }
    ensures reply { result ≡ Reply.Later }
    ensures events { journal.new.events ≡ (journal.old.events ++ Event.Waits who ticks request ∷ []) ++ goes_of going }
    ensures spare { journal.old.spare ≤ journal.new.spare + 2 }
    ensures in_range { IfSome going (λ g. IsInRange (Event.Goes g.who g.answer)) }
{
    journal.append(Event::Waits {
        who,
        ticks,
        request,
    });
    goes(journal, going);
    Reply::Later
}
