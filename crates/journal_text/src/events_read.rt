// Events, guessed from their fields.
ghost use Rattle.std.specs.Prelude.{◌≡◌};
ghost use Rattle.journal_text.specs.Reading as reading;
ghost use Rattle.journal_text.specs.declared.kinds.EventKind.TheVariants as kinds;

use crate::answers_read::read_answer;
use crate::fields_read::{read_number, read_optional, word_and_rest};
use crate::kinds::{EventKind, event_kind};
use crate::requests_read::read_request;
use crate::unread::Unread;
use kernel_base::Event;
use std::alloc::Global;

#[tactic(auto, unfolding(crate::specs::Reading::details_at))]
fn did(alloc: Global, bytes: &[u8]) -> Result<(Event, &[u8]), Unread>
    ensures { reading.Gives (λ x. (x.0, x.1.now)) result (reading.details_at kinds.Did bytes.now) }
{
    let (who, rest) = read_number(bytes)?;
    let (ticks, rest) = read_number(rest)?;
    let (request, rest) = read_request(alloc, rest)?;
    let (answer, rest) = read_answer(alloc, rest)?;
    let (refill, rest) = read_optional(rest)?;
    Ok((
        Event::Did {
            who,
            ticks,
            request,
            answer,
            refill,
        },
        rest,
    ))
}

#[tactic(auto, unfolding(crate::specs::Reading::details_at))]
fn waits(alloc: Global, bytes: &[u8]) -> Result<(Event, &[u8]), Unread>
    ensures { reading.Gives (λ x. (x.0, x.1.now)) result (reading.details_at kinds.Waits bytes.now) }
{
    let (who, rest) = read_number(bytes)?;
    let (ticks, rest) = read_number(rest)?;
    let (request, rest) = read_request(alloc, rest)?;
    Ok((
        Event::Waits {
            who,
            ticks,
            request,
        },
        rest,
    ))
}

#[tactic(auto, unfolding(crate::specs::Reading::details_at))]
fn goes(alloc: Global, bytes: &[u8]) -> Result<(Event, &[u8]), Unread>
    ensures { reading.Gives (λ x. (x.0, x.1.now)) result (reading.details_at kinds.Goes bytes.now) }
{
    let (who, rest) = read_number(bytes)?;
    let (answer, rest) = read_answer(alloc, rest)?;
    Ok((Event::Goes { who, answer }, rest))
}

#[tactic(auto, unfolding(crate::specs::Reading::details_at))]
fn runs(bytes: &[u8]) -> Result<(Event, &[u8]), Unread>
    ensures { reading.Gives (λ x. (x.0, x.1.now)) result (reading.details_at kinds.Runs bytes.now) }
{
    let (who, rest) = read_number(bytes)?;
    let (ticks, rest) = read_number(rest)?;
    Ok((Event::Runs { who, ticks }, rest))
}

#[tactic(auto, unfolding(crate::specs::Reading::details_at))]
fn read_details(alloc: Global, kind: EventKind, bytes: &[u8]) -> Result<(Event, &[u8]), Unread>
    ensures { reading.Gives (λ x. (x.0, x.1.now)) result (reading.details_at kind bytes.now) }
{
    match kind {
        EventKind::Did => did(alloc, bytes),
        EventKind::Waits => waits(alloc, bytes),
        EventKind::Goes => goes(alloc, bytes),
        EventKind::Runs => runs(bytes),
    }
}

/// The event whose line stands at the front, and what was not looked at.
#[tactic(auto, unfolding(crate::specs::Reading::event_at))]
pub(crate) fn guess_event(alloc: Global, bytes: &[u8]) -> Result<(Event, &[u8]), Unread>
    ensures { reading.Gives (λ x. (x.0, x.1.now)) result (reading.event_at bytes.now) }
{
    let (word, rest) = word_and_rest(bytes);
    match event_kind(word) {
        Some(kind) => read_details(alloc, kind, rest),
        None => Err(Unread::NoEvent),
    }
}
