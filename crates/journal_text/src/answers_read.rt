// Answers, guessed from their fields.
ghost use Rattle.std.specs.Prelude.{◌≡◌};
ghost use Rattle.journal_text.specs.Reading as reading;
ghost use Rattle.journal_text.specs.declared.kinds.AnswerKind.TheVariants as given;

use crate::fields_read::{read_exception, read_number, read_optional, read_word};
use crate::kinds::{AnswerKind, answer_kind};
use crate::lists_read::read_scalars;
use crate::unread::Unread;
use kernel_base::Answer;
use std::alloc::Global;

#[tactic(auto, unfolding(crate::specs::Reading::told_at))]
fn value(alloc: Global, bytes: &[u8]) -> Result<(Answer, &[u8]), Unread>
    ensures { reading.Gives (λ x. (x.0, x.1.now)) result (reading.told_at given.Value bytes.now) }
{
    let (scalars, rest) = read_scalars(alloc, bytes)?;
    Ok((Answer::Value(scalars), rest))
}

#[tactic(auto, unfolding(crate::specs::Reading::told_at))]
fn woken(bytes: &[u8]) -> Result<(Answer, &[u8]), Unread>
    ensures { reading.Gives (λ x. (x.0, x.1.now)) result (reading.told_at given.Woken bytes.now) }
{
    let (alternative, rest) = read_number(bytes)?;
    let (by, rest) = read_number(rest)?;
    Ok((Answer::Woken { alternative, by }, rest))
}

#[tactic(auto, unfolding(crate::specs::Reading::told_at))]
fn got(alloc: Global, bytes: &[u8]) -> Result<(Answer, &[u8]), Unread>
    ensures { reading.Gives (λ x. (x.0, x.1.now)) result (reading.told_at given.Got bytes.now) }
{
    let (alternative, rest) = read_number(bytes)?;
    let (send, rest) = read_number(rest)?;
    let (scalars, rest) = read_scalars(alloc, rest)?;
    let (by, rest) = read_number(rest)?;
    Ok((
        Answer::Got {
            alternative,
            send,
            scalars,
            by,
        },
        rest,
    ))
}

#[tactic(auto, unfolding(crate::specs::Reading::told_at))]
fn instance(bytes: &[u8]) -> Result<(Answer, &[u8]), Unread>
    ensures { reading.Gives (λ x. (x.0, x.1.now)) result (reading.told_at given.Instance bytes.now) }
{
    let (instance, rest) = read_number(bytes)?;
    Ok((Answer::Instance(instance), rest))
}

#[tactic(auto, unfolding(crate::specs::Reading::told_at))]
fn fail(bytes: &[u8]) -> Result<(Answer, &[u8]), Unread>
    ensures { reading.Gives (λ x. (x.0, x.1.now)) result (reading.told_at given.Fail bytes.now) }
{
    let (exception, rest) = read_exception(bytes)?;
    Ok((Answer::Fail(exception), rest))
}

#[tactic(auto, unfolding(crate::specs::Reading::told_at))]
fn chose(bytes: &[u8]) -> Result<(Answer, &[u8]), Unread>
    ensures { reading.Gives (λ x. (x.0, x.1.now)) result (reading.told_at given.Chose bytes.now) }
{
    let (chosen, rest) = read_optional(bytes)?;
    Ok((Answer::Chose(chosen), rest))
}

#[tactic(auto, unfolding(crate::specs::Reading::told_at))]
fn handed(bytes: &[u8]) -> Result<(Answer, &[u8]), Unread>
    ensures { reading.Gives (λ x. (x.0, x.1.now)) result (reading.told_at given.Handed bytes.now) }
{
    let (instance, rest) = read_number(bytes)?;
    Ok((Answer::Handed(instance), rest))
}

// What an answer of this kind tells.
#[tactic(auto, unfolding(crate::specs::Reading::told_at))]
fn read_told(alloc: Global, kind: AnswerKind, bytes: &[u8]) -> Result<(Answer, &[u8]), Unread>
    ensures { reading.Gives (λ x. (x.0, x.1.now)) result (reading.told_at kind bytes.now) }
{
    match kind {
        AnswerKind::Value => value(alloc, bytes),
        AnswerKind::Done => Ok((Answer::Done, bytes)),
        AnswerKind::Woken => woken(bytes),
        AnswerKind::Got => got(alloc, bytes),
        AnswerKind::Otherwise => Ok((Answer::Otherwise, bytes)),
        AnswerKind::Instance => instance(bytes),
        AnswerKind::Fail => fail(bytes),
        AnswerKind::Chose => chose(bytes),
        AnswerKind::Handed => handed(bytes),
        AnswerKind::Stored => Ok((Answer::Stored, bytes)),
    }
}

#[tactic(auto, unfolding(crate::specs::Reading::answer_at))]
pub(crate) fn read_answer(alloc: Global, bytes: &[u8]) -> Result<(Answer, &[u8]), Unread>
    ensures { reading.Gives (λ x. (x.0, x.1.now)) result (reading.answer_at bytes.now) }
{
    let (word, rest) = read_word(bytes)?;
    match answer_kind(word) {
        Some(kind) => read_told(alloc, kind, rest),
        None => Err(Unread::NoEvent),
    }
}
