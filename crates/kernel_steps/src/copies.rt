// Answers that are told twice: in the journal, and to the process.
ghost use Rattle.std.specs.Prelude.{◌≡◌, ◌≤◌, [], length, vec_capacity};
ghost use Rattle.kernel_steps.specs.Kept.{count_of_scalars};

use chill_base::{List, Scalars};
use kernel_base::Answer;

/// The scalars once more, in a buffer that has room for them. It takes no memory.
pub fn twin_scalars(scalars: &[i64], buffer: Vec<i64>) -> Scalars
    requires empty { buffer.items ≡ [] }
    requires room { length scalars.now ≤ vec_capacity buffer }
    ensures { result ≡ scalars.now }
{
    let mut buffer = buffer;
    buffer.extend_from_slice(scalars).unwrap();
    List::from_vec(buffer)
}

/// The answer once more, with its scalars in a buffer that has room for them. It takes no memory.
pub fn twin(answer: &Answer, buffer: Vec<i64>) -> Answer
    requires empty { buffer.items ≡ [] }
    requires room { count_of_scalars answer.now ≤ vec_capacity buffer }
    ensures { result ≡ answer.now }
{
    match answer {
        Answer::Value(scalars) => Answer::Value(twin_scalars(scalars.as_slice(), buffer)),
        Answer::Got {
            alternative,
            send,
            scalars,
            by,
        } => Answer::Got {
            alternative: *alternative,
            send: *send,
            scalars: twin_scalars(scalars.as_slice(), buffer),
            by: *by,
        },
        Answer::Done => Answer::Done,
        Answer::Woken { alternative, by } => Answer::Woken {
            alternative: *alternative,
            by: *by,
        },
        Answer::Otherwise => Answer::Otherwise,
        Answer::Instance(instance) => Answer::Instance(*instance),
        Answer::Fail(exception) => Answer::Fail(*exception),
        Answer::Chose(chosen) => Answer::Chose(*chosen),
        Answer::Handed(to) => Answer::Handed(*to),
        Answer::Stored => Answer::Stored,
    }
}
