// The words that begin an event, a request and an answer.
ghost use Rattle.std.specs.Prelude.{◌≡◌};
ghost use Rattle.journal_text.specs.Reading as reading;

#[derive(Clone, Copy, PartialEq, Eq)]
pub(crate) enum EventKind {
    Did,
    Waits,
    Goes,
    Runs,
}

#[derive(Clone, Copy, PartialEq, Eq)]
pub(crate) enum RequestKind {
    Read,
    Write,
    Enter,
    Leave,
    Delay,
    Continue,
    SendBuffer,
    ReceiveBuffer,
    SendSignal,
    ReceiveSignal,
    Start,
    Put,
    Get,
    End,
}

#[derive(Clone, Copy, PartialEq, Eq)]
pub(crate) enum AnswerKind {
    Value,
    Done,
    Woken,
    Got,
    Otherwise,
    Instance,
    Fail,
    Chose,
    Handed,
    Stored,
}

#[tactic(auto, unfolding(crate::specs::Reading::event_kind))]
pub(crate) fn event_kind(word: &[u8]) -> Option<EventKind>
    ensures { result ≡ reading.event_kind word.now }
{
    match word {
        b"did" => Some(EventKind::Did),
        b"waits" => Some(EventKind::Waits),
        b"goes" => Some(EventKind::Goes),
        b"runs" => Some(EventKind::Runs),
        _ => None,
    }
}

#[tactic(auto, unfolding(crate::specs::Reading::request_kind))]
pub(crate) fn request_kind(word: &[u8]) -> Option<RequestKind>
    ensures { result ≡ reading.request_kind word.now }
{
    if word == b"read".as_slice() {
        Some(RequestKind::Read)
    } else if word == b"write".as_slice() {
        Some(RequestKind::Write)
    } else if word == b"enter".as_slice() {
        Some(RequestKind::Enter)
    } else if word == b"leave".as_slice() {
        Some(RequestKind::Leave)
    } else if word == b"delay".as_slice() {
        Some(RequestKind::Delay)
    } else if word == b"continue".as_slice() {
        Some(RequestKind::Continue)
    } else if word == b"sendb".as_slice() {
        Some(RequestKind::SendBuffer)
    } else if word == b"recvb".as_slice() {
        Some(RequestKind::ReceiveBuffer)
    } else if word == b"sends".as_slice() {
        Some(RequestKind::SendSignal)
    } else if word == b"recvs".as_slice() {
        Some(RequestKind::ReceiveSignal)
    } else if word == b"start".as_slice() {
        Some(RequestKind::Start)
    } else if word == b"put".as_slice() {
        Some(RequestKind::Put)
    } else if word == b"get".as_slice() {
        Some(RequestKind::Get)
    } else if word == b"end".as_slice() {
        Some(RequestKind::End)
    } else {
        None
    }
}

#[tactic(auto, unfolding(crate::specs::Reading::answer_kind))]
pub(crate) fn answer_kind(word: &[u8]) -> Option<AnswerKind>
    ensures { result ≡ reading.answer_kind word.now }
{
    if word == b"value".as_slice() {
        Some(AnswerKind::Value)
    } else if word == b"done".as_slice() {
        Some(AnswerKind::Done)
    } else if word == b"woken".as_slice() {
        Some(AnswerKind::Woken)
    } else if word == b"got".as_slice() {
        Some(AnswerKind::Got)
    } else if word == b"otherwise".as_slice() {
        Some(AnswerKind::Otherwise)
    } else if word == b"instance".as_slice() {
        Some(AnswerKind::Instance)
    } else if word == b"fail".as_slice() {
        Some(AnswerKind::Fail)
    } else if word == b"chose".as_slice() {
        Some(AnswerKind::Chose)
    } else if word == b"handed".as_slice() {
        Some(AnswerKind::Handed)
    } else if word == b"stored".as_slice() {
        Some(AnswerKind::Stored)
    } else {
        None
    }
}
