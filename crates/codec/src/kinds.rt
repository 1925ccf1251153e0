//! Of which kind a message, a call, a result, an event or a line is: the byte in front of its fields.

/// Of which kind a request is.
#[derive(Clone, Copy)]
pub enum RequestKind {
    Start,
    Beat,
    Call,
}

pub(crate) const REQUEST_KINDS: [RequestKind; 3] = [
    RequestKind::Start,
    RequestKind::Beat,
    RequestKind::Call,
];

/// Of which kind a call is.
#[derive(Clone, Copy)]
pub enum CallKind {
    Open,
    Close,
    Read,
    Stat,
    List,
    Set,
    SetAcl,
    Delete,
    Acquire,
    TryAcquire,
    Release,
    GetSequencer,
    SetSequencer,
    CheckSequencer,
    Leave,
}

pub(crate) const CALL_KINDS: [CallKind; 15] = [
    CallKind::Open,
    CallKind::Close,
    CallKind::Read,
    CallKind::Stat,
    CallKind::List,
    CallKind::Set,
    CallKind::SetAcl,
    CallKind::Delete,
    CallKind::Acquire,
    CallKind::TryAcquire,
    CallKind::Release,
    CallKind::GetSequencer,
    CallKind::SetSequencer,
    CallKind::CheckSequencer,
    CallKind::Leave,
];

/// Of which kind a master's message is.
#[derive(Clone, Copy)]
pub enum OutKind {
    Started,
    Alive,
    Reply,
    Refused,
}

pub(crate) const OUT_KINDS: [OutKind; 4] = [
    OutKind::Started,
    OutKind::Alive,
    OutKind::Reply,
    OutKind::Refused,
];

/// Of which kind the end of a call is.
#[derive(Clone, Copy)]
pub enum ResultKind {
    Opened,
    Closed,
    Viewed,
    Stated,
    Listed,
    Sequencer,
    Done,
    Refused,
}

pub(crate) const RESULT_KINDS: [ResultKind; 8] = [
    ResultKind::Opened,
    ResultKind::Closed,
    ResultKind::Viewed,
    ResultKind::Stated,
    ResultKind::Listed,
    ResultKind::Sequencer,
    ResultKind::Done,
    ResultKind::Refused,
];

/// Of which kind an event is.
#[derive(Clone, Copy)]
pub enum EventKind {
    FailOver,
    Contents,
    ChildAdded,
    ChildRemoved,
    ChildModified,
    Invalid,
    Locked,
    Conflict,
    Lost,
}

pub(crate) const EVENT_KINDS: [EventKind; 9] = [
    EventKind::FailOver,
    EventKind::Contents,
    EventKind::ChildAdded,
    EventKind::ChildRemoved,
    EventKind::ChildModified,
    EventKind::Invalid,
    EventKind::Locked,
    EventKind::Conflict,
    EventKind::Lost,
];

/// Of which kind a change of the map is.
#[derive(Clone, Copy)]
pub enum ModKind {
    Put,
    Gone,
}

pub(crate) const MOD_KINDS: [ModKind; 2] = [ModKind::Put, ModKind::Gone];

/// Of which kind it is how a call ended, as it is printed.
#[derive(Clone, Copy)]
pub enum AnswerKind {
    Opened,
    Closed,
    Poisoned,
    Viewed,
    Stated,
    Names,
    Sequencer,
    Okay,
    Refused,
}

pub(crate) const ANSWER_KINDS: [AnswerKind; 9] = [
    AnswerKind::Opened,
    AnswerKind::Closed,
    AnswerKind::Poisoned,
    AnswerKind::Viewed,
    AnswerKind::Stated,
    AnswerKind::Names,
    AnswerKind::Sequencer,
    AnswerKind::Okay,
    AnswerKind::Refused,
];

/// Of which kind a line is.
#[derive(Clone, Copy)]
pub enum LineKind {
    Up,
    Down,
    Recovered,
    Started,
    Ended,
    Applied,
    Granted,
    Acked,
    Expired,
    Locked,
    Freed,
    Lapsed,
    Reopened,
    Served,
    Done,
    Told,
    Jeopardy,
    Safe,
    Lost,
    Refused,
}

pub(crate) const LINE_KINDS: [LineKind; 20] = [
    LineKind::Up,
    LineKind::Down,
    LineKind::Recovered,
    LineKind::Started,
    LineKind::Ended,
    LineKind::Applied,
    LineKind::Granted,
    LineKind::Acked,
    LineKind::Expired,
    LineKind::Locked,
    LineKind::Freed,
    LineKind::Lapsed,
    LineKind::Reopened,
    LineKind::Served,
    LineKind::Done,
    LineKind::Told,
    LineKind::Jeopardy,
    LineKind::Safe,
    LineKind::Lost,
    LineKind::Refused,
];
