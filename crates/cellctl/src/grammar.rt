//! The grammar of a script's lines as tables, and where a line leaves it.
//!
//! `scripts` decides which lines are steps; these tables say of one that is none which word is wrong.
use scripts::{content, events, mode, number};
use std::alloc::Global;
use strsim::levenshtein;

/// The most characters of a word for which a near one is looked for.
const NEAR_LENGTH: usize = 40;

/// How many characters may differ in a near word.
const NEAR_DISTANCE: usize = 2;

/// A client's number is below this: 2^53.
const CLIENT_LIMIT: u64 = 0x20_0000_0000_0000;

// What a word may be.
#[derive(Clone, Copy)]
enum Form {
    Is(&'static str),
    Number,
    Client,
    Tick,
    Mode,
    Events,
    Content,
    Bytes,
    Any,
}

// A place in a line: what may stand there.
#[derive(Clone, Copy)]
enum WordPlace {
    Step,
    Moment,
    Cut,
    CutMoment,
    Commit,
    MasterTick,
    ClientsTick,
    OwnTick,
    Joiner,
    Principal,
    Asker,
    Client,
    Message,
    Call,
    Handle,
    SetHandle,
    SetContent,
    Generation,
    AclHandle,
    AclRead,
    AclWrite,
    AclChange,
    LockHandle,
    LockMode,
    SequencerHandle,
    Sequencer,
    Name,
    Mode,
    Making,
    Kind,
    FileLife,
    FirstContent,
    DirectoryLife,
    Acl,
    NewRead,
    NewWrite,
    NewChange,
    Options,
    Delay,
    AfterDelay,
    Events,
    End,
}

// What stands at a place: words that say it, whether the line may end before it, and the forms of a word, each with the place
// after it.
type PlaceWords = (&'static str, bool, &'static [(Form, WordPlace)]);

// What stands at each place, in the order of `WordPlace`.
const ENTRIES: &[PlaceWords] = &[
    (
        "a step: up, down, cut, tick, join, ask, beat, take, give, sweep or settle",
        false,
        &[
            (Form::Is("up"), WordPlace::Moment),
            (Form::Is("down"), WordPlace::End),
            (Form::Is("cut"), WordPlace::Cut),
            (Form::Is("tick"), WordPlace::MasterTick),
            (Form::Is("join"), WordPlace::Joiner),
            (Form::Is("ask"), WordPlace::Asker),
            (Form::Is("beat"), WordPlace::Client),
            (Form::Is("take"), WordPlace::Message),
            (Form::Is("give"), WordPlace::Message),
            (Form::Is("sweep"), WordPlace::End),
            (Form::Is("settle"), WordPlace::End),
        ],
    ),
    (
        "the master's clock, a number of milliseconds",
        false,
        &[(Form::Number, WordPlace::End)],
    ),
    (
        "what is cut: sweep or up",
        false,
        &[
            (Form::Is("sweep"), WordPlace::Commit),
            (Form::Is("up"), WordPlace::CutMoment),
        ],
    ),
    (
        "the master's clock, a number of milliseconds",
        false,
        &[(Form::Number, WordPlace::Commit)],
    ),
    (
        "kept or lost",
        false,
        &[
            (Form::Is("kept"), WordPlace::End),
            (Form::Is("lost"), WordPlace::End),
        ],
    ),
    (
        "by how many milliseconds the master's clock moves",
        false,
        &[(Form::Number, WordPlace::ClientsTick)],
    ),
    (
        "by how many milliseconds the clients' clocks move",
        false,
        &[(Form::Number, WordPlace::OwnTick)],
    ),
    (
        "a client's number, a colon and by how many milliseconds its clock moves, or nothing",
        true,
        &[(Form::Tick, WordPlace::OwnTick)],
    ),
    (
        "the client's number, 1 to 9007199254740991",
        false,
        &[(Form::Client, WordPlace::Principal)],
    ),
    ("a principal", false, &[(Form::Any, WordPlace::End)]),
    (
        "the client's number",
        false,
        &[(Form::Number, WordPlace::Call)],
    ),
    (
        "the client's number",
        false,
        &[(Form::Number, WordPlace::End)],
    ),
    (
        "the message's number",
        false,
        &[(Form::Number, WordPlace::End)],
    ),
    (
        "a call: open, close, poison, read, stat, list, set, acl, delete, acquire, try, release, getseq, setseq or checkseq",
        false,
        &[
            (Form::Is("open"), WordPlace::Name),
            (Form::Is("close"), WordPlace::Handle),
            (Form::Is("poison"), WordPlace::Handle),
            (Form::Is("read"), WordPlace::Handle),
            (Form::Is("stat"), WordPlace::Handle),
            (Form::Is("list"), WordPlace::Handle),
            (Form::Is("set"), WordPlace::SetHandle),
            (Form::Is("acl"), WordPlace::AclHandle),
            (Form::Is("delete"), WordPlace::Handle),
            (Form::Is("acquire"), WordPlace::LockHandle),
            (Form::Is("try"), WordPlace::LockHandle),
            (Form::Is("release"), WordPlace::Handle),
            (Form::Is("getseq"), WordPlace::Handle),
            (Form::Is("setseq"), WordPlace::SequencerHandle),
            (Form::Is("checkseq"), WordPlace::Sequencer),
        ],
    ),
    (
        "the handle's number",
        false,
        &[(Form::Number, WordPlace::End)],
    ),
    (
        "the handle's number",
        false,
        &[(Form::Number, WordPlace::SetContent)],
    ),
    (
        "a content: hexadecimal in lower case, - for an empty one, or fill:N:HH",
        false,
        &[(Form::Content, WordPlace::Generation)],
    ),
    (
        "the generation that it has to have, a number, or nothing",
        true,
        &[(Form::Number, WordPlace::End)],
    ),
    (
        "the handle's number",
        false,
        &[(Form::Number, WordPlace::AclRead)],
    ),
    (
        "the ACL to read by",
        false,
        &[(Form::Any, WordPlace::AclWrite)],
    ),
    (
        "the ACL to write by",
        false,
        &[(Form::Any, WordPlace::AclChange)],
    ),
    (
        "the ACL to change ACLs by",
        false,
        &[(Form::Any, WordPlace::Generation)],
    ),
    (
        "the handle's number",
        false,
        &[(Form::Number, WordPlace::LockMode)],
    ),
    (
        "how the lock is held: x or s",
        false,
        &[
            (Form::Is("x"), WordPlace::End),
            (Form::Is("s"), WordPlace::End),
        ],
    ),
    (
        "the handle's number",
        false,
        &[(Form::Number, WordPlace::Sequencer)],
    ),
    (
        "a sequencer, hexadecimal in lower case",
        false,
        &[(Form::Bytes, WordPlace::End)],
    ),
    ("a name", false, &[(Form::Any, WordPlace::Mode)]),
    (
        "a mode: some letters of rwc, in this order",
        false,
        &[(Form::Mode, WordPlace::Making)],
    ),
    (
        "may, must, delay, events or nothing",
        true,
        &[
            (Form::Is("may"), WordPlace::Kind),
            (Form::Is("must"), WordPlace::Kind),
            (Form::Is("delay"), WordPlace::Delay),
            (Form::Is("events"), WordPlace::Events),
        ],
    ),
    (
        "file or dir",
        false,
        &[
            (Form::Is("file"), WordPlace::FileLife),
            (Form::Is("dir"), WordPlace::DirectoryLife),
        ],
    ),
    (
        "permanent or ephemeral",
        false,
        &[
            (Form::Is("permanent"), WordPlace::FirstContent),
            (Form::Is("ephemeral"), WordPlace::FirstContent),
        ],
    ),
    (
        "a content: hexadecimal in lower case, - for an empty one, or fill:N:HH",
        false,
        &[(Form::Content, WordPlace::Acl)],
    ),
    (
        "permanent or ephemeral",
        false,
        &[
            (Form::Is("permanent"), WordPlace::Acl),
            (Form::Is("ephemeral"), WordPlace::Acl),
        ],
    ),
    (
        "acl, delay, events or nothing",
        true,
        &[
            (Form::Is("acl"), WordPlace::NewRead),
            (Form::Is("delay"), WordPlace::Delay),
            (Form::Is("events"), WordPlace::Events),
        ],
    ),
    (
        "the ACL to read by",
        false,
        &[(Form::Any, WordPlace::NewWrite)],
    ),
    (
        "the ACL to write by",
        false,
        &[(Form::Any, WordPlace::NewChange)],
    ),
    (
        "the ACL to change ACLs by",
        false,
        &[(Form::Any, WordPlace::Options)],
    ),
    (
        "delay, events or nothing",
        true,
        &[
            (Form::Is("delay"), WordPlace::Delay),
            (Form::Is("events"), WordPlace::Events),
        ],
    ),
    (
        "the lock-delay, a number of milliseconds",
        false,
        &[(Form::Number, WordPlace::AfterDelay)],
    ),
    (
        "events or nothing",
        true,
        &[(Form::Is("events"), WordPlace::Events)],
    ),
    (
        "events: some letters of mdlx, in this order",
        false,
        &[(Form::Events, WordPlace::End)],
    ),
    ("nothing", true, &[]),
];

// After the last word of a line.
const LAST: PlaceWords = ("nothing", true, &[]);

fn entry(place: WordPlace) -> PlaceWords {
    match ENTRIES.get(place as usize) {
        Some(found) => *found,
        None => LAST,
    }
}

/// Where a line leaves the grammar.
#[derive(Clone, Copy)]
pub(crate) struct Astray<'a> {
    /// The character of the line at which the word begins, counted from 1.
    pub(crate) column: u64,
    /// The word; none where the line ends too early.
    pub(crate) word: Option<&'a str>,
    /// What may stand there.
    pub(crate) wanted: &'static str,
    /// A word that may stand there, and is much like it.
    pub(crate) nearest: Option<&'static str>,
}

/// Where a line that isn't blank leaves the grammar; nothing where it doesn't.
pub(crate) fn where_astray(alloc: Global, line: &str) -> Option<Astray<'_>> {
    let mut place = WordPlace::Step;
    let mut column = 1u64;
    for word in line.split(' ') {
        let (wanted, _, ways) = entry(place);
        match next_of(alloc, ways, word) {
            Some(next) => place = next,
            None => {
                return Some(Astray {
                    column,
                    word: Some(word),
                    wanted,
                    nearest: nearest(alloc, ways, word),
                });
            }
        }
        column = behind(column, word);
    }
    ended(place, column)
}

// A line that ends at a place.
fn ended(place: WordPlace, column: u64) -> Option<Astray<'static>> {
    let (wanted, may_end, _) = entry(place);
    if may_end {
        return None;
    }
    Some(Astray {
        column,
        word: None,
        wanted,
        nearest: None,
    })
}

// The column after a word and the space after it.
fn behind(column: u64, word: &str) -> u64 {
    let length = word.chars().count() as u64;
    column.saturating_add(length).saturating_add(1)
}

// The place after a word, where it may stand.
fn next_of(alloc: Global, ways: &[(Form, WordPlace)], word: &str) -> Option<WordPlace> {
    if word.is_empty() {
        return None;
    }
    for (form, next) in ways {
        if has_form(alloc, *form, word) {
            return Some(*next);
        }
    }
    None
}

fn has_form(alloc: Global, form: Form, word: &str) -> bool {
    match form {
        Form::Is(wanted) => word == wanted,
        Form::Number => number(word).is_some(),
        Form::Client => is_client(word),
        Form::Tick => is_tick(word),
        Form::Mode => mode(word).is_some(),
        Form::Events => events(word).is_some(),
        Form::Content => is_content(alloc, word),
        Form::Bytes => is_bytes(alloc, word),
        Form::Any => true,
    }
}

fn is_client(word: &str) -> bool {
    match number(word) {
        Some(client) => client > 0 && client < CLIENT_LIMIT,
        None => false,
    }
}

fn is_tick(word: &str) -> bool {
    match word.split_once(':') {
        Some((client, tick)) => number(client).is_some() && number(tick).is_some(),
        None => false,
    }
}

// Where there is no memory to tell, it is taken for one.
fn is_content(alloc: Global, word: &str) -> bool {
    match content(alloc, word) {
        Ok(found) => found.is_some(),
        Err(_) => true,
    }
}

fn is_bytes(alloc: Global, word: &str) -> bool {
    if word == "-" || word.starts_with("fill:") {
        return false;
    }
    is_content(alloc, word)
}

// The word that may stand there and is nearest to this one, the first of several.
fn nearest(alloc: Global, ways: &[(Form, WordPlace)], word: &str) -> Option<&'static str> {
    let mut best = None;
    let mut least = NEAR_DISTANCE + 1;
    for (form, _) in ways {
        if let Form::Is(wanted) = *form {
            let apart = distance(alloc, wanted, word);
            if apart < least {
                best = Some(wanted);
                least = apart;
            }
        }
    }
    best
}

// How many characters differ; too many where the word is long, or all of them differ.
fn distance(alloc: Global, wanted: &str, word: &str) -> usize {
    let far = NEAR_DISTANCE + 1;
    if word.len() > NEAR_LENGTH {
        return far;
    }
    match levenshtein(alloc, wanted, word) {
        Ok(distance) if distance < wanted.len() => distance,
        _ => far,
    }
}
