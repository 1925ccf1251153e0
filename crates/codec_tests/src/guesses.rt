//! Messages made at random, field by field, as bytes that are then read: with numbers at their limits, with numbers around the
//! right ones, and right.
use crate::dice::Dice;
use crate::sheets::Sheet;
use crate::stages::Stage;
use crate::stops::Stop;
use codec::VERSION;
use std::alloc::Global;
use tags_cell::{CallResult, HandleBytes, Out};
use world_steps::Message;

const LAST: u64 = 0x7fff_ffff_ffff_ffff;

const LAST_CLIENT: u64 = 0x1f_ffff_ffff_ffff;

// How a number lies to one that is known.
#[derive(Clone, Copy)]
enum Near {
    // That number.
    Same,
    // Mostly that number.
    Present,
    // That of what comes next, or near to it.
    Next,
    // That of what is answered, or near to it.
    Answered,
    // A count, one around it, or an end.
    Around,
}

// What numbers are known of: the places of `Known`.
const CLIENT: usize = 0;

const EPOCH: usize = 1;

const BEATS: usize = 2;

const CALLS: usize = 3;

const CALLED: usize = 4;

const TOLD: usize = 5;

const ONE: usize = 6;

// A client, the epoch, its newest Beat and call, how many invalidations and events it was issued or has processed, and 1.
type Known = [u64; 7];

// A field of a message, or several.
#[derive(Clone, Copy)]
enum Field {
    // These bytes.
    Bytes(&'static [u8]),
    // One of these.
    One(&'static [&'static [u8]]),
    // One of these numbers.
    Word(&'static [u64]),
    // A number by one that is known.
    Number(Near, usize),
    // Up to three numbers by one that is known, behind each of them one of these.
    List(usize, &'static [&'static [u8]]),
    // The bytes of a handle that was given, or spoilt.
    Handle,
    // Those of a sequencer, or spoilt.
    Sequencer,
    // A content: short, or one byte too long.
    Content,
}

type Fields = &'static [Field];

// The first fields of a message, those of which some follow, and those of which some are the last.
type Shape = (Fields, &'static [Fields], &'static [Fields]);

const REQUESTS: &[Shape] = &[START, BEAT, BEAT, CALL, CALL, CALL, CALL, CALL];

const START: Shape = (
    &[
        Field::Bytes(&[VERSION, 0]),
        Field::Word(&[1, 2, 3, 4]),
        Field::Number(Near::Next, ONE),
        Field::One(&[b"\0\0\0\x03ann", b"\0\0\0\x03ann", b"\0\0\0\x03bob"]),
    ],
    &[],
    &[],
);

const BEAT: Shape = (
    &[
        Field::Bytes(&[VERSION, 1]),
        Field::Number(Near::Same, CLIENT),
        Field::Number(Near::Present, EPOCH),
        Field::Number(Near::Next, BEATS),
        Field::Number(Near::Around, CALLED),
        Field::Number(Near::Around, TOLD),
    ],
    &[],
    &[],
);

const CALL: Shape = (
    &[
        Field::Bytes(&[VERSION, 2]),
        Field::Number(Near::Same, CLIENT),
        Field::Number(Near::Present, EPOCH),
        Field::Number(Near::Next, CALLS),
    ],
    &[
        READ,
        READ,
        READ,
        ON_HANDLE,
        ON_HANDLE,
        ON_HANDLE,
        ON_HANDLE,
        ON_HANDLE,
        ON_HANDLE,
        LOCK,
        LOCK,
        SET_ACL,
        SET_ACL_AT,
        CHECK,
        SET,
        SET_AT,
        SET_AT,
        OPEN,
        OPEN,
        OPEN_FILE,
        OPEN_DIRECTORY,
    ],
    &[
        NONE,
        NONE,
        NONE,
        NONE,
        NONE,
        NONE,
        NONE,
        &[Field::Bytes(&[1]), Field::Sequencer],
    ],
);

const NONE: Fields = &[Field::Bytes(&[0])];

const READ: Fields = &[Field::Bytes(&[2]), Field::Handle];

// Close, Stat, List, Delete, Release, GetSequencer, SetSequencer.
const ON_HANDLE: Fields = &[
    Field::One(&[&[1], &[3], &[4], &[7], &[10], &[11], &[12]]),
    Field::Handle,
];

const LOCK: Fields = &[
    Field::One(&[&[8], &[9]]),
    Field::Handle,
    Field::One(&[&[0], &[1]]),
];

const SET_ACL: Fields = &[
    Field::Bytes(&[6]),
    Field::Handle,
    ACL,
    ACL,
    ACL,
    Field::Bytes(&[0]),
];

const SET_ACL_AT: Fields = &[
    Field::Bytes(&[6]),
    Field::Handle,
    ACL,
    ACL,
    ACL,
    Field::Bytes(&[1]),
    Field::Number(Near::Around, ONE),
];

const ACL: Field = Field::One(&[
    b"\0\0\0\x04base",
    b"\0\0\0\x04base",
    b"\0\0\0\x04base",
    b"\0\0\0\x03foo",
]);

const CHECK: Fields = &[Field::Bytes(&[13]), Field::Sequencer];

const SET: Fields = &[
    Field::Bytes(&[5]),
    Field::Handle,
    Field::Content,
    Field::Bytes(&[0]),
];

const SET_AT: Fields = &[
    Field::Bytes(&[5]),
    Field::Handle,
    Field::Content,
    Field::Bytes(&[1]),
    Field::Number(Near::Around, ONE),
];

const OPEN: Fields = &[
    Field::Bytes(&[0]),
    NAME,
    MODE,
    Field::Bytes(&[0]),
    DELAY,
    EVENTS,
];

const OPEN_FILE: Fields = &[
    Field::Bytes(&[0]),
    NAME,
    MODE,
    Field::One(&[&[1, 0, 0], &[1, 1, 0]]),
    Field::Content,
    Field::One(&[&[0, 0], &[0, 0], &[1, 0]]),
    DELAY,
    EVENTS,
];

const OPEN_DIRECTORY: Fields = &[
    Field::Bytes(&[0]),
    NAME,
    MODE,
    Field::One(&[&[1, 0, 1], &[1, 1, 1]]),
    Field::One(&[&[0, 0], &[0, 0], &[1, 0]]),
    DELAY,
    EVENTS,
];

// One of another cell among them.
const NAMES: &[&[u8]] = &[
    b"\0\0\0\x05/ls/c",
    b"\0\0\0\x09/ls/c/acl",
    b"\0\0\0\x0e/ls/c/acl/base",
    b"\0\0\0\x07/ls/c/d",
    b"\0\0\0\x09/ls/c/d/x",
    b"\0\0\0\x07/ls/c/f",
    b"\0\0\0\x07/ls/c/g",
    b"\0\0\0\x07/ls/d/x",
];

const NAME: Field = Field::One(NAMES);

const MODE: Field = Field::One(&[&[1], &[2], &[3], &[3], &[4], &[5], &[6], &[7]]);

const DELAY: Field = Field::Word(&[0, 0, 60_000, 60_001, u64::MAX]);

const EVENTS: Field = Field::One(&[&[0], &[0], &[1], &[2], &[4], &[8], &[7], &[14], &[15]]);

const OUTS: &[Shape] = &[
    STARTED, REFUSED, REFUSED, REPLY, REPLY, ALIVE, ALIVE, ALIVE, ALIVE, ALIVE,
];

const STARTED: Shape = (
    &[
        Field::Bytes(&[VERSION, 0]),
        Field::Number(Near::Same, CLIENT),
        Field::Number(Near::Present, EPOCH),
        Field::Number(Near::Answered, BEATS),
        SPAN,
    ],
    &[],
    &[],
);

const SPAN: Field = Field::Word(&[
    12_000,
    12_000,
    12_000,
    0,
    0x1f_ffff_ffff_ffff,
    0x20_0000_0000_0000,
    u64::MAX,
]);

const ALIVE: Shape = (
    &[
        Field::Bytes(&[VERSION, 1]),
        Field::Number(Near::Same, CLIENT),
        Field::Number(Near::Present, EPOCH),
        Field::Number(Near::Answered, BEATS),
        SPAN,
        Field::List(CALLED, NAMES),
        Field::List(TOLD, TELLINGS),
    ],
    &[],
    &[],
);

// A fail-over, a new content, a child, a lock.
const TELLINGS: &[&[u8]] = &[
    b"\0",
    b"\x01\0\0\0\0\0\0\0\x01\0\0\0\0\0\0\0\x04\0\0\0\0\0\0\0\x02",
    b"\x02\0\0\0\0\0\0\0\x01\0\0\0\x07/ls/c/g",
    b"\x06\0\0\0\0\0\0\0\x01",
];

const REPLY: Shape = (
    &[
        Field::Bytes(&[VERSION, 2]),
        Field::Number(Near::Same, CLIENT),
        Field::Number(Near::Present, EPOCH),
        Field::Number(Near::Answered, CALLS),
    ],
    &[
        NONE,
        &[Field::Bytes(&[1]), Field::Number(Near::Around, CALLED)],
    ],
    &[
        OPENED,
        // Closed, done.
        &[Field::One(&[&[1], &[6]])],
        VIEWED,
        LISTED,
        &[Field::Bytes(&[5]), Field::Sequencer],
        // Refused as NotFound.
        &[Field::Bytes(&[7, 5])],
    ],
);

const OPENED: Fields = &[
    Field::Bytes(&[0]),
    Field::Handle,
    INSTANCE,
    Field::Bytes(&[0]),
];

// A file, its ACLs `base`.
const VIEWED: Fields = &[
    Field::Bytes(&[2, 0]),
    INSTANCE,
    Field::Number(Near::Around, ONE),
    Field::Bytes(b"\0\0\0\0\0\0\0\x01\0\0\0\x04base\0\0\0\x04base\0\0\0\x04base\0"),
    Field::Content,
    Field::Bytes(&[0, 0, 0, 0]),
];

// A directory by a ReadDir, with two children and with none; and a file.
const LISTED: Fields = &[
    Field::One(&[&[4, 1], &[4, 1], &[4, 1], &[4, 0]]),
    INSTANCE,
    Field::Number(Near::Around, ONE),
    Field::Bytes(b"\0\0\0\0\0\0\0\x01\0\0\0\x04base\0\0\0\x04base\0\0\0\x04base\0\0\0\0\0"),
    Field::One(&[b"\0\0\0\0", b"\0\0\0\x02\0\0\0\x03acl\0\0\0\x01f"]),
];

const INSTANCE: Field = Field::Word(&[3, 4, 5]);

const REFUSED: Shape = (
    &[
        Field::Bytes(&[VERSION, 3]),
        Field::Number(Near::Same, CLIENT),
        Field::Number(Near::Present, EPOCH),
        Field::Number(Near::Answered, CALLS),
    ],
    &[
        REFUSAL,
        REFUSAL,
        // OldEpoch.
        &[Field::Bytes(&[27]), Field::Number(Near::Present, EPOCH)],
    ],
    &[],
);

// NoSession now and then, Repeat, CallOutstanding, BadAck.
const REFUSAL: Fields = &[Field::One(&[
    &[18],
    &[20],
    &[20],
    &[20],
    &[20],
    &[20],
    &[20],
    &[32],
    &[32],
    &[32],
    &[32],
    &[32],
    &[32],
    &[19, 0, 0, 0, 0, 0, 0, 0, 0],
    &[19, 0, 0, 0, 0, 0, 0, 0, 0],
    &[19, 0, 0, 0, 0, 0, 0, 0, 0],
    &[19, 0, 0, 0, 0, 0, 0, 0, 0],
    &[19, 0, 0, 0, 0, 0, 0, 0, 0],
    &[19, 0, 0, 0, 0, 0, 0, 0, 0],
])];

// Of an exclusive lock on /ls/c/f.
const SEQUENCER: &[u8] = b"\x01\x01\0\0\0\0\0\0\0\x04\0\0\0\0\0\0\0\x01\0\x07/ls/c/f";

// How long contents are; one is a byte too long.
const CONTENTS: &[u64] = &[
    0, 0, 0, 0, 0, 0, 0, 0, 0, 0, 0, 0, 0, 0, 0, 0, 0, 0, 0, 0, 1, 1, 1, 1, 1, 1, 1, 1, 1, 1, 1, 1,
    1, 1, 1, 1, 1, 1, 1, 1, 2, 2, 2, 2, 2, 2, 2, 2, 2, 2, 2, 2, 2, 2, 2, 2, 2, 2, 2, 2, 262_145,
];

// Whose messages come to a master, and who is given some.
const ANYBODY: &[u64] = &[1, 1, 1, 2, 2, 2, 3, 4, LAST_CLIENT];

const JOINED: &[u64] = &[1, 2];

// What a master knows of a client.
fn known_to_master(stage: &Stage, client: u64) -> Known {
    let epoch = stage.cast.cell.epoch();
    let Some(session) = stage.cast.cell.master().sessions().get(client) else {
        return [client, epoch, 0, 0, 0, 0, 1];
    };
    let call = match &session.kept {
        Some(kept) => kept.number.get(),
        None => 0,
    };
    let events = match &session.events {
        Some(events) => events.count(),
        None => 0,
    };
    let invalidations = session.invalidations.issued;
    [
        client,
        epoch,
        session.newest_beat,
        call,
        invalidations,
        events,
        1,
    ]
}

// What a client has sent and processed.
fn known_to_client(stage: &Stage, client: u64) -> Known {
    let place = client.saturating_sub(1) as usize;
    let Some(client_there) = stage.cast.clients.get(place) else {
        return [client, 0, 0, 0, 0, 0, 1];
    };
    let seen = client_there.seen();
    [
        client,
        seen.epoch,
        seen.beats,
        seen.calls,
        seen.processed,
        seen.heard,
        1,
    ]
}

/// What messages are made of.
#[derive(Drop)]
pub(crate) struct Guesser {
    pub(crate) dice: Dice,
    /// The bytes that were written.
    pub(crate) sheet: Sheet,
    known: Known,
    // The bytes of the handles that were given.
    handles: Vec<HandleBytes>,
}

impl Guesser {
    pub(crate) fn new(alloc: Global, seed: u64) -> Guesser {
        Guesser {
            dice: Dice::new(seed),
            sheet: Sheet::new(alloc),
            known: [0; 7],
            handles: Vec::new(alloc),
        }
    }

    /// Knows the handles that were given on a stage.
    pub(crate) fn learn(&mut self, stage: &Stage) -> Result<(), Stop> {
        self.handles.clear();
        for message in &stage.sent {
            if let Message::ToClient(Out::Reply(reply)) = message {
                if let CallResult::Opened(handle) = &reply.result {
                    self.handles.push(handle.bytes.clone()?)?;
                }
            }
        }
        Ok(())
    }

    // A number by one that is known, mostly in order.
    fn number(&mut self, near: Near, place: usize) -> u64 {
        let known = self.known.get(place).copied().unwrap_or(0);
        let least = known.max(1);
        let less = known.saturating_sub(1);
        let next = known.saturating_add(1);
        let later = known.saturating_add(2);
        let rare = self.dice.below(40);
        match near {
            Near::Same => known,
            Near::Next if rare == 0 => LAST,
            Near::Next => self.dice.of(&[next, next, next, least, least, 1, later]),
            Near::Answered => self
                .dice
                .of(&[least, least, least, least, less.max(1), next]),
            Near::Present if rare >= 10 => known,
            Near::Present | Near::Around => {
                self.dice
                    .of(&[known, known, known, less, next, 0, LAST, u64::MAX])
            }
        }
    }

    // Numbers from the next one on, or from another; behind each of them one of these.
    fn list(&mut self, place: usize, behind: &[&[u8]]) {
        let known = self.known.get(place).copied().unwrap_or(0);
        let next = known.saturating_add(1);
        let later = known.saturating_add(2);
        let mut number = self
            .dice
            .of(&[next, next, next, known, 1, later, 0, u64::MAX]);
        let step = self.dice.of(&[1, 1, 1, 1, 0, 2]);
        let count = self.dice.below(4);
        self.sheet.count(count as usize);
        for _ in 0..count {
            self.sheet.word(number);
            self.one_of(behind);
            number = number.saturating_add(step);
        }
    }

    fn one_of(&mut self, all: &[&[u8]]) {
        let place = self.dice.below(all.len() as u64) as usize;
        self.sheet.bytes(all.get(place).copied().unwrap_or(&[]));
    }

    fn handle(&mut self) {
        let how = self.dice.below(8);
        let place = self.dice.below(self.handles.len() as u64) as usize;
        let at = self.dice.below(50) as usize;
        match self.handles.get(place) {
            Some(handle) => self.sheet.spoilt(handle.as_slice(), how, at),
            None => self.sheet.count(0),
        }
    }

    fn field(&mut self, field: Field) {
        match field {
            Field::Bytes(bytes) => self.sheet.bytes(bytes),
            Field::One(all) => self.one_of(all),
            Field::Word(words) => {
                let word = self.dice.of(words);
                self.sheet.word(word);
            }
            Field::Number(near, place) => {
                let number = self.number(near, place);
                self.sheet.word(number);
            }
            Field::List(place, behind) => self.list(place, behind),
            Field::Handle => self.handle(),
            Field::Sequencer => {
                let how = self.dice.below(6);
                let at = self.dice.below(SEQUENCER.len() as u64) as usize;
                self.sheet.spoilt(SEQUENCER, how, at);
            }
            Field::Content => {
                let count = self.dice.of(CONTENTS) as usize;
                self.sheet.fill(97, count);
            }
        }
    }

    fn fields(&mut self, fields: &[Field]) {
        for field in fields {
            self.field(*field);
        }
    }

    // One of these that may follow, if there are any.
    fn one_more(&mut self, all: &[Fields]) {
        let place = self.dice.below(all.len() as u64) as usize;
        self.fields(all.get(place).copied().unwrap_or(&[]));
    }

    // The bytes of a message of one of these shapes.
    fn shape(&mut self, shapes: &[Shape]) {
        self.sheet.clear();
        let place = self.dice.below(shapes.len() as u64) as usize;
        if let Some((head, between, tail)) = shapes.get(place) {
            self.fields(head);
            self.one_more(between);
            self.one_more(tail);
        }
    }

    /// Writes the bytes of a message. Whether it is one for the master.
    pub(crate) fn guess(&mut self, stage: &Stage) -> bool {
        let is_to_master = self.dice.below(2) == 0;
        if is_to_master {
            let client = self.dice.of(ANYBODY);
            self.known = known_to_master(stage, client);
            self.shape(REQUESTS);
        } else {
            let client = self.dice.of(JOINED);
            self.known = known_to_client(stage, client);
            self.shape(OUTS);
        }
        is_to_master
    }
}
