//! The ends of the ranges.
use node_core::Right;
use tags_cell::{ClientNumber, MessageNumber, Mode};

#[derive(Clone, Copy)]
enum Numbers {
    Client,
    Message,
}

// The number as it is kept, or none.
fn kept(numbers: Numbers, number: u64) -> Option<u64> {
    match numbers {
        Numbers::Client => match ClientNumber::new(number) {
            Some(client) => Some(client.get()),
            None => None,
        },
        Numbers::Message => match MessageNumber::new(number) {
            Some(message) => Some(message.get()),
            None => None,
        },
    }
}

const MOST_CLIENTS: u64 = 9_007_199_254_740_991;

const MOST_MESSAGES: u64 = 9_223_372_036_854_775_807;

const NUMBERS: &[(Numbers, u64, bool)] = &[
    (Numbers::Client, 0, false),
    (Numbers::Client, 1, true),
    (Numbers::Client, MOST_CLIENTS, true),
    (Numbers::Client, MOST_CLIENTS + 1, false),
    (Numbers::Message, 0, false),
    (Numbers::Message, 1, true),
    (Numbers::Message, MOST_MESSAGES, true),
    (Numbers::Message, MOST_MESSAGES + 1, false),
];

#[test]
fn numbers_at_their_ends(rt: HostRuntime) {
    for (numbers, number, fits) in NUMBERS {
        let want = if *fits { Some(*number) } else { None };
        assert!(rt; kept(*numbers, *number) == want, "at {number}");
    }
    assert!(rt; ClientNumber::new(1) < ClientNumber::new(2));
    assert!(rt; MessageNumber::new(1) < MessageNumber::new(2));
}

// What a mode asks for, and which right is looked for; no answer where there is no such mode.
const MODES: &[([bool; 3], Right, Option<bool>)] = &[
    ([false, false, false], Right::Read, None),
    ([true, false, true], Right::Read, Some(true)),
    ([true, false, true], Right::Write, Some(false)),
    ([true, false, true], Right::Change, Some(true)),
];

fn has(asked: [bool; 3], right: Right) -> Option<bool> {
    match Mode::new(asked[0], asked[1], asked[2]) {
        Some(mode) => Some(mode.has(right)),
        None => None,
    }
}

#[test]
fn modes_ask_for_something(rt: HostRuntime) {
    for (asked, right, want) in MODES {
        assert!(rt; has(*asked, *right) == *want, "at {right}");
    }
}
