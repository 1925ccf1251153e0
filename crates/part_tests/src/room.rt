//! Limits, and what they leave room for.
use node_core::{Fault, room_fault};
use std::test::Fail;

// A limit; how much there is, None more than a number of the program; how much more; and whether that is refused.
const ROWS: &[(Option<u64>, Option<u64>, u64, bool)] = &[
    (None, Some(9), 9, false),
    (None, None, 9, false),
    (Some(10), Some(9), 1, false),
    (Some(10), Some(9), 2, true),
    (Some(10), Some(10), 0, false),
    (Some(10), Some(11), 0, false),
    (Some(10), Some(11), 1, true),
    (Some(10), None, 0, false),
    (Some(10), None, 1, true),
    (Some(0), Some(0), 1, true),
    (Some(u64::MAX), Some(0), u64::MAX, false),
    (Some(u64::MAX), Some(u64::MAX), 1, true),
    (Some(u64::MAX), None, 1, true),
];

#[test]
fn limits_with_room_and_without(rt: HostRuntime) -> Result<(), Fail> {
    for (at, (limit, held, growth, is_refused)) in ROWS.iter().enumerate() {
        let want = match limit {
            Some(limit) if *is_refused => Some(Fault::NoRoom(*limit)),
            _ => None,
        };
        assert!(rt; room_fault(*limit, *held, *growth) == want, "at row {at}");
    }
    Ok(())
}
