//! What runs of clients print.
use std::test::Fail;
use threads::{NoHook, live_with};

// Clients, rounds, the status and what is printed.
const RUNS: &[(u64, u64, u8, &str)] = &[
    (1, 1, 0, "balanced clients 1 rounds 1 held 0\n"),
    (8, 1_000, 0, "balanced clients 8 rounds 1000 held 0\n"),
    (65, 1, 2, ""),
    (64, 10_000, 2, ""),
];

#[test]
fn runs(rt: HostRuntime) -> Result<(), Fail> {
    for (clients, rounds, status, line) in RUNS {
        let mut printed: Vec<u8> = Vec::new(rt.alloc());
        let ended = live_with(&rt, rt.alloc(), *clients, *rounds, &NoHook, &mut printed);
        assert_eq!(&rt; ended, *status);
        assert!(&rt;
            printed.as_slice() == line.as_bytes(),
            "{clients} clients, {rounds} rounds"
        );
    }
    Ok(())
}
