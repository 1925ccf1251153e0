//! Clients that run at once.
use std::sync::atomic::{AtomicU64, Ordering};
use std::test::Fail;
use std::thread::yield_now;
use threads::{AnswerHook, live_with};

// Who comes first waits for the other, for so many turns at most.
const TURNS: u64 = 10_000_000;

// Each client's first answer waits for the other's, and lets others run where they are to come. `late` counts those who waited
// in vain.
#[derive(Drop)]
struct Meeting {
    lets_run: bool,
    came: AtomicU64,
    late: AtomicU64,
}

impl Meeting {
    fn new(lets_run: bool) -> Meeting {
        Meeting {
            lets_run,
            came: AtomicU64::new(0),
            late: AtomicU64::new(0),
        }
    }

    fn late(&self) -> u64 {
        self.late.load(Ordering::SeqCst)
    }
}

impl AnswerHook for Meeting {
    fn answered(&self, _client: u64) {
        self.came.fetch_add(1, Ordering::SeqCst);
        for _ in 0..TURNS {
            if self.came.load(Ordering::SeqCst) >= 2 {
                return;
            }
            if self.lets_run {
                yield_now();
            }
        }
        self.late.fetch_add(1, Ordering::SeqCst);
    }
}

#[test]
fn clients_meet(rt: HostRuntime) -> Result<(), Fail> {
    let meeting = Meeting::new(true);
    let mut printed: Vec<u8> = Vec::new(rt.alloc());
    let ended = live_with(&rt, rt.alloc(), 2, 1, &meeting, &mut printed);
    assert_eq!(&rt; ended, 0);
    assert_eq!(&rt; meeting.late(), 0);
    let alone = Meeting::new(false);
    alone.answered(1);
    alone.answered(2);
    assert_eq!(&rt; alone.late(), 1);
    Ok(())
}
