//! The thread that reads a client's cache.
use lease_core::Clock;
use names_cell::Name;
use share_cell::Viewer;
use std::sync::Wait;
use std::sync::atomic::{AtomicU64, Ordering};
use std::thread::yield_now;

// The clock of a run stands at 0.
struct Still;

impl Clock for Still {
    ghost use Rattle.std.specs.Prelude.{◌≡◌};

    ghost is_reading = { λ _ moment. moment ≡ 0 };

    fn now(&self) -> u64 {
        0
    }
}

/// Asks the viewers for a name again and again, until the client has finished.
pub(crate) fn view<W: Wait>(rt: &W, name: &Name, finished: &AtomicU64, viewers: &mut [Viewer]) {
    for _ in rt.forever() {
        if finished.load(Ordering::SeqCst) != 0 {
            return;
        }
        for viewer in viewers.iter_mut() {
            let _ = viewer.hit(name, &Still);
        }
        yield_now();
    }
}
