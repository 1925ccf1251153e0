//! A part of a text that is being formed.
ghost use Rattle.std.specs.Prelude.{◌≡◌, ◌++◌, ◌-◌, ◌≤◌, length, take, drop, IfSome, IfOk};

use std::fmt::{self, Display, Write};

/// How many bytes of a text stand in a part at most.
const ROOM: usize = 4096;

/// The bytes of a text behind so many others, as far as there is room.
#[derive(Drop)]
pub(crate) struct Window {
    room: [u8; ROOM],
    // How many bytes are still passed over.
    skip: usize,
    count: usize,
    ghost within: { count ≤ 4096 },
}

impl Window {
    fn new(skip: usize) -> Window
        ensures skip { result.skip ≡ skip }
        ensures count { result.count ≡ 0 }
    {
        Window {
            room: [0; ROOM],
            skip,
            count: 0,
        }
    }

    /// What stands in it.
    pub(crate) fn bytes(&self) -> &[u8]
        ensures { result.now ≡ take self.now.count self.now.room }
    {
        &self.room[..self.count]
    }

    // Keeps as many bytes as there is room for.
    fn keep(&mut self, bytes: &[u8])
        ensures skip { self.new.skip ≡ self.old.skip }
        ensures kept { take self.new.count self.new.room ≡ take 4096 (take self.old.count self.old.room ++ bytes.now) }
    {
        let count = bytes.len().min(ROOM - self.count);
        let end = self.count + count;
        self.room[self.count..end].copy_from_slice(&bytes[..count]);
        self.count = end;
    }
}

impl Write for Window {
    ghost write_str_gives = { λ w bytes v. (v.skip ≡ w.skip - length bytes) × (take v.count v.room ≡ take 4096 (take w.count w.room ++ drop w.skip bytes)) };

    fn write_str(&mut self, text: &str) -> fmt::Result {
        let bytes = text.as_bytes();
        let passed = self.skip.min(bytes.len());
        self.keep(&bytes[passed..]);
        self.skip -= passed;
        Ok(())
    }
}

/// The part of the text of a value behind so many bytes.
pub(crate) fn window_at<D: Display>(value: &D, at: usize) -> Result<Window, fmt::Error>
    ensures { IfOk result (λ window. IfSome (D.output value.now) (λ text. take window.count window.room ≡ take 4096 (drop at text))) }
{
    let mut window = Window::new(at);
    write!(window, "{value}")?;
    Ok(window)
}
