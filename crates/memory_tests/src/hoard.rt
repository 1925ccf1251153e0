//! All memory that a process can have, but for what is left to a call.
use std::alloc::{AllocError, Global};
use std::mem;

/// So often a call may be refused before it is done.
pub(crate) const TURN_END: u64 = 20_000;

// So many bytes more are left to a call in each turn: blocks differ in size by no less.
const GRAIN: usize = 16;

// The most blocks that are kept.
const BLOCK_LIMIT: usize = 100_000;

// The size of the first block that is asked for, in bytes: more than a process can have.
const GREATEST: usize = 0x4000_0000_0000;

// The smallest size, in bytes, of the blocks that are kept from first to last.
const GIANT: usize = 4096;

// What is left to all that isn't tried, in bytes.
const PURSE: usize = 0x100_0000;

// So many bytes more than are left to a call are kept for it in one piece, and then taken, so that what is left is the rest of
// a block that lies behind no list of small ones.
const PLUG: usize = 8192;

// Blocks of this size and less have lists of their own, one for each grain.
const SMALL: usize = 2048;

/// Blocks of memory that a call can't have. A new one has none, and refuses nothing.
#[derive(Drop)]
pub(crate) struct Hoard {
    alloc: Global,
    is_idle: bool,
    giants: Vec<Vec<u8>>,
    crumbs: Vec<Vec<u8>>,
    plug: Vec<u8>,
    // How many calls were refused.
    refused: u64,
}

impl Hoard {
    pub(crate) fn new(alloc: Global) -> Hoard {
        Hoard {
            alloc,
            is_idle: true,
            giants: Vec::new(alloc),
            crumbs: Vec::new(alloc),
            plug: Vec::new(alloc),
            refused: 0,
        }
    }

    /// Takes all memory but for the purse.
    pub(crate) fn fill(&mut self) -> Result<(), AllocError> {
        self.giants.reserve(BLOCK_LIMIT)?;
        self.crumbs.reserve(BLOCK_LIMIT)?;
        let purse = bytes(self.alloc, PURSE)?;
        take_all(self.alloc, &mut self.giants, GREATEST, GIANT);
        drop(purse);
        self.is_idle = false;
        Ok(())
    }

    /// Leaves a call nothing in its turn 0, and a little more in each later one.
    pub(crate) fn leave(&mut self, turn: u64) {
        if self.is_idle {
            return;
        }
        if turn == 1 {
            self.refused = self.refused.saturating_add(1);
        }
        let room = (turn as usize).saturating_mul(GRAIN);
        let Ok(reserve) = bytes(self.alloc, PLUG.saturating_add(room)) else {
            return;
        };
        take_all(self.alloc, &mut self.crumbs, PURSE, GRAIN);
        drop(reserve);
        if let Ok(plug) = bytes(self.alloc, PLUG - GRAIN) {
            self.plug = plug;
        }
    }

    /// Gives the purse back.
    pub(crate) fn relax(&mut self) {
        self.crumbs.clear();
        self.plug = Vec::new(self.alloc);
    }

    /// Says how many calls were refused (`write_count`). From here on they are counted anew.
    pub(crate) fn write_refused(
        &mut self,
        text: &mut String,
        what: &str,
        least: u64,
    ) -> Result<(), AllocError> {
        let count = mem::replace(&mut self.refused, 0);
        self.write_count(text, what, count, least)
    }

    /// Says that something was refused so often at least, or how often it was. Where nothing is refused, what is said where it is.
    pub(crate) fn write_count(
        &self,
        text: &mut String,
        what: &str,
        count: u64,
        least: u64,
    ) -> Result<(), AllocError> {
        if self.is_idle || count >= least {
            write!(text, "{what} refused: {least} or more\n")
        } else {
            write!(text, "{what} refused: {count}\n")
        }
    }
}

fn bytes(alloc: Global, size: usize) -> Result<Vec<u8>, AllocError> {
    Vec::with_capacity(alloc, size)
}

// Takes blocks of each size until one is refused, from the greatest to the smallest: each size half of the one before, and a grain
// less where they are small.
fn take_all(alloc: Global, blocks: &mut Vec<Vec<u8>>, greatest: usize, smallest: usize) {
    let mut size = greatest;
    for _ in 0..256u32 {
        if size < smallest {
            return;
        }
        take_size(alloc, blocks, size);
        size = if size > SMALL {
            size / 2
        } else {
            size.saturating_sub(GRAIN)
        };
    }
}

fn take_size(alloc: Global, blocks: &mut Vec<Vec<u8>>, size: usize) {
    for _ in 0..BLOCK_LIMIT {
        if blocks.len() == blocks.capacity() {
            return;
        }
        let Ok(block) = bytes(alloc, size) else {
            return;
        };
        let _ = blocks.push(block);
    }
}
