//! Bytes that are cut or changed at random.
use crate::dice::Dice;
use std::alloc::{AllocError, Global};

/// A copy with one byte changed or none, and cut or not.
pub(crate) fn garbled(alloc: Global, bytes: &[u8], dice: &mut Dice) -> Result<Vec<u8>, AllocError> {
    let mut copy = Vec::from_slice(alloc, bytes)?;
    let place = dice.below(192) as usize;
    let change = (dice.below(256) & 0xff) as u8;
    if let Some(byte) = copy.get_mut(place) {
        *byte ^= change;
    }
    if dice.below(3) == 0 {
        copy.truncate(dice.below(128) as usize);
    }
    Ok(copy)
}
