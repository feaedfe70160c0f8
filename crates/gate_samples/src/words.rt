//! The words of an item of the notation, and why a notation gives no text.

use crate::error::SampleError;
use hex::FromHexError;
use std::alloc::{AllocError, Global};
use thiserror::Error;

/// Why a notation gives no text.
#[derive(Clone, Copy, Debug, Error)]
pub enum NotationError {
    /// A word or an item isn't one of the notation.
    #[error("not in the notation of samples")]
    Notation,
    /// Memory ran out.
    #[error("out of memory")]
    Memory,
}

impl From<SampleError> for NotationError {
    fn from(error: SampleError) -> NotationError {
        match error {
            SampleError::TooLong => NotationError::Notation,
            SampleError::Memory => NotationError::Memory,
        }
    }
}

impl From<AllocError> for NotationError {
    fn from(_error: AllocError) -> NotationError {
        NotationError::Memory
    }
}

/// A coordinate or a length, -2^31 to 2^31 - 1.
pub fn number(word: &str) -> Result<i32, NotationError> {
    match word.parse::<i32>() {
        Ok(number) => Ok(number),
        Err(_) => Err(NotationError::Notation),
    }
}

/// A layer, a datatype or a count, 0 to 65535.
pub fn short(word: &str) -> Result<u16, NotationError> {
    match word.parse::<u16>() {
        Ok(number) => Ok(number),
        Err(_) => Err(NotationError::Notation),
    }
}

/// How often something is done, 0 to 2^32 - 1.
pub fn count_of(word: &str) -> Result<u32, NotationError> {
    match word.parse::<u32>() {
        Ok(number) => Ok(number),
        Err(_) => Err(NotationError::Notation),
    }
}

/// A layer and a datatype, `L/D`.
pub fn layer(word: &str) -> Result<(u16, u16), NotationError> {
    match word.split_once('/') {
        Some((layer, datatype)) => Ok((short(layer)?, short(datatype)?)),
        None => Err(NotationError::Notation),
    }
}

/// The bytes that a word spells in hex.
pub fn hex_bytes(alloc: Global, word: &str) -> Result<Vec<u8>, NotationError> {
    match hex::decode(alloc, word) {
        Ok(bytes) => Ok(bytes),
        Err(FromHexError::OutOfMemory) => Err(NotationError::Memory),
        Err(_) => Err(NotationError::Notation),
    }
}

/// Points by their coordinates in turn.
pub fn points(alloc: Global, words: &[&str]) -> Result<Vec<(i32, i32)>, NotationError> {
    let mut points = Vec::new(alloc);
    for pair in words.chunks(2) {
        let [x, y] = pair else {
            return Err(NotationError::Notation);
        };
        points
            .push((number(x)?, number(y)?))
            .map_err(AllocError::from)?;
    }
    Ok(points)
}
