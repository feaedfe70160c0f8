//! Reads the numbers that words spell.

use anyhow::{Result, bail};
use std::alloc::Global;

/// The coordinate of a word, in nm.
///
/// # Errors
/// The word is no 64-bit number.
pub fn coordinate(word: &str) -> Result<i64> {
    match word.parse::<i64>() {
        Ok(number) => Ok(number),
        Err(_) => bail!("a coordinate"),
    }
}

/// The coordinate of a word. It is 0 without a word, or if the word is no 64-bit number.
pub fn coordinate_or_zero(word: Option<&str>) -> i64 {
    match word {
        Some(word) => word.parse::<i64>().unwrap_or(0),
        None => 0,
    }
}

/// The number of a word.
///
/// # Errors
/// The word is no 32-bit number.
pub fn number(word: &str) -> Result<u32> {
    match word.parse::<u32>() {
        Ok(number) => Ok(number),
        Err(_) => bail!("a number"),
    }
}

/// The numbers of words, in order.
///
/// # Errors
/// A word is no 32-bit number, or out of memory.
pub fn numbers(alloc: Global, words: &[&str]) -> Result<Vec<u32>> {
    let mut numbers = Vec::new(alloc);
    for word in words {
        numbers.push(number(word)?)?;
    }
    Ok(numbers)
}
