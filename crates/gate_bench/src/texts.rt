//! Reads many texts, and prints on one line what reading each gives: for `bench/fuzz.py`, which compares that with the model.
//!
//! A line before each text says what it is, and how many bytes it has:
//! - `library N END ..` is read whole, and then each of its fronts that ends before byte END;
//! - `deck N` is read as a deck;
//! - `request N` is read as the input of a connection, of which one line with its payload is taken.
//!
//! Of a library or a deck it prints the numbers of its parts, and the sum of everything in it, in order (`sum.rt`). Of a request it prints
//! the stored line. If the text can't be read, it prints the first fault with its place.

mod decks;
mod input;
mod libraries;
mod requests;
mod sum;

use crate::texts::input::Input;
use anyhow::{Context, Result, bail};
use mpw_text::{parts, read_count};

/// The greatest number of bytes that a line may give.
const MOST_BYTES: usize = 1 << 32;

/// The number of a word.
fn count(word: &[u8]) -> Result<usize> {
    Ok(read_count(word, 0, MOST_BYTES).context("a number of bytes")?)
}

/// Reads the text after a line, and prints what that gives.
fn answer(rt: &HostRuntime, line: &[u8], input: &mut Input<'_>) -> Result<()> {
    let words = parts(rt.alloc(), line, b' ')?;
    let [kind, length, ends @ ..] = words.as_slice() else {
        bail!("a kind and a number of bytes");
    };
    let bytes = input.take(count(length)?).context("as many bytes")?;
    match str::from_utf8(kind) {
        Ok("library") => {
            libraries::report(rt, bytes)?;
            for end in ends {
                libraries::report_front(rt, bytes.get(..count(end)?).context("a front")?)?;
            }
            Ok(())
        }
        Ok("deck") => decks::report(rt, bytes),
        Ok("request") => requests::report(rt, bytes),
        _ => bail!("a kind of text"),
    }
}

/// Reads the texts of the bytes in turn.
pub fn run(rt: &HostRuntime, bytes: &[u8]) -> Result<()> {
    let mut input = Input::new(bytes);
    for _ in 0..u64::MAX {
        let Some(line) = input.line() else {
            break;
        };
        answer(rt, line, &mut input)?;
    }
    Ok(())
}
