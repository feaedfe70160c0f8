//! Records of any type by their codes in hex.

use crate::sample::Sample;
use crate::words::{NotationError, hex_bytes, number, short};
use std::alloc::{AllocError, Global};

fn add_shorts(bytes: &mut Vec<u8>, words: &[&str]) -> Result<(), NotationError> {
    for word in words {
        bytes.extend_from_slice(&short(word)?.to_be_bytes())?;
    }
    Ok(())
}

fn add_longs(bytes: &mut Vec<u8>, words: &[&str]) -> Result<(), NotationError> {
    for word in words {
        bytes.extend_from_slice(&number(word)?.to_be_bytes())?;
    }
    Ok(())
}

fn add_text(bytes: &mut Vec<u8>, words: &[&str]) -> Result<(), NotationError> {
    for word in words {
        bytes.extend_from_slice(word.as_bytes())?;
    }
    if bytes.len() % 2 == 1 {
        bytes.push(0).map_err(AllocError::from)?;
    }
    Ok(())
}

/// The data of a record of a data type.
fn data(alloc: Global, data_type: u8, words: &[&str]) -> Result<Vec<u8>, NotationError> {
    if let [word] = words {
        if let Some(digits) = word.strip_prefix('=') {
            return hex_bytes(alloc, digits);
        }
    }
    let mut bytes = Vec::new(alloc);
    match data_type {
        2 => add_shorts(&mut bytes, words)?,
        3 => add_longs(&mut bytes, words)?,
        6 => add_text(&mut bytes, words)?,
        _ => {
            if let [word] = words {
                return hex_bytes(alloc, word);
            }
        }
    }
    Ok(bytes)
}

/// A record by its type and data type in hex.
pub fn add_record(
    text: &mut Sample,
    alloc: Global,
    code: &str,
    words: &[&str],
) -> Result<(), NotationError> {
    let code = hex_bytes(alloc, code)?;
    let [kind, data_type] = code.as_slice() else {
        return Err(NotationError::Notation);
    };
    Ok(text.record(*kind, *data_type, &data(alloc, *data_type, words)?)?)
}
