//! Scripts with their replies, one after another.
//!
//! - `> TEXT` is a line of the input;
//! - `| TEXT` is text of the input, in which `\n`, `\r`, `\t`, `\0`, `\1`, `\2` and `\7` are those bytes;
//! - `x N TEXT` is such a text N times;
//! - `* N TEXT` is N lines of the input, with `#` for the numbers from 0 on and `@` for the next, each answered `OK 0`;
//! - `= NOTATION` is a library in the notation of samples;
//! - `= N NOTATION` is its first N bytes;
//! - `? N TEXT` is a line of the replies N times;
//! - `# TEXT`, and an empty line, is a comment;
//! - every other line is one of the replies.

use gate_samples::text_of_library;
use std::alloc::{AllocError, AllocFailed, Global};
use thiserror::Error;

/// Why a text is no script.
#[derive(Clone, Copy, Debug, PartialEq, Eq, Error)]
pub enum TranscriptFault {
    /// A line isn't one of a script.
    #[error("a line of a script is of no form")]
    Form,
    /// Memory ran out.
    #[error("out of memory")]
    Memory,
}

impl From<AllocError> for TranscriptFault {
    fn from(_error: AllocError) -> TranscriptFault {
        TranscriptFault::Memory
    }
}

impl<T: Drop> From<AllocFailed<T>> for TranscriptFault {
    fn from(_error: AllocFailed<T>) -> TranscriptFault {
        TranscriptFault::Memory
    }
}

/// A script and its replies.
#[derive(Drop)]
pub struct Transcript {
    /// What the desk reads.
    pub input: Vec<u8>,
    /// What it writes.
    pub replies: Vec<u8>,
}

/// A number and the text after it.
fn counted(text: &str) -> Result<(usize, &str), TranscriptFault> {
    let Some((number, rest)) = text.split_once(' ') else {
        return Err(TranscriptFault::Form);
    };
    match number.parse::<usize>() {
        Ok(number) => Ok((number, rest)),
        Err(_) => Err(TranscriptFault::Form),
    }
}

/// The byte of a letter after a backslash.
fn escaped(letter: u8) -> u8 {
    match letter {
        b'n' => b'\n',
        b'r' => b'\r',
        b't' => b'\t',
        b'0' => 0,
        b'1' => 1,
        b'2' => 2,
        b'7' => 7,
        other => other,
    }
}

/// Adds a text with its escapes.
fn push_text(bytes: &mut Vec<u8>, text: &str) -> Result<(), AllocError> {
    let mut is_escape = false;
    for byte in text.as_bytes() {
        if is_escape {
            bytes.push(escaped(*byte))?;
            is_escape = false;
        } else if *byte == b'\\' {
            is_escape = true;
        } else {
            bytes.push(*byte)?;
        }
    }
    Ok(())
}

/// Adds a line.
fn push_line(bytes: &mut Vec<u8>, line: &str) -> Result<(), TranscriptFault> {
    bytes.extend_from_slice(line.as_bytes())?;
    bytes.push(b'\n')?;
    Ok(())
}

/// Adds a text that many times.
fn push_times(bytes: &mut Vec<u8>, count: usize, text: &str) -> Result<(), TranscriptFault> {
    for _ in 0..count {
        push_text(bytes, text)?;
    }
    Ok(())
}

/// Adds a line that many times.
fn push_lines(bytes: &mut Vec<u8>, count: usize, line: &str) -> Result<(), TranscriptFault> {
    for _ in 0..count {
        push_line(bytes, line)?;
    }
    Ok(())
}

/// Adds a line with a number in it.
fn push_numbered(
    alloc: Global,
    script: &mut Transcript,
    number: usize,
    line: &str,
) -> Result<(), TranscriptFault> {
    let this = number.to_string(alloc)?;
    let next = number.saturating_add(1).to_string(alloc)?;
    for byte in line.as_bytes() {
        match *byte {
            b'#' => script.input.extend_from_slice(this.as_bytes())?,
            b'@' => script.input.extend_from_slice(next.as_bytes())?,
            other => script.input.push(other)?,
        }
    }
    script.input.push(b'\n')?;
    push_line(&mut script.replies, "OK 0")
}

/// Adds numbered lines.
fn push_all_numbered(
    alloc: Global,
    script: &mut Transcript,
    count: usize,
    line: &str,
) -> Result<(), TranscriptFault> {
    for number in 0..count {
        push_numbered(alloc, script, number, line)?;
    }
    Ok(())
}

/// Adds a library, or its first bytes.
fn push_library(alloc: Global, script: &mut Transcript, text: &str) -> Result<(), TranscriptFault> {
    let (count, notation) = counted(text).unwrap_or((usize::MAX, text));
    let Ok(bytes) = text_of_library(alloc, notation) else {
        return Err(TranscriptFault::Form);
    };
    let count = count.min(bytes.len());
    script.input.extend_from_slice(&bytes[..count])?;
    Ok(())
}

/// Adds what a line says.
fn push(alloc: Global, script: &mut Transcript, line: &str) -> Result<(), TranscriptFault> {
    let Some((kind, rest)) = line.split_once(' ') else {
        return if line.is_empty() {
            Ok(())
        } else if line == ">" {
            push_line(&mut script.input, "")
        } else {
            push_line(&mut script.replies, line)
        };
    };
    match kind {
        ">" => push_line(&mut script.input, rest),
        "|" => push_times(&mut script.input, 1, rest),
        "#" => Ok(()),
        "=" => push_library(alloc, script, rest),
        "x" => {
            let (count, text) = counted(rest)?;
            push_times(&mut script.input, count, text)
        }
        "*" => {
            let (count, text) = counted(rest)?;
            push_all_numbered(alloc, script, count, text)
        }
        "?" => {
            let (count, text) = counted(rest)?;
            push_lines(&mut script.replies, count, text)
        }
        _ => push_line(&mut script.replies, line),
    }
}

/// The script in a text.
///
/// # Errors
/// `Form` at a line of no form, `Memory` if out of memory.
pub fn read_transcript(alloc: Global, text: &str) -> Result<Transcript, TranscriptFault> {
    let mut script = Transcript {
        input: Vec::new(alloc),
        replies: Vec::new(alloc),
    };
    for line in text.lines() {
        push(alloc, &mut script, line)?;
    }
    Ok(script)
}
