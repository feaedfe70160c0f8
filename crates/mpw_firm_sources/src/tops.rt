//! The structures of a library that nothing places, which a check can be asked for.

use mpw_firm_choices::unplaced_structures;
use std::io;

/// How many of them are printed.
const MAX_TOPS: usize = 10;

/// A name without the NUL that makes its bytes even, as text.
fn text_of(name: &[u8]) -> Option<&str> {
    match name {
        [text @ .., 0] => str::from_utf8(text).ok(),
        text => str::from_utf8(text).ok(),
    }
}

/// Prints these names.
fn tell_names(rt: &HostRuntime, file: &str, names: &[&[u8]]) -> io::Result<()> {
    eprint!(rt; "note: {file}: structures that nothing places:")?;
    for name in names {
        if let Some(text) = text_of(name) {
            eprint!(rt; " {text}")?;
        }
    }
    eprintln!(rt; "")
}

/// Prints on the standard error which structures of a library nothing places, the first ten of [`unplaced_structures`].
///
/// # Errors
/// Out of memory, or the fault of the standard error.
pub fn tell_tops(rt: &HostRuntime, file: &str, text: &[u8]) -> io::Result<()> {
    let names = unplaced_structures(rt.alloc(), text, MAX_TOPS)?;
    if names.is_empty() {
        return Ok(());
    }
    tell_names(rt, file, names.as_slice())
}
