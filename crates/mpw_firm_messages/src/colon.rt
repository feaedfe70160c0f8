//! Whether a deck's line is refused for a colon in its rule's name. `specs/Colons.antt` has what contracts say of it.
ghost use Rattle.std.specs.Prelude.{◌≡◌, ◌==◌, map, option_map, slice_get, IfOk};
ghost use Rattle.std.specs.List.{list_any};
ghost use Rattle.mpw_firm_messages.specs.Colons.{colon_in, has_colon, is_check, is_of_colon};

use mpw_deck::{DeckFault, DeckKind};
use mpw_text::{lines, parts};
use std::alloc::{AllocError, Global};

/// Whether a word begins a rule's line.
fn is_check(word: &[u8]) -> bool
    ensures { result ≡ is_check word.now }
{
    (word == "width".as_bytes())
        | (word == "space".as_bytes())
        | (word == "separation".as_bytes())
        | (word == "enclosing".as_bytes())
}

/// Whether a word has a colon.
fn is_parted(word: &[u8]) -> bool
    ensures { result ≡ list_any (λ b. b == 58) word.now }
{
    for byte in word {
        if *byte == b':' {
            return true;
        }
    }
    false
}

/// Whether these are the words of a rule whose name has a colon.
fn has_colon(words: &[&[u8]]) -> bool
    ensures { result ≡ has_colon (map (λ w. w.now) words.now) }
{
    match words {
        [word, name, ..] => is_check(word) & is_parted(name),
        _ => false,
    }
}

/// The line at a place, if there is one.
fn line_at<'a>(lines: &[&'a [u8]], at: usize) -> Option<&'a [u8]>
    ensures { option_map (λ l. l.now) result ≡ slice_get (map (λ l. l.now) lines.now) at }
{
    match lines.get(at) {
        Some(line) => Some(*line),
        None => None,
    }
}

/// The same of a line, if there is one.
fn colon_in(alloc: Global, line: Option<&[u8]>) -> Result<bool, AllocError>
    ensures { IfOk result (λ colon. colon ≡ colon_in (option_map (λ l. l.now) line.entry)) }
{
    match line {
        Some(line) => {
            let words = parts(alloc, line, b' ')?;
            Ok(has_colon(words.as_slice()))
        }
        None => Ok(false),
    }
}

/// Whether a fault of a deck's text is one of a rule whose name has a colon. It costs what [`lines`] does.
///
/// # Errors
/// Out of memory.
pub fn is_of_colon(alloc: Global, fault: DeckFault, text: &[u8]) -> Result<bool, AllocError>
    ensures { IfOk result (λ colon. colon ≡ is_of_colon fault text.now) }
{
    match fault.kind {
        DeckKind::Word => {
            let lines = lines(alloc, text)?;
            let at = fault.line.saturating_sub(1);
            colon_in(alloc, line_at(lines.as_slice(), at))
        }
        _ => Ok(false),
    }
}
