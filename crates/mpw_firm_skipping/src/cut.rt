//! Copies a text without some of its bytes, and maps offsets of the copy back to the text.
ghost use Rattle.std.specs.Prelude.{◌≡◌, ◌-◌, drop, take, IfOk};
ghost use Rattle.mpw_firm_skipping.specs.Cuts.{original, without};

use std::alloc::{AllocError, Global};

/// Bytes of a text to leave out, by their offsets from its front.
#[derive(Clone, Copy, PartialEq, Eq, Debug)]
pub struct Cut {
    /// The first byte that is left out.
    pub start: usize,
    /// The first byte after these.
    pub end: usize,
}

/// The bytes of a text from an offset on.
pub(crate) fn from(text: &[u8], at: usize) -> &[u8]
    ensures { result.now ≡ drop at text.now }
{
    match text.get(at..) {
        Some(rest) => rest,
        None => &[],
    }
}

/// The first `most` bytes of a text, or all if it has fewer.
fn first(text: &[u8], most: usize) -> &[u8]
    ensures { result.now ≡ take most text.now }
{
    match text.get(..most) {
        Some(first) => first,
        None => text,
    }
}

/// A copy of a text without the bytes of these cuts. The cuts must be in order and must not overlap. Cost: linear in the text and the cuts, with memory
/// for the copy.
///
/// # Errors
/// Out of memory.
pub fn without(alloc: Global, text: &[u8], cuts: &[Cut]) -> Result<Vec<u8>, AllocError>
    ensures { IfOk result (λ copy. copy.items ≡ without cuts.now text.now) }
{
    let mut copy = Vec::new(alloc);
    let mut reached = 0usize;
    for cut in cuts {
        let piece = first(from(text, reached), cut.start.saturating_sub(reached));
        copy.extend_from_slice(piece)?;
        reached = cut.end;
    }
    copy.extend_from_slice(from(text, reached))?;
    Ok(copy)
}

/// The offset in the text of a byte of the copy that [`without`] makes, up to 2^64 - 1. For the offset after the copy's last byte it is where the text
/// ends. Cost: linear in the cuts.
pub fn original(cuts: &[Cut], at: usize) -> usize
    ensures { result ≡ original cuts.now at }
{
    let (mut reached, mut left) = (0usize, at);
    for cut in cuts {
        let piece = cut.start.saturating_sub(reached);
        if left < piece {
            return reached.saturating_add(left);
        }
        left -= piece;
        reached = cut.end;
    }
    reached.saturating_add(left)
}
