//! The words of a part's lines.
ghost use Rattle.std.specs.Prelude.{◌≡◌, pos, option_map, IfOk};
ghost use Rattle.mpw_geom.specs.Names.{name_eq};
ghost use Rattle.mpw_text.specs.Text.{number_of};
ghost use Rattle.mpw_firm_parts.specs.Reading.{negative, integer_of, axis_of, name_of, bytes_of, digest_of};

use hex::{FromHex, FromHexError};
use mpw_edges::Axis;
use mpw_geom::{Name, NameFault};
use mpw_text::read_count;
use std::alloc::{AllocError, Global};

/// Whether a word is this text.
pub(crate) fn is(word: &[u8], text: &str) -> bool
    ensures { result ≡ name_eq word.now text.now }
{
    word == text.as_bytes()
}

/// The number below 0 whose digits are these.
#[tactic(auto, using(crate::proofs::WordLemmas::within))]
fn below(digits: &[u8]) -> Option<i64>
    ensures { result ≡ option_map negative (number_of 1 9223372036854775808 digits.now) }
{
    match read_count(digits, 1, 1 << 63) {
        Some(count) => Some(-1 - (count - 1) as i64),
        None => None,
    }
}

/// The number from 0 on whose digits are these.
#[tactic(auto, using(crate::proofs::WordLemmas::within))]
fn above(digits: &[u8]) -> Option<i64>
    ensures { result ≡ option_map pos (number_of 0 9223372036854775807 digits.now) }
{
    match read_count(digits, 0, (1 << 63) - 1) {
        Some(count) => Some(count as i64),
        None => None,
    }
}

/// The number that a word spells: digits without a leading zero, after a minus sign if it is below 0.
#[tactic(auto, unfolding(crate::specs::Reading::integer_of))]
pub(crate) fn integer(word: &[u8]) -> Option<i64>
    ensures { result ≡ integer_of word.now }
{
    match word {
        [b'-', digits @ ..] => below(digits),
        _ => above(word),
    }
}

/// The axis of a letter.
#[tactic(auto, unfolding(crate::specs::Reading::axis_of))]
pub(crate) fn axis(word: &[u8]) -> Option<Axis>
    ensures { result ≡ axis_of word.now }
{
    if is(word, "V") {
        Some(Axis::V)
    } else if is(word, "H") {
        Some(Axis::H)
    } else {
        None
    }
}

/// The name that a word is.
#[tactic(auto, using(mpw_geom::proofs::NameLemmas::read_word, mpw_geom::proofs::NameLemmas::refused_word), unfolding(crate::specs::Reading::name_of))]
pub(crate) fn name(alloc: Global, word: &[u8]) -> Result<Option<Name>, AllocError>
    ensures { IfOk result (λ name. name ≡ name_of word.now) }
{
    match Name::read(alloc, word) {
        Ok(name) => Ok(Some(name)),
        Err(NameFault::BadName) => Ok(None),
        Err(NameFault::Memory) => Err(AllocError),
    }
}

/// The 32 bytes that 64 hexadecimal digits spell.
#[tactic(auto, unfolding(crate::specs::Reading::digest_of))]
pub(crate) fn digest(word: &[u8]) -> Option<[u8; 32]>
    ensures { result ≡ digest_of word.now }
{
    <[u8; 32] as FromHex>::from_hex(word).ok()
}

/// The bytes that hexadecimal digits spell.
#[tactic(auto, unfolding(crate::specs::Reading::bytes_of))]
pub(crate) fn bytes(alloc: Global, word: &[u8]) -> Result<Option<Vec<u8>>, AllocError>
    ensures { IfOk result (λ found. option_map (λ bytes. bytes.items) found ≡ bytes_of word.now) }
{
    match hex::decode(alloc, word) {
        Ok(bytes) => Ok(Some(bytes)),
        Err(FromHexError::OutOfMemory) => Err(AllocError),
        Err(_) => Ok(None),
    }
}
