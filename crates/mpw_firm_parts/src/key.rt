//! Reading the keys of a column.
ghost use Rattle.std.specs.Prelude.{◌≡◌, map, option_map, IfOk, IfSome, All};
ghost use Rattle.mpw_text.specs.Text.{number_of};
ghost use Rattle.mpw_firm_parts.specs.Parts.{IsKeyOf};
ghost use Rattle.mpw_firm_parts.specs.Reading.{all_of, is_in_column, key_in, edges_by, key_from, key_by, column_key};

use crate::word::integer;
use mpw_columns_keys::Column;
use mpw_edges::Piece;
use mpw_markers::Key;
use mpw_text::{parts, read_number};
use std::alloc::{AllocError, Global};

/// Whether the key's first edge lies in the column, and it has a row.
fn is_in_column(column: &Column, key: &Key) -> bool
    ensures { result ≡ is_in_column column.now key.now }
{
    let has_row = key.piece.y0 < key.piece.y1;
    column.from <= key.piece.x1 && key.piece.x1 < column.to && has_row
}

/// The key, if it is one of the column.
#[tactic(auto, unfolding(crate::specs::Reading::key_in))]
fn key_in(column: &Column, key: Key) -> Option<Key>
    ensures { result ≡ key_in column.now key }
{
    if is_in_column(column, &key) {
        Some(key)
    } else {
        None
    }
}

/// The side that a word spells.
#[tactic(auto, using(crate::proofs::WordLemmas::within))]
fn side(word: &[u8]) -> Option<u8>
    ensures { result ≡ number_of 0 255 word.now }
{
    match read_number(word, 0, 255) {
        Some(side) => Some(side as u8),
        None => None,
    }
}

/// Where a key's edges and its rows lie, in nm.
#[derive(Clone, Copy)]
struct Edges {
    x1: i64,
    x2: i64,
    y0: i64,
    y1: i64,
}

/// The edges and rows that words spell.
#[tactic(auto, unfolding(crate::specs::Reading::edges_by))]
fn edges_by(words: &[&[u8]]) -> Option<Edges>
    ensures { result ≡ edges_by (map (λ word. word.now) words.now) }
{
    let [x1, x2, y0, y1] = words else {
        return None;
    };
    let x1 = integer(x1)?;
    let x2 = integer(x2)?;
    let y0 = integer(y0)?;
    let y1 = integer(y1)?;
    Some(Edges { x1, x2, y0, y1 })
}

/// The key of a column of this rule and side, with edges and rows.
#[tactic(auto, unfolding(crate::specs::Reading::key_from))]
fn key_from(column: &Column, rule: &[u8], side_word: &[u8], words: &[&[u8]]) -> Option<Key>
    ensures { result ≡ key_from column.now rule.now side_word.now (map (λ word. word.now) words.now) }
{
    let rule = read_number(rule, 0, u32::MAX)?;
    let side = side(side_word)?;
    let edges = edges_by(words)?;
    let piece = Piece {
        axis: column.axis,
        side,
        x1: edges.x1,
        x2: edges.x2,
        y0: edges.y0,
        y1: edges.y1,
    };
    key_in(column, Key { rule, piece })
}

/// The key of a column that words spell.
#[tactic(auto, unfolding(crate::specs::Reading::key_by))]
fn key_by(column: &Column, words: &[&[u8]]) -> Option<Key>
    ensures { result ≡ key_by column.now (map (λ word. word.now) words.now) }
{
    match words {
        [rule, side, rest @ ..] => key_from(column, rule, side, rest),
        _ => None,
    }
}

/// The key of a column that a word spells.
#[tactic(auto, using(crate::proofs::KeyLemmas::key_of_column))]
fn key(alloc: Global, column: &Column, word: &[u8]) -> Result<Option<Key>, AllocError>
    ensures key { IfOk result (λ key. key ≡ column_key column.now word.now) }
    ensures of { IfOk result (λ key. IfSome key (IsKeyOf column.now)) }
{
    let words = parts(alloc, word, b':')?;
    Ok(key_by(column, words.as_slice()))
}

/// The keys of a column that words spell.
pub(crate) fn keys(
    alloc: Global,
    column: &Column,
    words: &[&[u8]],
) -> Result<Option<Vec<Key>>, AllocError>
    ensures keys { IfOk result (λ found. option_map (λ keys. keys.items) found ≡ all_of (column_key column.now) (map (λ word. word.now) words.now)) }
    ensures of { IfOk result (λ found. IfSome found (λ keys. All (IsKeyOf column.now) keys.items)) }
{
    let mut keys = Vec::with_capacity(alloc, words.len())?;
    for word in words {
        match key(alloc, column, word)? {
            Some(key) => keys.push(key)?,
            None => return Ok(None),
        }
    }
    Ok(Some(keys))
}
