//! Reading the line of a column.
ghost use Rattle.std.specs.Prelude.{◌≡◌, ◌<ℤ◌, map, IfOk, IfSome, All};
ghost use Rattle.mpw_firm_parts.specs.Parts.{IsKeyOf, IsListOf};
ghost use Rattle.mpw_firm_parts.specs.Reading.{fields_of, some_column, column_by, with_keys, column_words, column_of};

use crate::key::keys;
use crate::word::{axis, integer};
use mpw_columns_keys::{Column, ColumnKeys};
use mpw_markers::Key;
use mpw_text::parts;
use std::alloc::{AllocError, Global};

/// A column with its keys.
#[derive(Drop)]
pub(crate) struct Listed {
    pub column: Column,
    pub keys: ColumnKeys,
}

/// The column, if it has a place.
#[tactic(auto, unfolding(crate::specs::Reading::some_column))]
fn some_column(column: Column) -> Option<Column>
    ensures column { result ≡ some_column column }
    ensures some { IfSome result (λ column. column.from <ℤ column.to) }
{
    if column.from < column.to {
        Some(column)
    } else {
        None
    }
}

/// The column that words spell.
#[tactic(auto, unfolding(crate::specs::Reading::column_by))]
fn column_by(words: &[&[u8]]) -> Option<Column>
    ensures column { result ≡ column_by (map (λ word. word.now) words.now) }
    ensures some { IfSome result (λ column. column.from <ℤ column.to) }
{
    let [letter, from, to] = words else {
        return None;
    };
    let axis = axis(letter)?;
    let from = integer(from)?;
    let to = integer(to)?;
    some_column(Column { axis, from, to })
}

/// The column that a word spells.
fn column(alloc: Global, word: &[u8]) -> Result<Option<Column>, AllocError>
    ensures column { IfOk result (λ column. column ≡ column_by (fields_of word.now)) }
    ensures some { IfOk result (λ column. IfSome column (λ column. column.from <ℤ column.to)) }
{
    let words = parts(alloc, word, b':')?;
    Ok(column_by(words.as_slice()))
}

/// The column with these keys, if they are in order.
#[tactic(auto, unfolding(crate::specs::Reading::with_keys))]
fn with_keys(column: Column, keys: Vec<Key>) -> Option<Listed>
    requires some { column.from <ℤ column.to }
    requires keys { All (IsKeyOf column) keys.items }
    ensures listed { result ≡ with_keys column keys.items }
    ensures of { IfSome result (λ l. IsListOf l.column l.keys) }
{
    match ColumnKeys::from_ordered(keys) {
        Some(keys) => Some(Listed { column, keys }),
        None => None,
    }
}

/// The column of a line, with its keys, by the line's words.
#[tactic(auto, unfolding(crate::specs::Reading::column_words))]
fn column_words(alloc: Global, words: &[&[u8]]) -> Result<Option<Listed>, AllocError>
    ensures listed { IfOk result (λ found. found ≡ column_words (map (λ word. word.now) words.now)) }
    ensures of { IfOk result (λ found. IfSome found (λ l. IsListOf l.column l.keys)) }
{
    let [first, rest @ ..] = words else {
        return Ok(None);
    };
    let Some(column) = column(alloc, first)? else {
        return Ok(None);
    };
    match keys(alloc, &column, rest)? {
        Some(keys) => Ok(with_keys(column, keys)),
        None => Ok(None),
    }
}

/// The column of a line, with its keys.
pub(crate) fn column_line(alloc: Global, line: &[u8]) -> Result<Option<Listed>, AllocError>
    ensures listed { IfOk result (λ found. found ≡ column_of line.now) }
    ensures of { IfOk result (λ found. IfSome found (λ l. IsListOf l.column l.keys)) }
{
    let words = parts(alloc, line, b' ')?;
    column_words(alloc, words.as_slice())
}
