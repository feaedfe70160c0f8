//! Sorts pieces, and makes runs from them.

ghost use Rattle.std.specs.Prelude.{◌≡◌, ◌≤◌, ◌↔◌, ◌∷◌, filter, All, Contains, IfOk, IsTrue, MatchBool, int_lt};
ghost use Rattle.std.specs.List.Sorted.{IsPermutation, IsSorted};
ghost use Rattle.mpw_markers.specs.declared.marker.Key.{Key as KeyValue};
ghost use Rattle.mpw_markers.specs.Markers.{line_of_key};
ghost use Rattle.mpw_columns_keys.specs.Keys.{list_number, key_cmp, AreInOrder};
ghost use Rattle.mpw_columns_keys.specs.Pieces.{IsRunOfPieces};
ghost use Rattle.mpw_columns_keys.specs.Internal.{has_rows, lengthened, GoesOn, IsApart, AreRunsFrom, AreRunsOf};

use mpw_edges::Piece;
use mpw_markers::Key;
use std::alloc::{AllocError, Global};
use std::cmp::Ordering;

/// The number of the key's list among those of its axis.
fn list_number(key: &Key) -> u64
    ensures { result ≡ list_number key.now }
{
    let Piece { side, .. } = key.piece;
    2 * u64::from(key.rule) + u64::from(side)
}

/// Which of two keys of one axis comes first.
fn key_order(first: &Key, second: &Key) -> Ordering
    ensures { result ≡ key_cmp first.now second.now }
{
    let lists = list_number(first).cmp(&list_number(second));
    let edges = first.piece.x1.cmp(&second.piece.x1);
    let ends = first.piece.x2.cmp(&second.piece.x2);
    let rows = ends.then(first.piece.y0.cmp(&second.piece.y0));
    lists.then(edges.then(rows))
}

/// The pieces that have some row.
fn with_rows(pieces: Vec<Key>) -> Vec<Key>
    ensures { result.items ≡ filter has_rows pieces.items }
{
    let mut pieces = pieces;
    pieces.retain(
        |key: &Key| -> bool
            ensures { result ≡ has_rows key.now }
        { key.piece.y0 < key.piece.y1 },
    );
    pieces
}

/// The pieces of one axis, sorted.
fn sorted(pieces: Vec<Key>) -> Vec<Key>
    ensures same { IsPermutation pieces.items result.items }
    ensures sorted { IsSorted key_cmp result.items }
{
    let mut pieces = pieces;
    pieces.sort_unstable_by(|a, b| key_order(a, b));
    pieces
}

/// Whether the two lie on one line.
fn is_on_line_of(run: &Key, next: &Key) -> bool
    ensures { IsTrue result ↔ (line_of_key run.now ≡ line_of_key next.now) }
{
    run.line() == next.line()
}

/// Whether the piece continues the run: it lies on the run's line, and begins at the run's end or before.
fn goes_on(run: &Key, next: &Key) -> bool
    ensures { MatchBool result (GoesOn run.now next.now) (IsApart run.now next.now) }
{
    is_on_line_of(run, next) && next.piece.y0 <= run.piece.y1
}

/// The run, extended to the end of the piece.
fn lengthened(run: &Key, next: &Key) -> Key
    ensures { result ≡ lengthened run.now next.now }
{
    let y1 = run.piece.y1.max(next.piece.y1);
    let piece = Piece { y1, ..run.piece };
    Key { piece, ..*run }
}

/// The runs of the first piece and the others. All must be in order.
fn runs_from(alloc: Global, first: Key, rest: &[Key]) -> Result<Vec<Key>, AllocError>
    ensures { IfOk result (λ v. AreRunsFrom first rest.now v.items) }
{
    let mut runs = Vec::with_capacity(alloc, rest.len().saturating_add(1))?;
    let mut run = first;
    for piece in rest {
        if goes_on(&run, piece) {
            run = lengthened(&run, piece);
        } else {
            runs.push(run)?;
            run = *piece;
        }
    }
    runs.push(run)?;
    Ok(runs)
}

/// The runs of pieces, which must be in order.
fn runs_of(alloc: Global, pieces: &[Key]) -> Result<Vec<Key>, AllocError>
    ensures { IfOk result (λ v. AreRunsOf pieces.now v.items) }
{
    match pieces {
        [] => Ok(Vec::new(alloc)),
        [first, rest @ ..] => runs_from(alloc, *first, rest),
    }
}

/// The maximal runs of the rows that the pieces have, each once, in order. The pieces may be in any order, may overlap and may repeat.
/// Those without a row add nothing. All must be of one axis, and their sides 0 or 1.
///
/// Cost: a sort, in place, and one pass. The result has room for as many runs as there are pieces with a row.
///
/// # Errors
/// Out of memory.
pub fn joined(alloc: Global, pieces: Vec<Key>) -> Result<Vec<Key>, AllocError>
    requires axis { (k l : KeyValue) → Contains pieces.items k → Contains pieces.items l → k.piece.axis ≡ l.piece.axis }
    requires sides { All (λ k. k.piece.side ≤ 1) pieces.items }

    ensures exact { IfOk result (λ v. (k : KeyValue) → Contains v.items k ↔ IsRunOfPieces pieces.items k) }
    ensures ordered { IfOk result (λ v. AreInOrder v.items) }
{
    let pieces = sorted(with_rows(pieces));
    runs_of(alloc, pieces.as_slice())
}
