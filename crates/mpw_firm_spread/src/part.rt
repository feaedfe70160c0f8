//! The part of a range of columns.
ghost use Rattle.std.specs.Prelude.{◌≡◌, ◌≤◌, ◌+◌, ◌-◌, length, take, drop, Option, IfOk};
ghost use Rattle.std.specs.List.{AllZip};
ghost use Rattle.mpw_columns.specs.Plan.{AreColumnsOfLayout};
ghost use Rattle.mpw_columns.specs.Lists.{IsColumnList};
ghost use Rattle.mpw_tiles.specs.Snapshots.{shown_extent};
ghost use Rattle.mpw_firm_spread.specs.Spread.{Texts, subject_of, AreOf, IsPartOf};

use crate::plan::Plan;
use crate::range::Span;
use mpw_columns::{Progress, columns_lie_within, lists_of_columns};
use mpw_columns_keys::Column;
use mpw_firm_parts::{Part, Subject};
use mpw_geom::{Box2, Name};
use sha2::{Digest, Sha256};
use std::alloc::{AllocError, Global};
use std::thread::Threads;

/// What is checked, by the texts of a deck and a library and the structure's name, with the layout's extent and the number of its columns.
/// One pass over the library's text, and no memory.
pub fn subject_of(
    library: &[u8],
    deck: Vec<u8>,
    top: Name,
    extent: Option<Box2>,
    columns: u32,
) -> Subject
    requires { columns ≤ 4194304 }
    ensures { result ≡ subject_of (record { deck = deck.items; top = top; library = library.now }) extent columns }
{
    Subject::new(Sha256::digest(library), deck, top, extent, columns)
}

/// The columns of a span.
fn columns_in(alloc: Global, columns: &[Column], span: Span) -> Result<Vec<Column>, AllocError>
    requires ordered { span.first ≤ span.end }
    requires within { span.end ≤ length columns.now }
    ensures { IfOk result (λ v. v.items ≡ take (span.end - span.first) (drop span.first columns.now)) }
{
    let (_, behind) = columns.split_at(span.first as usize);
    let (some, _) = behind.split_at((span.end - span.first) as usize);
    some.to_vec(alloc)
}

/// The part with the keys of the columns of a span, from a plan that [`crate::columns_for_shares`] gives. It costs what
/// [`lists_of_columns`] does for these columns, and progress is reported as there.
///
/// # Errors
/// Out of memory.
pub fn check_part<P: Progress>(
    rt: &(impl Threads + Sync),
    alloc: Global,
    subject: Subject,
    plan: Plan<'_>,
    span: Span,
    progress: &mut P,
) -> Result<Part, AllocError>
    requires alone { length plan.snapshot.now.shelf ≡ 1 }
    requires columns { AreColumnsOfLayout plan.snapshot.now plan.columns.now }
    requires extent { subject.extent ≡ shown_extent plan.snapshot.now }
    requires counted { length plan.columns.now ≡ subject.columns }
    requires ordered { span.first ≤ span.end }
    requires within { span.end ≤ subject.columns }
    ensures subject { IfOk result (λ part. part.subject ≡ subject) }
    ensures first { IfOk result (λ part. part.first ≡ span.first) }
    ensures columns { IfOk result (λ part. part.columns ≡ take (span.end - span.first) (drop span.first plan.entry.columns.now)) }
    ensures count { IfOk result (λ part. span.first + length part.lists ≡ span.end) }
    ensures lists { IfOk result (λ part. AllZip (IsColumnList plan.entry.snapshot.now) part.columns part.lists) }
    ensures made { (texts : Texts) → AreOf texts plan.entry.snapshot.now subject → IfOk result (IsPartOf texts) }
{
    columns_lie_within();
    plan.snapshot.is_snapshot();
    let columns = columns_in(alloc, plan.columns, span)?;
    let lists = lists_of_columns(rt, alloc, plan.snapshot, columns.as_slice(), progress)?;
    Ok(Part::new(subject, span.first, columns, lists))
}
