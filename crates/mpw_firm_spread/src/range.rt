//! Which columns are asked for.
ghost use Rattle.std.specs.Prelude.{◌≡◌, ◌≤◌, ◌^◌, length, sum, IfOk, IfSome, map};
ghost use Rattle.mpw_firm_spread.specs.Ranges.{border_of, share_of, columns_from, span_of, range_of, share_by, columns_by};

use mpw_text::{parts, read_number};
use std::alloc::{AllocError, Global};

/// The greatest number of shares.
const MAX_SHARES: u32 = 4096;

/// The greatest number of a column.
const MAX_COLUMN: u32 = (1 << 22) - 1;

/// Columns of a layout, asked for.
#[derive(Clone, Copy)]
pub enum ColumnRange {
    /// From one column to another, both included, counted from 0.
    Columns(u32, u32),
    /// A share, counted from 1, of so many.
    Share(u32, u32),
}

/// Columns that follow on one another.
#[derive(Clone, Copy)]
pub struct Span {
    /// The first of them, counted from 0.
    pub first: u32,
    /// The one after the last.
    pub end: u32,
}

/// The sum of costs: less than 2^54, since there are at most 2^22.
fn sum_of(costs: &[u32]) -> u64
    requires { length costs.now ≤ 2 ^ 22 }
    ensures { result ≡ sum costs.now }
{
    let mut sum = 0u64;
    for index in 0..costs.len() {
        sum += u64::from(costs[index]);
    }
    sum
}

/// The first column before which the costs reach so many of `count` equal shares of all.
fn border(shares: u32, count: u32, costs: &[u32]) -> u32
    requires { length costs.now ≤ 2 ^ 22 }
    ensures border { result ≡ border_of shares count costs.now }
    ensures within { result ≤ length costs.now }
{
    let mut wanted = u128::from(shares) * u128::from(sum_of(costs));
    for index in 0..costs.len() {
        if wanted == 0 {
            return index as u32;
        }
        wanted = wanted.saturating_sub(u128::from(count) * u128::from(costs[index]));
    }
    costs.len() as u32
}

/// The columns of a share.
#[tactic(auto, unfolding(crate::specs::Ranges::share_of))]
fn share(number: u32, count: u32, costs: &[u32]) -> Option<Span>
    requires { length costs.now ≤ 2 ^ 22 }
    ensures span { result ≡ share_of number count costs.now }
    ensures ordered { IfSome result (λ s. s.first ≤ s.end) }
    ensures within { IfSome result (λ s. s.end ≤ length costs.now) }
{
    if number == 0 || number > count {
        return None;
    }
    Some(Span {
        first: border(number - 1, count, costs),
        end: border(number, count, costs),
    })
}

/// The columns from one to another.
#[tactic(auto, unfolding(crate::specs::Ranges::columns_from))]
fn columns(first: u32, last: u32, total: u32) -> Option<Span>
    ensures span { result ≡ columns_from first last total }
    ensures ordered { IfSome result (λ s. s.first ≤ s.end) }
    ensures within { IfSome result (λ s. s.end ≤ total) }
{
    if first > last || last >= total {
        return None;
    }
    Some(Span {
        first,
        end: last + 1,
    })
}

impl ColumnRange {
    /// The columns that these are of a layout whose columns have these estimated costs: none if it has not all of them, or if there is no
    /// such share. A share of a layout with fewer columns may have none. Cost: three passes over the costs.
    pub(crate) fn span(self, costs: &[u32]) -> Option<Span>
        requires { length costs.now ≤ 2 ^ 22 }
        ensures span { result ≡ span_of self costs.now }
        ensures ordered { IfSome result (λ s. s.first ≤ s.end) }
        ensures within { IfSome result (λ s. s.end ≤ length costs.now) }
    {
        match self {
            ColumnRange::Columns(first, last) => columns(first, last, costs.len() as u32),
            ColumnRange::Share(number, count) => share(number, count, costs),
        }
    }
}

/// The share that two words name.
#[tactic(auto, unfolding(crate::specs::Ranges::share_by))]
fn read_share(words: &[&[u8]]) -> Option<ColumnRange>
    ensures { result ≡ share_by (map (λ word. word.now) words.now) }
{
    let [number, count] = words else {
        return None;
    };
    let count = read_number(count, 1, MAX_SHARES)?;
    let number = read_number(number, 1, count)?;
    Some(ColumnRange::Share(number, count))
}

/// The columns that two words name.
#[tactic(auto, unfolding(crate::specs::Ranges::columns_by))]
fn read_columns(words: &[&[u8]]) -> Option<ColumnRange>
    ensures { result ≡ columns_by (map (λ word. word.now) words.now) }
{
    let [first, last] = words else {
        return None;
    };
    let last = read_number(last, 0, MAX_COLUMN)?;
    let first = read_number(first, 0, last)?;
    Some(ColumnRange::Columns(first, last))
}

/// The columns that a text names: `A-B`, with numbers up to 4194303, or `K/N` for a share, with numbers up to 4096. Numbers are
/// decimal, without leading zeros.
/// One pass.
///
/// # Errors
/// If memory runs out.
#[tactic(auto, unfolding(crate::specs::Ranges::range_of))]
pub fn read_range(alloc: Global, text: &[u8]) -> Result<Option<ColumnRange>, AllocError>
    ensures { IfOk result (λ found. found ≡ range_of text.now) }
{
    let columns = parts(alloc, text, b'-')?;
    if let Some(range) = read_columns(columns.as_slice()) {
        return Ok(Some(range));
    }
    let share = parts(alloc, text, b'/')?;
    Ok(read_share(share.as_slice()))
}
