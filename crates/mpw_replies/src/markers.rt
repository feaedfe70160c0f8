//! Listings of markers: the book of a run, without what the session may not see.
//!
//! A listing has the book, its rules, the cells in alphabetical order, and which submissions may be seen. Copies of a reply share it. Its
//! lines are made one by one, without memory. The full markers come first, in the book's order. Then come the counts of masked markers, by
//! rule. A hidden marker has no line.
ghost use Rattle.std.specs.Prelude.{◌≡◌, ◌≤◌, ◌∷◌, ◌++◌, [], List, ℕ, length, drop, filter, Some, option_copied, IfOk, IfSome, IfNone};
ghost use Rattle.mpw_roles.specs.Hierarchy.{Name as NameValue};
ghost use Rattle.mpw_replies.specs.Sight.{book_lines};
ghost use Rattle.mpw_replies.specs.Ranks.{line_by, numbered_lines, shown_line, shown_lines};
ghost use Rattle.mpw_replies.specs.Internal.Ranks.{has_line};
ghost use Rattle.mpw_replies.specs.Views.{marker_line};

use crate::masked::{MaskedViews, count_numbered, numbers_of};
use crate::met::{MetCells, ranks_of};
use crate::sight::is_full;
use mpw_deck::{Rule, Rules};
use mpw_geom::{Name, Names};
use mpw_hier::Shelf;
use mpw_markers::{Book, Key, Marker};
use std::alloc::{AllocError, Global};
use std::marker::Model;

/// The markers of a book as a session sees them. Contracts see its lines.
pub struct MarkerListing {
    book: Book,
    rules: Rules,
    seen: Vec<bool>,
    /// The cells of the submissions, in alphabetical order.
    cells: Names,
    /// For each submission the index of its cell in `cells`.
    ranks: Vec<usize>,
    /// For each rule the count of its masked markers.
    numbers: Vec<usize>,
    count: usize,
}

impl Drop for MarkerListing {
    fn drop(self) {
        let MarkerListing {
            book,
            rules,
            seen,
            cells,
            ranks,
            numbers,
            count: _,
        } = self;
        drop(book);
        drop(rules);
        drop(seen);
        drop(cells);
        drop(ranks);
        drop(numbers);
    }
}

impl Model for MarkerListing {
    ghost use Rattle.std.specs.Prelude.{List};
    ghost use Rattle.mpw_replies.specs.Listing.{Listed};
    ghost use Rattle.mpw_replies.specs.Ranks.{IsMarkerListing, lines_kept};

    ghost Value = { List Listed };

    ghost view = { λ l. lines_kept l.rules l.cells l.ranks.items l.seen.items l.numbers.items l.book };

    ghost invariant = { λ l. IsMarkerListing l.rules l.cells l.ranks.items l.seen.items l.numbers.items l.book l.count };
}

/// A full marker of a listing: the name of its rule, its key, and the cells that it touches.
#[derive(Drop)]
pub struct MarkerView<'a> {
    /// The rule's name in the run's deck.
    pub rule: &'a Name,
    /// Its line and rows, with the index of its rule in the deck.
    pub key: Key,
    /// The cells of the submissions that it touches, each once, in alphabetical order.
    pub cells: MetCells<'a>,
}

/// The full markers of a listing that are left. Contracts see their lines. It takes no memory.
#[derive(Drop)]
pub struct MarkerViews<'a> {
    book: &'a [Marker],
    rules: &'a [Rule],
    seen: &'a [bool],
    cells: &'a [Name],
    ranks: &'a [usize],
    at: usize,
}

impl<'a> Model for MarkerViews<'a> {
    ghost use Rattle.std.specs.Prelude.{List, drop};
    ghost use Rattle.mpw_replies.specs.Listing.{Listed};
    ghost use Rattle.mpw_replies.specs.Ranks.{met_of, shown_lines};

    ghost Value = { List Listed };

    ghost view = { λ v. shown_lines (met_of v.cells.now v.ranks.now) v.rules.now v.seen.now (drop v.at v.book.now) };
}

/// The lines of a listing: the full markers, and then the counts of masked markers.
#[derive(Drop)]
pub struct MarkerLines<'a> {
    /// The full markers, in the order of the book. They come first.
    pub full: MarkerViews<'a>,
    /// For each rule with masked markers how many it has, in the order of the deck's rules.
    pub masked: MaskedViews<'a>,
}

impl MarkerListing {
    /// The listing of a book whose markers belong to these rules and touch submissions of this shelf. Cost: a sort of the submissions'
    /// cells, a binary search for each, and two passes over the book with its touched submissions.
    ///
    /// # Errors
    /// Out of memory.
    pub fn new(
        alloc: Global,
        book: Book,
        rules: Rules,
        shelf: &Shelf,
        seen: Vec<bool>,
    ) -> Result<MarkerListing, AllocError>
        ensures { IfOk result (λ listing. listing ≡ book_lines rules shelf.now seen.items book) }
    {
        let cells = shelf.cells(alloc)?;
        let ranks = ranks_of(alloc, cells.as_slice(), shelf.submissions())?;
        let numbers = numbers_of(alloc, rules.as_slice().len(), &seen, book.as_slice())?;
        let count = count_lines(book.as_slice(), rules.as_slice(), &seen, &numbers);
        Ok(MarkerListing {
            book,
            rules,
            seen,
            cells,
            ranks,
            numbers,
            count,
        })
    }

    /// The number of lines. Constant time.
    pub fn len(&self) -> usize
        ensures { result ≡ length self.now }
    {
        self.count
    }

    /// The lines, one by one. It takes no memory.
    pub fn lines(&self) -> MarkerLines<'_>
        ensures { self.now ≡ result.full ++ result.masked }
    {
        MarkerLines {
            full: MarkerViews {
                book: self.book.as_slice(),
                rules: self.rules.as_slice(),
                seen: &self.seen,
                cells: self.cells.as_slice(),
                ranks: &self.ranks,
                at: 0,
            },
            masked: MaskedViews::new(self.rules.as_slice(), &self.numbers),
        }
    }
}

impl<'a> MarkerViews<'a> {
    /// The next full marker, or none after the last. It takes no memory. Cost: a pass over the touched submissions of each marker that it goes over.
    pub fn next(&mut self) -> Option<MarkerView<'a>>
        ensures some { IfSome result (λ view. self.old ≡ marker_line view ∷ self.new) }
        ensures none { IfNone result (self.old ≡ []) }
    {
        let shown = next_shown(&mut self.at, self.book, self.rules, self.seen)?;
        Some(MarkerView {
            rule: &shown.rule.name,
            key: shown.marker.key,
            cells: MetCells::new(self.cells, self.ranks, shown.marker.met.as_slice()),
        })
    }
}

/// A marker with its rule.
#[derive(Clone, Copy)]
struct Shown<'a> {
    rule: &'a Rule,
    marker: &'a Marker,
}

/// The next full marker with a rule, from an index on.
fn next_shown<'a>(
    at: &mut usize,
    book: &'a [Marker],
    rules: &'a [Rule],
    seen: &[bool],
) -> Option<Shown<'a>>
    ensures some { IfSome result (λ shown. (names : List ℕ → List NameValue) → shown_lines names rules.now seen.now (drop at.old book.now) ≡ line_by names shown.marker.now (Some shown.rule.now) ++ shown_lines names rules.now seen.now (drop at.new book.now)) }
    ensures none { IfNone result ((names : List ℕ → List NameValue) → shown_lines names rules.now seen.now (drop at.old book.now) ≡ []) }
{
    while *at < book.len() {
        let marker = &book[*at];
        *at += 1;
        if let Some(rule) = rule_shown(rules, seen, marker) {
            return Some(Shown { rule, marker });
        }
    }
    None
}

/// The rule of a full marker.
fn rule_shown<'a>(rules: &'a [Rule], seen: &[bool], marker: &Marker) -> Option<&'a Rule>
    ensures { (names : List ℕ → List NameValue) → line_by names marker.now (option_copied result) ≡ shown_line names rules.now seen.now marker.now }
{
    if !is_full(seen, marker) {
        return None;
    }
    rules.get(marker.key.rule as usize)
}

/// The number of lines: one for each full marker, and one for each count that isn't 0.
fn count_lines(book: &[Marker], rules: &[Rule], seen: &[bool], numbers: &[usize]) -> usize
    requires { length numbers.now ≡ length rules.now }
    ensures { (names : List ℕ → List NameValue) → result ≡ length (shown_lines names rules.now seen.now book.now ++ numbered_lines numbers.now 0 rules.now) }
{
    count_shown(book, rules, seen) + count_numbered(rules, numbers)
}

/// The number of full markers.
fn count_shown(book: &[Marker], rules: &[Rule], seen: &[bool]) -> usize
    ensures count { result ≡ length (filter (has_line rules.now seen.now) book.now) }
    ensures few { result ≤ length book.now }
{
    let mut count = 0usize;
    for marker in book {
        if has_line(rules, seen, marker) {
            count += 1;
        }
    }
    count
}

/// Whether the marker is full and has a rule.
fn has_line(rules: &[Rule], seen: &[bool], marker: &Marker) -> bool
    ensures { result ≡ has_line rules.now seen.now marker.now }
{
    is_full(seen, marker) && rules.get(marker.key.rule as usize).is_some()
}
