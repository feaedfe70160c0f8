//! The markers of a layout, as many as have to be held for what is printed about them: all, or the first of each rule. `specs/Held.antt` has
//! what contracts say of it.
//!
//! A marker that is held takes some 100 bytes; of those that aren't, only the numbers by rule are there.
ghost use Rattle.std.specs.Prelude.{◌≡◌, None, Some, length, option_map, IfOk};
ghost use Rattle.std.specs.String.{string_bytes};
ghost use Rattle.mpw_firm.specs.Held.{enough_for, enough_listed, IsFoundIn, IsFoundOf};
ghost use Rattle.mpw_firm.specs.Shown.{markers_of};

use crate::line::Line;
use mpw_check::{check_layout, checked_tiles, first_of_layout};
use mpw_deck::Rule;
use mpw_firm_messages::FirmFault;
use mpw_firm_options::{Choices, Options};
use mpw_firm_outputs::rule_counts;
use mpw_markers::{Book, Marker};
use mpw_tiles::Snapshot;
use std::alloc::{AllocError, Global};
use std::thread::Threads;

/// The markers that are held.
#[derive(Drop)]
pub enum Held {
    /// All of them.
    All(Book),
    /// The first of each rule, if no more are printed.
    First(Vec<Marker>),
}

/// The markers that are held, and how many there are.
#[derive(Drop)]
pub struct Findings {
    /// The markers that are held.
    pub held: Held,
    /// How many each rule has, held or not, by its place in the deck, up to 2^64 - 1.
    pub counts: Vec<usize>,
    /// How many there are, held or not, up to 2^64 - 1.
    pub all: usize,
}

impl Findings {
    /// All markers of a book under these rules.
    ///
    /// # Errors
    /// Out of memory.
    pub fn of_book(alloc: Global, rules: &[Rule], book: Book) -> Result<Findings, AllocError>
        ensures { IfOk result (λ found. IsFoundOf None (length rules.now) found book) }
    {
        let counts = rule_counts(alloc, rules.len(), book.as_slice())?;
        let all = book.len();
        Ok(Findings {
            held: Held::All(book),
            counts,
            all,
        })
    }

    /// The markers that are held.
    pub fn markers(&self) -> &[Marker]
        ensures { result.now ≡ markers_of self.now.held }
    {
        match &self.held {
            Held::All(book) => book.as_slice(),
            Held::First(markers) => markers.as_slice(),
        }
    }
}

/// How many markers of each rule are enough for the listing and the report; none if all are wanted.
fn enough_listed(options: &Options, choices: &Choices) -> Option<usize>
    ensures { result ≡ enough_listed (option_map string_bytes options.now.report) choices.now.summary choices.now.limit }
{
    if choices.summary && options.report.is_none() {
        return Some(0);
    }
    match choices.limit {
        Some(limit) => Some(limit as usize),
        None => None,
    }
}

/// How many markers of each rule are enough for what the command line asks for; none if all are wanted.
pub fn enough_for(options: &Options, choices: &Choices) -> Option<usize>
    ensures { result ≡ enough_for options.now choices.now.summary choices.now.limit }
{
    match &options.picture {
        Some(_) => None,
        None => enough_listed(options, choices),
    }
}

/// All markers of a layout.
fn book_in(
    rt: &HostRuntime,
    threads: &(impl Threads + Sync),
    snapshot: &Snapshot,
    line: &mut Line<'_>,
) -> Result<Findings, AllocError>
    requires alone { length snapshot.now.shelf ≡ 1 }
    ensures { IfOk result (IsFoundIn None snapshot.now) }
{
    let book = check_layout(threads, rt.alloc(), snapshot, line)?;
    Findings::of_book(rt.alloc(), snapshot.deck().rules().as_slice(), book)
}

/// The first markers of each rule of a layout, so many at most.
fn first_in(
    rt: &HostRuntime,
    threads: &(impl Threads + Sync),
    snapshot: &Snapshot,
    most: usize,
    line: &mut Line<'_>,
) -> Result<Findings, AllocError>
    requires alone { length snapshot.now.shelf ≡ 1 }
    ensures { IfOk result (IsFoundIn (Some most) snapshot.now) }
{
    let first = first_of_layout(threads, rt.alloc(), snapshot, most, line)?;
    Ok(Findings {
        held: Held::First(first.markers),
        counts: first.counts,
        all: first.all,
    })
}

/// The markers of a layout, all or the first of each rule if so many are enough, while a terminal shows how far the check came.
///
/// # Errors
/// Out of memory.
pub fn found_in(
    rt: &HostRuntime,
    threads: &(impl Threads + Sync),
    snapshot: &Snapshot,
    enough: Option<usize>,
    line: &mut Line<'_>,
) -> Result<Findings, FirmFault>
    requires alone { length snapshot.now.shelf ≡ 1 }
    ensures { IfOk result (IsFoundIn enough snapshot.now) }
{
    line.tell_read(snapshot, checked_tiles(snapshot).is_none());
    let found = match enough {
        Some(most) => first_in(rt, threads, snapshot, most, line),
        None => book_in(rt, threads, snapshot, line),
    };
    line.end();
    match found {
        Ok(found) => Ok(found),
        Err(_) => Err(FirmFault::Memory),
    }
}
