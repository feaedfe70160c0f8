//! The whole that parts make.
ghost use Rattle.std.specs.Prelude.{◌≡◌, ◌≤◌, length, IfOk, IfErr};
ghost use Rattle.mpw_firm_parts.specs.Stitching.{IsBookOf};
ghost use Rattle.mpw_firm.specs.Stitched.{first_name, IsListedAsCheck, IsSubjectOf, IsWholeOf, IsOfFirst, IsOfParts, IsOfWhole};

use crate::laws::wholes_are_listed_as_checks;
use mpw_deck::Deck;
use mpw_firm_messages::{FirmFault, PartFile, no_markers, parts_fault};
use mpw_firm_parts::{Part, stitch_parts};
use mpw_firm_sources::deck_of;
use mpw_geom::Name;
use mpw_markers::Book;
use std::alloc::Global;

/// What was checked: the deck, the structure's name, and the number of columns.
#[derive(Drop)]
pub struct Subject {
    pub deck: Deck,
    pub top: Name,
    pub columns: u32,
}

/// The markers of a whole, with the structure's name, the number of columns, and the deck.
#[derive(Drop)]
pub struct Whole {
    pub top: Name,
    pub columns: u32,
    pub deck: Deck,
    pub book: Book,
}

/// What the first of the parts says of it.
fn subject_of(alloc: Global, files: &[PartFile<'_>], parts: &[Part]) -> Result<Subject, FirmFault>
    ensures subject { IfOk result (IsSubjectOf parts.now) }
    ensures refused { IfErr result (IsOfFirst files.now parts.now) }
{
    let Some(part) = parts.first() else {
        return Err(no_markers(alloc));
    };
    let subject = part.subject();
    let deck = deck_of(alloc, first_name(files), subject.deck())?;
    Ok(Subject {
        deck,
        top: subject.top().copy()?,
        columns: subject.columns(),
    })
}

/// The name of the first file.
fn first_name<'a>(files: &[PartFile<'a>]) -> &'a str
    ensures { result.now ≡ first_name files.now }
{
    match files.first() {
        Some(file) => file.name(),
        None => "mpw stitch",
    }
}

/// How many rules a deck has.
fn rule_count(deck: &Deck) -> u32
    ensures { result ≡ length deck.now.rules }
{
    deck.is_deck();
    deck.rules().as_slice().len() as u32
}

/// The book of parts of these files, under a deck and of a layout with so many columns.
fn book_of(
    alloc: Global,
    files: &[PartFile<'_>],
    columns: u32,
    deck: &Deck,
    parts: Vec<Part>,
) -> Result<Book, FirmFault>
    ensures book { IfOk result (IsBookOf (length deck.now.rules) parts.items) }
    ensures refused { IfErr result (IsOfParts files.now columns (length deck.now.rules) parts.items) }
{
    let rules = rule_count(deck);
    match stitch_parts(alloc, parts, rules) {
        Ok(book) => Ok(book),
        Err(fault) => Err(parts_fault(alloc, files, columns, fault)),
    }
}

/// The same, without what the law says of it.
fn make_whole(alloc: Global, files: &[PartFile<'_>], parts: Vec<Part>) -> Result<Whole, FirmFault>
    ensures whole { IfOk result (IsWholeOf parts.items) }
    ensures refused { IfErr result (IsOfWhole files.now parts.items) }
{
    let Subject { deck, top, columns } = subject_of(alloc, files, parts.as_slice())?;
    let book = book_of(alloc, files, columns, &deck, parts)?;
    Ok(Whole {
        top,
        columns,
        deck,
        book,
    })
}

/// The whole that parts of these files make. What is listed of it is what a check lists of the files that the first part was made of.
///
/// # Errors
/// `Refused` without parts, if the first one's deck has a fault, and if the parts don't fit, in this order; and `Memory`.
pub fn whole_of(alloc: Global, files: &[PartFile<'_>], parts: Vec<Part>) -> Result<Whole, FirmFault>
    ensures whole { IfOk result (IsWholeOf parts.items) }
    ensures listed { IfOk result (IsListedAsCheck parts.items) }
    ensures refused { IfErr result (IsOfWhole files.now parts.items) }
{
    wholes_are_listed_as_checks();
    make_whole(alloc, files, parts)
}
