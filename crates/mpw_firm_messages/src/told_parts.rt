//! What is printed on the standard error about parts. `specs/ToldParts.antt` has the texts.
ghost use Rattle.std.specs.Prelude.{◌≡◌, ℕ, List, slice_get, IfOk};
ghost use Rattle.std.specs.String.{string_bytes};
ghost use Rattle.mpw_firm_messages.specs.Told.{Refuses, Tells, Misuses};
ghost use Rattle.mpw_firm_messages.specs.ToldParts.{holder_of, has_column, names_with, other_of, other_text, unnamed_text, no_part_text, older_text, damaged_text, no_markers_text, nothing_text, unruled_of, unruled_text, missing_text, doubled_text, apart_text, fault_text, range_text};

use crate::fault::FirmFault;
use crate::told::{misuse, refusal};
use mpw_firm_parts::{Difference, Part, PartsFault};
use std::alloc::{AllocError, Global};
use std::marker::Model;

/// The file of a part, with the part's first column and the one after its last. Contracts see these.
#[derive(Drop)]
pub struct PartFile<'a> {
    name: &'a str,
    first: usize,
    end: usize,
}

impl<'a> Model for PartFile<'a> {
    ghost use Rattle.mpw_firm_messages.specs.ToldParts.{Holder};

    ghost Value = { Holder };

    ghost view = { λ f. record { name = f.name.now; first = f.first; end = f.end } };
}

impl<'a> PartFile<'a> {
    /// The file of that name, which has this part.
    pub fn of(name: &'a str, part: &Part) -> PartFile<'a>
        ensures { result ≡ holder_of name.entry.now part.now }
    {
        let first = part.first() as usize;
        PartFile {
            name,
            first,
            end: first + part.lists().len(),
        }
    }

    /// The file's name.
    pub fn name(&self) -> &'a str
        ensures { result.now ≡ self.now.name }
    {
        self.name
    }

    /// Whether the part has the column.
    fn has(&self, column: usize) -> bool
        ensures { result ≡ has_column column self.now }
    {
        (self.first <= column) & (column < self.end)
    }
}

/// What is printed if columns are asked for that a layout hasn't.
#[tactic(auto, unfolding(crate::specs::ToldParts::beyond_text, crate::specs::ToldParts::no_columns_text))]
pub fn beyond_plan(alloc: Global, columns: u32) -> FirmFault
    ensures { Misuses (range_text columns) result }
{
    if columns > 0 {
        misuse(format!(in alloc;
            "error: --tiles: the layout has {columns} columns, counted from 0"
        ))
    } else {
        misuse(String::from_str(
            alloc,
            "error: --tiles: the structure shows no shape, so it has no columns: --tiles 1/1 prints \
            its part",
        ))
    }
}

/// What is printed about a file that is no part.
#[tactic(auto, unfolding(crate::specs::ToldParts::no_part_text))]
pub fn no_part(alloc: Global, file: &str) -> FirmFault
    ensures { Refuses (no_part_text file.now) result }
{
    refusal(format!(in alloc;
        "{file}: no part, or a changed one: run that part again with 'mpw check --tiles'"
    ))
}

/// What is printed about a file that is a part of an older form.
#[tactic(auto, unfolding(crate::specs::ToldParts::older_text))]
pub fn older_part(alloc: Global, file: &str) -> FirmFault
    ensures { Refuses (older_text file.now) result }
{
    refusal(format!(in alloc; "{file}: a part of an older mpw: run that part again with this one"))
}

/// The sentence about a part that was changed or cut off.
#[tactic(auto, unfolding(crate::specs::ToldParts::damaged_text))]
pub fn damaged_part(alloc: Global, file: &str) -> FirmFault
    ensures { Refuses (damaged_text file.now) result }
{
    refusal(format!(in alloc; "{file}: the part was changed or cut off: run that part again"))
}

/// What is printed about parts whose markers no check prints.
#[tactic(auto, unfolding(crate::specs::ToldParts::no_markers_text))]
pub fn no_markers(alloc: Global) -> FirmFault
    ensures { Refuses no_markers_text result }
{
    refusal(String::from_str(
        alloc,
        "the parts have markers that no check finds: print them again",
    ))
}

/// What is printed about a part of another check than that of the first.
#[tactic(auto, unfolding(crate::specs::ToldParts::other_text))]
fn other_part(alloc: Global, part: &str, what: &str, first: &str) -> FirmFault
    ensures { Refuses (other_text part.now what.now first.now) result }
{
    refusal(format!(in alloc; "{part}: a part of another {what} than {first}"))
}

/// The same if the files have no such place.
#[tactic(auto, unfolding(crate::specs::ToldParts::unnamed_text))]
fn unnamed_part(alloc: Global, what: &str) -> FirmFault
    ensures { Refuses (unnamed_text what.now) result }
{
    refusal(format!(in alloc; "a part is of another {what}"))
}

/// What is printed about the part at a place, which is of another check than that of the first.
fn other(alloc: Global, files: &[PartFile<'_>], place: usize, what: Difference) -> FirmFault
    ensures { Refuses (other_of (slice_get files.now 0) (slice_get files.now place) what) result }
{
    let what = what.word();
    match files.get(0) {
        None => unnamed_part(alloc, what),
        Some(first) => match files.get(place) {
            None => unnamed_part(alloc, what),
            Some(part) => other_part(alloc, part.name, what, first.name),
        },
    }
}

/// What is printed about a part that has a marker of a rule that the deck hasn't.
#[tactic(auto, unfolding(crate::specs::ToldParts::unruled_text))]
fn unruled_part(alloc: Global, part: &str) -> FirmFault
    ensures { Refuses (unruled_text part.now) result }
{
    refusal(format!(in alloc; "{part}: a marker of a rule that its deck hasn't: print it again"))
}

/// What is printed about the part at a place, which has a marker of a rule that the deck hasn't.
fn unruled(alloc: Global, files: &[PartFile<'_>], place: usize) -> FirmFault
    ensures { Refuses (unruled_of (slice_get files.now place)) result }
{
    match files.get(place) {
        None => no_markers(alloc),
        Some(part) => unruled_part(alloc, part.name),
    }
}

/// The names of the files that have a column, with a space before each.
fn holders(alloc: Global, files: &[PartFile<'_>], column: usize) -> Result<String, AllocError>
    ensures { IfOk result (λ names. string_bytes names ≡ names_with column files.now) }
{
    let mut names = String::new(alloc);
    for file in files {
        if file.has(column) {
            names.push_str(" ")?;
            names.push_str(file.name)?;
        }
    }
    Ok(names)
}

/// What is printed about a column that no part has.
#[tactic(auto, unfolding(crate::specs::ToldParts::missing_text))]
fn missing_column(alloc: Global, columns: u32, column: usize) -> FirmFault
    ensures { Refuses (missing_text column columns) result }
{
    refusal(format!(in alloc;
        "column {column} is in no part: the layout has {columns} columns, counted from 0"
    ))
}

/// What is printed about a column that more than one part has.
#[tactic(auto, unfolding(crate::specs::ToldParts::doubled_text))]
fn doubled_column(alloc: Global, files: &[PartFile<'_>], column: usize) -> FirmFault
    ensures { Refuses (doubled_text column (names_with column files.now)) result }
{
    match holders(alloc, files, column) {
        Ok(names) => refusal(format!(in alloc; "column {column} is in more than one part:{names}")),
        Err(_) => FirmFault::Memory,
    }
}

/// What is printed if there is no part.
#[tactic(auto, unfolding(crate::specs::ToldParts::nothing_text))]
fn nothing(alloc: Global) -> FirmFault
    ensures { Refuses nothing_text result }
{
    refusal(String::from_str(alloc, "there is no part"))
}

/// What is printed about parts whose columns don't follow on one another.
#[tactic(auto, unfolding(crate::specs::ToldParts::apart_text))]
fn apart(alloc: Global) -> FirmFault
    ensures { Refuses apart_text result }
{
    refusal(String::from_str(
        alloc,
        "the columns of the parts don't follow on one another: print them again with one mpw",
    ))
}

/// What is printed about parts that aren't stitched, of these files and a layout with so many columns.
pub fn parts_fault(
    alloc: Global,
    files: &[PartFile<'_>],
    columns: u32,
    fault: PartsFault,
) -> FirmFault
    ensures { Tells (fault_text files.now columns fault) result }
{
    match fault {
        PartsFault::Memory => FirmFault::Memory,
        PartsFault::NoPart => nothing(alloc),
        PartsFault::Other(place, what) => other(alloc, files, place, what),
        PartsFault::NoRule(place) => unruled(alloc, files, place),
        PartsFault::Missing(column) => missing_column(alloc, columns, column),
        PartsFault::Doubled(column) => doubled_column(alloc, files, column),
        PartsFault::Apart => apart(alloc),
        PartsFault::NoBook => no_markers(alloc),
    }
}
