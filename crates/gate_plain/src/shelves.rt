//! Submissions on a shelf, and roots.

ghost use Rattle.std.specs.Prelude.{◌≤◌, ◌^◌};
ghost use Rattle.mpw_structures.specs.Library.{IsLibrary};

use anyhow::Result;
use gate_samples::text_of_library;
use gate_words::Words;
use mpw_geom::Name;
use mpw_hier::{HierFault, MAX_SHAPES, Outline, Shelf, Submission};
use mpw_library::read_library;
use mpw_structures::Library;
use mpw_walk::Root;
use std::alloc::Global;

/// What is submitted: a structure of a library, as a cell, by a user.
#[derive(Clone, Copy)]
pub struct Entry<'a> {
    /// The cell.
    pub cell: &'a str,
    /// The structure.
    pub top: &'a str,
    /// The submitter.
    pub user: &'a str,
}

/// Submits the top of a library, which may have at most that many shapes, as a cell.
fn put(
    alloc: Global,
    shelf: &mut Shelf,
    names: (Name, Name, Name),
    library: Library,
    most: u64,
) -> Result<u32, HierFault>
    requires library { IsLibrary library }
    requires most { most ≤ 2 ^ 40 }
{
    let (cell, submitter, top) = names;
    let outline = Outline::new(alloc, &library, &top)?;
    let bound = shelf.bind(alloc, outline.names.as_slice())?;
    let submission = Submission {
        submitter,
        cell,
        version: 0,
        library,
        top,
        bound,
    };
    shelf.put(alloc, submission, &outline, most)
}

/// Submits the top of a library, which may have at most that many shapes, as a cell. It returns the number of the submission, or why the
/// shelf refuses it.
///
/// # Errors
/// The library or a name is refused, or out of memory.
pub fn put_entry(
    alloc: Global,
    shelf: &mut Shelf,
    entry: Entry<'_>,
    text: &[u8],
    most: u64,
) -> Result<Result<u32, HierFault>>
    requires { most ≤ 2 ^ 40 }
{
    let library = read_library(alloc, text)?;
    let cell = Name::read(alloc, entry.cell.as_bytes())?;
    let user = Name::read(alloc, entry.user.as_bytes())?;
    let top = Name::read(alloc, entry.top.as_bytes())?;
    Ok(put(alloc, shelf, (cell, user, top), library, most))
}

/// The same, if the submitter has the cell's name.
///
/// # Errors
/// As those of [`put_entry`].
pub fn put_text(
    alloc: Global,
    shelf: &mut Shelf,
    cell: &str,
    top: &str,
    text: &[u8],
    most: u64,
) -> Result<Result<u32, HierFault>>
    requires { most ≤ 2 ^ 40 }
{
    let user = cell;
    put_entry(alloc, shelf, Entry { cell, top, user }, text, most)
}

/// Submits the top of a library as a cell, which has the submitter's name.
///
/// # Errors
/// The library, a name or the submission is refused, or out of memory.
pub fn submit_text(
    alloc: Global,
    shelf: &mut Shelf,
    cell: &str,
    top: &str,
    text: &[u8],
) -> Result<()> {
    put_text(alloc, shelf, cell, top, text, MAX_SHAPES)??;
    Ok(())
}

/// Submits the top of a library in the samples' notation as a cell.
///
/// # Errors
/// The notation, the library or a name is refused, or out of memory.
pub fn submit(
    alloc: Global,
    shelf: &mut Shelf,
    cell: &str,
    top: &str,
    notation: &str,
) -> Result<()> {
    submit_text(alloc, shelf, cell, top, &text_of_library(alloc, notation)?)
}

/// Takes the words of a root.
fn root(words: &mut Words<'_>) -> Root {
    Root {
        submission: words.number(),
        placing: words.placing(),
    }
}

/// Roots, from a text with commas between them: of each its number, and its placing.
pub fn placed_roots(alloc: Global, text: &str) -> Result<Vec<Root>> {
    let mut roots = Vec::new(alloc);
    for part in text.split(',') {
        if !part.trim().is_empty() {
            let mut words = Words::of(part);
            roots.push(root(&mut words))?;
            words.end()?;
        }
    }
    Ok(roots)
}
