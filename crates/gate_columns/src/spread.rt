//! A layout's check, spread over parts, and stitched.
//!
//! Each line is repeated, with the answer below. A line that begins with `#`, and an empty one, says nothing.
//! - `layout DECK TOP LIBRARY MOST` reads the files of what is checked from now on, cuts it into columns that show at most so many shapes,
//!   and prints these; with `shares` instead of a number as it is cut for shares;
//! - `columns COLUMNS` checks these columns, prints their part, reads its text and holds what that gives;
//! - `stitch RULES` stitches the parts, under so many rules that are held, prints the book, a marker a line, or why there is none, and begins anew.
ghost use Rattle.std.specs.Prelude.{◌≡◌, ◌≤◌, ◌^◌, length, IfOk};
ghost use Rattle.mpw_columns.specs.Plan.{AreColumnsOfLayout};

use crate::parts::print_stitched;
use anyhow::{Context, Result, bail};
use gate_words::{Words, letter};
use mpw_check::{Silent, read_layout};
use mpw_columns::columns_of;
use mpw_columns_keys::Column;
use mpw_deck::read_deck;
use mpw_firm_parts::{Part, read_part, write_part};
use mpw_firm_spread::{Plan, check_part, columns_for_shares, read_range, subject_of};
use mpw_geom::Name;
use mpw_tiles::Snapshot;
use std::alloc::Global;
use std::sync::Arc;
use std::thread::Threads;
use std::{fs, io, mem, str};

/// What is checked: its texts, the structure, what they give, and how that is cut into columns.
#[derive(Drop)]
struct Layout {
    deck: Vec<u8>,
    top: Name,
    library: Arc<Vec<u8>>,
    snapshot: Snapshot,
    most: u32,
}

/// What is checked, and the parts so far.
#[derive(Drop)]
struct Spread {
    layout: Option<Layout>,
    parts: Vec<Part>,
}

/// The columns of what is checked, of which each shows at most so many shapes, or those for shares if that is 0.
fn cut(alloc: Global, snapshot: &Snapshot, most: u32) -> Result<Vec<Column>>
    ensures columns { IfOk result (λ v. AreColumnsOfLayout snapshot.now v.items) }
    ensures few { IfOk result (λ v. length v.items ≤ 2 ^ 22) }
    ensures alone { IfOk result (λ _. length snapshot.now.shelf ≡ 1) }
{
    if snapshot.shelf().submissions().len() != 1 {
        bail!("one submission");
    }
    if most == 0 {
        return Ok(columns_for_shares(alloc, snapshot)?);
    }
    Ok(columns_of(alloc, snapshot, most)?)
}

/// What the texts of a deck and of a library give.
fn snapshot_of(alloc: Global, deck: &[u8], top: &Name, library: &Arc<Vec<u8>>) -> Result<Snapshot> {
    match read_layout(alloc, read_deck(alloc, deck)?, top, library) {
        Ok(snapshot) => Ok(snapshot),
        Err(_) => bail!("a layout"),
    }
}

/// Reads the files of what is checked: the deck, the structure, the library, and how that is cut.
fn read(rt: &HostRuntime, words: &mut Words<'_>) -> Result<Layout> {
    let deck = fs::read(rt, words.next())?;
    let top = Name::read(rt.alloc(), words.next().as_bytes())?;
    let library = Arc::new(rt.alloc(), fs::read(rt, words.next())?)?;
    let snapshot = snapshot_of(rt.alloc(), &deck, &top, &library)?;
    Ok(Layout {
        deck,
        top,
        library,
        snapshot,
        most: words.next().parse::<u32>().unwrap_or(0),
    })
}

/// Prints the columns.
fn print_columns(rt: &HostRuntime, columns: &[Column]) -> io::Result<()> {
    for column in columns {
        println!(rt; "    {} {} {}", letter(column.axis), column.from, column.to)?;
    }
    println!(rt; "    {} columns", columns.len())
}

/// The part of the columns that a text names; none if it names no columns of the layout.
fn part_of<T: Threads + Sync>(
    alloc: Global,
    threads: &T,
    layout: &Layout,
    text: &str,
) -> Result<Option<Part>> {
    let snapshot = &layout.snapshot;
    let columns = cut(alloc, snapshot, layout.most)?;
    let total = u32::try_from(columns.len())?;
    let Some(range) = read_range(alloc, text.as_bytes())? else {
        return Ok(None);
    };
    let plan = Plan {
        snapshot,
        columns: columns.as_slice(),
    };
    let Some(span) = plan.span(alloc, range)? else {
        return Ok(None);
    };
    let (library, deck, top) = (&layout.library, layout.deck.clone()?, layout.top.copy()?);
    let subject = subject_of(library.as_slice(), deck, top, snapshot.extent(), total);
    Ok(Some(check_part(threads, alloc, subject, plan, span, &mut Silent)?))
}

/// Prints a part, and reads it.
fn kept(rt: &HostRuntime, part: &Part) -> Result<Part> {
    let mut text = Vec::new(rt.alloc());
    write_part(rt.alloc(), &mut text, part)?;
    print!(rt; "{}", str::from_utf8(&text)?)?;
    read_part(rt.alloc(), &text)?.context("a part")
}

impl Spread {
    /// Begins with another layout.
    fn begin(&mut self, rt: &HostRuntime, words: &mut Words<'_>) -> Result<()> {
        let layout = read(rt, words)?;
        let columns = cut(rt.alloc(), &layout.snapshot, layout.most)?;
        print_columns(rt, &columns)?;
        self.layout = Some(layout);
        Ok(())
    }

    /// Checks the columns that a text names, and holds their part.
    fn check<T: Threads + Sync>(
        &mut self,
        rt: &HostRuntime,
        threads: &T,
        text: &str,
    ) -> Result<()> {
        let Some(layout) = &self.layout else {
            bail!("a layout first");
        };
        match part_of(rt.alloc(), threads, layout, text)? {
            Some(part) => self.parts.push(kept(rt, &part)?)?,
            None => println!(rt; "    no columns of the layout")?,
        }
        Ok(())
    }

    /// Answers a line, with threads for the checks.
    fn answer<T: Threads + Sync>(
        &mut self,
        rt: &HostRuntime,
        threads: &T,
        line: &str,
    ) -> Result<()> {
        let mut words = Words::of(line);
        match words.next() {
            "layout" => self.begin(rt, &mut words)?,
            "columns" => self.check(rt, threads, words.next())?,
            "stitch" => {
                let parts = mem::replace(&mut self.parts, Vec::new(rt.alloc()));
                print_stitched(rt, parts, words.number())?;
            }
            _ => bail!("a command"),
        }
        words.end()
    }
}

/// Answers the lines of its table.
pub(crate) fn run<T: Threads + Sync>(rt: &HostRuntime, threads: &T, lines: &str) -> Result<()> {
    let mut spread = Spread {
        layout: None,
        parts: Vec::new(rt.alloc()),
    };
    for line in lines.lines() {
        println!(rt; "{line}")?;
        if !line.is_empty() && !line.starts_with('#') {
            spread.answer(rt, threads, line)?;
        }
    }
    Ok(())
}
