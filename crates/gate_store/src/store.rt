//! Serves stored scripts over stores in memory, each reopened from its rows, and prints what the stores hold.
//!
//! The standard input has a command a line:
//! - `store`: a new store, with nothing;
//! - `serve NAME`: the desk is reopened, and a connection served with the script of that name, for the officer `root`, whose token is `abc`;
//! - `as OFFICER TOKEN NAME`: the same, for another officer;
//! - `reopen NAME`: the desk is reopened, and a connection with the number 1, which the rows have too, is served with the script of that name. Nothing
//!   of it is stored, and the store is let go;
//! - `row CONNECTION KIND LINE`: a row is stored after the others, as it is;
//! - `first N`: the store has its first rows alone;
//! - `rows`: the rows, without their payloads;
//! - `count`: how many they are;
//! - `#`: a remark.
mod copying;
mod serving;
mod store;

use anyhow::Result;
use copying::{copy_rows, first_rows};
use gate_events::{Transcript, read_transcript};
use mpw_geom::Name;
use mpw_requests::digest_of;
use mpw_settings::Officer;
use mpw_store_rows::{Kind, StoredRow};
use serving::{end_word, serve, serve_again};
use sqlite::{Connection, MemStore};
use std::alloc::Global;
use std::fs;
use std::thread::Threads;
use store::{Store, add_row, new_store};

/// A store, none if its desk was closed or could not be reopened.
type Shelf = Option<Store<MemStore>>;

/// The officer of that name and token.
fn read_officer(alloc: Global, name: &str, token: &str) -> Result<Officer> {
    Ok(Officer {
        name: Name::read(alloc, name.as_bytes())?,
        digest: digest_of(token.as_bytes()),
    })
}

/// Reads a script of the folder of data.
fn read_script(rt: &HostRuntime, name: &str) -> Result<Transcript> {
    let path = format!(in rt.alloc(); "{name}.txt")?;
    let text = fs::read_to_string(rt, path.as_str())?;
    Ok(read_transcript(rt.alloc(), text.as_str())?)
}

/// Whether a text has the replies of a script, in words.
fn answer_word(text: &[u8], script: &Transcript) -> &'static str {
    if text == script.replies.as_slice() {
        "answered as written"
    } else {
        "ANOTHER answer"
    }
}

/// Reopens a store's desk, serves a script over it on connection 1, and prints whether it was answered as written. The store is let go.
fn serve_first(
    rt: &HostRuntime,
    threads: &(impl Threads + Sync),
    store: Store<MemStore>,
    name: &str,
) -> Result<Shelf> {
    let script = read_script(rt, name)?;
    let officer = read_officer(rt.alloc(), "root", "abc")?;
    match serve_again(threads, rt.alloc(), store, officer, script.input.as_slice()) {
        Ok(text) => {
            let told = answer_word(text.as_slice(), &script);
            println!(rt; "{name}: {told}, on connection 1")?;
        }
        Err(fault) => println!(rt; "{name}: {fault}")?,
    }
    Ok(None)
}

/// Reopens a store's desk, serves a script over it, and says whether it was answered as written.
fn serve_script(
    rt: &HostRuntime,
    threads: &(impl Threads + Sync),
    store: Store<MemStore>,
    officer: Officer,
    name: &str,
) -> Result<Shelf> {
    let script = read_script(rt, name)?;
    match serve(threads, rt.alloc(), store, officer, script.input.as_slice()) {
        Ok(came) => {
            let told = answer_word(came.text.as_slice(), &script);
            println!(rt; "{name}: {told}; {}", end_word(came.end))?;
            if let Some(fault) = came.fault {
                println!(rt; "{name}: closed by {fault}")?;
            }
            Ok(came.store)
        }
        Err(fault) => {
            println!(rt; "{name}: {fault}")?;
            Ok(None)
        }
    }
}

/// Stores a row that a command spells.
fn put_row(alloc: Global, store: Store<MemStore>, words: &str) -> Result<Store<MemStore>> {
    let (connection, rest) = words.split_once(' ').unwrap_or((words, ""));
    let (kind, line) = rest.split_once(' ').unwrap_or((rest, ""));
    let (store, rows) = copy_rows(alloc, store)?;
    let row = StoredRow {
        place: u32::try_from(rows.len())?.saturating_add(1),
        connection: connection.parse::<u32>()?,
        kind: Kind::of_number(i64::from(kind.parse::<u32>()?)).unwrap_or(Kind::Request),
        line,
        payload: None,
    };
    add_row(store, &row)
}

/// The word of a kind.
fn kind_word(kind: Kind) -> &'static str {
    match kind {
        Kind::Request => "request",
        Kind::Gone => "gone",
        Kind::Finished => "finished",
    }
}

/// Prints the rows of a store.
fn print_rows(rt: &HostRuntime, store: Store<MemStore>) -> Result<Store<MemStore>> {
    let (store, rows) = copy_rows(rt.alloc(), store)?;
    println!(rt; "place,connection,kind,line")?;
    let mut place = 0u32;
    for row in &rows {
        place = place.saturating_add(1);
        println!(rt;
            "{place},{},{},{}",
            row.connection,
            kind_word(row.kind),
            row.line
        )?;
    }
    Ok(store)
}

/// Prints how many rows a store has.
fn print_count(rt: &HostRuntime, store: Store<MemStore>) -> Result<Store<MemStore>> {
    let (store, rows) = copy_rows(rt.alloc(), store)?;
    println!(rt; "{} rows", rows.len())?;
    Ok(store)
}

/// Does what a command says with a store.
fn obey(
    rt: &HostRuntime,
    threads: &(impl Threads + Sync),
    store: Store<MemStore>,
    command: (&str, &str),
) -> Result<Shelf> {
    let alloc = rt.alloc();
    let (verb, words) = command;
    if verb == "serve" {
        let officer = read_officer(alloc, "root", "abc")?;
        return serve_script(rt, threads, store, officer, words);
    }
    if verb == "as" {
        let (name, rest) = words.split_once(' ').unwrap_or((words, ""));
        let (token, script) = rest.split_once(' ').unwrap_or((rest, ""));
        let officer = read_officer(alloc, name, token)?;
        return serve_script(rt, threads, store, officer, script);
    }
    if verb == "reopen" {
        return serve_first(rt, threads, store, words);
    }
    if verb == "row" {
        return Ok(Some(put_row(alloc, store, words)?));
    }
    if verb == "first" {
        return Ok(Some(first_rows(alloc, store, words.parse::<usize>()?)?));
    }
    let store = if verb == "rows" {
        print_rows(rt, store)?
    } else {
        store
    };
    Ok(Some(print_count(rt, store)?))
}

/// Obeys the commands of its table.
pub(crate) fn run(
    rt: &HostRuntime,
    threads: &(impl Threads + Sync),
    lines: &[String],
) -> Result<()> {
    let mut shelf: Shelf = None;
    for line in lines {
        let command = line.as_str();
        println!(rt; "> {command}")?;
        if command.starts_with('#') {
            continue;
        }
        let (verb, words) = command.split_once(' ').unwrap_or((command, ""));
        if verb == "store" {
            shelf = Some(new_store(Connection::open_in_memory(rt.alloc())?));
        } else if let Some(store) = shelf.take() {
            shelf = obey(rt, threads, store, (verb, words))?;
        } else {
            println!(rt; "there is no store")?;
        }
    }
    Ok(())
}
