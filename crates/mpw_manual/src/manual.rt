//! Prints what the words of a command line ask for.

use crate::fault::HelpFault;
use mpw_help::{Table, has_word, tables, write_help, write_words};
use std::alloc::{AllocError, Global};
use std::io::{self, BufWriter, Write};

/// Whether one of these tables has the word.
fn is_in(tables: &[Table], word: &str) -> bool {
    tables.iter().any(|table| has_word(table.entries, word))
}

/// Writes the words of a table that no table before it has, each once.
fn list_table<W: Write>(writer: &mut W, before: &[Table], table: &Table) -> io::Result<()> {
    write!(writer, "{}:", table.title)?;
    for place in 0..table.entries.len() {
        let (told, left) = table.entries.split_at(place);
        if let Some(entry) = left.first() {
            if !is_in(before, entry.word) && !has_word(told, entry.word) {
                write_words(writer, &[*entry])?;
            }
        }
    }
    writeln!(writer)
}

/// Writes the words of all tables, each once, with a line for each table.
fn list<W: Write>(writer: &mut W) -> io::Result<()> {
    let tables = tables();
    for place in 0..tables.len() {
        let (before, left) = tables.split_at(place);
        if let Some(table) = left.first() {
            list_table(writer, before, table)?;
        }
    }
    writer.flush()
}

/// Whether some table has the word.
fn is_known(word: &str) -> bool {
    tables().iter().any(|table| has_word(table.entries, word))
}

/// Writes what a word means.
fn explain<W: Write>(writer: &mut W, word: &str) -> io::Result<()> {
    for table in tables().iter() {
        write_help(writer, table.entries, word)?;
    }
    writer.flush()
}

/// Prints what a word means.
fn tell_word(rt: &HostRuntime, word: &str) -> Result<(), HelpFault> {
    if !is_known(word) {
        return Err(HelpFault::Unknown(String::from_str(rt.alloc(), word)?));
    }
    let Ok(mut output) = BufWriter::new(rt.alloc(), rt.stdout()) else {
        return Err(HelpFault::Memory);
    };
    explain(&mut output, word).map_err(|_| HelpFault::Output)
}

/// Prints the words that there are.
fn tell_words(rt: &HostRuntime) -> Result<(), HelpFault> {
    let Ok(mut output) = BufWriter::new(rt.alloc(), rt.stdout()) else {
        return Err(HelpFault::Memory);
    };
    list(&mut output).map_err(|_| HelpFault::Output)
}

/// The words of arguments, each split at its blanks.
fn parts_of<'a>(alloc: Global, words: &[&'a str]) -> Result<Vec<&'a str>, AllocError> {
    let mut parts = Vec::new(alloc);
    for word in words {
        for part in word.split(' ') {
            parts.push(part)?;
        }
    }
    Ok(parts)
}

/// The word that is asked for. A line of a desk may be given whole, as `REFUSED 40 form`, or from its second word on, as `40 form`. Then
/// the word is its number, or what is denied.
fn asked<'a>(parts: &[&'a str]) -> Option<&'a str> {
    match parts {
        [first, word, ..] if *first == "REFUSED" || *first == "DENIED" => Some(*word),
        [word] | [word, _] => Some(*word),
        _ => None,
    }
}

/// Prints what the words of a command line ask for. The first word is the program's name.
///
/// # Errors
/// `Usage` for another command line, `Unknown` for an unknown word, `Output` if the output failed, `Memory` if out of memory.
pub fn tell(rt: &HostRuntime, words: &[&str]) -> Result<(), HelpFault> {
    let [_, given @ ..] = words else {
        return tell_words(rt);
    };
    if given.is_empty() {
        return tell_words(rt);
    }
    let parts = parts_of(rt.alloc(), given)?;
    match asked(parts.as_slice()) {
        Some(word) => tell_word(rt, word),
        None => Err(HelpFault::Usage),
    }
}
