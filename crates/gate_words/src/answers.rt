//! Tables of lines: the input of a golden test has a line `== NAME` before the lines of each table.

use crate::words::Words;
use anyhow::Result;
use std::io;

/// What is between the last line of a table and the name of the next one.
pub const HEAD: &str = "\n== ";

/// What answers the lines of a table.
pub trait Answers {
    /// Answers a line: its first word, the other words, and the text after its bar.
    ///
    /// # Errors
    /// The line is none of the table, its answer can't be printed, or out of memory.
    fn answer(
        &mut self,
        rt: &HostRuntime,
        verb: &str,
        words: &mut Words<'_>,
        behind: &str,
    ) -> Result<()>;
}

/// The standard input.
///
/// # Errors
/// It can't be read, or out of memory.
pub fn read_input(rt: &HostRuntime) -> Result<String> {
    Ok(io::read_to_string(rt.alloc(), rt.stdin())?)
}

/// The name of a table and its lines. Its text is what the input has between two [`HEAD`]s.
pub fn table(text: &str) -> (&str, &str) {
    let text = text.strip_prefix("== ").unwrap_or(text);
    text.split_once('\n').unwrap_or((text, ""))
}

/// Answers a line.
fn answer_line<T: Answers>(rt: &HostRuntime, table: &mut T, line: &str) -> Result<()> {
    let (command, behind) = line.split_once('|').unwrap_or((line, ""));
    let mut words = Words::of(command);
    let verb = words.next();
    table.answer(rt, verb, &mut words, behind)?;
    words.end()
}

/// Prints each line, with the answer below it. An empty line, and one that begins with `#`, has no answer.
///
/// # Errors
/// As those of an answer.
pub fn answer_lines<T: Answers>(rt: &HostRuntime, table: &mut T, lines: &str) -> Result<()> {
    for line in lines.lines() {
        println!(rt; "{line}")?;
        if !line.is_empty() && !line.starts_with('#') {
            answer_line(rt, table, line)?;
        }
    }
    Ok(())
}
