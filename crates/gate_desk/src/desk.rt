//! A table of events of the core, each with its answer.
//!
//! Each line is printed, with the answer below it. A line that begins with `#`, and an empty one, prints nothing.
//! - `begin` begins with a new desk, whose officer is `root` with the token `abc`;
//! - `script CONN NAME` asks the requests of the script of that name on a connection, executes each accepted run, and prints how many
//!   requests there were, if each got the reply that the script has;
//! - `new NAME` begins with a new desk, whose officer is `root`, asks the requests in the data file of that name, each on connection 1, and
//!   prints how many of them are accepted;
//! - `ask CONN WORDS` asks a request on a connection and prints the reply. After a bar comes a library, in the notation of `gate_samples`,
//!   or the lines of a deck, with `; ` between them. A placed cell lies as it is drawn;
//! - `gone CONN` ends a connection, and `restart` restarts the desk;
//! - `take WORKER AS` calls for a job, prints which, does it, and stores the answer under a name, in place of an earlier one;
//! - `hand AS` hands in a stored answer. It may be handed in more than once;
//! - `cut AS RUN OF` does the job of cutting what another answer cut, as if it were of that run, and stores the answer;
//! - `tile AS RUN NUMBER CORE WINDOW RULES` does a job of that run and number with the core of one stored answer, the window of another and
//!   the rules of a third, and stores the answer;
//! - `calls` prints how many calls the history has;
//! - `replay` goes on with the desk that the events of the history give, and prints how many of its calls get another answer;
//! - `fill CONN N` ends a connection until the history has room for N calls.
//!
//! What runs out of memory is tried once more. An event that runs out of memory must leave the history unchanged. The later answers show
//! that it left all else unchanged too. So if any single allocation of the program fails, the same is printed, or nothing at all.
mod asking;
mod table;

use crate::desk::table::Table;
use anyhow::{Result, bail};
use gate_events::{digest, read_transcript};
use gate_words::number;
use mpw_requests::digest_of;
use std::fs;

/// Asks the requests of a script on a connection.
fn serve(rt: &HostRuntime, table: &mut Table, connection: u32, name: &str) -> Result<()> {
    let path = format!(in rt.alloc(); "{name}.txt")?;
    let text = fs::read_to_string(rt, path.as_str())?;
    let script = read_transcript(rt.alloc(), text.as_str())?;
    table.serve(rt, connection, &script)
}

/// Begins with a new desk that is asked the requests of a data file.
fn begin(rt: &HostRuntime, table: &mut Table, name: &str) -> Result<()> {
    let path = format!(in rt.alloc(); "{name}.txt")?;
    let text = fs::read_to_string(rt, path.as_str())?;
    table.begin(rt, text.as_str())
}

/// Answers a line about stored answers or the history.
fn answer_more(rt: &HostRuntime, table: &mut Table, words: &[&str]) -> Result<()> {
    match words {
        ["hand", name] => table.hand(rt, name),
        ["cut", name, run, of] => table.forge_cut(rt, name, number(run)?, of),
        ["tile", name, run, tile, core, window, rules] => {
            let numbers = (number(run)?, number(tile)?);
            table.forge_tile(rt, name, numbers, [core, window, rules])
        }
        ["calls"] => table.tell_calls(rt),
        ["replay"] => table.replay(rt),
        ["fill", connection, room] => table.fill(number(connection)?, number(room)?),
        _ => bail!("a line of a table"),
    }
}

/// Answers a line.
fn answer(rt: &HostRuntime, table: &mut Table, line: &str) -> Result<()> {
    if line.is_empty() || line.starts_with('#') {
        return Ok(());
    }
    let (command, payload) = line.split_once('|').unwrap_or((line, ""));
    let words: Vec<&str> = command.split_whitespace().collect(rt.alloc())?;
    match words.as_slice() {
        ["begin"] => {
            *table = Table::new(rt.alloc(), digest_of(b"abc"))?;
            Ok(())
        }
        ["script", connection, name] => serve(rt, table, number(connection)?, name),
        ["new", name] => begin(rt, table, name),
        ["ask", connection, asked @ ..] => table.ask(
            rt,
            number(connection)?,
            asked,
            payload.trim(),
        ),
        ["gone", connection] => table.end(rt, number(connection)?),
        ["restart"] => table.restart(rt),
        ["take", worker, name] => table.take(rt, number(worker)?, name),
        words => answer_more(rt, table, words),
    }
}

/// Answers a line, and tries once more if memory ran out before the desk was asked anything.
fn answer_again(rt: &HostRuntime, table: &mut Table, line: &str) -> Result<()> {
    let calls = table.calls();
    match answer(rt, table, line) {
        Ok(()) => Ok(()),
        Err(_) if table.calls() == calls || line.starts_with("new ") => answer(rt, table, line),
        Err(fault) => Err(fault),
    }
}

/// Answers the lines of its table.
pub(crate) fn run(rt: &HostRuntime, lines: &[String]) -> Result<()> {
    let mut table = Table::new(rt.alloc(), digest("abc"))?;
    for line in lines {
        println!(rt; "{line}")?;
        answer_again(rt, &mut table, line.as_str())?;
    }
    Ok(())
}
