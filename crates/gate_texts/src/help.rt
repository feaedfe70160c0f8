//! The table of `mpw help` as the tables of docs/: requests, commands, denials and codes, each with its columns. Before it is printed, its
//! requests are compared with the table of `mpw_requests`.
use anyhow::{Result, bail};
use mpw_help::{Detail, Entry, Table, tables};
use mpw_requests::{ALL, Verb, form_of};
use std::io;

/// The head of a table whose entries are like this one.
fn head(detail: Detail) -> &'static str {
    match detail {
        Detail::Request { .. } =>
            "| Request | What it does | Tests in order | Reply |\n|-|-|-|-|\n",
        Detail::Command { .. } => "| Command | What it does | Exit status |\n|-|-|-|\n",
        Detail::Denial { .. } => "| Denial | When | What to do |\n|-|-|-|\n",
        Detail::Refusal { .. } => "| Code | When | What to do |\n|-|-|-|\n",
    }
}

/// Prints a row of a table.
fn print_row(rt: &HostRuntime, entry: &Entry) -> io::Result<()> {
    print!(rt; "| `{}` | {} |", entry.form, entry.meaning)?;
    match entry.detail {
        Detail::Request { tests, reply } => println!(rt; " {tests} | {reply} |"),
        Detail::Command { statuses } => println!(rt; " {statuses} |"),
        Detail::Denial { remedy } | Detail::Refusal { number: _, remedy } => {
            println!(rt; " {remedy} |")
        }
    }
}

/// Prints a table, after its title.
fn print_table(rt: &HostRuntime, table: &Table) -> io::Result<()> {
    if let Some(first) = table.entries.first() {
        print!(rt; "\n## {}\n\n{}", table.title, head(first.detail))?;
    }
    for entry in table.entries {
        print_row(rt, entry)?;
    }
    Ok(())
}

/// Whether the help's form is the verb's word and its operands.
fn is_form(form: &str, verb: Verb) -> bool {
    let row = form_of(verb);
    form.len() == row.word.len().saturating_add(row.operands.len())
        && form.starts_with(row.word)
        && form.ends_with(row.operands)
}

/// Compares the requests of a table with the verbs from that one on, and returns the place after them.
fn compare(table: &Table, from: usize) -> Result<usize> {
    let mut place = from;
    for entry in table.entries {
        if let Detail::Request { .. } = entry.detail {
            match ALL.get(place) {
                Some(verb) if is_form(entry.form, *verb) => place = place.saturating_add(1),
                _ => bail!("a form of the help"),
            }
        }
    }
    Ok(place)
}

/// Prints all tables of the help.
pub(crate) fn run(rt: &HostRuntime) -> Result<()> {
    let mut place = 0;
    for table in tables().iter() {
        place = compare(table, place)?;
        print_table(rt, table)?;
    }
    if place != ALL.len() {
        bail!("a request that the help lacks");
    }
    Ok(())
}
