//! The text of the report of a store.
ghost use Rattle.std.specs.Prelude.{◌≡◌, ◌++◌, string_bytes, IfOk, OnOk};
ghost use Rattle.mpw_auditor.specs.Reporting.{line_text, log_text, officer_text, report_text, rows_text, unseen_text};

use itoa::Buffer;
use mpw_geom::Name;
use mpw_store_log::LogEnd;
use mpw_store_replay::Replayed;
use std::alloc::{AllocError, Global};

/// Adds a line of words and a value.
fn add_line(text: &mut String, words: &str, value: &str) -> Result<(), AllocError>
    ensures { OnOk result (string_bytes text.new ≡ string_bytes text.old ++ line_text words.now value.now) }
{
    text.push_str(words)?;
    text.push_str(value)?;
    text.push_str("\n")
}

/// Adds the line of the rows.
#[tactic(auto, unfolding(crate::specs::Reporting::rows_text))]
fn add_rows(text: &mut String, rows: u32) -> Result<(), AllocError>
    ensures { OnOk result (string_bytes text.new ≡ string_bytes text.old ++ rows_text rows) }
{
    add_line(text, "rows ", Buffer::new().format(rows))
}

/// Adds the line of the officer, if there is one.
fn add_officer(text: &mut String, officer: &Option<Name>) -> Result<(), AllocError>
    ensures { OnOk result (string_bytes text.new ≡ string_bytes text.old ++ officer_text officer.now) }
{
    match officer {
        Some(officer) => add_line(text, "officer ", officer.as_str()),
        None => Ok(()),
    }
}

/// Adds the lines of the log.
#[tactic(auto, unfolding(crate::specs::Reporting::log_text))]
fn add_log(text: &mut String, end: LogEnd) -> Result<(), AllocError>
    ensures { OnOk result (string_bytes text.new ≡ string_bytes text.old ++ log_text end) }
{
    add_line(text, "log frames ", Buffer::new().format(end.frames))?;
    add_line(
        text,
        "frames after the last commit ",
        Buffer::new().format(end.more),
    )
}

/// Adds the line of what no test of a store notices.
#[tactic(auto, unfolding(crate::specs::Reporting::unseen_text))]
fn add_unseen(text: &mut String) -> Result<(), AllocError>
    ensures { OnOk result (string_bytes text.new ≡ string_bytes text.old ++ unseen_text) }
{
    add_line(
        text,
        "not noticed: ",
        "a change that became another valid one, the officer's token, and the loss of a whole log",
    )
}

/// The report of a sound store: its rows, its officer, its log, and what isn't noticed.
///
/// # Errors
/// Out of memory.
pub(crate) fn report_text(
    alloc: Global,
    replayed: &Replayed,
    end: LogEnd,
) -> Result<String, AllocError>
    ensures { IfOk result (λ text. string_bytes text ≡ report_text replayed.now end) }
{
    let mut text = String::new(alloc);
    add_rows(&mut text, replayed.rows)?;
    add_officer(&mut text, &replayed.officer)?;
    add_log(&mut text, end)?;
    add_unseen(&mut text)?;
    Ok(text)
}
