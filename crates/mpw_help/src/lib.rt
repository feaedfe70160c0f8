//! What the requests, denials, codes and commands of the desk mean: the table from which `mpw help` and the tables of docs/
//! are made.
//!
//! [`tables`] has an [`Entry`] for each, by subject. [`has_word`] says whether entries have a word, and [`write_help`] writes all that
//! have it, in order: a word may be a request's and a code's, as `shapes` is. [`write_words`] lists the words.
#![tactic(auto)]

mod commands;
mod denials;
mod entry;
mod files;
mod refusals;
mod requests;
mod run_requests;
mod told;

pub use entry::{Detail, Entry, Table};
pub use told::{has_word, write_help, write_words};

/// The entries by subject: requests, commands, denials and codes.
pub fn tables() -> [Table; 12] {
    [
        Table {
            title: "Sessions",
            entries: requests::sessions(),
        },
        Table {
            title: "Users, roles and grants",
            entries: requests::roles(),
        },
        Table {
            title: "Hierarchy and separation of duty",
            entries: requests::sets(),
        },
        Table {
            title: "Cells, placements and the deck",
            entries: run_requests::cells(),
        },
        Table {
            title: "The run, its waivers and the trail",
            entries: run_requests::runs(),
        },
        Table {
            title: "Commands",
            entries: commands::all(),
        },
        Table {
            title: "Denials",
            entries: denials::all(),
        },
        Table {
            title: "Codes of a library's text",
            entries: files::library(),
        },
        Table {
            title: "Codes of a deck's text",
            entries: files::deck(),
        },
        Table {
            title: "Codes of limits and of what is shown",
            entries: refusals::limits(),
        },
        Table {
            title: "Codes of what is there already or isn't",
            entries: refusals::states(),
        },
        Table {
            title: "Codes of lines, markers and the history",
            entries: refusals::lines(),
        },
    ]
}
