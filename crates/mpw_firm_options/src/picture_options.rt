//! The picture that a command line asks for.
ghost use Rattle.std.specs.Prelude.{◌≡◌, option_map, IfOk, IfErr};
ghost use Rattle.std.specs.String.{string_bytes};
ghost use Rattle.mpw_firm_options.specs.Given.{picture_key, picture_file};
ghost use Rattle.mpw_firm_messages.specs.Told.{IsMisuse};

use crate::options::usage;
use crate::out_file::{free_option, out_file};
use clap::Command;
use mpw_firm_messages::FirmFault;
use std::alloc::{AllocError, Global};

/// A picture that the command line asks for.
#[derive(Drop)]
pub struct Wanted {
    /// The file that it is written to.
    pub file: String,
    /// The key of the marker round which it is drawn; without one all is drawn.
    pub key: Option<String>,
}

/// The command line's form, with the options of a picture.
pub fn with_picture<'a>(alloc: Global, command: Command<'a>) -> Result<Command<'a>, AllocError> {
    let picture = free_option(
        alloc,
        "picture",
        "OUT",
        "A file for a picture of the layers and the markers, as SVG",
    );
    let marker = free_option(
        alloc,
        "marker",
        "KEY",
        "Draws only what is around the marker of that key: the first word of its line",
    );
    command.arg(picture)?.arg(marker)
}

/// The key that is given.
fn read_key(alloc: Global, key: Option<&str>) -> Result<Option<String>, AllocError>
    ensures { IfOk result (λ read. option_map string_bytes read ≡ option_map (λ text. text.now) key.entry) }
{
    match key {
        Some(key) => Ok(Some(String::from_str(alloc, key)?)),
        None => Ok(None),
    }
}

/// What the words give for `--picture` and `--marker`, beside the other files.
///
/// # Errors
/// `Usage`, with a text that says what is wrong; and `Memory`.
pub fn read_wanted(
    alloc: Global,
    file: Option<&str>,
    key: Option<&str>,
    others: &[&str],
) -> Result<Option<Wanted>, FirmFault>
    ensures file { IfOk result (λ wanted. picture_file wanted ≡ option_map (λ text. text.now) file.entry) }
    ensures key { IfOk result (λ wanted. picture_key wanted ≡ option_map (λ text. text.now) key.entry) }
    ensures refused { IfErr result IsMisuse }
{
    match out_file(
        alloc,
        "picture",
        file,
        others,
        "the deck, the library or the report",
    )? {
        Some(file) => Ok(Some(Wanted {
            file,
            key: read_key(alloc, key)?,
        })),
        None if key.is_some() => Err(usage(alloc, "error: --marker KEY needs --picture OUT")),
        None => Ok(None),
    }
}
