//! The first user of a new desk.
ghost use Rattle.std.specs.Prelude.{◌≡◌, IfOk, IfErr};
ghost use Rattle.clap.specs.Words.{App, found_of, rows_of};
ghost use Rattle.mpw_geom.specs.Name.{IsName};
ghost use Rattle.mpw_settings.specs.Forms.{HasForm, with_officer};
ghost use Rattle.mpw_settings.specs.Settings.{GivesNone, GivesOfficer, IsFaultOf};

use crate::fault::SettingsFault;
use crate::options::{required_option, usage, value_of, with_option};
use clap::{ArgMatches, Command};
use mpw_geom::{Name, NameFault};
use mpw_requests::{Digest, read_digest};
use std::alloc::{AllocError, Global};

/// The first user of a new desk, and the digest of its token.
#[derive(Drop)]
pub struct Officer {
    /// The user's name.
    pub name: Name,
    /// The SHA-256 of the user's token.
    pub digest: Digest,
}

/// The subcommand with the options of an officer.
///
/// # Errors
/// If memory runs out.
pub fn with_officer<'a>(alloc: Global, command: Command<'a>) -> Result<Command<'a>, AllocError>
    ensures { IfOk result (λ with. (app : App) → HasForm app command.entry → HasForm (with_officer app) with) }
{
    let officer = required_option(alloc, "officer", "NAME", "The first user's name");
    let digest = required_option(
        alloc,
        "digest",
        "HEX",
        "The SHA-256 of the first user's token, 64 hexadecimal digits",
    );
    with_option(with_option(command, officer)?, digest)
}

/// The officer's name that a text is.
fn read_name(alloc: Global, text: &str) -> Result<Name, SettingsFault>
    ensures ok { IfOk result (λ name. (name ≡ text.now) × IsName name) }
    ensures refused { IfErr result (IsFaultOf (IsName text.now → ⊥)) }
{
    match Name::read(alloc, text.as_bytes()) {
        Ok(officer) => Ok(officer),
        Err(NameFault::BadName) => Err(usage(String::from_str(
            alloc,
            "error: --officer takes a name of 1 to 255 visible ASCII characters",
        ))),
        Err(NameFault::Memory) => Err(SettingsFault::Memory),
    }
}

/// The officer that the options give.
///
/// # Errors
/// `Usage` if they give none, and `Memory`.
pub fn read_officer(alloc: Global, options: &ArgMatches<'_>) -> Result<Officer, SettingsFault>
    ensures ok { IfOk result (GivesOfficer (rows_of (found_of options.now))) }
    ensures refused { IfErr result (IsFaultOf (GivesNone (GivesOfficer (rows_of (found_of options.now))))) }
{
    let text = value_of(alloc, options, "officer")?;
    let digits = value_of(alloc, options, "digest")?;
    let name = read_name(alloc, text)?;
    match read_digest(digits) {
        Some(digest) => Ok(Officer { name, digest }),
        None => Err(usage(String::from_str(alloc, "error: --digest takes 64 hexadecimal digits"))),
    }
}
