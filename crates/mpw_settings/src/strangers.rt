//! The options of what strangers may use, and the limits that they give.
ghost use Rattle.std.specs.Prelude.{◌≡◌, IfOk, IfErr};
ghost use Rattle.clap.specs.Words.{App, found_of, rows_of};
ghost use Rattle.mpw_settings.specs.Forms.{HasForm, with_strangers};
ghost use Rattle.mpw_settings.specs.Settings.{GivesNone, GivesStrangers, IsFaultOf, are_limited};

use crate::fault::SettingsFault;
use crate::options::{free_option, has_value, number_or, with_option};
use crate::service::Strangers;
use clap::{ArgMatches, Command};
use std::alloc::{AllocError, Global};

/// The bytes of a megabyte.
pub const MEGABYTE: u64 = 1_048_576;

/// The most payloads of strangers, in megabytes.
pub const MAX_STRANGER_MEMORY: u32 = 4096;

/// The most lines of strangers in a second.
pub const MAX_STRANGER_RATE: u32 = 10_000;

/// The least time for a login, in seconds.
pub const MIN_LOGIN: u32 = 10;

/// The longest time for a login, in seconds.
pub const MAX_LOGIN: u32 = 3600;

/// The subcommand with the options of what strangers may use.
///
/// # Errors
/// If memory runs out.
pub fn with_strangers<'a>(alloc: Global, command: Command<'a>) -> Result<Command<'a>, AllocError>
    ensures { IfOk result (λ with. (app : App) → HasForm app command.entry → HasForm (with_strangers app) with) }
{
    let memory = free_option(
        alloc,
        "stranger-memory",
        "MB",
        "How many MB of payloads all connections that never logged in may send together, 1 to 4096; 64 with --ongoing",
    );
    let rate = free_option(
        alloc,
        "stranger-rate",
        "LINES",
        "How many lines a second all connections that never logged in may send together, 1 to 10000; 20 with --ongoing",
    );
    let login = free_option(
        alloc,
        "login-limit",
        "SECONDS",
        "Closes a connection that doesn't log in for so long, 10 to 3600; 120 with --ongoing",
    );
    let command = with_option(with_option(command, memory)?, rate)?;
    with_option(command, login)
}

/// Whether strangers are limited: if the service goes on, or if one of their options is given.
fn are_limited(options: &ArgMatches<'_>, is_ongoing: bool) -> bool
    ensures { result ≡ are_limited is_ongoing (rows_of (found_of options.now)) }
{
    is_ongoing
        || has_value(options, "stranger-memory")
        || has_value(options, "stranger-rate")
        || has_value(options, "login-limit")
}

/// What strangers may use by the options, if they are limited.
///
/// # Errors
/// `Usage` if the options give no such limits, and `Memory`.
pub fn read_strangers(
    alloc: Global,
    options: &ArgMatches<'_>,
    is_ongoing: bool,
) -> Result<Option<Strangers>, SettingsFault>
    ensures ok { IfOk result (GivesStrangers is_ongoing (rows_of (found_of options.now))) }
    ensures refused { IfErr result (IsFaultOf (GivesNone (GivesStrangers is_ongoing (rows_of (found_of options.now))))) }
{
    if !are_limited(options, is_ongoing) {
        return Ok(None);
    }
    let memory = number_or(
        alloc,
        options,
        "stranger-memory",
        (1, MAX_STRANGER_MEMORY),
        64,
    )?;
    let rate = number_or(alloc, options, "stranger-rate", (1, MAX_STRANGER_RATE), 20)?;
    let login = number_or(alloc, options, "login-limit", (MIN_LOGIN, MAX_LOGIN), 120)?;
    Ok(Some(Strangers {
        memory: u64::from(memory) * MEGABYTE,
        rate,
        login,
    }))
}
