//! The options of `serve`, and the service that they give.
ghost use Rattle.std.specs.Prelude.{IfOk, IfErr};
ghost use Rattle.std.specs.String.{string_bytes};
ghost use Rattle.clap.specs.Words.{App, found_of, rows_of};
ghost use Rattle.mpw_settings.specs.Forms.{HasForm, IsOption, idle_option, serve_app, with_further, with_required};
ghost use Rattle.mpw_settings.specs.Settings.{GivesAddress, GivesLog, GivesNone, GivesService, IsFaultOf};

use crate::fault::SettingsFault;
use crate::officer::{read_officer, with_officer};
use crate::options::{
    flag, free_option, given, is_given, new_command, number_of, required_option, usage, value_of,
    with_option,
};
use crate::service::{Log, MAX_CONNECTIONS, MAX_IDLE, MAX_WORKERS, Service};
use crate::store::{read_store, with_store};
use crate::strangers::{read_strangers, with_strangers};
use clap::{Arg, ArgMatches, Command};
use std::alloc::{AllocError, Global};
use std::net::SocketAddr;

/// The option of the time in which a connection may send nothing.
fn idle_option<'a>(alloc: Global) -> Arg<'a>
    ensures { IsOption idle_option result }
{
    free_option(
        alloc,
        "idle",
        "SECONDS",
        "Ends a connection that sends nothing for so long, 1 to 86400",
    )
    .default_value("3600")
}

/// The subcommand with the options that a service has to be given.
fn with_required<'a>(alloc: Global, command: Command<'a>) -> Result<Command<'a>, AllocError>
    ensures { IfOk result (λ with. (app : App) → HasForm app command.entry → HasForm (with_required app) with) }
{
    let listen = required_option(
        alloc,
        "listen",
        "ADDR",
        "The address of its socket, as 127.0.0.1:7000 or [::1]:7000; at port 0 any free one is taken",
    );
    let connections = required_option(
        alloc,
        "connections",
        "N",
        "How many connections are served, 1 to 64: in all, or with --ongoing at a time",
    );
    let workers = required_option(
        alloc,
        "workers",
        "W",
        "How many workers check tiles, 1 to 16",
    );
    let command = with_option(with_option(command, listen)?, connections)?;
    with_officer(alloc, with_option(command, workers)?)
}

/// The subcommand with the options that a service may be given, but for those of strangers and of a store.
fn with_further<'a>(alloc: Global, command: Command<'a>) -> Result<Command<'a>, AllocError>
    ensures { IfOk result (λ with. (app : App) → HasForm app command.entry → HasForm (with_further app) with) }
{
    let ongoing = flag(
        alloc,
        "ongoing",
        "Goes on when connections end; N is then how many there are at a time",
    );
    let log = free_option(
        alloc,
        "log",
        "FILE",
        "Logs to a file, or with - to the standard error",
    );
    let hold = flag(
        alloc,
        "hold-run",
        "Checks no tile of an unfinished run until an officer requests 'cancel' or 'run'",
    );
    let command = with_option(with_option(command, ongoing)?, idle_option(alloc))?;
    with_option(with_option(command, log)?, hold)
}

/// The subcommand `serve`.
///
/// # Errors
/// If memory runs out.
pub fn serve_command<'a>(alloc: Global) -> Result<Command<'a>, AllocError>
    ensures { IfOk result (HasForm serve_app) }
{
    let command = new_command(alloc, "serve", "Serves connections that share a desk");
    let command = with_further(alloc, with_required(alloc, command)?)?;
    with_store(alloc, with_strangers(alloc, command)?)
}

/// The fault of a text that writes no socket address.
fn no_address(alloc: Global) -> SettingsFault {
    usage(String::from_str(
        alloc,
        "error: --listen takes ADDRESS:PORT, as 127.0.0.1:7000 or [::1]:7000",
    ))
}

/// The text that is given for the address, which writes one. No host's name is looked up.
fn read_listen(alloc: Global, options: &ArgMatches<'_>) -> Result<String, SettingsFault>
    ensures ok { IfOk result (λ listen. GivesAddress (rows_of (found_of options.now)) (string_bytes listen)) }
    ensures refused { IfErr result (IsFaultOf (GivesNone (GivesAddress (rows_of (found_of options.now))))) }
{
    let text = value_of(alloc, options, "listen")?;
    match text.parse::<SocketAddr>() {
        Ok(_) => Ok(String::from_str(alloc, text)?),
        Err(_) => Err(no_address(alloc)),
    }
}

/// Where the log goes.
fn read_log(alloc: Global, options: &ArgMatches<'_>) -> Result<Log, AllocError>
    ensures { IfOk result (GivesLog (rows_of (found_of options.now))) }
{
    match given(options, "log") {
        None => Ok(Log::Nowhere),
        Some(file) if file == "-" => Ok(Log::StandardError),
        Some(file) => Ok(Log::File(String::from_str(alloc, file)?)),
    }
}

/// The service that the options give.
///
/// # Errors
/// `Usage` if they give none, and `Memory`.
pub fn read_service(alloc: Global, options: &ArgMatches<'_>) -> Result<Service, SettingsFault>
    ensures ok { IfOk result (GivesService (rows_of (found_of options.now))) }
    ensures refused { IfErr result (IsFaultOf (GivesNone (GivesService (rows_of (found_of options.now))))) }
{
    let connections = number_of(alloc, options, "connections", 1, MAX_CONNECTIONS)?;
    let workers = number_of(alloc, options, "workers", 1, MAX_WORKERS)?;
    let idle = number_of(alloc, options, "idle", 1, MAX_IDLE)?;
    let is_ongoing = is_given(options, "ongoing");
    let strangers = read_strangers(alloc, options, is_ongoing)?;
    let listen = read_listen(alloc, options)?;
    let log = read_log(alloc, options)?;
    let store = read_store(alloc, options)?;
    let officer = read_officer(alloc, options)?;
    Ok(Service {
        listen,
        connections,
        workers,
        is_ongoing,
        idle: u64::from(idle),
        log,
        officer,
        store,
        strangers,
        holds_run: is_given(options, "hold-run"),
    })
}
