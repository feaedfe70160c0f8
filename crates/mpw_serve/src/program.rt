//! The program: its command line, its input and its output.
ghost use Rattle.std.specs.Prelude.{◌≡◌, ◌≢◌, ◌⊎◌, map};
ghost use Rattle.std.specs.Process.{exit_status};
ghost use Rattle.mpw_serve.specs.Status.{EndsAsServed, ExitsWith, IsStatus, ReadsCommandLine, ReadsWords, devices, exit_of, script_end, status_of};

use crate::executor::Executor;
use crate::fault::{ProgramFault, exit_status};
use crate::progress::Progress;
use crate::script::serve_script;
use crate::serve::{End, Served};
use mpw_devices::{Counted, Sink, Source};
use mpw_events::Handler;
use mpw_settings::{Officer, Settings, SettingsFault, read_settings};
use mpw_wire::WireFault;
use std::alloc::{AllocError, Global};
use std::env;
use std::io::{self, BufReader, BufWriter, Read, Write};
use std::process::ExitCode;
use std::thread::Threads;

/// The words of the command line.
fn words(rt: &HostRuntime) -> Result<Vec<String>, SettingsFault> {
    match env::args(rt) {
        Ok(arguments) => Ok(arguments.collect(rt.alloc())?),
        Err(error) if error.kind() == io::ErrorKind::OutOfMemory => Err(SettingsFault::Memory),
        Err(_) => Err(SettingsFault::Usage(String::from_str(
            rt.alloc(),
            "error: an argument is not valid UTF-8",
        )?)),
    }
}

/// The settings that these words of a command line give.
fn settings_by_words<'w>(alloc: Global, words: &'w [&'w str]) -> Result<Settings, ProgramFault>
    ensures { ReadsWords (map (λ word. word.now) words.entry.now) result }
{
    match read_settings(alloc, words) {
        Ok(settings) => Ok(settings),
        Err(fault) => Err(ProgramFault::from(fault)),
    }
}

/// The settings of the command line. No clause says which words it has.
///
/// # Errors
/// `Usage` if its words give no settings or aren't text. `Memory` if out of memory.
pub fn command_line(rt: &HostRuntime) -> Result<Settings, ProgramFault>
    ensures { ReadsCommandLine result }
{
    let words = words(rt)?;
    let words: Vec<&str> = words.iter().map(|word| word.as_str()).collect(rt.alloc())?;
    settings_by_words(rt.alloc(), words.as_slice())
}

/// Prints a fault on the standard error. It returns the fault's exit status.
pub fn tell(rt: &HostRuntime, fault: &ProgramFault) -> ExitCode
    ensures { exit_status result ≡ status_of fault.now }
{
    let _ = eprintln!(rt; "{fault}");
    ExitCode::from(fault.status())
}

/// Prints the help on the standard error, since the standard output has the replies alone. It returns exit status 2: nothing was served.
pub fn print_help(rt: &HostRuntime, text: &str) -> ExitCode
    ensures { exit_status result ≡ 2 }
{
    let _ = eprint!(rt; "{text}");
    ExitCode::from(2)
}

/// How the program ends, by the result of the script.
fn script_end(came: Result<Served, AllocError>) -> Result<End, ProgramFault>
    ensures { result ≡ script_end came }
{
    match came {
        Ok(served) => match served.ended {
            Ok(end) => Ok(end),
            Err(fault) => Err(ProgramFault::Wire(fault)),
        },
        Err(_) => Err(ProgramFault::Memory),
    }
}

/// Serves a script of this officer from the reader to the writer.
fn serve<H: Handler + Drop, T: Threads + Sync, P: Progress + Drop, R: Source, W: Sink>(
    executor: Executor<'_, T, P>,
    officer: Officer,
    reader: &mut R,
    writer: &mut W,
) -> Result<End, ProgramFault>
    ensures { EndsAsServed officer (devices R.remaining R.failures W.contents W.failures W.pending reader.old writer.old) (devices R.remaining R.failures W.contents W.failures W.pending reader.new writer.new) result }
{
    script_end(serve_script::<H, _, _, _, _>(executor, officer, reader, writer))
}

/// The exit status by how the program ended. It prints a fault.
fn exit(rt: &HostRuntime, ended: &Result<End, ProgramFault>) -> ExitCode
    ensures { exit_status result ≡ exit_of ended.now }
{
    if let Err(fault) = ended {
        return tell(rt, fault);
    }
    ExitCode::from(exit_status(ended))
}

/// Serves a script of this officer from the reader to the writer. It prints a fault on the standard error.
///
/// The exit status is 0 if the connection ended, 3 if a device failed, and 5 if memory ran out.
pub fn run_script_over<
    H: Handler + Drop,
    T: Threads + Sync,
    P: Progress + Drop,
    R: Source,
    W: Sink,
>(
    rt: &HostRuntime,
    executor: Executor<'_, T, P>,
    officer: Officer,
    reader: &mut R,
    writer: &mut W,
) -> ExitCode
    ensures status { ExitsWith officer (devices R.remaining R.failures W.contents W.failures W.pending reader.old writer.old) (devices R.remaining R.failures W.contents W.failures W.pending reader.new writer.new) (exit_status result) }
    ensures failed { (R.failures reader.new ≢ R.failures reader.old) ⊎ (W.failures writer.new ≢ W.failures writer.old) → exit_status result ≡ 3 }
{
    let ended = serve::<H, _, _, _, _>(executor, officer, reader, writer);
    exit(rt, &ended)
}

/// Buffers the input and the output, and then does what [`run_script_over`] does. It returns that exit status.
pub fn run_script<
    H: Handler + Drop,
    T: Threads + Sync,
    P: Progress + Drop,
    R: Read + Drop,
    W: Write + Drop,
>(rt: &HostRuntime, executor: Executor<'_, T, P>, officer: Officer, input: R, output: W) -> ExitCode
    ensures { IsStatus (exit_status result) }
{
    let Ok(input) = BufReader::new(rt.alloc(), input) else {
        return tell(rt, &ProgramFault::Memory);
    };
    let Ok(output) = BufWriter::new(rt.alloc(), output) else {
        return tell(rt, &ProgramFault::Memory);
    };
    run_script_over::<H, _, _, _, _>(
        rt,
        executor,
        officer,
        &mut Counted::new(input),
        &mut Counted::new(output),
    )
}
