//! The program of a firm: `mpw check --deck DECK --top STRUCTURE FILE` checks a structure of a GDSII library under a deck, and
//! prints its markers as a desk lists them; with `--report OUT` it writes them to a file too, as a report database of KLayout's.
//! With `--tiles` it checks some columns of the layout, and prints their part; `mpw stitch PART..` prints the markers of the whole.
//! With `--summary` it prints how many markers each rule has instead of the markers.
//! With `--picture OUT` it draws what was checked, or with `--marker KEY` what is around a marker, as SVG.
#![tactic(auto)]

ghost use Rattle.std.specs.Prelude.{◌≡◌, ◌∷◌, [], IfOk, IfErr};
ghost use Rattle.std.specs.Process.{exit_status};
ghost use Rattle.mpw_firm.specs.Came.{Ends, IsCheckDone, IsDone, IsDoneOf, IsDoneOfSome, IsStitched};
ghost use Rattle.mpw_firm_outputs.specs.Outputs.{on_output, Grows};
ghost use Rattle.mpw_firm_messages.specs.Told.{IsMisuse, OutputFails};

mod apart;
mod asked;
mod checked;
mod drawing;
mod faulty;
mod found;
mod grid;
mod key;
mod laps;
mod laws;
mod line;
mod memory;
mod part;
mod picture;
mod progress;
mod report;
mod stitch;
mod whole;

use apart::{check_apart, stitch_apart};
use asked::check;
use mpw_firm_messages::{FirmFault, exit_status};
use mpw_firm_options::{Asked, Options, Portion, StitchOptions, read_options};
use mpw_firm_outputs::{Host, Outputs, Place, Space, Text, put};
use part::check_range;
use std::alloc::Global;
use std::process::ExitCode;
use std::thread::Threads;
use std::{env, io};
use stitch::stitch;

/// The words of the command line.
fn words(rt: &HostRuntime) -> Result<Vec<String>, FirmFault>
    ensures { IfErr result IsMisuse }
{
    match env::args(rt) {
        Ok(arguments) => Ok(arguments.collect(rt.alloc())?),
        Err(error) if error.kind() == io::ErrorKind::OutOfMemory => Err(FirmFault::Memory),
        Err(_) => Err(FirmFault::Usage(String::from_str(
            rt.alloc(),
            "error: an argument is not valid UTF-8",
        )?)),
    }
}

/// Prints the help or the version.
fn print_told<O: Outputs>(outputs: &mut O, alloc: Global, text: &str) -> Result<usize, FirmFault>
    ensures told { IfOk result (λ found. Grows (O.kept outputs.old) (O.kept outputs.new) (on_output text.now ∷ []) × (found ≡ 0)) }
    ensures failed { IfErr result OutputFails }
{
    put(outputs, alloc, Place::Standard, &Text::Told(text))?;
    Ok(0)
}

/// Checks the whole, or the columns that are asked for, if no output is an input or another output.
fn check_asked<O: Outputs>(
    rt: &HostRuntime,
    threads: &(impl Threads + Sync),
    outputs: &mut O,
    options: &Options,
) -> Result<usize, FirmFault>
    ensures { IfOk result (IsCheckDone options.now options.now.portion (O.kept outputs.old) (O.kept outputs.new)) }
{
    check_apart(outputs, rt.alloc(), options)?;
    match &options.portion {
        Portion::Whole(choices) => check(rt, threads, outputs, options, choices),
        Portion::Columns(range) => check_range(rt, threads, outputs, options, *range),
    }
}

/// Stitches the parts, if none of them is an output.
fn stitch_asked<O: Outputs>(
    rt: &HostRuntime,
    threads: &(impl Threads + Sync),
    outputs: &mut O,
    options: &StitchOptions,
) -> Result<usize, FirmFault>
    ensures { IfOk result (IsStitched options.now (O.kept outputs.old) (O.kept outputs.new)) }
{
    stitch_apart(outputs, rt.alloc(), options)?;
    stitch(rt, threads, outputs, options)
}

/// Does what is asked for, and returns how many markers there are.
fn done<O: Outputs>(
    rt: &HostRuntime,
    threads: &(impl Threads + Sync),
    outputs: &mut O,
    asked: &Asked,
) -> Result<usize, FirmFault>
    ensures { IfOk result (IsDone asked.now (O.kept outputs.old) (O.kept outputs.new)) }
{
    match asked {
        Asked::Check(options) => check_asked(rt, threads, outputs, options),
        Asked::Stitch(options) => stitch_asked(rt, threads, outputs, options),
        Asked::Told(text) => print_told(outputs, rt.alloc(), text.as_str()),
    }
}

/// Does what these words ask for, and returns how many markers there are.
fn done_of<O: Outputs>(
    rt: &HostRuntime,
    threads: &(impl Threads + Sync),
    outputs: &mut O,
    words: &[&str],
) -> Result<usize, FirmFault>
    ensures { IfOk result (IsDoneOf (λ word. word.now) words.now (O.kept outputs.old) (O.kept outputs.new)) }
{
    let asked = read_options(rt.alloc(), words)?;
    done(rt, threads, outputs, &asked)
}

/// Does what the command line asks for, and returns how many markers there are.
fn run<O: Outputs>(
    rt: &HostRuntime,
    threads: &(impl Threads + Sync),
    outputs: &mut O,
) -> Result<usize, FirmFault>
    ensures { IfOk result (IsDoneOfSome (O.kept outputs.old) (O.kept outputs.new)) }
{
    let words = words(rt)?;
    let words: Vec<&str> = words.iter().map(|word| word.as_str()).collect(rt.alloc())?;
    done_of(rt, threads, outputs, words.as_slice())
}

/// Does what the command line asks for, prints a fault on the standard error, and gives the exit status.
fn ended<O: Outputs>(rt: &HostRuntime, threads: &(impl Threads + Sync), outputs: &mut O) -> ExitCode
    ensures { Ends (O.kept outputs.old) (O.kept outputs.new) (exit_status result) }
{
    let ended = run(rt, threads, outputs);
    if let Err(fault) = &ended {
        let _ = eprintln!(rt; "{fault}");
    }
    ExitCode::from(exit_status(&ended))
}

/// Exits with 0 without markers and 1 with some, 2 at a usage fault, 3 if a file or a device failed, 4 if the library,
/// the deck or a part has a fault, and 5 if memory ran out; with 0 after the help and the version too. A fault is printed on the
/// standard error.
fn main(rt: HostRuntime) -> ExitCode {
    let space = Space::new();
    ended(&rt, &rt, &mut Host::new(&rt, &space))
}
