//! That no output is one of the inputs, or another output.
ghost use Rattle.std.specs.Prelude.{◌≡◌, map, option_map, IfOk, IfErr};
ghost use Rattle.std.specs.String.{string_bytes};
ghost use Rattle.mpw_firm_outputs.specs.Outputs.{AreApart};
ghost use Rattle.mpw_firm.specs.Uses.{check_inputs, check_outputs, input_name, outputs_of, stitch_inputs, stitch_outputs};
ghost use Rattle.mpw_firm_outputs.specs.Apart.{names_of};
ghost use Rattle.mpw_firm_messages.specs.Told.{IsMisuse};

use mpw_firm_messages::FirmFault;
use mpw_firm_options::{Options, StitchOptions};
use mpw_firm_outputs::{Outputs, Use, apart};
use std::alloc::{AllocError, Global};

/// A file that is read, or the standard input if it is `-`.
fn input<'a>(what: &'a str, name: &'a str) -> Use<'a>
    ensures { result.name.now ≡ input_name name.entry.now }
{
    if name == "-" {
        Use {
            what,
            name: "/dev/stdin",
        }
    } else {
        Use { what, name }
    }
}

/// The outputs of a command: the standard output, and the files that are wanted.
fn outputs_with<'a>(
    alloc: Global,
    report: &'a Option<String>,
    picture: Option<&'a str>,
) -> Result<Vec<Use<'a>>, AllocError>
    ensures { IfOk result (λ uses. names_of uses.items ≡ outputs_of (option_map string_bytes report.entry.now) (option_map (λ name. name.now) picture.entry)) }
{
    let mut uses = Vec::new(alloc);
    uses.push(Use {
        what: "what is printed",
        name: "/dev/stdout",
    })?;
    if let Some(report) = report {
        uses.push(Use {
            what: "the report",
            name: report.as_str(),
        })?;
    }
    if let Some(name) = picture {
        uses.push(Use {
            what: "the picture",
            name,
        })?;
    }
    Ok(uses)
}

/// Refuses a check of which an output is one of its inputs, or another output.
///
/// # Errors
/// `Usage`, with a text that names both; and `Memory`.
pub fn check_apart<O: Outputs>(
    outputs: &O,
    alloc: Global,
    options: &Options,
) -> Result<(), FirmFault>
    ensures apart { IfOk result (λ _. AreApart (O.files outputs.now) (check_inputs options.now) (check_outputs options.now)) }
    ensures refused { IfErr result IsMisuse }
{
    let picture = match &options.picture {
        Some(wanted) => Some(wanted.file.as_str()),
        None => None,
    };
    let inputs = [
        input("the deck", options.deck.as_str()),
        input("the library", options.file.as_str()),
    ];
    let outs = outputs_with(alloc, &options.report, picture)?;
    apart(outputs, alloc, &inputs, outs.as_slice())
}

/// The files of parts.
fn parts_of<'a>(alloc: Global, files: &'a [String]) -> Result<Vec<Use<'a>>, AllocError>
    ensures { IfOk result (λ uses. names_of uses.items ≡ map (λ file. input_name (string_bytes file)) files.entry.now) }
{
    let mut uses = Vec::new(alloc);
    for file in files {
        uses.push(input("a part", file.as_str()))?;
    }
    Ok(uses)
}

/// Refuses parts of which one is an output, or two outputs that are one file.
///
/// # Errors
/// `Usage`, with a text that names both; and `Memory`.
pub fn stitch_apart<O: Outputs>(
    outputs: &O,
    alloc: Global,
    options: &StitchOptions,
) -> Result<(), FirmFault>
    ensures apart { IfOk result (λ _. AreApart (O.files outputs.now) (stitch_inputs options.now) (stitch_outputs options.now)) }
    ensures refused { IfErr result IsMisuse }
{
    let inputs = parts_of(alloc, options.files.as_slice())?;
    let outs = outputs_with(alloc, &options.report, None)?;
    apart(outputs, alloc, inputs.as_slice(), outs.as_slice())
}
