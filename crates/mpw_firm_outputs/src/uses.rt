//! That no output is one of the files that are read, or another output.
ghost use Rattle.std.specs.Prelude.{◌≡◌, is_some, IfOk, IfErr, IfSome};
ghost use Rattle.mpw_firm_outputs.specs.Apart.{names_of, one_file_text};
ghost use Rattle.mpw_firm_outputs.specs.Outputs.{AreApart, is_among};
ghost use Rattle.mpw_firm_messages.specs.Told.{IsMisuse, Misuses};

use crate::outputs::Outputs;
use crate::spot::are_one;
use mpw_firm_messages::{FirmFault, misuse};
use std::alloc::{AllocError, Global};

/// A file with what it is used for.
#[derive(Clone, Copy, Drop)]
pub struct Use<'a> {
    /// What it is used for, as that is printed.
    pub what: &'a str,
    /// Its name.
    pub name: &'a str,
}

/// The first of these files to which a name leads too.
fn same_as<'a, O: Outputs>(
    outputs: &O,
    alloc: Global,
    uses: &[Use<'a>],
    name: &str,
) -> Result<Option<Use<'a>>, AllocError>
    ensures { IfOk result (λ found. IfSome (O.files outputs.now) (λ leads. is_some found ≡ is_among leads (names_of uses.now) name.now)) }
{
    let spot = outputs.spot(alloc, name)?;
    for other in uses {
        if are_one(&outputs.spot(alloc, other.name)?, &spot) {
            return Ok(Some(*other));
        }
    }
    Ok(None)
}

/// What is printed about an output that is a file which is used otherwise too.
#[tactic(auto, unfolding(crate::specs::Apart::one_file_text))]
fn one_file(alloc: Global, out: &Use<'_>, other: &Use<'_>) -> FirmFault
    ensures { Misuses (one_file_text out.now other.now) result }
{
    let (what, name, over, there) = (out.what, out.name, other.what, other.name);
    misuse(format!(in alloc;
        "error: {what} can't be written over {over}: {name} and {there} are one file"
    ))
}

/// Refuses an output that is one of the inputs, or an output before it. It asks for each file of each output where it leads.
///
/// # Errors
/// `Usage`, with a text that names both; and `Memory`.
pub fn apart<O: Outputs>(
    outputs: &O,
    alloc: Global,
    inputs: &[Use<'_>],
    outs: &[Use<'_>],
) -> Result<(), FirmFault>
    ensures apart { IfOk result (λ _. AreApart (O.files outputs.now) (names_of inputs.now) (names_of outs.now)) }
    ensures refused { IfErr result IsMisuse }
{
    let mut taken = Vec::new(alloc);
    taken.extend_from_slice(inputs)?;
    for out in outs {
        if let Some(other) = same_as(outputs, alloc, taken.as_slice(), out.name)? {
            return Err(one_file(alloc, out, &other));
        }
        taken.push(*out).map_err(AllocError::from)?;
    }
    Ok(())
}
