//! Options that may be given, and the files that they name to be written.
ghost use Rattle.std.specs.Prelude.{◌≡◌, ◌≢◌, codes, false, option_map, IfOk, IfErr, IfSome};
ghost use Rattle.std.specs.String.{string_bytes};
ghost use Rattle.std.specs.List.{list_any};
ghost use Rattle.mpw_geom.specs.Names.{name_eq};
ghost use Rattle.mpw_firm_options.specs.OutFiles.{IsOfOut, no_file_text, written_over_text};
ghost use Rattle.mpw_firm_messages.specs.Told.{Misuses};

use clap::{Arg, ArgAction};
use mpw_firm_messages::{FirmFault, misuse};
use std::alloc::Global;

/// An option that may be given, with one value.
pub fn free_option<'a>(alloc: Global, name: &'a str, value: &'a str, help: &'a str) -> Arg<'a> {
    Arg::new(alloc, name)
        .long(name)
        .value_name(value)
        .action(ArgAction::Set)
        .help(help)
}

/// Whether a text is one of these.
pub fn is_among(text: &str, words: &[&str]) -> bool
    ensures { result ≡ list_any (λ word. name_eq word.now text.now) words.now }
{
    for word in words {
        if word.as_bytes() == text.as_bytes() {
            return true;
        }
    }
    false
}

/// What is printed about an option that takes a file, if it names the standard output.
#[tactic(auto, unfolding(crate::specs::OutFiles::no_file_text))]
fn no_file(alloc: Global, option: &str) -> FirmFault
    ensures { Misuses (no_file_text option.now) result }
{
    misuse(format!(in alloc; "error: --{option} takes a file, and not the standard output"))
}

/// What is printed about an option that names a file that is read.
#[tactic(auto, unfolding(crate::specs::OutFiles::written_over_text))]
fn written_over(alloc: Global, option: &str, over: &str) -> FirmFault
    ensures { Misuses (written_over_text option.now over.now) result }
{
    misuse(format!(in alloc; "error: the {option} can't be written over {over}"))
}

/// The file that an option names, which none of the files that are read may be, and not `-`, which is the standard output.
///
/// # Errors
/// `Usage`, with a text that says what is wrong, if it is `-`, and if it is one of those; and `Memory`.
pub fn out_file(
    alloc: Global,
    option: &str,
    file: Option<&str>,
    others: &[&str],
    over: &str,
) -> Result<Option<String>, FirmFault>
    ensures given { IfOk result (λ out. option_map string_bytes out ≡ option_map (λ text. text.now) file.entry) }
    ensures file { IfOk result (λ out. IfSome out (λ text. string_bytes text ≢ codes "-")) }
    ensures apart { IfOk result (λ out. IfSome out (λ text. list_any (λ word. name_eq word.now (string_bytes text)) others.now ≡ false)) }
    ensures refused { IfErr result (IsOfOut (λ word. word.now) option.now over.now others.now (option_map (λ text. text.now) file.entry)) }
{
    let Some(file) = file else {
        return Ok(None);
    };
    if file == "-" {
        return Err(no_file(alloc, option));
    }
    if is_among(file, others) {
        return Err(written_over(alloc, option, over));
    }
    Ok(Some(String::from_str(alloc, file)?))
}
