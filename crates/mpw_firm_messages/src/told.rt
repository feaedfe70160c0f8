//! What is printed on the standard error. `specs/Told.antt` and `specs/ToldFaults.antt` have what contracts say of it.
ghost use Rattle.std.specs.Prelude.{◌≡◌, ℕ, List, true, false, IfOk};
ghost use Rattle.std.specs.IoError.{error_kind};
ghost use Rattle.std.specs.String.{string_bytes};
ghost use Rattle.mpw_records.specs.Words.{fault_text};
ghost use Rattle.mpw_firm_messages.specs.Status.{is_full, is_memory};
ghost use Rattle.mpw_firm_messages.specs.Told.{CannotBeRead, CannotBeWritten, Fails, Misuses, Refuses, Tells, output_text, reason_text, space_text, unread_text, unwritten_text};
ghost use Rattle.mpw_firm_messages.specs.declared.fault.FirmFault.TheVariants.{Memory};
ghost use Rattle.mpw_firm_messages.specs.ToldFaults.{check_told, deck_text, deck_told, library_text, line_sentence, named_text, outside_text, record_text, spaced, structure_text};

use crate::colon::is_of_colon;
use crate::fault::{FirmFault, is_full, is_memory};
use crate::place::structure_at;
use crate::sentences::{of_colon, of_deck, of_library, of_structure};
use mpw_check::CheckFault;
use mpw_deck::{DeckFault, DeckKind};
use mpw_geom::{Name, Names};
use mpw_hier::HierFault;
use mpw_records::ReadFault;
use std::alloc::{AllocError, Global};
use std::io;

/// A fault of a library, a deck or parts that was printed, or out of memory.
pub fn refusal(text: Result<String, AllocError>) -> FirmFault
    ensures { (bytes : List ℕ) → IfOk text (λ t. string_bytes t ≡ bytes) → Refuses bytes result }
{
    match text {
        Ok(text) => FirmFault::Refused(text),
        Err(_) => FirmFault::Memory,
    }
}

/// A fault of the command line that was printed, or out of memory.
pub fn misuse(text: Result<String, AllocError>) -> FirmFault
    ensures { (bytes : List ℕ) → IfOk text (λ t. string_bytes t ≡ bytes) → Misuses bytes result }
{
    match text {
        Ok(text) => FirmFault::Usage(text),
        Err(_) => FirmFault::Memory,
    }
}

/// The failure of a file or a device that was printed, or out of memory.
pub fn failure(text: Result<String, AllocError>) -> FirmFault
    ensures { (bytes : List ℕ) → IfOk text (λ t. string_bytes t ≡ bytes) → Fails bytes result }
{
    match text {
        Ok(text) => FirmFault::Device(text),
        Err(_) => FirmFault::Memory,
    }
}

/// The names, with a space before each.
fn list_of_names(alloc: Global, names: &Names) -> Result<String, AllocError>
    ensures { IfOk result (λ text. string_bytes text ≡ spaced names.now) }
{
    let mut text = String::new(alloc);
    for name in names.as_slice() {
        text.push_str(" ")?;
        text.push_str(name.as_str())?;
    }
    Ok(text)
}

/// What is printed about a deck's line.
#[tactic(auto, unfolding(crate::specs::ToldFaults::deck_text))]
fn line_fault(alloc: Global, file: &str, fault: DeckFault, sentence: &str) -> FirmFault
    ensures { Refuses (deck_text file.now fault sentence.now) result }
{
    refusal(format!(in alloc; "{file}: {fault}: {sentence}"))
}

/// What the fault of a deck's line means and what to do.
fn line_sentence(alloc: Global, fault: DeckFault, text: &[u8]) -> Result<&'static str, AllocError>
    ensures { IfOk result (λ sentence. sentence.now ≡ line_sentence fault text.now) }
{
    if is_of_colon(alloc, fault, text)? {
        Ok(of_colon())
    } else {
        Ok(of_deck(fault.kind))
    }
}

/// What is printed about a fault of a deck's text.
pub fn deck_fault(alloc: Global, file: &str, fault: DeckFault, text: &[u8]) -> FirmFault
    ensures { Tells (deck_told file.now fault text.now) result }
{
    match fault.kind {
        DeckKind::Memory => FirmFault::Memory,
        _ => match line_sentence(alloc, fault, text) {
            Ok(sentence) => line_fault(alloc, file, fault, sentence),
            Err(_) => FirmFault::Memory,
        },
    }
}

/// What is printed if names are outside the library.
#[tactic(auto, unfolding(crate::specs::ToldFaults::outside_text))]
fn outside(alloc: Global, file: &str, names: &Names) -> FirmFault
    ensures { Refuses (outside_text file.now (spaced names.now)) result }
{
    match list_of_names(alloc, names) {
        Ok(names) => refusal(format!(in alloc;
            "{file}: structures that the library doesn't have:{names}: a check by itself needs \
            them in the file"
        )),
        Err(_) => FirmFault::Memory,
    }
}

/// What is printed about a fault of records in a structure of that name.
#[tactic(auto, unfolding(crate::specs::ToldFaults::named_text))]
fn named_fault(
    alloc: Global,
    file: &str,
    fault: ReadFault,
    name: &Name,
    sentence: &str,
) -> FirmFault
    ensures { Refuses (named_text file.now (fault_text fault) name.now sentence.now) result }
{
    refusal(format!(in alloc; "{file}: {fault} in {name}: {sentence}"))
}

/// What is printed about a fault of records in no structure.
#[tactic(auto, unfolding(crate::specs::ToldFaults::record_text))]
fn record_fault(alloc: Global, file: &str, fault: ReadFault, sentence: &str) -> FirmFault
    ensures { Refuses (record_text file.now (fault_text fault) sentence.now) result }
{
    refusal(format!(in alloc; "{file}: {fault}: {sentence}"))
}

/// What is printed about a fault of a library's records: the code and the byte, the structure, and what it means.
pub fn library_fault(alloc: Global, file: &str, fault: ReadFault, text: &[u8]) -> FirmFault
    ensures { Refuses (library_text file.now fault text.now) result }
{
    let sentence = of_library(fault, text);
    match structure_at(alloc, text, fault.offset) {
        Ok(Some(name)) => named_fault(alloc, file, fault, &name, sentence),
        Ok(None) => record_fault(alloc, file, fault, sentence),
        Err(_) => FirmFault::Memory,
    }
}

/// What is printed about a fault of the structures below a top.
#[tactic(auto, unfolding(crate::specs::ToldFaults::structure_text))]
fn structure_fault(alloc: Global, file: &str, top: &str, fault: HierFault) -> FirmFault
    ensures { Refuses (structure_text file.now top.now fault) result }
{
    let sentence = of_structure(fault);
    refusal(format!(in alloc; "{file}: {top}: {fault}: {sentence}"))
}

/// What is printed about a library of that text that can't be checked.
pub fn check_fault(
    alloc: Global,
    file: &str,
    top: &str,
    fault: &CheckFault,
    text: &[u8],
) -> FirmFault
    ensures { Tells (check_told file.now top.now fault.now text.now) result }
{
    match fault {
        CheckFault::Memory => FirmFault::Memory,
        CheckFault::Library(fault) => library_fault(alloc, file, *fault, text),
        CheckFault::Outside(names) => outside(alloc, file, names),
        CheckFault::Structure(fault) => structure_fault(alloc, file, top, *fault),
    }
}

/// What is printed about a file or a device that can't be read, for that reason.
#[tactic(auto, unfolding(crate::specs::Told::unread_text))]
fn unread(alloc: Global, file: &str, reason: &str) -> FirmFault
    ensures { Fails (unread_text file.now reason.now) result }
{
    failure(format!(in alloc; "{file}: can't be read: {reason}"))
}

/// Why an output can't be written that has no space left.
#[tactic(auto, unfolding(crate::specs::Told::space_text))]
fn no_space() -> &'static str
    ensures { result.now ≡ space_text }
{
    "no space left: free some, or write to another disk"
}

/// Why an output can't be written: no space is left, or else its device failed.
#[tactic(auto, unfolding(crate::specs::Told::device_text))]
pub fn write_reason(is_full: bool) -> &'static str
    ensures { result.now ≡ reason_text is_full }
{
    if is_full {
        no_space()
    } else {
        "its device failed"
    }
}

/// What is printed about a file that can't be written, for that reason.
#[tactic(auto, unfolding(crate::specs::Told::unwritten_text))]
pub fn unwritten(alloc: Global, file: &str, reason: &str) -> FirmFault
    ensures { Fails (unwritten_text file.now reason.now) result }
{
    failure(format!(in alloc; "{file}: can't be written: {reason}"))
}

/// What the system says of an error. That memory is out has no text of its own.
fn reason_of(alloc: Global, error: io::Error) -> Result<String, AllocError>
    ensures { IfOk result (λ _. is_memory (error_kind error) ≡ false) }
{
    if is_memory(error.kind()) {
        return Err(AllocError);
    }
    Ok(error.to_string(alloc)?)
}

/// The fault of a file or a device that can't be read, with what the system says of it. Out of memory stays that.
pub fn unread_by(alloc: Global, file: &str, error: io::Error) -> FirmFault
    ensures read { CannotBeRead file.now result }
    ensures memory { is_memory (error_kind error) ≡ true → result ≡ Memory }
{
    match reason_of(alloc, error) {
        Ok(reason) => unread(alloc, file, reason.as_str()),
        Err(_) => FirmFault::Memory,
    }
}

/// The fault of a file that can't be written, with what the system says of it; if no space is left, with that. Out of memory stays that.
pub fn unwritten_by(alloc: Global, file: &str, error: io::Error) -> FirmFault
    ensures written { CannotBeWritten file.now result }
    ensures memory { is_memory (error_kind error) ≡ true → result ≡ Memory }
    ensures full { is_full (error_kind error) ≡ true → Fails (unwritten_text file.now space_text) result }
{
    if is_full(error.kind()) {
        return unwritten(alloc, file, no_space());
    }
    match reason_of(alloc, error) {
        Ok(reason) => unwritten(alloc, file, reason.as_str()),
        Err(_) => FirmFault::Memory,
    }
}

/// The sentence about the standard output if no space is left.
#[tactic(auto, unfolding(crate::specs::Told::output_space_text))]
fn full_output(alloc: Global) -> FirmFault
    ensures { Fails (output_text true) result }
{
    let reason = no_space();
    failure(format!(in alloc; "the standard output can't be written: {reason}"))
}

/// The sentence about the standard output if it failed otherwise.
#[tactic(auto, unfolding(crate::specs::Told::output_device_text))]
fn failed_output(alloc: Global) -> FirmFault
    ensures { Fails (output_text false) result }
{
    failure(String::from_str(alloc, "the standard output failed"))
}

/// The sentence about the standard output if it can't be written: no space is left, or else it failed.
pub fn output_fault(alloc: Global, is_full: bool) -> FirmFault
    ensures { Fails (output_text is_full) result }
{
    if is_full {
        full_output(alloc)
    } else {
        failed_output(alloc)
    }
}
