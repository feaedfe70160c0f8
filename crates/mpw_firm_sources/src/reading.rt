//! Files, read to their ends or as far as is needed to refuse them.
ghost use Rattle.std.specs.Prelude.{◌≡◌, ◌≤◌, ◌-◌, ◌^◌, ◌⊎◌, Ok, vec_len, IfOk, IfErr};
ghost use Rattle.mpw_deck.specs.Reading.{deck_of};
ghost use Rattle.mpw_firm_messages.specs.ToldFaults.{IsOfDeck};
ghost use Rattle.mpw_firm_messages.specs.Told.{CannotBeRead, Refuses, great_text};

use crate::front::{Content, Front, read_from};
use crate::record::MOST_BYTES;
use mpw_deck::{Deck, read_deck};
use mpw_firm_messages::{FirmFault, deck_fault, refusal, unread_by};
use std::alloc::Global;
use std::fs::File;
use std::io;

/// The greatest library that a desk takes, in bytes.
const DESK_BYTES: usize = 1 << 24;

/// What is read of a file, or of the standard input if it is `-`.
fn read_named(rt: &HostRuntime, file: &str, content: Content) -> io::Result<Front> {
    if file == "-" {
        read_from(rt.alloc(), &mut rt.stdin(), content)
    } else {
        read_from(rt.alloc(), &mut File::open(rt, file)?, content)
    }
}

/// The same; if a file can't be read, that is reported.
fn read_front(rt: &HostRuntime, file: &str, content: Content) -> Result<Front, FirmFault>
    ensures { IfErr result (CannotBeRead file.now) }
{
    match read_named(rt, file, content) {
        Ok(front) => Ok(front),
        Err(error) => Err(unread_by(rt.alloc(), file, error)),
    }
}

/// The bytes of a file, or of the standard input if it is `-`: to its end, or as far as is needed to refuse it.
///
/// # Errors
/// `Device` if it can't be read, and `Memory`.
pub fn read_file(rt: &HostRuntime, file: &str, content: Content) -> Result<Vec<u8>, FirmFault>
    ensures { IfErr result (CannotBeRead file.now) }
{
    let Front {
        bytes,
        is_endless: _,
    } = read_front(rt, file, content)?;
    Ok(bytes)
}

/// Reports a library that is too great for a desk.
fn tell_size(rt: &HostRuntime, file: &str, bytes: usize) -> io::Result<()> {
    if bytes > DESK_BYTES {
        eprintln!(rt;
            "note: {file} has {bytes} bytes, and the desk takes no library of more than {DESK_BYTES}"
        )?;
    }
    Ok(())
}

/// What is printed about a file that is too great to be read.
#[tactic(auto, unfolding(mpw_firm_messages::specs::Told::great_text))]
fn too_great(alloc: Global, file: &str) -> FirmFault
    ensures { Refuses (great_text file.now) result }
{
    refusal(format!(in alloc;
        "{file}: more than 4294967295 bytes, or without an end: split the library"
    ))
}

/// The bytes of a library's file. One that is too great for a desk is reported on the standard error.
///
/// # Errors
/// As [`read_file`]; and `Refused` if it has more than 2^32 - 1 bytes, or goes on for more than 2^28 after those that were read when its ENDLIB
/// was found.
pub fn read_library(rt: &HostRuntime, file: &str) -> Result<Vec<u8>, FirmFault>
    ensures bytes { IfOk result (λ bytes. vec_len bytes ≤ 2 ^ 32 - 1) }
    ensures refused { IfErr result (λ fault. CannotBeRead file.now fault ⊎ Refuses (great_text file.now) fault) }
{
    let Front { bytes, is_endless } = read_front(rt, file, Content::Library)?;
    if is_endless || bytes.len() > MOST_BYTES {
        return Err(too_great(rt.alloc(), file));
    }
    let _ = tell_size(rt, file, bytes.len());
    Ok(bytes)
}

/// The deck of a file's text.
///
/// # Errors
/// `Refused` at a faulty line, and `Memory`.
pub fn deck_of(alloc: Global, file: &str, text: &[u8]) -> Result<Deck, FirmFault>
    ensures deck { IfOk result (λ deck. deck_of text.now ≡ Ok deck) }
    ensures refused { IfErr result (IsOfDeck file.now text.now) }
{
    match read_deck(alloc, text) {
        Ok(deck) => Ok(deck),
        Err(fault) => Err(deck_fault(alloc, file, fault, text)),
    }
}
