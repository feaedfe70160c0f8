//! Reads the records of a text one by one, as long as their lengths are sound.
ghost use Rattle.std.specs.Prelude.{◌≡◌, [], ◌∷◌, drop, IfOk, IfSome, IfNone};
ghost use Rattle.mpw_records.specs.Records.{IsSized, front, raw, seen, told_length};
ghost use Rattle.mpw_firm_skipping.specs.Found.{found_in, goes_on, is_of_data};

use crate::cut::from;
use mpw_records::kind::ENDLIB;
use mpw_records::{Code, ReadFault, Record, Records};
use std::marker::Model;

/// The record at an offset of a text, or the fault in its place. Reads at most six bytes.
///
/// # Errors
/// The first fault at that offset, the same one that reading the records of the text finds.
pub fn record_at(text: &[u8], at: usize) -> Result<Record<'_>, ReadFault>
    ensures outcome { seen result ≡ front text.now at }
    ensures sized { IfOk result (λ found. IsSized (raw found)) }
{
    match Records::new(from(text, at)).next() {
        Some(Ok(found)) => Ok(Record {
            offset: at,
            kind: found.kind,
            data_type: found.data_type,
            bytes: found.bytes,
        }),
        Some(Err(fault)) => Err(ReadFault {
            code: fault.code,
            offset: at,
        }),
        None => Err(ReadFault {
            code: Code::Short,
            offset: at,
        }),
    }
}

/// The length in bytes that the record at an offset states.
fn length_at(text: &[u8], at: usize) -> usize
    ensures { result ≡ told_length (drop at text.now) }
{
    match from(text, at) {
        [] => 0,
        [high] => usize::from(*high) * 256,
        [high, low, ..] => usize::from(*high) * 256 + usize::from(*low),
    }
}

/// Whether a fault is one of a record's data, so that the record's length is sound.
fn is_of_data(code: Code) -> bool
    ensures { result ≡ is_of_data code }
{
    matches!(code, Code::BadType | Code::BadSize)
}

/// Whether the next record can be found after this one.
fn goes_on(found: &Result<Record<'_>, ReadFault>) -> bool
    ensures { result ≡ goes_on (seen found.now) }
{
    match found {
        Ok(found) => found.kind != ENDLIB,
        Err(fault) => is_of_data(fault.code),
    }
}

/// The records of a text from an offset on, at most a given number. Contracts see them as a list.
#[derive(Drop)]
pub(crate) struct Finds<'a> {
    text: &'a [u8],
    at: usize,
    left: usize,
}

impl<'a> Model for Finds<'a> {
    ghost use Rattle.std.specs.Prelude.{◌≤◌, List, length};
    ghost use Rattle.mpw_records.specs.Records.{RecordOutcome};
    ghost use Rattle.mpw_firm_skipping.specs.Found.{found_from};

    ghost Value = { List RecordOutcome };

    ghost view = { λ f. found_from f.left f.text.now f.at };

    ghost invariant = { λ f. f.at ≤ length f.text.now };
}

impl<'a> Finds<'a> {
    /// The records of a text, from its front.
    pub fn new(text: &'a [u8]) -> Finds<'a>
        ensures { result ≡ found_in text.entry.now }
    {
        Finds {
            text,
            at: 0,
            left: text.len(),
        }
    }

    /// The next record, or the fault in its place. Reads at most six bytes.
    pub fn next(&mut self) -> Option<Result<Record<'a>, ReadFault>>
        ensures some { IfSome result (λ found. self.old ≡ seen found ∷ self.new) }
        ensures none { IfNone result (self.old ≡ []) }
    {
        if self.left == 0 {
            return None;
        }
        let found = record_at(self.text, self.at);
        if goes_on(&found) {
            self.at += length_at(self.text, self.at);
            self.left -= 1;
        } else {
            self.left = 0;
        }
        Some(found)
    }
}
