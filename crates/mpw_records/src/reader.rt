//! A reader of a text's records.
//!
//! Contracts see it as the list of what `next` still gives: the records in order, and then the
//! fault, if there is one.

ghost use Rattle.std.specs.Prelude.{◌≡◌, [], ◌∷◌, IfSome, IfNone, IfOk};
ghost use Rattle.mpw_records.specs.Records.{outcomes_of, seen, raw, IsSized};

use crate::fault::ReadFault;
use crate::kind;
use crate::record::{Record, record_at};
use std::marker::Model;

/// The remaining records of a text.
#[derive(Drop)]
pub struct Records<'a> {
    bytes: &'a [u8],
    offset: usize,
    ended: bool,
}

impl<'a> Model for Records<'a> {
    ghost use Rattle.std.specs.Prelude.{◌≤◌, List, [], length, if◌then◌else◌};
    ghost use Rattle.mpw_records.specs.Records.{RecordOutcome, outcomes_from};

    ghost Value = { List RecordOutcome };

    ghost view = { λ a. if a.ended then [] else outcomes_from a.bytes.now a.offset };

    ghost invariant = { λ a. a.offset ≤ length a.bytes.now };
}

impl<'a> Records<'a> {
    /// The records of a text, from its front. Takes no memory.
    pub fn new(bytes: &'a [u8]) -> Records<'a>
        ensures { result ≡ outcomes_of bytes.now }
    {
        Records {
            bytes,
            offset: 0,
            ended: false,
        }
    }

    /// The next record, or the fault in its place. There is none after ENDLIB or after a fault.
    /// Takes no memory, and reads at most six bytes.
    pub fn next(&mut self) -> Option<Result<Record<'a>, ReadFault>>
        ensures some { IfSome result (λ outcome. self.old ≡ seen outcome ∷ self.new) }
        ensures sized { IfSome result (λ outcome. IfOk outcome (λ r. IsSized (raw r))) }
        ensures none { IfNone result (self.old ≡ []) }
        ensures ended { IfNone result (self.new ≡ []) }
    {
        if self.ended {
            return None;
        }
        let outcome = record_at(self.bytes, self.offset);
        match outcome {
            Ok(record) => {
                self.offset += 4 + record.bytes.len();
                self.ended = record.kind == kind::ENDLIB;
            }
            Err(_) => self.ended = true,
        }
        Some(outcome)
    }

    /// Makes `next` give nothing from now on.
    pub fn stop(&mut self)
        ensures { self.new ≡ [] }
    {
        self.ended = true;
    }
}
