//! The structure that a record of a library's text is in. `specs/Places.antt` has what contracts say of it.
ghost use Rattle.std.specs.Prelude.{◌≡◌, IfOk, IfErr};
ghost use Rattle.mpw_records.specs.Records.{seen};
ghost use Rattle.mpw_firm_messages.specs.Places.{name_in, structure_at};
ghost use Rattle.mpw_firm_messages.specs.declared.fault.FirmFault.TheVariants.{Memory};

use crate::fault::FirmFault;
use mpw_elements::{ReadError, read_name};
use mpw_firm_skipping::{record_at, structure_before};
use mpw_geom::Name;
use mpw_records::{ReadFault, Record};
use std::alloc::Global;

/// The name that the record at a place has, if one is there and has one.
fn name_in(alloc: Global, found: Result<Record<'_>, ReadFault>) -> Result<Option<Name>, FirmFault>
    ensures name { IfOk result (λ name. name ≡ name_in (seen found.entry)) }
    ensures memory { IfErr result (λ fault. fault ≡ Memory) }
{
    let Ok(record) = found else {
        return Ok(None);
    };
    match read_name(alloc, record) {
        Ok(name) => Ok(Some(name)),
        Err(ReadError::Fault(_)) => Ok(None),
        Err(ReadError::Memory) => Err(FirmFault::Memory),
    }
}

/// The name of the structure that the record at a place is in, in bytes from the text's front; `None` if it is in
/// none, or the name isn't one. Faults of records' data before it, and names in texts and nodes, change nothing. It costs a look at
/// each record before that place.
///
/// # Errors
/// Out of memory.
pub fn structure_at(alloc: Global, text: &[u8], offset: usize) -> Result<Option<Name>, FirmFault>
    ensures name { IfOk result (λ name. name ≡ structure_at text.now offset) }
    ensures memory { IfErr result (λ fault. fault ≡ Memory) }
{
    match structure_before(text, offset) {
        Some(named) => name_in(alloc, record_at(text, named)),
        None => Ok(None),
    }
}
