//! Reads a whole text.

ghost use Rattle.std.specs.Prelude.{◌≡◌, ◌<◌, ◌≤◌, ◌==◌, ◌||◌, None, length, IsTrue, OnOk, IfOk, IfErr, IfSome, All};
ghost use Rattle.mpw_structures.specs.Element.{IsElement};
ghost use Rattle.mpw_structures.specs.Library.{IsStructure, IsLibrary};
ghost use Rattle.mpw_structures.specs.Places.{place_of};
ghost use Rattle.mpw_records.specs.Format.{least_size};
ghost use Rattle.mpw_records.specs.Records.{raw, IsSized};
ghost use Rattle.mpw_elements.specs.Reading.{GivesReading, GivesValue, demanded};
ghost use Rattle.mpw_library.specs.Grammar.{gone, next_record, next_is, unit_of, ends_head, up_to, head, is_between, item, all_elements, structure, next_structure, all_structures, library_of};
ghost use Rattle.mpw_library.specs.Derivation.{IsTextOf};
ghost use Rattle.mpw_library.specs.Fronts.{IsToldFirst};
ghost use Rattle.mpw_library.specs.Internal.Library.{IsItem};

use mpw_elements::{ReadError, demand, fault_of, read_element, read_name};
use mpw_real8::Real8;
use mpw_records::{Code, ReadFault, Record, Records, kind};
use mpw_structures::{Element, Elements, Library, SharedText, Storage, Structure, Structures};
use std::alloc::Global;
use std::sync::Arc;

/// The next item of a structure.
#[derive(Drop)]
pub enum Item {
    /// ENDSTR.
    End,
    /// Something without meaning for the layout.
    Other,
    /// An element.
    Placed(Element),
}

/// The next record.
fn next_record<'a>(records: &mut Records<'a>) -> Result<Record<'a>, ReadError>
    ensures record { GivesReading raw result records.new (next_record records.old) }
    ensures rest { OnOk result (length records.new < length records.old) }
    ensures at_most { length records.new ≤ length records.old }
    ensures sized { IfOk result (λ r. IsSized (raw r)) }
{
    match records.next() {
        Some(outcome) => Ok(outcome?),
        None => Err(ReadError::Fault(ReadFault {
            code: Code::Short,
            offset: 0,
        })),
    }
}

/// The next record, which must have the given type.
#[tactic(auto, unfolding(crate::specs::Grammar::next_is))]
fn next_is<'a>(records: &mut Records<'a>, kind: u8) -> Result<Record<'a>, ReadError>
    ensures record { GivesReading raw result records.new (next_is kind records.old) }
    ensures rest { length records.new ≤ length records.old }
    ensures least { IfOk result (λ r. least_size kind ≤ length r.bytes.now) }
{
    let found = next_record(records)?;
    Ok(demand(found, kind)?)
}

/// The database unit in nm, from UNITS.
#[tactic(auto, unfolding(crate::specs::Grammar::unit_of))]
fn unit(from: Record<'_>) -> Result<u16, ReadFault>
    requires { 16 ≤ length from.bytes.now }
    ensures unit { result ≡ unit_of (raw from.entry) }
    ensures most { IfOk result (λ unit. unit ≤ 1000) }
{
    match Real8::read(&from.bytes[8..]).nanometres() {
        Some(unit) => Ok(unit),
        None => Err(fault_of(Code::Unit, from)),
    }
}

fn ends_head(kind: u8) -> bool
    ensures { result ≡ ends_head kind }
{
    matches!(
        kind,
        kind::HEADER | kind::BGNLIB | kind::BGNSTR | kind::ENDLIB
    )
}

fn is_refused(kind: u8, unwanted: u8) -> bool
    ensures { result ≡ ((kind == unwanted) || ends_head kind) }
{
    kind == unwanted || ends_head(kind)
}

/// The first record of type `wanted` in the head. None of type `unwanted` may come before it.
fn up_to<'a>(records: &mut Records<'a>, wanted: u8, unwanted: u8) -> Result<Record<'a>, ReadError>
    ensures record { GivesReading raw result records.new (up_to wanted unwanted records.old) }
    ensures least { IfOk result (λ r. least_size wanted ≤ length r.bytes.now) }
{
    while let Some(outcome) = records.next() {
        let found = outcome?;
        if found.kind == wanted {
            return Ok(found);
        }
        if is_refused(found.kind, unwanted) {
            return Err(ReadError::Fault(fault_of(Code::Unexpected, found)));
        }
    }
    Err(ReadError::Fault(ReadFault {
        code: Code::Short,
        offset: 0,
    }))
}

/// From BGNLIB past UNITS: the unit in nm.
#[tactic(auto, unfolding(crate::specs::Grammar::head, mpw_records::specs::Format::least_size))]
fn read_head(records: &mut Records<'_>) -> Result<u16, ReadError>
    ensures head { GivesReading (λ unit. unit) result records.new (head records.old) }
    ensures most { IfOk result (λ unit. unit ≤ 1000) }
{
    up_to(records, kind::LIBNAME, kind::UNITS)?;
    Ok(unit(up_to(records, kind::UNITS, kind::LIBNAME)?)?)
}

fn is_between(kind: u8) -> bool
    ensures { result ≡ is_between kind }
{
    matches!(kind, kind::PROPATTR | kind::PROPVALUE | kind::STRCLASS)
}

/// The next item of a structure.
#[tactic(auto, unfolding(crate::specs::Grammar::item))]
fn next_item(storage: Storage<'_>, records: &mut Records<'_>, unit: u16) -> Result<Item, ReadError>
    requires { unit ≤ 1000 }
    ensures item { GivesReading (λ i. i) result records.new (item unit records.old) }
    ensures shape { IfOk result IsItem }
    ensures rest { OnOk result (length records.new < length records.old) }
    ensures at_most { length records.new ≤ length records.old }
{
    let found = next_record(records)?;
    if found.kind == kind::ENDSTR {
        return Ok(Item::End);
    }
    if is_between(found.kind) {
        return Ok(Item::Other);
    }
    match read_element(storage, records, found, unit)? {
        Some(element) => Ok(Item::Placed(element)),
        None => Ok(Item::Other),
    }
}

/// The elements up to ENDSTR.
fn read_elements(
    storage: Storage<'_>,
    records: &mut Records<'_>,
    unit: u16,
) -> Result<Elements, ReadError>
    requires { unit ≤ 1000 }
    ensures elements { GivesReading (λ es. es) result records.new (all_elements unit records.old) }
    ensures shape { IfOk result (All IsElement) }
    ensures rest { length records.new ≤ length records.old }
{
    let mut elements = Vec::new(storage.alloc);
    loop {
        match next_item(storage, records, unit)? {
            Item::End => return Ok(Elements::from_vec(elements)),
            Item::Other => {}
            Item::Placed(element) => elements.push(element)?,
        }
    }
}

/// STRNAME and the elements up to ENDSTR, after other structures.
#[tactic(auto, unfolding(crate::specs::Grammar::structure))]
fn read_structure(
    storage: Storage<'_>,
    records: &mut Records<'_>,
    unit: u16,
    before: &Structures,
) -> Result<Structure, ReadError>
    requires { unit ≤ 1000 }
    ensures structure { GivesReading (λ s. s) result records.new (structure unit before.now records.old) }
    ensures shape { IfOk result IsStructure }
    ensures rest { length records.new ≤ length records.old }
    ensures new { IfOk result (λ s. place_of before.now s.name ≡ None) }
{
    let strname = next_is(records, kind::STRNAME)?;
    let name = read_name(storage.alloc, strname)?;
    if before.position(&name).is_some() {
        return Err(ReadError::Fault(fault_of(Code::DoubleName, strname)));
    }
    let elements = read_elements(storage, records, unit)?;
    Ok(Structure { name, elements })
}

/// BGNSTR and a structure, or `None` at ENDLIB.
#[tactic(auto, unfolding(crate::specs::Grammar::next_structure))]
fn next_structure(
    storage: Storage<'_>,
    records: &mut Records<'_>,
    unit: u16,
    before: &Structures,
) -> Result<Option<Structure>, ReadError>
    requires { unit ≤ 1000 }
    ensures structure { GivesReading (λ s. s) result records.new (next_structure unit before.now records.old) }
    ensures shape { IfOk result (λ found. IfSome found IsStructure) }
    ensures rest { OnOk result (length records.new < length records.old) }
    ensures new { IfOk result (λ found. IfSome found (λ s. place_of before.now s.name ≡ None)) }
{
    let found = next_record(records)?;
    if found.kind == kind::ENDLIB {
        return Ok(None);
    }
    demand(found, kind::BGNSTR)?;
    Ok(Some(read_structure(storage, records, unit, before)?))
}

/// The structures up to ENDLIB.
fn read_structures(
    storage: Storage<'_>,
    records: &mut Records<'_>,
    unit: u16,
) -> Result<Structures, ReadError>
    requires { unit ≤ 1000 }
    ensures structures { GivesReading (λ ss. ss) result records.new (all_structures unit records.old) }
    ensures shape { IfOk result IsLibrary }
{
    let mut structures = Structures::new(storage.alloc);
    while let Some(structure) = next_structure(storage, records, unit, &structures)? {
        structures.push(structure)?;
    }
    Ok(structures)
}

/// The structures from HEADER to ENDLIB.
#[tactic(auto, unfolding(crate::specs::Grammar::library))]
fn read_whole(alloc: Global, text: &Arc<Vec<u8>>) -> Result<Library, ReadError>
    ensures library { GivesValue (λ library. library) result (library_of text.now.value.items) }
    ensures shape { IfOk result IsLibrary }
{
    let mut records = Records::new(text.as_slice());
    next_is(&mut records, kind::HEADER)?;
    next_is(&mut records, kind::BGNLIB)?;
    let unit = read_head(&mut records)?;
    let shared = SharedText::new(alloc, text, unit)?;
    let storage = Storage {
        alloc,
        text: Some(&shared),
    };
    let structures = read_structures(storage, &mut records, unit)?;
    Ok(Library::new(alloc, structures)?)
}

/// Reads a library from a text of GDSII Stream release 6. Coordinates are in nm, whatever the database unit is. What comes after
/// ENDLIB is no part of the library. The points of its elements stay in the text, which the library shares.
///
/// One pass over the text. Memory: for the structures, their elements and the index of their names.
/// A boundary takes 32 bytes, however many points it has.
///
/// # Errors
/// The first fault by offset, with the first code in the order of the tests; or out of memory. The offset of an
/// unexpected record is that of the first record with which no library's records can continue.
pub fn read_shared(alloc: Global, text: &Arc<Vec<u8>>) -> Result<Library, ReadError>
    ensures library { GivesValue (λ library. library) result (library_of text.now.value.items) }
    ensures derived { IfOk result (IsTextOf text.now.value.items) }
    ensures unexpected { IfErr result (IsToldFirst text.now.value.items) }
    ensures shape { IfOk result IsLibrary }
{
    read_whole(alloc, text)
}

/// Reads a library from a text that stays with the caller. The text is copied once.
///
/// # Errors
/// The same as those of [`read_shared`].
pub fn read_library(alloc: Global, bytes: &[u8]) -> Result<Library, ReadError>
    ensures library { GivesValue (λ library. library) result (library_of bytes.now) }
    ensures derived { IfOk result (IsTextOf bytes.now) }
    ensures unexpected { IfErr result (IsToldFirst bytes.now) }
    ensures shape { IfOk result IsLibrary }
{
    let text = Arc::new(alloc, Vec::from_slice(alloc, bytes)?)?;
    read_shared(alloc, &text)
}
