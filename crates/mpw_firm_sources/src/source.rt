//! A library's text as it is read: without the elements on the layers that are set aside, without the structures that the checked one
//! doesn't reach, and without the elements that have a fault of their own, as far as that is asked for. `specs/Sources.antt` has what
//! contracts say of it.
ghost use Rattle.std.specs.Prelude.{◌≡◌, option_map, IfOk};
ghost use Rattle.mpw_firm_sources.specs.Sources.{IsSourceOf, faulty_in, kept_text, left_fault, left_text, moved, moved_fault, reached_fault, reached_text};

use crate::layered::Layered;
use crate::reached::{Reached, cut_from, cut_place};
use mpw_check::CheckFault;
use mpw_firm_faults::{FaultFound, cuts_of_faults, element_faults};
use mpw_firm_skipping::Cut;
use mpw_geom::{Layer, Name};
use mpw_records::ReadFault;
use std::alloc::{AllocError, Global};
use std::marker::Model;
use std::sync::Arc;

/// A library's text, the layers that are set aside, what is cut out of what is left, and the elements that are left out for their faults,
/// with these. Contracts see all of them.
pub struct Source<'a> {
    reached: Reached<'a>,
    faulty: Vec<FaultFound>,
    /// What is cut out for these faults.
    cuts: Vec<Cut>,
    /// What is read: what is reached itself if nothing is cut out.
    kept: Arc<Vec<u8>>,
}

impl Drop for Source<'_> {
    fn drop(self) {
        let Source {
            reached,
            faulty,
            cuts,
            kept,
        } = self;
        drop(reached);
        drop(faulty);
        drop(cuts);
        drop(kept);
    }
}

impl<'a> Model for Source<'a> {
    ghost use Rattle.mpw_firm_sources.specs.Sources.{Source, IsKept};

    ghost Value = { Source };

    ghost view = { λ s. record { skip = s.reached.skip; structures = s.reached.structures; faulty = s.faulty.items; text = s.reached.text } };

    ghost invariant = { λ s. IsKept s.reached s.faulty.items s.cuts.items s.kept.value.items };
}

/// The faults of a text's elements, if these are to be left out; else none.
fn faulty_in(alloc: Global, faultless: bool, text: &[u8]) -> Result<Vec<FaultFound>, AllocError>
    ensures { IfOk result (λ found. found.items ≡ faulty_in faultless text.now) }
{
    if faultless {
        element_faults(alloc, text)
    } else {
        Ok(Vec::new(alloc))
    }
}

impl<'a> Source<'a> {
    /// The source of a text, without the elements on these layers, without the structures that the one of that name doesn't reach, and,
    /// if it is to be faultless, without the elements that have a fault of their own. If something is left out, it takes what is
    /// left besides.
    ///
    /// # Errors
    /// Out of memory.
    pub fn new(
        alloc: Global,
        skip: &'a [Layer],
        above: Option<&Name>,
        faultless: bool,
        text: Vec<u8>,
    ) -> Result<Source<'a>, AllocError>
        ensures { IfOk result (IsSourceOf skip.entry.now (option_map (λ name. name.now) above.entry) faultless text.items) }
    {
        let reached = Reached::new(alloc, skip, above, text)?;
        let faulty = faulty_in(alloc, faultless, reached.shared().as_slice())?;
        let cuts = cuts_of_faults(alloc, faulty.as_slice())?;
        let kept = cut_from(alloc, reached.shared(), cuts.as_slice())?;
        Ok(Source {
            reached,
            faulty,
            cuts,
            kept,
        })
    }

    /// The text as it is in its file.
    pub fn text(&self) -> &[u8]
        ensures { result.now ≡ self.now.text }
    {
        self.reached.text()
    }

    /// The text without the elements on the layers that are set aside.
    pub fn left(&self) -> &[u8]
        ensures { result.now ≡ left_text self.now.skip self.now.text }
    {
        self.reached.left()
    }

    /// The same without the structures that are cut out.
    pub fn reached(&self) -> &[u8]
        ensures { result.now ≡ reached_text self.now }
    {
        self.reached.shared().as_slice()
    }

    /// The text as it is read.
    pub fn kept(&self) -> &[u8]
        ensures { result.now ≡ kept_text self.now }
    {
        self.kept.as_slice()
    }

    /// The same, for those who share it.
    pub fn shared(&self) -> &Arc<Vec<u8>>
        ensures { result.now.value.items ≡ kept_text self.now }
    {
        &self.kept
    }

    /// What is cut out of the text that is left.
    pub fn structures(&self) -> &[Cut]
        ensures { result.now ≡ self.now.structures }
    {
        self.reached.structures()
    }

    /// The elements that are left out for their faults, with these: their bytes are in the text that is reached.
    pub fn faulty(&self) -> &[FaultFound]
        ensures { result.now ≡ self.now.faulty }
    {
        self.faulty.as_slice()
    }

    /// A fault of the text as it is read, with its place in the file.
    pub fn moved_fault(&self, fault: ReadFault) -> ReadFault
        ensures { result ≡ moved_fault self.now fault }
    {
        let at = cut_place(self.cuts.as_slice(), fault.offset);
        ReadFault {
            code: fault.code,
            offset: self.reached.place(at),
        }
    }

    /// A fault of the text that is reached, with its place in the file.
    pub fn reached_fault(&self, fault: ReadFault) -> ReadFault
        ensures { result ≡ reached_fault self.now fault }
    {
        ReadFault {
            code: fault.code,
            offset: self.reached.place(fault.offset),
        }
    }

    /// A fault of the text that is left, with its place in the file.
    pub fn left_fault(&self, fault: ReadFault) -> ReadFault
        ensures { result ≡ left_fault self.now fault }
    {
        ReadFault {
            code: fault.code,
            offset: self.reached.left_place(fault.offset),
        }
    }

    /// Why the text as it is read can't be checked, with its place in the file.
    pub fn moved(&self, fault: CheckFault) -> CheckFault
        ensures { result ≡ moved self.now fault }
    {
        match fault {
            CheckFault::Library(fault) => CheckFault::Library(self.moved_fault(fault)),
            fault => fault,
        }
    }

    /// The elements that are left out on skipped layers, for those who report them.
    pub fn layered(&self) -> &Layered<'a> {
        self.reached.layered()
    }
}
