//! The waivers of a run's markers.

ghost use Rattle.std.specs.Prelude.{◌≡◌, [], length, IfOk};
ghost use Rattle.std.specs.Option.{option_copied};
ghost use Rattle.mpw_waiver.specs.Waivers.{none_asked, waiver_at, is_signed, unsigned, with_asker, signed_by, with_signer};
ghost use Rattle.mpw_waiver.specs.Signing.{ask_test, sign_test};

use crate::fault::WaiverFault;
use crate::own::least_own_cell;
use crate::waiver::Waiver;
use mpw_geom::Name;
use mpw_hier::Shelf;
use std::alloc::{AllocError, Global};
use std::marker::Model;

/// For each marker of a book, in order, its waiver, if one was asked for. Contracts see that list. A marker has the same index here as in the book.
pub struct Waivers {
    places: Vec<Option<Waiver>>,
}

impl Drop for Waivers {
    fn drop(self) {
        let Waivers { places } = self;
        drop(places);
    }
}

impl Model for Waivers {
    ghost use Rattle.std.specs.Prelude.{List, Option};
    ghost use Rattle.mpw_waiver.specs.declared.waiver.Waiver.{Waiver};

    ghost Value = { List (Option Waiver) };

    ghost view = { λ w. w.places.items };
}

impl Waivers {
    /// No waiver, for `size` markers. One allocation. Later calls take no further memory.
    ///
    /// # Errors
    /// Out of memory.
    pub fn new(alloc: Global, size: usize) -> Result<Waivers, AllocError>
        ensures { IfOk result (λ waivers. waivers ≡ none_asked size) }
    {
        let mut places = Vec::with_capacity(alloc, size)?;
        for _ in 0..size {
            places.push(None)?;
        }
        Ok(Waivers { places })
    }

    /// The waivers of no marker. It takes no memory.
    pub fn empty(alloc: Global) -> Waivers
        ensures { result ≡ [] }
    {
        Waivers {
            places: Vec::new(alloc),
        }
    }

    /// The number of markers.
    pub fn len(&self) -> usize
        ensures { result ≡ length self.now }
    {
        self.places.len()
    }

    /// The waiver of the marker at an index, if there is one. Constant time.
    pub fn waiver_at(&self, place: usize) -> Option<&Waiver>
        ensures { option_copied result ≡ waiver_at self.now place }
    {
        match self.places.get(place) {
            Some(Some(waiver)) => Some(waiver),
            _ => None,
        }
    }

    /// The number of markers without a signed waiver. Linear in the markers.
    #[tactic(auto, unfolding(crate::specs::Waivers::unsigned))]
    pub fn count_unsigned(&self) -> usize
        ensures { result ≡ unsigned self.now }
    {
        self.places
            .iter()
            .filter(|waiver| !is_signed(waiver))
            .count()
    }

    /// Whether a waiver of the marker at an index can be asked for. Constant time.
    ///
    /// # Errors
    /// `Known` if it has one.
    pub fn may_ask(&self, place: usize) -> Result<(), WaiverFault>
        ensures { result ≡ ask_test (waiver_at self.now place) }
    {
        match self.waiver_at(place) {
            Some(_) => Err(WaiverFault::Known),
            None => Ok(()),
        }
    }

    /// Whether the user may sign the waiver of the marker at an index, which touches the submissions of these numbers. Linear in the
    /// numbers, with comparisons of names.
    ///
    /// # Errors
    /// The inner result, in this order: `NoWaiver` if the marker has no waiver, `Known` if it is signed, `Submitter` if the user submitted
    /// a touched submission, with the first name, in alphabetical order, of such a cell, `Asker` if the user asked for the waiver. The
    /// outer result: no more copies of that name can be counted.
    pub fn may_sign(
        &self,
        place: usize,
        shelf: &Shelf,
        met: &[u32],
        user: &Name,
    ) -> Result<Result<(), WaiverFault>, AllocError>
        ensures { IfOk result (λ told. told ≡ sign_test shelf.now met.now user.now (waiver_at self.now place)) }
    {
        let Some(waiver) = self.waiver_at(place) else {
            return Ok(Err(WaiverFault::NoWaiver));
        };
        if waiver.is_signed() {
            return Ok(Err(WaiverFault::Known));
        }
        if let Some(cell) = least_own_cell(shelf, met, user) {
            return Ok(Err(WaiverFault::Submitter(cell.copy()?)));
        }
        if waiver.asker == *user {
            return Ok(Err(WaiverFault::Asker));
        }
        Ok(Ok(()))
    }

    /// Enters that the user asked for a waiver of the marker at an index. It replaces an earlier waiver, if there is one:
    /// [`Waivers::may_ask`] tests that. An index outside the book changes nothing. Constant time; it takes no memory.
    pub fn ask(&mut self, place: usize, asker: Name)
        ensures { self.new ≡ with_asker self.old place asker }
    {
        if place < self.places.len() {
            self.places[place] = Some(Waiver {
                asker,
                signer: None,
            });
        }
    }

    /// Removes the entries of all markers, for example because their run is cancelled. It takes no memory.
    pub fn clear(&mut self)
        ensures { self.new ≡ [] }
    {
        self.places.clear();
    }

    /// Enters that the user signed the waiver of the marker at an index: [`Waivers::may_sign`] tests whether that is allowed. If there is
    /// no waiver, nothing changes. Constant time; it takes no memory.
    pub fn sign(&mut self, place: usize, signer: Name)
        ensures { self.new ≡ with_signer self.old place signer }
    {
        if place < self.places.len() {
            set_signer(&mut self.places[place], signer);
        }
    }
}

/// Enters that the user signed the waiver, if there is one.
fn set_signer(waiver: &mut Option<Waiver>, signer: Name)
    ensures { waiver.new ≡ signed_by signer waiver.old }
{
    if let Some(waiver) = waiver {
        waiver.signer = Some(signer);
    }
}

/// Whether there is a signed waiver.
fn is_signed(waiver: &Option<Waiver>) -> bool
    ensures { result ≡ is_signed waiver.now }
{
    match waiver {
        Some(waiver) => waiver.is_signed(),
        None => false,
    }
}
