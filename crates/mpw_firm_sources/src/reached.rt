//! A library's text without the elements on the layers that are set aside, and without the structures that the checked one doesn't reach,
//! if that is asked for. `specs/Sources.antt` has what contracts say of it.
ghost use Rattle.std.specs.Prelude.{◌≡◌, option_map, IfOk};
ghost use Rattle.mpw_firm_sources.specs.Sources.{padded, AreCut, IsCut, IsReachedOf, cut_place, left_place, left_text, reached_of, reached_place_of};

use crate::layered::Layered;
use mpw_firm_skipping::{Cut, cuts_of_unreached, original, without};
use mpw_geom::{Layer, Name};
use std::alloc::{AllocError, Global};
use std::marker::Model;
use std::sync::Arc;

/// A library's text, the layers that are set aside, and what is cut out of what is left. Contracts see these.
pub struct Reached<'a> {
    layered: Layered<'a>,
    structures: Vec<Cut>,
    /// The text without these structures: what is left itself if none are cut out.
    reached: Arc<Vec<u8>>,
}

impl Drop for Reached<'_> {
    fn drop(self) {
        let Reached {
            layered,
            structures,
            reached,
        } = self;
        drop(layered);
        drop(structures);
        drop(reached);
    }
}

impl<'a> Model for Reached<'a> {
    ghost use Rattle.mpw_firm_sources.specs.Sources.{Reached, IsCut, left_text};

    ghost Value = { Reached };

    ghost view = { λ s. record { skip = s.layered.skip; structures = s.structures.items; text = s.layered.text } };

    ghost invariant = { λ s. IsCut s.structures.items (left_text s.layered.skip s.layered.text) s.reached.value.items };
}

/// A name as a record has it: with a NUL if its number of bytes is odd.
pub(crate) fn padded(alloc: Global, name: &Name) -> Result<Vec<u8>, AllocError>
    ensures { IfOk result (λ bytes. bytes.items ≡ padded name.now) }
{
    let bytes = name.as_bytes();
    let mut copy = Vec::new(alloc);
    copy.extend_from_slice(bytes)?;
    if bytes.len() % 2 == 1 {
        copy.push(0)?;
    }
    Ok(copy)
}

/// The cuts of the structures that the one of that name doesn't reach; none if no name is given.
fn cuts_for(alloc: Global, above: Option<&Name>, text: &[u8]) -> Result<Vec<Cut>, AllocError>
    ensures { IfOk result (λ cuts. AreCut (option_map (λ name. name.now) above.entry) text.now cuts.items) }
{
    match above {
        Some(top) => {
            let name = padded(alloc, top)?;
            cuts_of_unreached(alloc, text, name.as_slice())
        }
        None => Ok(Vec::new(alloc)),
    }
}

/// A text without cuts: the text itself if there are none.
pub(crate) fn cut_from(
    alloc: Global,
    text: &Arc<Vec<u8>>,
    cuts: &[Cut],
) -> Result<Arc<Vec<u8>>, AllocError>
    ensures { IfOk result (λ kept. IsCut cuts.now text.now.value.items kept.value.items) }
{
    match cuts {
        [] => text.clone(),
        [..] => {
            let kept = without(alloc, text.as_slice(), cuts)?;
            Ok(Arc::new(alloc, kept)?)
        }
    }
}

/// The place of a byte of the cut text in the whole text.
pub(crate) fn cut_place(cuts: &[Cut], at: usize) -> usize
    ensures { result ≡ cut_place cuts.now at }
{
    match cuts {
        [] => at,
        [..] => original(cuts, at),
    }
}

impl<'a> Reached<'a> {
    /// The text without the elements on these layers, and without the structures that the one of that name doesn't reach.
    /// If something is left out, it takes what is left besides.
    ///
    /// # Errors
    /// Out of memory.
    pub fn new(
        alloc: Global,
        skip: &'a [Layer],
        above: Option<&Name>,
        text: Vec<u8>,
    ) -> Result<Reached<'a>, AllocError>
        ensures { IfOk result (IsReachedOf skip.entry.now (option_map (λ name. name.now) above.entry) text.items) }
    {
        let layered = Layered::new(alloc, skip, text)?;
        let structures = cuts_for(alloc, above, layered.left().as_slice())?;
        let reached = cut_from(alloc, layered.left(), structures.as_slice())?;
        Ok(Reached {
            layered,
            structures,
            reached,
        })
    }

    /// The text as its file has it.
    pub fn text(&self) -> &[u8]
        ensures { result.now ≡ self.now.text }
    {
        self.layered.text()
    }

    /// The text without the elements on the layers that are set aside.
    pub fn left(&self) -> &[u8]
        ensures { result.now ≡ left_text self.now.skip self.now.text }
    {
        self.layered.left().as_slice()
    }

    /// The same without the structures that are cut out.
    pub fn shared(&self) -> &Arc<Vec<u8>>
        ensures { result.now.value.items ≡ reached_of self.now.skip self.now.structures self.now.text }
    {
        &self.reached
    }

    /// What is cut out of the text that is left.
    pub fn structures(&self) -> &[Cut]
        ensures { result.now ≡ self.now.structures }
    {
        self.structures.as_slice()
    }

    /// The place in the file of a byte of the text without these structures.
    pub fn place(&self, at: usize) -> usize
        ensures { result ≡ reached_place_of self.now.skip self.now.structures self.now.text at }
    {
        self.layered
            .place(cut_place(self.structures.as_slice(), at))
    }

    /// The place in the file of a byte of the text that is left.
    pub fn left_place(&self, at: usize) -> usize
        ensures { result ≡ left_place self.now.skip self.now.text at }
    {
        self.layered.place(at)
    }

    /// The elements that are left out, for those who report them.
    pub fn layered(&self) -> &Layered<'a> {
        &self.layered
    }
}
