//! A library's text without the elements on the layers that are set aside. `specs/Sources.antt` has what contracts say of it.
ghost use Rattle.std.specs.Prelude.{◌≡◌, IfOk};
ghost use Rattle.mpw_firm_sources.specs.Sources.{left_place, left_text};

use mpw_firm_skipping::{Cut, cuts_of_layers, original, without};
use mpw_geom::Layer;
use std::alloc::{AllocError, Global};
use std::io;
use std::marker::Model;
use std::sync::Arc;

/// A library's text, and the layers that are set aside. Contracts see these two.
pub struct Layered<'a> {
    skip: &'a [Layer],
    text: Arc<Vec<u8>>,
    /// What is left out; nothing if no layers are set aside.
    cuts: Vec<Cut>,
    /// What is left: the text itself if no layers are set aside.
    left: Arc<Vec<u8>>,
}

impl Drop for Layered<'_> {
    fn drop(self) {
        let Layered {
            skip: _,
            text,
            cuts,
            left,
        } = self;
        drop(text);
        drop(cuts);
        drop(left);
    }
}

impl<'a> Model for Layered<'a> {
    ghost use Rattle.mpw_firm_sources.specs.Sources.{Layered, IsLayered};

    ghost Value = { Layered };

    ghost view = { λ s. record { skip = s.skip.now; text = s.text.value.items } };

    ghost invariant = { λ s. IsLayered s.skip.now s.text.value.items s.cuts.items s.left.value.items };
}

impl<'a> Layered<'a> {
    /// A text, without the elements on these layers. If there are such, it takes what is left besides.
    ///
    /// # Errors
    /// Out of memory.
    pub fn new(alloc: Global, skip: &'a [Layer], text: Vec<u8>) -> Result<Layered<'a>, AllocError>
        ensures { IfOk result (λ layered. layered ≡ record { skip = skip.entry.now; text = text.items }) }
    {
        let text = Arc::new(alloc, text)?;
        if skip.is_empty() {
            let left = text.clone()?;
            return Ok(Layered {
                skip,
                text,
                cuts: Vec::new(alloc),
                left,
            });
        }
        let cuts = cuts_of_layers(alloc, skip, text.as_slice())?;
        let left = without(alloc, text.as_slice(), cuts.as_slice())?;
        Ok(Layered {
            skip,
            text,
            cuts,
            left: Arc::new(alloc, left)?,
        })
    }

    /// The text as it is in its file.
    pub fn text(&self) -> &[u8]
        ensures { result.now ≡ self.now.text }
    {
        self.text.as_slice()
    }

    /// The text without these elements.
    pub fn left(&self) -> &Arc<Vec<u8>>
        ensures { result.now.value.items ≡ left_text self.now.skip self.now.text }
    {
        &self.left
    }

    /// Where a byte of that is in the file.
    pub fn place(&self, at: usize) -> usize
        ensures { result ≡ left_place self.now.skip self.now.text at }
    {
        match self.skip {
            [] => at,
            _ => original(self.cuts.as_slice(), at),
        }
    }

    /// Prints on the standard error how many elements are left out.
    ///
    /// # Errors
    /// That of the standard error.
    pub fn tell(&self, rt: &HostRuntime, file: &str) -> io::Result<()> {
        if !self.skip.is_empty() {
            let elements = self.cuts.len();
            eprintln!(rt;
                "note: {file}: elements left out, on skipped layers: {elements}; the desk reads them too, \
                and refuses the file if one of them has a fault"
            )?;
        }
        Ok(())
    }
}
