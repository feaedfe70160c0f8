//! Finds the structures that another one doesn't reach.
ghost use Rattle.std.specs.Prelude.{◌≡◌, map, IfOk};
ghost use Rattle.mpw_firm_skipping.specs.Structures.{AreUnreached, cuts_but, is_structure, structures_of};

use crate::cut::Cut;
use crate::link::{has_name, links_of, name_at, reached_from};
use crate::standing::{StructureSpan, structures_of};
use std::alloc::{AllocError, Global};

/// Whether one of a text's structures has that name.
fn is_structure(text: &[u8], structures: &[StructureSpan], name: &[u8]) -> bool
    requires { structures.now ≡ structures_of text.now }
    ensures { result ≡ is_structure text.now name.now }
{
    for span in structures {
        if name_at(text, span.name) == name {
            return true;
        }
    }
    false
}

/// The cuts of a text's structures whose name is none of these.
fn cuts_but(
    alloc: Global,
    text: &[u8],
    structures: &[StructureSpan],
    names: &[&[u8]],
) -> Result<Vec<Cut>, AllocError>
    requires { structures.now ≡ structures_of text.now }
    ensures { IfOk result (λ cuts. cuts.items ≡ cuts_but (map (λ n. n.now) names.now) text.now) }
{
    let mut cuts = Vec::new(alloc);
    for span in structures {
        if !has_name(names, name_at(text, span.name)) {
            let (start, end) = (span.start, span.end);
            cuts.push(Cut { start, end })?;
        }
    }
    Ok(cuts)
}

/// The cuts that leave out the structures of a text that the one named `top` doesn't reach by the references in its records. There are none if the text has
/// no structure with that name. Names are compared as they are in their records. Cost: two passes over the text, and one pass over the references for each
/// level below the structure. Such a pass compares each reference with the names so far.
///
/// # Errors
/// Out of memory.
pub fn cuts_of_unreached(alloc: Global, text: &[u8], top: &[u8]) -> Result<Vec<Cut>, AllocError>
    ensures { IfOk result (λ cuts. AreUnreached text.now top.now cuts.items) }
{
    let structures = structures_of(alloc, text)?;
    if !is_structure(text, structures.as_slice(), top) {
        return Ok(Vec::new(alloc));
    }
    let names = reached_from(alloc, links_of(alloc, text)?, top)?;
    cuts_but(alloc, text, structures.as_slice(), names.as_slice())
}
