//! Finds the references of a text, and the names that one name reaches.
ghost use Rattle.std.specs.Prelude.{◌≡◌, [], ◌∷◌, ◌++◌, ℕ, List, map, IfOk};
ghost use Rattle.mpw_records.specs.Records.{RecordOutcome, raw, seen};
ghost use Rattle.mpw_firm_skipping.specs.Internal.Passes.{IsPass, link_of};
ghost use Rattle.mpw_firm_skipping.specs.Structures.{AreReached, has_name, link_by, linked_by, links_in, links_of, listed, name_at};

use crate::found::{Finds, record_at};
use crate::span::is_inner;
use crate::standing::Standing;
use mpw_records::kind::SNAME;
use mpw_records::{ReadFault, Record};
use std::alloc::{AllocError, Global};

/// A structure's name, and the name of a structure to which it refers, as they are in their records.
#[derive(Clone, Copy)]
pub(crate) struct Link<'a> {
    pub from: &'a [u8],
    pub to: &'a [u8],
}

/// The data of the record at an offset: the name in it.
pub(crate) fn name_at(text: &[u8], at: usize) -> &[u8]
    ensures { result.now ≡ name_at text.entry.now at }
{
    match record_at(text, at) {
        Ok(found) => found.bytes,
        Err(_) => &[],
    }
}

/// The reference that a record makes, in the structure whose STRNAME is at offset `name`.
fn linked_by<'a>(text: &'a [u8], found: Record<'a>, name: Option<usize>) -> Option<Link<'a>>
    ensures { map link_of (listed result) ≡ linked_by text.entry.now (raw found.entry) name }
{
    match name {
        Some(name) if found.kind == SNAME => Some(Link {
            from: name_at(text, name),
            to: found.bytes,
        }),
        _ => None,
    }
}

/// The reference that a record makes.
fn link_by<'a>(text: &'a [u8], found: Record<'a>, standing: Standing) -> Option<Link<'a>>
    ensures { map link_of (listed result) ≡ link_by text.entry.now (raw found.entry) standing }
{
    if is_inner(found, standing.opened.element) {
        None
    } else {
        linked_by(text, found, standing.opened.structure)
    }
}

/// Adds a reference, if there is one.
fn add<'a>(links: &mut Vec<Link<'a>>, found: Option<Link<'a>>) -> Result<(), AllocError>
    ensures { IfOk result (λ _. links.new.items ≡ links.old.items ++ listed found.entry) }
{
    if let Some(link) = found {
        links.push(link)?;
    }
    Ok(())
}

/// Processes one record: adds the reference that it makes, and updates what is open.
fn take<'a>(
    text: &'a [u8],
    links: &mut Vec<Link<'a>>,
    standing: Standing,
    found: Result<Record<'a>, ReadFault>,
) -> Result<Standing, AllocError>
    ensures { IfOk result (λ next. (rest : List RecordOutcome) → map link_of links.new.items ++ links_in text.entry.now next rest ≡ map link_of links.old.items ++ links_in text.entry.now standing (seen found.entry ∷ rest)) }
{
    match found {
        Ok(found) => {
            add(links, link_by(text, found, standing))?;
            Ok(standing.behind(found))
        }
        Err(_) => Ok(standing),
    }
}

/// The references in the structures of a text, in order. Cost: linear in the records, with memory for the references.
///
/// # Errors
/// Out of memory.
pub(crate) fn links_of<'a>(alloc: Global, text: &'a [u8]) -> Result<Vec<Link<'a>>, AllocError>
    ensures { IfOk result (λ links. map link_of links.items ≡ links_of text.entry.now) }
{
    let mut links = Vec::new(alloc);
    let mut standing = Standing::nothing();
    let mut finds = Finds::new(text);
    while let Some(found) = finds.next() {
        standing = take(text, &mut links, standing, found)?;
    }
    Ok(links)
}

/// Whether the list has the name.
pub(crate) fn has_name(names: &[&[u8]], name: &[u8]) -> bool
    ensures { result ≡ has_name (map (λ n. n.now) names.now) name.now }
{
    for other in names {
        if name == *other {
            return true;
        }
    }
    false
}

/// Adds the name to which a link leads, if the name of its structure is in the list. Otherwise the link goes to `left`.
fn pass_one<'a>(
    names: &mut Vec<&'a [u8]>,
    left: &mut Vec<Link<'a>>,
    link: Link<'a>,
) -> Result<(), AllocError>
    ensures { IfOk result (λ _. (before : List (List ℕ)) (passed : List (List ℕ × List ℕ)) → IsPass before (map (λ n. n.now) names.old.items) passed (map link_of left.old.items) → IsPass before (map (λ n. n.now) names.new.items) (passed ++ (link_of link.entry ∷ [])) (map link_of left.new.items)) }
{
    if !has_name(names.as_slice(), link.from) {
        left.push(link)?;
    } else if !has_name(names.as_slice(), link.to) {
        names.push(link.to)?;
    }
    Ok(())
}

/// Adds to these names those to which their waiting links lead, and returns the links that still wait.
fn pass<'a>(
    alloc: Global,
    names: &mut Vec<&'a [u8]>,
    waiting: &[Link<'a>],
) -> Result<Vec<Link<'a>>, AllocError>
    ensures { IfOk result (λ left. IsPass (map (λ n. n.now) names.old.items) (map (λ n. n.now) names.new.items) (map link_of waiting.now) (map link_of left.items)) }
{
    let mut left = Vec::new(alloc);
    for link in waiting {
        pass_one(names, &mut left, *link)?;
    }
    Ok(left)
}

/// The names that a name reaches by these links; it is one of them. Cost: one pass over the links for each level of structures below it. A
/// pass compares each link with the names so far.
///
/// # Errors
/// Out of memory.
pub(crate) fn reached_from<'a>(
    alloc: Global,
    links: Vec<Link<'a>>,
    top: &'a [u8],
) -> Result<Vec<&'a [u8]>, AllocError>
    ensures { IfOk result (λ names. AreReached (map link_of links.entry.items) top.entry.now (map (λ n. n.now) names.items)) }
{
    let mut names = Vec::new(alloc);
    names.push(top)?;
    let mut waiting = links;
    loop {
        let left = pass(alloc, &mut names, waiting.as_slice())?;
        if left.len() == waiting.len() {
            return Ok(names);
        }
        waiting = left;
    }
}
