//! A library without the shapes on other layers.

ghost use Rattle.std.specs.Prelude.{◌≡◌, filter, IfOk, IfSome};
ghost use Rattle.mpw_check_groups.specs.Layers.{is_among, library_on, stays, structure_on};

use crate::layers::stays;
use mpw_geom::Layer;
use mpw_structures::{Element, Elements, Library, Structure, Structures};
use std::alloc::{AllocError, Global};

/// The elements that stay, in order. Copies of shapes share their points. The only error is out of memory.
fn elements_on(
    alloc: Global,
    layers: &[Layer],
    elements: &[Element],
) -> Result<Elements, AllocError>
    ensures { IfOk result (λ es. es ≡ filter (stays (is_among layers.now)) elements.now) }
{
    let mut staying = Vec::new(alloc);
    for element in elements {
        if stays(layers, element) {
            staying.push(element.copy(alloc)?)?;
        }
    }
    Ok(Elements::from_vec(staying))
}

/// A structure with the elements that stay. The only error is out of memory.
fn structure_on(
    alloc: Global,
    layers: &[Layer],
    structure: &Structure,
) -> Result<Structure, AllocError>
    ensures { IfOk result (λ s. s ≡ structure_on (is_among layers.now) structure.now) }
{
    let name = structure.name.copy()?;
    let elements = elements_on(alloc, layers, structure.elements.as_slice())?;
    Ok(Structure { name, elements })
}

/// The structures with the elements that stay. `None` if two have one name. The only error is out of memory.
fn structures_on(
    alloc: Global,
    layers: &[Layer],
    structures: &[Structure],
) -> Result<Option<Structures>, AllocError>
    ensures { IfOk result (λ o. IfSome o (λ ss. ss ≡ library_on (is_among layers.now) structures.now)) }
{
    let mut staying = Structures::new(alloc);
    for structure in structures {
        if staying.position(&structure.name).is_some() {
            return Ok(None);
        }
        staying.push(structure_on(alloc, layers, structure)?)?;
    }
    Ok(Some(staying))
}

/// A library of the structures with the elements that stay. `None` if two have one name. Cost: linear in the elements, with a look-up for each structure.
/// The only error is out of memory.
pub fn library_on(
    alloc: Global,
    layers: &[Layer],
    library: &Library,
) -> Result<Option<Library>, AllocError>
    ensures { IfOk result (λ o. IfSome o (λ l. l ≡ library_on (is_among layers.now) library.now)) }
{
    match structures_on(alloc, layers, library.structures())? {
        Some(structures) => Ok(Some(Library::new(alloc, structures)?)),
        None => Ok(None),
    }
}
