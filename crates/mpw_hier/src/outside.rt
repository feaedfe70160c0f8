//! The names outside a library.

ghost use Rattle.std.specs.Prelude.{◌≡◌, ◌<◌, ◌++◌, length, IfOk, OnOk, All};
ghost use Rattle.mpw_hier.specs.Structures.{referenced_names};
ghost use Rattle.mpw_hier.specs.Outside.{places_of, names_outside, graph_of};
ghost use Rattle.mpw_hier.specs.Internal.Outside.{outside_from_all};

use crate::graph::Graph;
use mpw_geom::Names;
use mpw_structures::{Element, Library};
use std::alloc::{AllocError, Global};

/// The indices of the library's structures to which elements refer.
fn places_of(
    alloc: Global,
    library: &Library,
    elements: &[Element],
) -> Result<Vec<usize>, AllocError>
    ensures { IfOk result (λ places. places.items ≡ places_of library.now (referenced_names elements.now)) }
{
    let mut places = Vec::new(alloc);
    for element in elements {
        if let Element::Reference(reference) = element {
            if let Some(place) = library.position(&reference.get().name) {
                places.push(place)?;
            }
        }
    }
    Ok(places)
}

/// The structures of a library as places of a graph. Each leads to those to which it refers.
///
/// # Errors
/// Out of memory.
pub fn graph_of(alloc: Global, library: &Library) -> Result<Graph, AllocError>
    ensures { IfOk result (λ graph. graph ≡ graph_of library.now) }
{
    let mut graph = Graph::new(alloc);
    for structure in library.structures() {
        graph.push(places_of(alloc, library, structure.elements.as_slice())?)?;
    }
    Ok(graph)
}

/// Adds the names outside the library to which elements refer.
fn add_outside(names: &mut Names, library: &Library, elements: &[Element]) -> Result<(), AllocError>
    ensures { OnOk result (names.new ≡ names.old ++ names_outside library.now (referenced_names elements.now)) }
{
    for element in elements {
        if let Element::Reference(reference) = element {
            let name = &reference.get().name;
            if library.position(name).is_none() {
                names.push(name.copy()?)?;
            }
        }
    }
    Ok(())
}

/// The names outside the library to which the structures at these indices refer.
///
/// # Errors
/// Out of memory.
pub fn outside_from(alloc: Global, library: &Library, places: &[usize]) -> Result<Names, AllocError>
    requires { All (λ place. place < length library.now) places.now }
    ensures { IfOk result (λ names. names ≡ outside_from_all library.now places.now) }
{
    let mut names = Names::new(alloc);
    let structures = library.structures();
    for place in places {
        add_outside(&mut names, library, structures[*place].elements.as_slice())?;
    }
    Ok(names)
}
