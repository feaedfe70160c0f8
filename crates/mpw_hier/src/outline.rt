//! What depends on a library and its top alone. It is computed once.

ghost use Rattle.std.specs.Prelude.{◌≡◌, ◌↔◌, None, Err, IfOk, IfErr};
ghost use Rattle.mpw_structures.specs.Places.{place_of};
ghost use Rattle.mpw_hier.specs.Outside.{IsOfExternals};
ghost use Rattle.mpw_hier.specs.Outline.{IsOutline};

use crate::fault::HierFault;
use crate::order::order_from_below;
use crate::outside::{graph_of, outside_from};
use mpw_geom::{Name, Names};
use mpw_structures::Library;
use std::alloc::Global;

/// The structures that a library's top reaches, and the names outside the library that it reaches.
pub struct Outline {
    /// The names outside the library, in alphabetical (byte) order, each once.
    pub names: Names,
    /// The index of the top in the library.
    pub(crate) place: usize,
    /// The indices of the structures that the top reaches, each after those that it places. The top is one of them.
    pub(crate) order: Vec<usize>,
}

impl Drop for Outline {
    fn drop(self) {
        let Outline {
            names,
            place: _,
            order,
        } = self;
        drop(names);
        drop(order);
    }
}

impl Outline {
    /// What the top of a library reaches.
    ///
    /// Cost: linear in the library's references, with a search for each of them, and a sort of the names outside.
    ///
    /// # Errors
    /// `NoTop` if the library has no structure with that name; `Cycle` if the top, or a structure that it reaches, leads back to itself;
    /// or out of memory.
    pub fn new(alloc: Global, library: &Library, top: &Name) -> Result<Outline, HierFault>
        ensures ok { IfOk result (IsOutline library.now top.now) }
        ensures no_top { (result ≡ Err HierFault.NoTop) ↔ (place_of library.now top.now ≡ None) }
        ensures faults { IfErr result (IsOfExternals library.now top.now) }
    {
        let Some(place) = library.position(top) else {
            return Err(HierFault::NoTop);
        };
        let graph = graph_of(alloc, library)?;
        let Some(order) = order_from_below(alloc, &graph, place)? else {
            return Err(HierFault::Cycle);
        };
        let mut names = outside_from(alloc, library, &order)?;
        names.sort()?;
        Ok(Outline {
            names,
            place,
            order,
        })
    }
}
