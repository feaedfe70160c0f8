//! Markers, and the list of them that a tile found.

ghost use Rattle.std.specs.Prelude.{◌≡◌, ◌==◌, [], length, IfOk, All};
ghost use Rattle.mpw_markers.specs.Met.{IsAscending};
ghost use Rattle.mpw_markers.specs.Markers.{line_of, line_of_key, IsFilled};

use crate::met::Met;
use mpw_edges::{Axis, Piece};
use std::alloc::{AllocError, Global};
use std::marker::Model;
use std::sync::Arc;

/// The line on which a marker lies: the rule's index in the deck, from 0, the axis of the edges,
/// the side, 0 or 1, and the two coordinates, in nm.
#[derive(Clone, Copy, PartialEq, Eq, PartialOrd, Ord)]
pub struct Line {
    /// The rule's index in the deck, from 0.
    pub rule: u32,
    /// The direction of the edges. `V` comes before `H`.
    pub axis: Axis,
    /// Which of the two kinds of pairs of a rule with two layers it is; 0 for other rules.
    pub side: u8,
    /// The first edge, in nm.
    pub x1: i64,
    /// The second edge, in nm.
    pub x2: i64,
}

/// A marker without the submissions that it touches.
#[derive(Clone, Copy, PartialEq, Eq)]
pub struct Key {
    /// The rule's index in the deck, from 0.
    pub rule: u32,
    /// A maximal run of rows with a pair step of the rule.
    pub piece: Piece,
}

/// A violation of a rule, and the submissions that its closed box touches.
pub struct Marker {
    /// The rule and the run of rows.
    pub key: Key,
    /// The numbers of the submissions that it touches, ascending, each once.
    pub met: Met,
}

impl Drop for Marker {
    fn drop(self) {
        let Marker { key: _, met } = self;
        drop(met);
    }
}

impl Key {
    /// The line on which a marker with this key lies.
    pub fn line(&self) -> Line
        ensures { result ≡ line_of_key self.now }
    {
        Line {
            rule: self.rule,
            axis: self.piece.axis,
            side: self.piece.side,
            x1: self.piece.x1,
            x2: self.piece.x2,
        }
    }
}

impl Marker {
    /// The line on which the marker lies.
    pub fn line(&self) -> Line
        ensures { result ≡ line_of self.now }
    {
        self.key.line()
    }

    /// The same marker, in constant time and without more memory.
    ///
    /// # Errors
    /// If no more copies can be counted.
    pub fn copy(&self) -> Result<Marker, AllocError>
        ensures same { IfOk result (λ marker. marker ≡ self.now) }
        ensures ascending { IsAscending self.now.met }
    {
        let met = self.met.copy()?;
        Ok(Marker { key: self.key, met })
    }
}

/// The markers that a tile's job found, each with at least one row. Contracts see them as a list. Copies share
/// memory.
pub struct TileMarkers {
    items: Option<Arc<Vec<Marker>>>,
}

impl Drop for TileMarkers {
    fn drop(self) {
        let TileMarkers { items } = self;
        drop(items);
    }
}

impl Model for TileMarkers {
    ghost use Rattle.std.specs.Prelude.{List, [], All};
    ghost use Rattle.std.specs.Option.{option_map_or};
    ghost use Rattle.mpw_markers.specs.declared.marker.Marker.{Marker};
    ghost use Rattle.mpw_markers.specs.Markers.{IsFilled};

    ghost Value = { List Marker };

    ghost view = { λ m. option_map_or (λ items. items.value.items) m.items [] };

    ghost invariant = { λ m. All IsFilled (option_map_or (λ items. items.value.items) m.items []) };
}

impl TileMarkers {
    /// No markers. Takes no memory.
    pub fn none() -> TileMarkers
        ensures { result ≡ [] }
    {
        TileMarkers { items: None }
    }

    /// These markers. One allocation.
    ///
    /// # Errors
    /// Out of memory.
    pub fn from_vec(alloc: Global, markers: Vec<Marker>) -> Result<TileMarkers, AllocError>
        requires { All IsFilled markers.items }
        ensures { IfOk result (λ made. made ≡ markers.items) }
    {
        let items = Arc::new(alloc, markers)?;
        Ok(TileMarkers { items: Some(items) })
    }

    /// The markers as a slice.
    pub fn as_slice(&self) -> &[Marker]
        ensures markers { result.now ≡ self.now }
        ensures filled { All IsFilled self.now }
    {
        match &self.items {
            Some(items) => items.as_slice(),
            None => &[],
        }
    }

    /// How many markers there are.
    pub fn len(&self) -> usize
        ensures { result ≡ length self.now }
    {
        self.as_slice().len()
    }

    /// Whether there are no markers.
    pub fn is_empty(&self) -> bool
        ensures { result ≡ (length self.now == 0) }
    {
        self.as_slice().is_empty()
    }

    /// The same markers, in constant time and without more memory.
    ///
    /// # Errors
    /// If no more copies can be counted.
    pub fn copy(&self) -> Result<TileMarkers, AllocError>
        ensures { IfOk result (λ markers. markers ≡ self.now) }
    {
        match &self.items {
            Some(items) => Ok(TileMarkers {
                items: Some(items.clone()?),
            }),
            None => Ok(TileMarkers::none()),
        }
    }
}
