//! What a check is of, and what came of it.

ghost use Rattle.std.specs.Prelude.{◌≡◌};
ghost use Rattle.mpw_firm.specs.Shown.{most_of};

use crate::found::Findings;
use mpw_deck::Rule;
use mpw_firm_grid::Parts;
use mpw_firm_report::{Fault, Note};
use mpw_firm_sources::SeenFault;
use mpw_geom::Name;
use mpw_tiles::Snapshot;

/// What was checked: the structure's name, the rules, and what was found.
#[derive(Clone, Copy, Drop)]
pub struct Checked<'a> {
    /// The structure.
    pub top: &'a Name,
    /// The deck's rules.
    pub rules: &'a [Rule],
    /// The parts of a nanometre that lengths count.
    pub parts: &'a Parts,
    /// Its markers, as many as are held, and how many it has.
    pub found: &'a Findings,
    /// The name of the layout's file, if it is known.
    pub original: Option<&'a str>,
    /// How many markers of each rule are listed, written and drawn at most.
    pub limit: Option<u32>,
    /// What the report says of what was looked at.
    pub notes: &'a [Note<'a>],
    /// Whether the numbers of markers by rule are printed instead of the listing.
    pub summary: bool,
    /// The elements that are left out for their faults.
    pub faults: &'a [Fault<'a>],
}

impl Checked<'_> {
    /// The limit as a number: without one the greatest.
    pub fn most(&self) -> usize
        ensures { result ≡ most_of self.now.limit }
    {
        match self.limit {
            Some(limit) => limit as usize,
            None => usize::MAX,
        }
    }
}

/// A structure that is to be checked.
#[derive(Drop)]
pub struct Drawn {
    /// Its name.
    pub top: Name,
    /// The structure under the deck.
    pub layout: Snapshot,
    /// The elements that are left out of the library for their faults.
    pub left_out: Vec<SeenFault>,
    /// The parts of a nanometre that lengths count.
    pub parts: Parts,
}
