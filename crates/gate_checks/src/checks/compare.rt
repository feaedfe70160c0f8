//! Layouts checked by bands, by cells, by the plain implementations and square by square.

use crate::checks::drawn::{Drawn, Search};
use crate::checks::layout::CHECKS;
use crate::checks::numbers::{Kind, Numbers};
use crate::checks::plain::rejoined;
use crate::checks::squares::Layout;
use anyhow::Result;
use mpw_deck::Check;
use mpw_edges::Piece;
use mpw_geom::Box2;
use std::alloc::{AllocError, Global};

/// A core of a grid that begins below and left of all layouts.
fn core_at(column: i64, row: i64, side: i64) -> Box2 {
    let x0 = column.saturating_mul(side).saturating_sub(8);
    let y0 = row.saturating_mul(side).saturating_sub(8);
    Box2 {
        x0,
        y0,
        x1: x0.saturating_add(side),
        y1: y0.saturating_add(side),
    }
}

/// What is counted over layouts: those that differ, and the pieces that were compared.
#[derive(Clone, Copy)]
struct Count {
    different: usize,
    pieces: usize,
}

impl Count {
    fn add(&mut self, same: bool, pieces: usize) {
        self.pieces = self.pieces.saturating_add(pieces);
        if !same {
            self.different = self.different.saturating_add(1);
        }
    }
}

/// Whether bands and cells find these pieces.
fn agree(
    alloc: Global,
    drawn: &Drawn,
    search: Search,
    plain: &[Piece],
) -> Result<bool, AllocError> {
    let is_same = drawn.by_bands(alloc, search)?.as_slice() == plain;
    Ok(is_same && drawn.by_cells(alloc, search)?.as_slice() == plain)
}

/// Whether the search square by square finds these pieces.
fn agrees(
    alloc: Global,
    drawn: &Drawn,
    search: Search,
    plain: &[Piece],
) -> Result<bool, AllocError> {
    let layout = Layout::painted(alloc, drawn, search)?;
    Ok(layout.pieces(alloc)?.as_slice() == plain)
}

/// Compares a layout, and counts it.
fn compare(
    alloc: Global,
    count: &mut Count,
    drawn: &Drawn,
    search: Search,
    kind: Kind,
) -> Result<(), AllocError> {
    let plain = search.pieces(alloc, drawn)?;
    let mut same = agree(alloc, drawn, search, &plain)?;
    if kind != Kind::Wide {
        same &= agrees(alloc, drawn, search, &plain)?;
    }
    count.add(same, plain.len());
    Ok(())
}

/// Compares one random layout, and counts it.
fn one(
    alloc: Global,
    numbers: &mut Numbers,
    count: &mut Count,
    check: Check,
    kind: Kind,
) -> Result<(), AllocError> {
    let drawn = kind.drawn(alloc, numbers)?;
    let search = Search {
        check,
        distance: numbers.distance(),
        core: kind.core(numbers),
    };
    compare(alloc, count, &drawn, search, kind)
}

/// Compares layouts of each check, and prints how many differ, and how many pieces were compared.
pub fn print_differences(rt: &HostRuntime, layouts: u32, kind: Kind) -> Result<()> {
    let mut count = Count {
        different: 0,
        pieces: 0,
    };
    let mut numbers = Numbers { state: 1 };
    for check in CHECKS {
        for _ in 0..layouts {
            one(rt.alloc(), &mut numbers, &mut count, check, kind)?;
        }
    }
    Ok(println!(rt;
        "{layouts} {} layouts a check: {} pieces, {} layouts differ",
        kind.name(),
        count.pieces,
        count.different
    )?)
}

/// The sides of cores, from one square to more than the layout, and how many are side by side.
const GRIDS: [(i64, i64); 4] = [(1, 80), (7, 12), (32, 3), (200, 1)];

/// Adds the pieces of a core.
fn add_core(
    alloc: Global,
    found: &mut Vec<Piece>,
    drawn: &Drawn,
    search: Search,
) -> Result<(), AllocError> {
    found.extend_from_slice(&drawn.by_cells(alloc, search)?)
}

/// The pieces of a grid of cores of this side, joined where cores cut them.
fn by_cores(
    alloc: Global,
    drawn: &Drawn,
    search: Search,
    side: i64,
    count: i64,
) -> Result<Vec<Piece>, AllocError> {
    let mut found = Vec::new(alloc);
    for column in 0..count {
        for row in 0..count {
            let core = core_at(column, row, side);
            add_core(alloc, &mut found, drawn, Search { core, ..search })?;
        }
    }
    rejoined(alloc, &found)
}

/// Whether each grid of cores finds what one core of all does.
fn grids_agree(alloc: Global, drawn: &Drawn, search: Search) -> Result<bool, AllocError> {
    let whole = search.pieces(alloc, drawn)?;
    for (side, count) in GRIDS {
        if by_cores(alloc, drawn, search, side, count)?.as_slice() != whole.as_slice() {
            return Ok(false);
        }
    }
    Ok(true)
}

/// Whether the grids of cores agree on a random layout.
fn one_by_grids(alloc: Global, numbers: &mut Numbers, check: Check) -> Result<bool, AllocError> {
    let drawn = Kind::Few.drawn(alloc, numbers)?;
    let search = Search {
        check,
        distance: numbers.distance(),
        core: core_at(0, 0, 1000),
    };
    grids_agree(alloc, &drawn, search)
}

/// Compares grids of cores with one core, and prints how many layouts differ.
pub fn print_grid_differences(rt: &HostRuntime, layouts: u32) -> Result<()> {
    let mut different = 0usize;
    let mut numbers = Numbers { state: 2 };
    for check in CHECKS {
        for _ in 0..layouts {
            if !one_by_grids(rt.alloc(), &mut numbers, check)? {
                different = different.saturating_add(1);
            }
        }
    }
    Ok(println!(rt; "{layouts} layouts a check by grids of cores: {different} layouts differ")?)
}
