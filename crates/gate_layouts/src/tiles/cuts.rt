//! Prints what a cut lists for each tile.

use crate::tiles::plans::deck;
use anyhow::{Result, bail};
use gate_plain::{placed, placed_roots};
use mpw_geom::{Box2, Layer};
use mpw_hier::Shelf;
use mpw_tiles::{Rectangle, Snapshot, Window, Windows, cut};
use std::alloc::{AllocError, Global};
use std::io;

/// The most tiles whose lists are printed.
const FEW: usize = 12;

fn print_rectangle(rt: &HostRuntime, rectangle: &Rectangle) -> io::Result<()> {
    let Layer { layer, datatype } = rectangle.layer;
    let Box2 { x0, y0, x1, y1 } = rectangle.area;
    let origin = rectangle.origin;
    print!(rt; " [{layer}/{datatype} of {origin}: {x0} {y0} {x1} {y1}]")
}

fn print_window(rt: &HostRuntime, tile: usize, window: &Window) -> io::Result<()> {
    print!(rt; "    {tile}:")?;
    for rectangle in window.as_slice() {
        print_rectangle(rt, rectangle)?;
    }
    println!(rt)
}

/// How many rectangles are listed in all windows together.
fn entries(windows: &[Window]) -> usize {
    let mut count = 0usize;
    for window in windows {
        count = count.saturating_add(window.as_slice().len());
    }
    count
}

fn print_windows(rt: &HostRuntime, windows: &[Window]) -> io::Result<()> {
    let tiles = windows.len();
    if tiles > FEW {
        return println!(rt; "    {tiles} windows, {} entries", entries(windows));
    }
    println!(rt; "    {tiles} windows")?;
    for (tile, window) in windows.iter().enumerate() {
        print_window(rt, tile, window)?;
    }
    Ok(())
}

/// Whether a copy of the snapshot gives the same windows.
fn is_told_again(
    alloc: Global,
    snapshot: &Snapshot,
    windows: &Windows,
) -> Result<bool, AllocError> {
    let again = cut(alloc, &snapshot.copy(alloc)?)?;
    Ok(again.is_same(windows))
}

/// Prints what the windows of placed submissions list.
pub fn print_cut(
    rt: &HostRuntime,
    shelf: &Shelf,
    side: &str,
    distance: &str,
    roots: &str,
) -> Result<()> {
    let deck = deck(rt.alloc(), side, distance)?;
    let snapshot = placed(rt.alloc(), deck, shelf, &placed_roots(rt.alloc(), roots)?)?;
    let windows = cut(rt.alloc(), &snapshot)?;
    if !is_told_again(rt.alloc(), &snapshot, &windows)? {
        bail!("the same windows again");
    }
    Ok(print_windows(rt, windows.as_slice())?)
}
