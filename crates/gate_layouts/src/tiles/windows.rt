//! Windows of random rectangles, compared with a plain search.

use anyhow::{Result, bail};
use gate_plain::all_near;
use gate_words::{Random, is_near, is_ordered};
use mpw_deck::{Deck, read_deck};
use mpw_geom::{Box2, Layer};
use mpw_tiles::{Plan, Rectangle, Window, windows_of};
use std::alloc::{AllocError, Global};

/// Whether the half-open boxes share a unit square.
fn shares_square(a: &Box2, b: &Box2) -> bool {
    a.x0.max(b.x0) < a.x1.min(b.x1) && a.y0.max(b.y0) < a.y1.min(b.y1)
}

/// A rectangle of at most 900 by 900 nm, which may have no area.
fn rectangle(random: &mut Random) -> Rectangle {
    let x0 = i64::from(random.below(2400)) - 200;
    let y0 = i64::from(random.below(1900)) - 200;
    let x1 = x0 + i64::from(random.below(900));
    let y1 = y0 + i64::from(random.below(900));
    Rectangle {
        area: Box2 { x0, y0, x1, y1 },
        layer: Layer {
            layer: 1,
            datatype: 0,
        },
        origin: random.below(3),
    }
}

fn rectangles(alloc: Global, random: &mut Random) -> Result<Vec<Rectangle>, AllocError> {
    let mut list = Vec::new(alloc);
    for _ in 0..random.below(40) {
        list.push(rectangle(random))?;
    }
    Ok(list)
}

/// Whether the window lists exactly the rectangles that share a square with it, in order.
fn is_right(window: &Box2, listed: &Window, all: &[Rectangle]) -> bool {
    let mut count = 0usize;
    for rectangle in all {
        if shares_square(window, &rectangle.area) {
            match listed.as_slice().get(count) {
                Some(found) if *found == *rectangle => count = count.saturating_add(1),
                _ => return false,
            }
        }
    }
    listed.as_slice().len() == count
}

fn are_right(plan: &Plan, windows: &[Window], all: &[Rectangle]) -> bool {
    for tile in 0..plan.tiles() {
        let Some(listed) = windows.get(tile as usize) else {
            return false;
        };
        if !is_right(&plan.window(tile), listed, all) {
            return false;
        }
    }
    windows.len() == plan.tiles() as usize
}

/// Whether the windows of rectangles under a plan are right.
fn compare_all(alloc: Global, extent: Box2, deck: &Deck, all: &[Rectangle]) -> Result<bool> {
    if !is_near(&extent) || !is_ordered(&extent) || !all_near(all) {
        bail!("an extent");
    }
    let plan = Plan::of(extent, deck)?;
    let windows = windows_of(alloc, &plan, all)?;
    Ok(are_right(&plan, windows.as_slice(), all))
}

fn extent(random: &mut Random) -> Box2 {
    Box2 {
        x0: 0,
        y0: 0,
        x1: i64::from(random.below(2000)),
        y1: i64::from(random.below(1500)),
    }
}

fn deck(alloc: Global, random: &mut Random) -> Result<Deck> {
    let side = 256 + random.below(400) % 300;
    let distance = 1 + random.below(300) % 250;
    let text = format!(in alloc; "tile {side}\nspace s 1/0 {distance}")?;
    Ok(read_deck(alloc, text.as_bytes())?)
}

/// Whether the windows of random rectangles under a random plan are right.
fn compare(alloc: Global, random: &mut Random) -> Result<bool> {
    let extent = extent(random);
    let deck = deck(alloc, random)?;
    let all = rectangles(alloc, random)?;
    compare_all(alloc, extent, &deck, &all)
}

/// Compares that many times, and prints how many differ.
pub fn compared(rt: &HostRuntime, count: u32) -> Result<()> {
    let mut random = Random::new(20);
    let mut different = 0u32;
    for _ in 0..count {
        different = different.saturating_add(u32::from(!compare(rt.alloc(), &mut random)?));
    }
    Ok(println!(rt; "    {different} of {count} differ")?)
}
