//! Prints plans of tiles and their limits.

use anyhow::{Result, bail};
use gate_plain::deck_of;
use gate_words::{is_near, is_ordered};
use mpw_deck::Deck;
use mpw_geom::Box2;
use mpw_tiles::Plan;
use std::alloc::Global;
use std::io;

/// The deck of one rule.
pub fn deck(alloc: Global, side: &str, distance: &str) -> Result<Deck> {
    let rule = format!(in alloc; "space s 1/0 {distance}")?;
    deck_of(alloc, side, rule.as_str())
}

fn print_box(rt: &HostRuntime, word: &str, b: Box2) -> io::Result<()> {
    println!(rt; "    {word} {} {} {} {}", b.x0, b.y0, b.x1, b.y1)
}

fn print_plan(rt: &HostRuntime, plan: &Plan) -> io::Result<()> {
    let tiles = plan.tiles();
    println!(rt; "    {tiles} tiles")?;
    if tiles > 0 {
        print_box(rt, "core", plan.core(tiles - 1))?;
        print_box(rt, "window", plan.window(tiles - 1))?;
    }
    Ok(())
}

/// Prints the number of tiles, and the core and the window of the last one.
pub fn plan(rt: &HostRuntime, extent: Box2, side: &str, distance: &str) -> Result<()> {
    let deck = deck(rt.alloc(), side, distance)?;
    if !is_near(&extent) || !is_ordered(&extent) {
        bail!("an extent");
    }
    match Plan::of(extent, &deck) {
        Ok(plan) => Ok(print_plan(rt, &plan)?),
        Err(fault) => Ok(println!(rt; "    {fault}")?),
    }
}
