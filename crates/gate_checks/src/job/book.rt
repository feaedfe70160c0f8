//! The book of all tiles' answers.

use crate::job::words::rectangles;
use anyhow::{Context, Result, bail};
use gate_plain::{all_near, deck_of};
use gate_words::{is_near, is_ordered, letter};
use mpw_deck::{Deck, Rules};
use mpw_geom::Box2;
use mpw_job::{Answer, Job, TileJob};
use mpw_markers::{Book, Marker, TileMarkers, stitch};
use mpw_tiles::{Plan, Rectangle, Window, windows_of};
use mpw_work::work_all;
use std::alloc::Global;
use std::io;
use std::thread::Threads;

/// Sides of tiles, and the greatest, which makes a single core.
const SIDES: [&str; 5] = ["256", "257", "300", "333", "511"];

const GREATEST: &str = "1073741824";

/// The smallest box that has the rectangles, of which there must be at least one.
fn extent(rectangles: &[Rectangle]) -> Box2 {
    let mut extent = Box2 {
        x0: i64::MAX,
        y0: i64::MAX,
        x1: i64::MIN,
        y1: i64::MIN,
    };
    for rectangle in rectangles {
        let area = rectangle.area;
        extent = Box2 {
            x0: extent.x0.min(area.x0),
            y0: extent.y0.min(area.y0),
            x1: extent.x1.max(area.x1),
            y1: extent.y1.max(area.y1),
        };
    }
    extent
}

fn plan(rectangles: &[Rectangle], deck: &Deck) -> Result<Plan> {
    let extent = extent(rectangles);
    if !is_near(&extent) || !is_ordered(&extent) {
        bail!("an extent");
    }
    Ok(Plan::of(extent, deck)?)
}

/// The job of a tile.
fn job(tile: u32, core: Box2, windows: &[Window], rules: &Rules) -> Result<Job> {
    if !is_near(&core) || rules.as_slice().len() > 256 {
        bail!("the job of a tile");
    }
    let window = windows.get(tile as usize).context("a window")?.copy()?;
    Ok(Job::Tile(TileJob::new(1, tile, core, window, rules.copy()?)))
}

/// The jobs of all tiles, in order.
fn jobs(alloc: Global, plan: &Plan, deck: &Deck, rectangles: &[Rectangle]) -> Result<Vec<Job>> {
    if !all_near(rectangles) {
        bail!("rectangles in the plane");
    }
    let windows = windows_of(alloc, plan, rectangles)?;
    let mut list = Vec::new(alloc);
    for tile in 0..plan.tiles() {
        list.push(job(tile, plan.core(tile), windows.as_slice(), deck.rules())?)?;
    }
    Ok(list)
}

fn found(answer: &Answer) -> Result<TileMarkers> {
    match answer {
        Answer::Tile(answer) => Ok(answer.markers().copy()?),
        Answer::Cut(_) => bail!("a tile's answer"),
    }
}

/// The book of the answers.
fn stitched(alloc: Global, answers: &[Answer]) -> Result<Book> {
    let mut lists = Vec::new(alloc);
    for answer in answers {
        lists.push(found(answer)?)?;
    }
    Ok(stitch(alloc, &lists)?)
}

/// The book of the rectangles, by one job for each tile.
fn book<T: Threads + Sync>(
    threads: &T,
    alloc: Global,
    plan: &Plan,
    deck: &Deck,
    rectangles: &[Rectangle],
) -> Result<Book> {
    let jobs = jobs(alloc, plan, deck, rectangles)?;
    let answers = work_all(threads, alloc, &jobs)?;
    stitched(alloc, &answers)
}

fn print_marker(rt: &HostRuntime, rule: &str, m: &Marker) -> io::Result<()> {
    let p = m.key.piece;
    let axis = letter(p.axis);
    print!(rt;
        "    {rule}:{axis}:{}:{}:{}:{}:{}",
        p.side, p.x1, p.x2, p.y0, p.y1
    )?;
    for origin in m.met.as_slice() {
        print!(rt; " {origin}")?;
    }
    println!(rt)
}

fn print_book(rt: &HostRuntime, rules: &Rules, markers: &[Marker]) -> Result<()> {
    for m in markers {
        let rule = rules.as_slice().get(m.key.rule as usize).context("a rule")?;
        print_marker(rt, rule.name.as_str(), m)?;
    }
    Ok(())
}

/// Prints the number of tiles, and the markers.
pub fn print_found<T: Threads + Sync>(
    rt: &HostRuntime,
    threads: &T,
    side: &str,
    rules: &str,
    shapes: &str,
) -> Result<()> {
    let deck = deck_of(rt.alloc(), side, rules)?;
    let rectangles = rectangles(rt.alloc(), shapes)?;
    let plan = plan(&rectangles, &deck)?;
    println!(rt; "    {} tiles", plan.tiles())?;
    let book = book(threads, rt.alloc(), &plan, &deck, &rectangles)?;
    print_book(rt, deck.rules(), book.as_slice())
}

fn is_same(m: &Marker, n: &Marker) -> bool {
    m.key == n.key && m.met.as_slice() == n.met.as_slice()
}

fn are_same(a: &[Marker], b: &[Marker]) -> bool {
    for (m, n) in a.iter().zip(b) {
        if !is_same(m, n) {
            return false;
        }
    }
    a.len() == b.len()
}

fn book_at<T: Threads + Sync>(
    threads: &T,
    alloc: Global,
    side: &str,
    rules: &str,
    shapes: &[Rectangle],
) -> Result<Book> {
    let deck = deck_of(alloc, side, rules)?;
    let plan = plan(shapes, &deck)?;
    book(threads, alloc, &plan, &deck, shapes)
}

/// Prints for each side whether its book is that of a single core.
pub fn print_sides<T: Threads + Sync>(
    rt: &HostRuntime,
    threads: &T,
    rules: &str,
    shapes: &str,
) -> Result<()> {
    let rectangles = rectangles(rt.alloc(), shapes)?;
    let whole = book_at(threads, rt.alloc(), GREATEST, rules, &rectangles)?;
    println!(rt; "    {} markers", whole.len())?;
    for side in SIDES {
        let book = book_at(threads, rt.alloc(), side, rules, &rectangles)?;
        let same = are_same(whole.as_slice(), book.as_slice());
        println!(rt; "    {side} {}", if same { "same" } else { "other" })?;
    }
    Ok(())
}
