//! Decides whether the instances of an array overlap so much that their flat shapes are checked without cuts.
//!
//! A cut between overlapping instances crosses others, so both parts have these. It pays if many parts are identical up to translation, as in the middle of
//! a large array. If most are different, each is checked by itself, with all the instances that touch it: so their flat shapes are compared again and again.

use crate::large::line_of_lattice;
use crate::room::Room;
use crate::tally::Greatest;
use crate::view::View;

/// How often, on average, instances cover the area of an array that overlaps.
const OFTEN: u64 = 2;

/// The unit of [`Parts::times`]: once.
const ONCE: u64 = 16;

/// The work of checking a flat shape without cuts, in comparisons of a shape with a window.
const FLAT: u64 = 256;

/// The most flat shapes of a core between the lines of an array that isn't cut.
const MOST: u64 = 1 << 16;

/// What the parts of a core are along y, or along x, if it is cut between all instances of an array.
#[derive(Clone, Copy)]
struct Parts {
    /// How often instances cover a position, in units of one in [`ONCE`].
    times: u64,
    /// How many parts have about as many flat shapes as one instance.
    whole: u64,
    /// How many parts are different: those near the ends of the array, and one of the others.
    different: u64,
    /// How many instances touch a part at most.
    within: u64,
}

/// How many steps lie between two positions; 0 if the second one comes first.
fn steps(from: i64, to: i64, pitch: u64) -> u64 {
    if from < to {
        from.abs_diff(to).checked_div(pitch).unwrap_or(0)
    } else {
        0
    }
}

/// One part, with all instances.
const WHOLE: Parts = Parts {
    times: ONCE,
    whole: 1,
    different: 1,
    within: 1,
};

/// The parts of a core along y, or along x.
fn parts_along(view: &View<'_>, room: &Room, are_rows: bool) -> Parts {
    let series = room.series(are_rows);
    let (pitch, count) = (series.step.unsigned_abs(), u64::from(series.count));
    if count < 2 {
        return WHOLE;
    }
    let (core, whole) = (view.span(are_rows), room.span(are_rows));
    let reach = room.reach(are_rows);
    let length = i64::try_from(reach).unwrap_or(i64::MAX);
    let ends = steps(core.low, whole.low.saturating_add(length), pitch).saturating_add(steps(
        whole.high.saturating_sub(length),
        core.high,
        pitch,
    ));
    let parts = steps(core.low, core.high, pitch).max(1);
    Parts {
        times: reach
            .saturating_mul(ONCE)
            .checked_div(pitch)
            .unwrap_or(ONCE)
            .min(count.saturating_mul(ONCE)),
        whole: parts.min(count),
        different: ends.saturating_add(1).min(parts),
        within: reach
            .checked_div(pitch)
            .unwrap_or(0)
            .saturating_add(1)
            .min(count),
    }
}

/// Whether checking the parts of an array, each different one once, takes as many comparisons as checking its flat shapes without cuts is worth.
fn is_dear(array: &Greatest, across: Parts, along: Parts) -> bool {
    let by_parts = across
        .different
        .saturating_mul(along.different)
        .saturating_mul(across.within)
        .saturating_mul(along.within)
        .saturating_mul(array.own);
    let flat = across
        .whole
        .saturating_mul(along.whole)
        .saturating_mul(shown_by_each(array))
        .saturating_mul(FLAT);
    by_parts >= flat
}

/// How many flat shapes each instance has.
fn shown_by_each(array: &Greatest) -> u64 {
    array.shown.checked_div(array.room.count()).unwrap_or(0)
}

/// Whether at least half of an instance's flat shapes are its structure's own, so that opening it finds little more to cut.
fn is_flat(array: &Greatest) -> bool {
    array.own.saturating_mul(2) >= shown_by_each(array)
}

/// Whether a core with an array of most of its flat shapes is checked without cuts: the array's instances overlap several times over, and cuts cost more than
/// they save, or no line between instances is inside and there is nothing to open. Constant time.
pub(crate) fn is_crowded(view: &View<'_>, array: &Greatest) -> bool {
    let across = parts_along(view, &array.room, false);
    let along = parts_along(view, &array.room, true);
    if across.times.saturating_mul(along.times) < ONCE.saturating_mul(ONCE).saturating_mul(OFTEN) {
        return false;
    }
    if array.shown <= MOST && is_flat(array) && line_of_lattice(view, &array.room).is_none() {
        return true;
    }
    is_dear(array, across, along)
}
