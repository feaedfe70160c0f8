//! How much memory the process took, if the system says so, how much a check is estimated to take, and whether its markers have room.
//! `specs/Room.antt` has what contracts say of it.
ghost use Rattle.std.specs.Prelude.{◌≡◌};
ghost use Rattle.mpw_firm.specs.Room.{fits, has_room};

use mpw_check::checked_tiles;
use mpw_columns_cuts::is_placed;
use mpw_tiles::Snapshot;
use std::fs;

/// What a marker takes that is held, with what it is made of, in bytes.
const FOR_A_MARKER: u64 = 100;

/// So few markers always have room.
const FEW_MARKERS: usize = 1 << 20;

/// What an element of the checked structure takes in the lists into which a layout of few structures is cut, in bytes.
const FOR_AN_ELEMENT: u64 = 300;

/// What a shape of another layout takes in the lists that a batch of columns shares, in bytes.
const FOR_A_SHARED_SHAPE: u64 = 10;

/// What the box of an element takes that is held for columns, with those of its structure beside it, in bytes,
const FOR_A_BOX: u64 = 48;

/// and of how many elements of the library they are held at most.
const MOST_BOXES: u64 = 1 << 20;

/// What a shape of a layout takes that is cut into the windows of tiles, in bytes.
const FOR_A_SHAPE: u64 = 1024;

/// What a thread takes for the columns at work, and for the parts of columns that it holds, in MB.
const FOR_A_THREAD: u64 = 128;

/// The kB after a name in a text of Linux's.
fn told_in(text: &str, name: &str) -> Option<u64> {
    for line in text.lines() {
        if let Some(told) = line.strip_prefix(name) {
            return told.split_ascii_whitespace().next()?.parse::<u64>().ok();
        }
    }
    None
}

/// The greatest memory that the process had so far, in MB of 2^20 bytes, rounded up; none if the system doesn't say.
pub fn peak(rt: &HostRuntime) -> Option<u64> {
    let status = fs::read_to_string(rt, "/proc/self/status").ok()?;
    Some(told_in(status.as_str(), "VmHWM:")?.div_ceil(1024))
}

/// The free memory in kB, if the system says so. It isn't asked for few markers, which always have room.
pub fn free_memory(rt: &HostRuntime, markers: usize) -> Option<u64> {
    if markers <= FEW_MARKERS {
        return None;
    }
    let system = fs::read_to_string(rt, "/proc/meminfo").ok()?;
    told_in(system.as_str(), "MemAvailable:")
}

/// Whether so many markers have room in so many kB.
fn fits(markers: usize, free: u64) -> bool
    ensures { result ≡ fits markers free }
{
    (markers <= FEW_MARKERS) | ((markers as u64).saturating_mul(FOR_A_MARKER) / 1024 <= free)
}

/// Whether so many markers have room in the free memory, in kB; they have if that isn't known.
pub fn has_room(markers: usize, free: Option<u64>) -> bool
    ensures { result ≡ has_room markers free }
{
    match free {
        Some(free) => fits(markers, free),
        None => true,
    }
}

/// How many elements the checked structure has.
fn elements_of(layout: &Snapshot) -> u64 {
    let Some(top) = layout.shelf().nodes(0).and_then(|nodes| nodes.last()) else {
        return 0;
    };
    (top.children.len() as u64).saturating_add(top.shapes.len() as u64)
}

/// How many elements the library has.
fn elements_in(layout: &Snapshot) -> u64 {
    let mut count = 0u64;
    if let Some(submission) = layout.shelf().get(0) {
        for structure in submission.library.structures() {
            count = count.saturating_add(structure.elements.as_slice().len() as u64);
        }
    }
    count
}

/// What a layout takes that is cut into windows or lists, in bytes.
fn for_layout(layout: &Snapshot) -> u64 {
    if checked_tiles(layout).is_some() {
        return layout.shelf().count(0).saturating_mul(FOR_A_SHAPE);
    }
    let boxes = elements_in(layout)
        .min(MOST_BOXES)
        .saturating_mul(FOR_A_BOX);
    let lists = if is_placed(layout) {
        elements_of(layout).saturating_mul(FOR_AN_ELEMENT)
    } else {
        layout.shelf().count(0).saturating_mul(FOR_A_SHARED_SHAPE)
    };
    lists.saturating_add(boxes)
}

/// The most memory that a check is estimated to take, in MB of 2^20 bytes: what the process had after reading, what the layout takes in windows or
/// in lists and boxes, what each of so many threads does, and the markers that are held. Shapes that lie over one another in great numbers take more.
pub fn estimated(layout: &Snapshot, read: u64, threads: usize, held: usize) -> u64 {
    let markers = (held as u64).saturating_mul(FOR_A_MARKER);
    let bytes = for_layout(layout).saturating_add(markers);
    let threads = (threads as u64).saturating_mul(FOR_A_THREAD);
    read.saturating_add(bytes.div_ceil(1 << 20))
        .saturating_add(threads)
}
