//! One connection over a new desk of the officer `root`, whose token is `abc`.

use crate::scripts::keeper::{Fails, MemoryKeeper};
use gate_events::{Paper, Text, Transcript};
use mpw_core::Core;
use mpw_geom::Name;
use mpw_requests::digest_of;
use mpw_serve::{End, Executor, OwnDesk, Silent, serve_core};
use mpw_wire::WireFault;
use std::alloc::{AllocError, Global};
use std::thread::Threads;

/// The places at which the devices and the store writer fail.
#[derive(Clone, Copy)]
pub struct Devices {
    /// The byte of the input at which the source fails, from 0.
    pub source: usize,
    /// How many bytes the sink takes.
    pub sink: usize,
    /// Which calls of the store writer fail.
    pub keeper: Fails,
}

/// The result of a connection: the text, the end, whether the desk was handed it, whether the sink has bytes pending, and the numbers of
/// calls in the history and of stored changes.
#[derive(Drop)]
pub struct Served {
    /// What the sink took.
    pub text: Vec<u8>,
    /// The word of how it ended, or of the device that failed.
    pub end: &'static str,
    /// Whether the desk was handed its end.
    pub is_gone: bool,
    /// Whether the sink took bytes since it was flushed.
    pub is_pending: bool,
    /// How many calls the history of the desk has.
    pub calls: usize,
    /// How many changes the store writer has.
    pub kept: usize,
}

/// A new desk. It is in a box, so that dropping it is one step wherever it is held.
pub fn new_desk(alloc: Global) -> Result<Box<Core>, AllocError> {
    match Name::read(alloc, b"root") {
        Ok(officer) => Core::new_boxed(alloc, officer, digest_of(b"abc")),
        Err(_) => Err(AllocError),
    }
}

/// The word of an end.
fn end_word(end: Result<End, WireFault>) -> &'static str {
    match end {
        Ok(End::Closed) => "Closed",
        Ok(End::Long) => "Long",
        Ok(End::Cut) => "Cut",
        Ok(End::Memory) => "Memory",
        Ok(End::Spent) => "Spent",
        Err(WireFault::Read) => "Read",
        Err(WireFault::Write) => "Write",
        Err(WireFault::Memory) => "no memory",
    }
}

/// Serves a text on a new desk.
pub fn serve(
    threads: &(impl Threads + Sync),
    alloc: Global,
    bytes: &[u8],
    devices: &Devices,
) -> Result<Served, AllocError> {
    let core = new_desk(alloc)?;
    let mut reader = Text {
        bytes,
        at: 0,
        fails_at: devices.source,
        failures: 0,
    };
    let mut writer = Paper {
        bytes: Vec::new(alloc),
        room: devices.sink,
        failures: 0,
        is_pending: false,
    };
    let keeper = MemoryKeeper {
        kept: Vec::new(alloc),
        fails: devices.keeper,
        asked: 0,
        failures: 0,
    };
    let executor = Executor {
        threads,
        alloc,
        progress: Silent,
    };
    let mut own = OwnDesk::new(core, keeper, 1, executor);
    let served = serve_core(&mut own, &mut reader, &mut writer);
    let (core, keeper) = own.into_parts();
    Ok(Served {
        text: writer.bytes,
        end: end_word(served.ended),
        is_gone: served.is_gone,
        is_pending: writer.is_pending,
        calls: core.history().len(),
        kept: keeper.kept.len(),
    })
}

/// Whether the desk was handed the connection's end, in words.
pub fn gone_words(served: &Served) -> &'static str {
    if served.is_gone {
        "its end handed in"
    } else {
        "its end NOT handed in"
    }
}

/// Whether the sink has bytes pending, in words.
pub fn pending_words(served: &Served) -> &'static str {
    if served.is_pending {
        "bytes pending"
    } else {
        "none pending"
    }
}

/// Whether the written text is a front of the replies of a script.
pub fn is_front(served: &Served, script: &Transcript) -> bool {
    script
        .replies
        .as_slice()
        .starts_with(served.text.as_slice())
}

/// The bytes after the first line of a text.
fn behind_the_first_line(text: &[u8]) -> &[u8] {
    match text.iter().position(|byte| *byte == b'\n') {
        Some(end) => &text[end + 1..],
        None => &[],
    }
}

/// Whether every line of a text is this one, which ends with a line feed.
fn are_all(text: &[u8], line: &[u8]) -> bool {
    !line.is_empty() && text.chunks(line.len().max(1)).all(|chunk| chunk == line)
}

/// Whether the replies are those of a script up to one that says that a change could not be stored, and then all say that the desk is
/// closed; or all are the script's, if the connection's end could not be stored.
pub fn is_closed(served: &Served, script: &Transcript) -> bool {
    let text = served.text.as_slice();
    let wanted = script.replies.as_slice();
    let mut same = 0usize;
    for (told, written) in text.iter().zip(wanted) {
        if told != written {
            break;
        }
        same = same.saturating_add(1);
    }
    let rest = &text[same.min(text.len())..];
    same == wanted.len() && rest.is_empty()
        || rest.starts_with(b"REFUSED 60 store\n")
            && are_all(behind_the_first_line(rest), b"REFUSED 61 closed\n")
}
