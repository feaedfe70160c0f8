//! Writes the listing of all markers. All threads make its lines.
//!
//! The markers are cut into batches, and a batch into chunks. The threads make a text of each chunk, by `rayon`. The texts of a batch are
//! written in order before the next batch begins. So only one batch's texts are in memory. No clause says so.
ghost use Rattle.std.specs.Prelude.{◌≡◌, IfOk};
ghost use Rattle.std.specs.List.{flat_map};
ghost use Rattle.mpw_firm_listing.specs.Listing.{lines_of, listing_of, listing_text};
ghost use Rattle.mpw_text.specs.Writing.{Adds};

use crate::line::put_head;
use crate::listing::{Listing, count_of_lines, put_markers};
use mpw_markers::Marker;
use rayon::current_num_threads;
use rayon::prelude::*;
use std::alloc::{AllocError, Global};
use std::io::{self, Write};
use std::thread::Threads;

/// The most markers of a chunk. No other thread is started for so few.
const CHUNK: usize = 4096;

/// The most markers of a batch: 64 chunks.
const BATCH: usize = 1 << 18;

/// The lines of a chunk. The only error is out of memory.
fn text_of(alloc: Global, listing: &Listing<'_>, chunk: &[Marker]) -> Result<Vec<u8>, AllocError>
    ensures { IfOk result (λ text. text.items ≡ lines_of listing.now chunk.now) }
{
    let mut text = Vec::new(alloc);
    match put_markers(&mut text, listing, chunk) {
        Ok(()) => Ok(text),
        Err(_) => Err(AllocError),
    }
}

/// The lines of a batch: one text for each chunk, in order. At most two threads for each processor make them. The only error is out of memory.
fn texts_of(
    threads: &(impl Threads + Sync),
    alloc: Global,
    listing: &Listing<'_>,
    batch: &[Marker],
) -> Result<Vec<Vec<u8>>, AllocError>
    ensures { IfOk result (λ texts. flat_map (λ text. text.items) texts.items ≡ lines_of listing.now batch.now) }
{
    batch
        .par_chunks(CHUNK)
        .map(
            |chunk: &[Marker]| -> Result<Vec<u8>, AllocError>
                ensures { IfOk result (λ text. text.items ≡ lines_of listing.entry.now chunk.now) }
            { text_of(alloc, listing, chunk) },
        )
        .collect::<Result<Vec<Vec<u8>>, AllocError>>(threads, alloc)?
}

/// Writes texts, in their order.
fn put_texts<W: Write>(writer: &mut W, texts: &[Vec<u8>]) -> io::Result<()>
    ensures { Adds W.contents writer.old writer.new result (flat_map (λ text. text.items) texts.now) }
{
    for text in texts {
        writer.write_all(text.as_slice())?;
    }
    Ok(())
}

/// Writes the lines of a batch. If there is no memory for their texts, this thread writes them without.
fn put_batch<W: Write>(
    threads: &(impl Threads + Sync),
    alloc: Global,
    writer: &mut W,
    listing: &Listing<'_>,
    batch: &[Marker],
) -> io::Result<()>
    ensures { Adds W.contents writer.old writer.new result (lines_of listing.now batch.now) }
{
    match texts_of(threads, alloc, listing, batch) {
        Ok(texts) => put_texts(writer, texts.as_slice()),
        Err(_) => put_markers(writer, listing, batch),
    }
}

/// Writes the lines of all markers, batch by batch.
fn put_batches<W: Write>(
    threads: &(impl Threads + Sync),
    alloc: Global,
    writer: &mut W,
    listing: &Listing<'_>,
) -> io::Result<()>
    ensures { Adds W.contents writer.old writer.new result (lines_of listing.now listing.now.markers.now) }
{
    for batch in listing.markers.chunks(BATCH) {
        put_batch(threads, alloc, writer, listing, batch)?;
    }
    Ok(())
}

/// Whether more than one thread makes the lines of so many markers.
fn is_for_threads(threads: &impl Threads, markers: usize) -> bool {
    markers > CHUNK && current_num_threads(threads) > 1
}

/// Writes the listing of markers: `OK` with how many are listed, and then one line for each, in their order, with the marker's key and the
/// structure's name. It takes two passes over the markers.
///
/// If there are more than 4096 markers and several processors, at most two threads for each processor make the lines. They take memory for
/// the lines of at most 262,144 markers. Otherwise, and if memory runs out, the calling thread writes the lines, and takes no memory.
///
/// # Errors
/// Those of the writer, which then has a part of the text.
#[tactic(auto, unfolding(crate::specs::Listing::listing_text))]
pub fn write_listing<W: Write>(
    threads: &(impl Threads + Sync),
    alloc: Global,
    writer: &mut W,
    listing: &Listing<'_>,
) -> io::Result<()>
    ensures { Adds W.contents writer.old writer.new result (listing_of listing.now) }
{
    put_head(writer, count_of_lines(listing.rules, listing.markers))?;
    if is_for_threads(threads, listing.markers.len()) {
        put_batches(threads, alloc, writer, listing)
    } else {
        put_markers(writer, listing, listing.markers)
    }
}
