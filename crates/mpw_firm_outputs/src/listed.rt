//! The listing of all markers, whose lines all threads make, in its place.
ghost use Rattle.std.specs.Prelude.{◌≡◌, false, IfOk, IfErr, OnOk};
ghost use Rattle.std.specs.Io.KnownBytes.{Appends};
ghost use Rattle.mpw_firm_listing.specs.Listing.{listing_of};
ghost use Rattle.mpw_firm_outputs.specs.Outputs.{Grows, IsUnput};
ghost use Rattle.mpw_firm_outputs.specs.Texts.{listed_at, place_of};

use crate::outputs::{Outputs, Place, unput};
use crate::texts::{WriteFault, Writer, hand_on, outcome};
use mpw_devices::Sink;
use mpw_firm_listing::{Listing, write_listing};
use mpw_firm_messages::FirmFault;
use std::alloc::Global;
use std::thread::Threads;

/// Writes a listing, and has the sink hand it on.
fn write_markers<S: Sink>(
    threads: &(impl Threads + Sync),
    alloc: Global,
    writer: &mut Writer<S>,
    listing: &Listing<'_>,
) -> Result<(), WriteFault>
    ensures written { OnOk result (Appends (S.contents writer.old.sink) (S.contents writer.new.sink) (listing_of listing.now)) }
    ensures handed { IfOk result (λ _. S.pending writer.new.sink ≡ false) }
{
    outcome(write_listing(threads, alloc, writer, listing))?;
    hand_on(writer)
}

/// Writes the listing of all markers and puts it into its place, once all of it was handed on. Many lines are made by all threads.
///
/// # Errors
/// `Device` if that failed, which says so if no space was left, and `Memory`. The file that was there is then unchanged.
pub fn put_listing<O: Outputs>(
    threads: &(impl Threads + Sync),
    outputs: &mut O,
    alloc: Global,
    to: Place<'_>,
    listing: &Listing<'_>,
) -> Result<(), FirmFault>
    ensures kept { IfOk result (λ _. Grows (O.kept outputs.old) (O.kept outputs.new) (listed_at to.entry listing.now)) }
    ensures refused { IfErr result (IsUnput (place_of to.entry)) }
{
    let mut draft = outputs.begin(alloc, to)?;
    if let Err(why) = write_markers(threads, alloc, &mut draft.writer, listing) {
        return Err(unput(alloc, to, why, outputs.is_full()));
    }
    outputs.keep(alloc, draft)
}
