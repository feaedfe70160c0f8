//! Where texts are written to. `specs/Outputs.antt` has what contracts say of it.
ghost use Rattle.std.specs.Prelude.{◌≡◌, ℕ, Bool, List, [], Option, Some, false, IfOk, IfErr, IfSome};
ghost use Rattle.mpw_firm_outputs.specs.Outputs.{Kept, Spot, Grows, IsOfWrite, IsUnput, IsUntaken, Puts};
ghost use Rattle.mpw_firm_outputs.specs.Texts.{kept_of, place_of, text_of};

use crate::spot::FileSpot;
use crate::texts::{Text, WriteFault, Writer, write_text};
use mpw_devices::Sink;
use mpw_firm_messages::{FirmFault, output_fault, unwritten, write_reason};
use std::alloc::{AllocError, Global};

/// A place for a text.
#[derive(Clone, Copy, Drop)]
pub enum Place<'a> {
    /// The standard output.
    Standard,
    /// The file of that name.
    File(&'a str),
}

/// A text that isn't in its place yet: what takes its bytes, and what is known of its place, which is as it was.
#[derive(Drop)]
pub struct Draft<S, N> {
    /// What takes the bytes.
    pub writer: Writer<S>,
    /// What is known of the place.
    pub name: N,
}

/// Where texts are written to. Contracts see the texts that are in their places, in the order in which they came there, and which
/// file a name leads to, or `None`, which claims nothing, if nobody can say what a device holds.
pub trait Outputs {
    /// What takes a draft's bytes.
    type Bytes: Sink + Drop;

    /// What is known of a draft's place.
    type Name: Drop;

    ghost kept: { Self → Option (List Kept) };

    ghost files: { Self → Option (List ℕ → Option Spot) };

    /// Whether writing the last draft found no space left, or `None`, which claims nothing.
    ghost full: { Self → Option Bool };

    /// The name of a draft's place; none is the standard output's.
    ghost place: { Self.Name → Option (List ℕ) };

    /// The file that a name leads to, if it leads to one that holds what is written there.
    ///
    /// # Errors
    /// Out of memory.
    fn spot(&self, alloc: Global, name: &str) -> Result<Option<FileSpot>, AllocError>
        ensures { IfOk result (λ spot. IfSome (files self.now) (λ leads. spot ≡ leads name.now)) };

    /// Begins a text for a place.
    ///
    /// # Errors
    /// `Device` if it can't be begun, and `Memory`.
    fn begin(
        &mut self,
        alloc: Global,
        to: Place<'_>,
    ) -> Result<Draft<Self::Bytes, Self::Name>, FirmFault>
        ensures place { IfOk result (λ draft. place draft.name ≡ place_of to.entry) }
        ensures empty { IfOk result (λ draft. IfSome (kept self.new) (λ _. Self.Bytes.contents draft.writer.sink ≡ Some [])) }
        ensures kept { kept self.new ≡ kept self.old }
        ensures refused { IfErr result (IsUnput (place_of to.entry)) };

    /// Whether writing the last draft found no space left.
    fn is_full(&self) -> bool
        ensures { IfSome (full self.now) (λ full. result ≡ full) };

    /// Puts a text into its place, whole and at once.
    ///
    /// # Errors
    /// `Device` if that failed, and `Memory`; what was in the place is as it was.
    fn keep(
        &mut self,
        alloc: Global,
        draft: Draft<Self::Bytes, Self::Name>,
    ) -> Result<(), FirmFault>
        requires whole { Self.Bytes.pending draft.writer.sink ≡ false }
        ensures kept { IfOk result (λ _. Puts (kept self.old) (kept self.new) (place draft.name) (Self.Bytes.contents draft.writer.sink)) }
        ensures refused { IfErr result (IsUnput (place draft.name)) };
}

/// Writes a text and puts it into its place, once all of it was handed on.
///
/// # Errors
/// `Device` if that failed, which says so if no space was left, and `Memory`. The file that was there is then unchanged.
pub fn put<O: Outputs>(
    outputs: &mut O,
    alloc: Global,
    to: Place<'_>,
    text: &Text<'_>,
) -> Result<(), FirmFault>
    ensures kept { IfOk result (λ _. Grows (O.kept outputs.old) (O.kept outputs.new) (kept_of to.entry text.now)) }
    ensures refused { IfErr result (IsUnput (place_of to.entry)) }
{
    let mut draft = outputs.begin(alloc, to)?;
    if let Err(why) = write_text(alloc, &mut draft.writer, text) {
        return Err(unput(alloc, to, why, outputs.is_full()));
    }
    outputs.keep(alloc, draft)
}

/// What is printed about a place that doesn't take a text.
fn untaken(alloc: Global, to: Place<'_>, is_full: bool) -> FirmFault
    ensures { IsUntaken (place_of to.entry) is_full result }
{
    match to {
        Place::Standard => output_fault(alloc, is_full),
        Place::File(file) => unwritten(alloc, file, write_reason(is_full)),
    }
}

/// The result of writing a text to a place, and whether no space was left there.
#[tactic(auto, using(crate::proofs::Unput::untaken_is_unput, crate::proofs::Unput::memory_is_unput))]
pub fn unput(alloc: Global, to: Place<'_>, why: WriteFault, is_full: bool) -> FirmFault
    ensures place { IsUnput (place_of to.entry) result }
    ensures told { IsOfWrite (place_of to.entry) why is_full result }
{
    match why {
        WriteFault::Memory => FirmFault::Memory,
        WriteFault::Device => untaken(alloc, to, is_full),
    }
}
