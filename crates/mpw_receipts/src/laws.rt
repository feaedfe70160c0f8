//! Laws of the calls of a number, for a caller that goes through calls one by one.
ghost use Rattle.mpw_receipts.specs.Laws.{AddsCallsInOrder, AddsOwnCall, HasEachInOrder, HasNoOther, LeavesCallOfAnother, LeavesCallOfNone};

use crate::recorded::Recorded;

/// The calls of a number are the calls that it owns, each once and in their order, and no others. [`compare`](crate::Register::compare)
/// says this of receipts. A law: the function does nothing.
pub fn receipts_are_calls_in_order<E: Recorded>()
    ensures each { HasEachInOrder E.owner }
    ensures others { HasNoOther E.owner }
{}

/// A new call is one more of its owner's calls, and leaves those of each other number unchanged. A call of no connection leaves all
/// unchanged. The calls of two lists follow one another. A law: the function does nothing.
pub fn calls_are_added_to_their_owner<E: Recorded>()
    ensures own { AddsOwnCall E.owner }
    ensures another { LeavesCallOfAnother E.owner }
    ensures none { LeavesCallOfNone E.owner }
    ensures lists { AddsCallsInOrder E.owner }
{}
