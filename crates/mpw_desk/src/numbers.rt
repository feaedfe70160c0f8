//! The numbers of connections before a desk is shared.
ghost use Rattle.std.specs.Prelude.{◌≡◌, true};
ghost use Rattle.mpw_desk.specs.Numbers.{AreBelow, IsBelow};
ghost use Rattle.mpw_receipts.specs.Owner.{owner_of};

use mpw_events::{Call, Event};

/// Whether the call belongs to no connection with that number or a greater one.
fn is_below(first: u32, call: &Call) -> bool
    ensures { result ≡ true → IsBelow first (owner_of call.now) }
{
    match call.event {
        Event::Ask { connection, .. } | Event::Gone { connection } => connection < first,
        Event::Take { .. } | Event::Cut(_) | Event::Tile(_) | Event::Restart => true,
    }
}

/// Whether no call belongs to a connection with that number or a greater one. A desk that is shared from that number on needs this. Cost: the calls.
pub fn are_below(first: u32, calls: &[Call]) -> bool
    ensures { result ≡ true → AreBelow first calls.now }
{
    calls.iter().all(|call| is_below(first, call))
}
