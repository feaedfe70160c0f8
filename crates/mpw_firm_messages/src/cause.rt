//! What caused a library's fault, if its code alone doesn't say it.
ghost use Rattle.std.specs.Prelude.{◌≡◌, drop};
ghost use Rattle.mpw_firm_messages.specs.Causes.{begins_with, behind_first, cause_at, cause_of, first_length, is_behind};

use mpw_firm_skipping::kind_before;
use mpw_records::kind::{PROPATTR, PROPVALUE, XY};
use mpw_records::{Code, ReadFault};

/// The cause of a fault.
#[derive(Clone, Copy)]
pub enum Cause {
    /// What the code says.
    Code,
    /// The points of an element are in several XY records.
    Split,
    /// A property is where the format has none, as after UNITS.
    Property,
    /// The text isn't GDSII at all.
    Foreign,
}

/// Whether the first record of a text is of that type.
fn begins_with(kind: u8, text: &[u8]) -> bool
    ensures { result ≡ begins_with kind text.now }
{
    match text.get(2) {
        Some(first) => *first == kind,
        None => false,
    }
}

/// The length of the first record, 0 if it isn't there.
fn first_length(text: &[u8]) -> usize
    ensures { result ≡ first_length text.now }
{
    match text {
        [high, low, ..] => usize::from(*high) * 256 + usize::from(*low),
        _ => 0,
    }
}

/// The text from a place on; nothing after its end.
fn rest(text: &[u8], from: usize) -> &[u8]
    ensures { result.now ≡ drop from text.now }
{
    if from > text.len() {
        &[]
    } else {
        &text[from..]
    }
}

/// The text after the first record.
fn behind_first(text: &[u8]) -> &[u8]
    ensures { result.now ≡ behind_first text.now }
{
    rest(text, first_length(text))
}

/// Whether the last record before a place is of that type.
fn is_behind(kind: u8, text: &[u8], at: usize) -> bool
    ensures { result ≡ is_behind kind text.now at }
{
    match kind_before(text, at) {
        Some(before) => before == kind,
        None => false,
    }
}

/// The cause of a fault of that code at a place, which has this rest of the text.
#[tactic(auto, unfolding(crate::specs::Causes::cause_at))]
fn cause_at(fault: ReadFault, text: &[u8], here: &[u8]) -> Cause
    requires { here.now ≡ drop fault.offset text.now }
    ensures { result ≡ cause_at fault.code text.now fault.offset }
{
    match fault.code {
        Code::NotManhattan | Code::PointPath if begins_with(XY, behind_first(here)) => Cause::Split,
        Code::Unexpected if begins_with(XY, here) && is_behind(XY, text, fault.offset) => {
            Cause::Split
        }
        Code::Unexpected if begins_with(PROPATTR, here) || begins_with(PROPVALUE, here) => {
            Cause::Property
        }
        _ => Cause::Code,
    }
}

/// The cause of a fault of a text. Constant time, but for an XY that is unexpected, for which it costs a look at each record before it.
#[tactic(auto, unfolding(crate::specs::Causes::cause_of))]
pub fn cause_of(fault: ReadFault, text: &[u8]) -> Cause
    ensures { result ≡ cause_of fault text.now }
{
    if fault.offset == 0 {
        Cause::Foreign
    } else {
        cause_at(fault, text, rest(text, fault.offset))
    }
}
