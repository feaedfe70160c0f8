//! Reads the database unit of a text.
ghost use Rattle.std.specs.Prelude.{◌≡◌, ◌≤◌, drop, length, IfSome};
ghost use Rattle.mpw_firm_faults.specs.Faults.{unit_of};
ghost use Rattle.mpw_real8.specs.Real.{nanometres, real_value};

use mpw_real8::Real8;
use mpw_records::Records;
use mpw_records::kind::UNITS;

/// The number of nm in the data of UNITS, if it is whole.
fn read_unit(bytes: &[u8]) -> Option<u16>
    requires { 16 ≤ length bytes.now }
    ensures unit { result ≡ nanometres (real_value (drop 8 bytes.now)) }
    ensures most { IfSome result (λ unit. unit ≤ 1000) }
{
    Real8::read(&bytes[8..]).nanometres()
}

/// The number of nm in a text's first UNITS, if it is whole and no record before has a fault. Cost: one visit of
/// each record up to there.
#[tactic(auto, unfolding(crate::specs::Faults::unit_in, mpw_records::specs::Format::least_size))]
pub fn unit_of(text: &[u8]) -> Option<u16>
    ensures unit { result ≡ unit_of text.now }
    ensures most { IfSome result (λ unit. unit ≤ 1000) }
{
    let mut records = Records::new(text);
    while let Some(outcome) = records.next() {
        match outcome {
            Ok(found) if found.kind == UNITS => return read_unit(found.bytes),
            Ok(_) => {}
            Err(_) => return None,
        }
    }
    None
}
