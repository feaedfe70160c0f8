//! Reads LAYER with DATATYPE or BOXTYPE.

ghost use Rattle.std.specs.Prelude.{◌≤◌, length};
ghost use Rattle.mpw_records.specs.Format.{least_size};
ghost use Rattle.mpw_elements.specs.Reading.{GivesReading};
ghost use Rattle.mpw_elements.specs.Internal.Grammar.{layer};

use crate::fault::ReadError;
use crate::reading::expect;
use crate::values::short;
use mpw_geom::Layer;
use mpw_records::{Records, kind};

/// The layer of an element that begins at `start`. A box has BOXTYPE instead of DATATYPE.
///
/// # Errors
/// The first fault of its two records.
#[tactic(auto, unfolding(crate::specs::Internal::Grammar::layer, mpw_records::specs::Format::least_size))]
pub fn read_layer(records: &mut Records<'_>, start: usize, datatype: u8) -> Result<Layer, ReadError>
    requires { 2 ≤ least_size datatype }
    ensures layer { GivesReading (λ l. l) result records.new (layer start datatype records.old) }
    ensures rest { length records.new ≤ length records.old }
{
    let layer = short(expect(records, start, kind::LAYER)?);
    let datatype = short(expect(records, start, datatype)?);
    Ok(Layer { layer, datatype })
}
