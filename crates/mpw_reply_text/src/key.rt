//! Keys of markers: the name of a rule and the place of the marker, with colons between the parts.
ghost use Rattle.std.specs.Prelude.{◌≡◌};
ghost use Rattle.mpw_requests.specs.Words.{marker_key};
ghost use Rattle.mpw_wire.specs.Keys.{key_text};
ghost use Rattle.mpw_wire.specs.Writing.{Writes};

use crate::write::write_parts;
use itoa::Buffer;
use mpw_devices::Sink;
use mpw_edges::Piece;
use mpw_geom::Name;
use mpw_requests::{MarkerName, axis_letter};
use mpw_text::with_colons;
use mpw_wire::WireFault;

/// Writes the key of the marker of a rule with that run.
pub(crate) fn write_key<W: Sink>(writer: &mut W, rule: &Name, piece: Piece) -> Result<(), WireFault>
    ensures { Writes W.contents W.failures writer.old writer.new result (key_text rule.now piece) }
{
    write_parts(
        writer,
        &with_colons([
            rule.as_str(),
            axis_letter(&piece.axis),
            Buffer::new().format(piece.side),
            Buffer::new().format(piece.x1),
            Buffer::new().format(piece.x2),
            Buffer::new().format(piece.y0),
            Buffer::new().format(piece.y1),
        ]),
    )
}

/// Writes the key of a marker that a request names.
pub(crate) fn write_marker_key<W: Sink>(
    writer: &mut W,
    marker: &MarkerName,
) -> Result<(), WireFault>
    ensures { Writes W.contents W.failures writer.old writer.new result (marker_key marker.now) }
{
    write_key(writer, &marker.rule, marker.piece)
}
