//! What `markers` shows. The contract is the law.

ghost use Rattle.mpw_listing_laws.specs.Markers.{MarkersAreTold, OneListing};

use mpw_core::Core;

/// An accepted `markers` of a desk lists its finished run's book, whoever asks. First comes a line for each marker of which the session may read the
/// cells of all submissions that it touches, and for no other. These are in the book's order, each with its key and exactly the cells that it
/// touches, in alphabetical order, each once. Then comes a line for each rule with markers of which it may read some of these cells and not all, with
/// the count of these markers, in the deck's order. There is no other line: two listings of which all this holds are equal.
pub fn markers_tell_what_is_readable(core: &Core)
    ensures told { MarkersAreTold core.now }
    ensures one { OneListing }
{
    core.run_is_sound();
}
