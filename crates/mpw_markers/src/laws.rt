//! Laws about the definitions. Each function has an empty body; its contract is the law.

ghost use Rattle.mpw_markers.specs.Laws.{ListsDetermineTheBook, PlacesAreOfKeys, StitchedIsWhole};

/// Two books stitched from the same lists are equal.
pub fn lists_determine_the_book()
    ensures { ListsDetermineTheBook }
{}

/// Let each list have exactly the maximal runs of a core, with the submissions that their boxes touch, and let each pair
/// step lie in a core. Then the book stitched from the lists has exactly the maximal runs of the whole layout, with the
/// submissions that their boxes touch.
pub fn stitched_is_whole()
    ensures { StitchedIsWhole }
{}

/// The marker at the index of a key has that key.
pub fn places_are_of_their_keys()
    ensures { PlacesAreOfKeys }
{}
