//! Laws of the definitions alone. Each function has an empty body: its contract is the law.

ghost use Rattle.mpw_firm_parts.specs.Laws.{OnlyPartsAreRead, PartsAreReadBack};
ghost use Rattle.mpw_firm_parts.specs.Stitching.{EachColumnHasItsList};

/// The text of a part is read as that part.
pub fn parts_are_read_back()
    ensures { PartsAreReadBack }
{}

/// A text that is read as a part is the text of that part, byte for byte. So its last line has the SHA-256 of all before it.
pub fn only_parts_are_read()
    ensures { OnlyPartsAreRead }
{}

/// If parts are a whole, what holds of each of their columns with its list holds of the columns and lists that are put together.
pub fn each_column_has_its_list()
    ensures { EachColumnHasItsList }
{}
