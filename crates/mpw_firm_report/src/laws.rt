//! Laws about the definitions.
ghost use Rattle.mpw_firm_report.specs.Escapes.{AreEscaped};
ghost use Rattle.mpw_firm_report.specs.Lengths.{AreExact};
ghost use Rattle.mpw_firm_report.specs.Report.{FirstMarkersHaveTheItems};

/// The text of a name in a report contains no `<`, `>` or `&` of the name's own, and a reader gets the name from it: from the text of an element,
/// and from the path of a category.
pub fn names_are_escaped()
    ensures { AreEscaped }
{}

/// The text of a length in a report is that length in micrometres, without rounding.
pub fn lengths_are_exact()
    ensures { AreExact }
{}

/// If a report has the numbers of markers, the first markers of each rule, up to its limit, make the same text as all markers.
pub fn first_markers_have_the_items()
    ensures { FirstMarkersHaveTheItems }
{}
