//! The parts of the text that all reports have in common.
ghost use Rattle.std.specs.Prelude.{◌≡◌};
ghost use Rattle.mpw_firm_report.specs.Parts.{part_text};
ghost use Rattle.mpw_text.specs.Writing.{Adds};

use mpw_text::put;
use std::io::{self, Write};

/// A part of the text that all reports have in common.
#[derive(Clone, Copy)]
pub(crate) enum Part {
    /// Before the name in the description.
    Head,
    /// After it.
    HeadEnd,
    /// Instead of the name of the layout's file, if it isn't known.
    NoOriginal,
    /// Before the name of the layout's file.
    Original,
    /// After it.
    OriginalEnd,
    /// Before the name of the top.
    Generator,
    /// Before the categories.
    Categories,
    /// Before the name of a category.
    CategoryName,
    /// Before its description.
    Description,
    /// After its description.
    CategoryEnd,
    /// The category of faults.
    FaultCategory,
    /// Before the name of the cell.
    Cells,
    /// Before the items.
    Items,
    /// Before the path of an item's category.
    ItemPath,
    /// Before the name of its cell.
    ItemCell,
    /// Before its value.
    Value,
    /// Before the name of the cell of a fault.
    FaultItem,
    /// Before another value.
    NextValue,
    /// After its values.
    ItemEnd,
    /// After the items.
    End,
}

/// The text of a part.
#[tactic(auto, unfolding(crate::specs::Parts::part_text))]
fn text(part: Part) -> &'static str
    ensures { result.now ≡ part_text part }
{
    match part {
        Part::Head =>
            "<?xml version=\"1.0\" encoding=\"utf-8\"?>\n<report-database>\n <description>Markers of ",
        Part::HeadEnd => "</description>\n",
        Part::NoOriginal => " <original-file/>\n",
        Part::Original => " <original-file>",
        Part::OriginalEnd => "</original-file>\n",
        Part::Generator => " <generator>mpw check</generator>\n <top-cell>",
        Part::Categories => "</top-cell>\n <tags>\n </tags>\n <categories>\n",
        Part::CategoryName => "  <category>\n   <name>",
        Part::Description => "</name>\n   <description>",
        Part::CategoryEnd => "</description>\n   <categories>\n   </categories>\n  </category>\n",
        Part::FaultCategory =>
            "  <category>\n   <name>faults of elements</name>\n   <description>elements that can't be read, each by its code, the byte in the file and its structure</description>\n   <categories>\n   </categories>\n  </category>\n",
        Part::Cells => " </categories>\n <cells>\n  <cell>\n   <name>",
        Part::Items =>
            "</name>\n   <variant/>\n   <references>\n   </references>\n  </cell>\n </cells>\n <items>\n",
        Part::ItemPath => "  <item>\n   <tags/>\n   <category>",
        Part::ItemCell => "</category>\n   <cell>",
        Part::Value =>
            "</cell>\n   <visited>false</visited>\n   <multiplicity>1</multiplicity>\n   <image/>\n   <values>\n    <value>",
        Part::FaultItem =>
            "  <item>\n   <tags/>\n   <category>'faults of elements'</category>\n   <cell>",
        Part::NextValue => "</value>\n    <value>",
        Part::ItemEnd => "</value>\n   </values>\n  </item>\n",
        Part::End => " </items>\n</report-database>\n",
    }
}

/// Writes a part.
pub(crate) fn put_part<W: Write>(writer: &mut W, part: Part) -> io::Result<()>
    ensures { Adds W.contents writer.old writer.new result (part_text part) }
{
    put(writer, &[text(part)])
}
