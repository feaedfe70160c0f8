//! Writes the faults of elements: a category, and an item for each.
ghost use Rattle.std.specs.Prelude.{◌≡◌, map, option_map};
ghost use Rattle.std.specs.List.{flat_map};
ghost use Rattle.mpw_firm_report.specs.Content.{fault_of};
ghost use Rattle.mpw_firm_report.specs.Report.{fault_category, place_text, fault_value, low_corner, high_corner, area_text, area_value, fault_text};
ghost use Rattle.mpw_text.specs.Writing.{Adds};

use crate::content::Fault;
use crate::edge::put_point;
use crate::name::{put_name, put_path_characters};
use crate::part::{Part, put_part};
use itoa::Buffer;
use mpw_geom::{Box2, Name, Point};
use mpw_text::put;
use std::io::{self, Write};

/// Writes the category of faults, if there are some.
#[tactic(auto, unfolding(crate::specs::Report::fault_category))]
pub(crate) fn put_fault_category<W: Write>(writer: &mut W, faults: &[Fault<'_>]) -> io::Result<()>
    ensures { Adds W.contents writer.old writer.new result (fault_category (map fault_of faults.now)) }
{
    match faults {
        [] => Ok(()),
        [..] => put_part(writer, Part::FaultCategory),
    }
}

/// Writes the structure of a fault, if it is known.
#[tactic(auto, unfolding(crate::specs::Report::place_text))]
fn put_place<W: Write>(writer: &mut W, structure: Option<&Name>) -> io::Result<()>
    ensures { Adds W.contents writer.old writer.new result (place_text (option_map (λ name. name.now) structure.entry)) }
{
    match structure {
        Some(name) => {
            put(writer, &[" in "])?;
            put_path_characters(writer, name.as_bytes())
        }
        None => Ok(()),
    }
}

/// Writes the value of a fault: its code, its byte and its structure.
#[tactic(auto, unfolding(crate::specs::Report::fault_value))]
fn put_fault_value<W: Write>(writer: &mut W, fault: &Fault<'_>) -> io::Result<()>
    ensures { Adds W.contents writer.old writer.new result (fault_value (fault_of fault.now)) }
{
    let mut byte = Buffer::new();
    put(writer, &["text: '"])?;
    put_path_characters(writer, fault.code.as_bytes())?;
    put(writer, &[" at byte ", byte.format(fault.byte)])?;
    put_place(writer, fault.structure)?;
    put(writer, &["'"])
}

/// The lower left corner of a box.
fn low_corner(area: &Box2) -> Point
    ensures { result ≡ low_corner area.now }
{
    Point {
        x: area.x0,
        y: area.y0,
    }
}

/// Its upper right corner.
fn high_corner(area: &Box2) -> Point
    ensures { result ≡ high_corner area.now }
{
    Point {
        x: area.x1,
        y: area.y1,
    }
}

/// Writes a box.
#[tactic(auto, unfolding(crate::specs::Report::area_text))]
fn put_area<W: Write>(writer: &mut W, area: &Box2) -> io::Result<()>
    ensures { Adds W.contents writer.old writer.new result (area_text area.now) }
{
    put(writer, &["box: ("])?;
    put_point(writer, low_corner(area))?;
    put(writer, &[";"])?;
    put_point(writer, high_corner(area))?;
    put(writer, &[")"])
}

/// Writes the box of a fault, if it is known.
#[tactic(auto, unfolding(crate::specs::Report::area_value))]
fn put_area_value<W: Write>(writer: &mut W, area: &Option<Box2>) -> io::Result<()>
    ensures { Adds W.contents writer.old writer.new result (area_value area.now) }
{
    match area {
        Some(area) => {
            put_part(writer, Part::NextValue)?;
            put_area(writer, area)
        }
        None => Ok(()),
    }
}

/// Writes the item of a fault.
#[tactic(auto, unfolding(crate::specs::Report::fault_text))]
fn put_fault<W: Write>(writer: &mut W, top: &Name, fault: &Fault<'_>) -> io::Result<()>
    ensures { Adds W.contents writer.old writer.new result (fault_text top.now (fault_of fault.now)) }
{
    put_part(writer, Part::FaultItem)?;
    put_name(writer, top)?;
    put_part(writer, Part::Value)?;
    put_fault_value(writer, fault)?;
    put_area_value(writer, &fault.area)?;
    put_part(writer, Part::ItemEnd)
}

/// Writes the items of faults, in their order.
pub(crate) fn put_faults<W: Write>(
    writer: &mut W,
    top: &Name,
    faults: &[Fault<'_>],
) -> io::Result<()>
    ensures { Adds W.contents writer.old writer.new result (flat_map (fault_text top.now) (map fault_of faults.now)) }
{
    for fault in faults {
        put_fault(writer, top, fault)?;
    }
    Ok(())
}
