//! Writes the items: one for each marker, with its pair of edges.
ghost use Rattle.std.specs.Prelude.{take};
ghost use Rattle.std.specs.List.{flat_map, enumerate_from};
ghost use Rattle.mpw_firm_report.specs.Content.{content_of};
ghost use Rattle.mpw_firm_report.specs.Report.{item_text, rule_items};
ghost use Rattle.mpw_text.specs.Writing.{Adds};

use crate::content::Report;
use crate::edge::put_pair;
use crate::name::{put_name, put_path};
use crate::part::{Part, put_part};
use mpw_deck::Rule;
use mpw_geom::Name;
use mpw_markers::Marker;
use std::io::{self, Write};

/// Writes the item of a marker of that rule.
#[tactic(auto, unfolding(crate::specs::Report::item_text))]
fn put_item<W: Write>(writer: &mut W, top: &Name, rule: &Rule, marker: &Marker) -> io::Result<()>
    ensures { Adds W.contents writer.old writer.new result (item_text top.now rule.now marker.now) }
{
    put_part(writer, Part::ItemPath)?;
    put_path(writer, &rule.name)?;
    put_part(writer, Part::ItemCell)?;
    put_name(writer, top)?;
    put_part(writer, Part::Value)?;
    put_pair(writer, &marker.key.piece)?;
    put_part(writer, Part::ItemEnd)
}

/// Writes the items of the first markers of the rule at index `place`, in their order.
fn put_rule_items<W: Write>(
    writer: &mut W,
    report: &Report<'_>,
    place: usize,
    rule: &Rule,
) -> io::Result<()>
    ensures { Adds W.contents writer.old writer.new result (rule_items (content_of report.now) (place, rule.now)) }
{
    let mut left = report.limit;
    for marker in report.markers {
        if marker.key.rule as usize == place {
            if left > 0 {
                put_item(writer, report.top, rule, marker)?;
                left -= 1;
            }
        }
    }
    Ok(())
}

/// Writes the items of the markers of each rule, in the rules' order.
pub(crate) fn put_items<W: Write>(writer: &mut W, report: &Report<'_>) -> io::Result<()>
    ensures { Adds W.contents writer.old writer.new result
        (flat_map (rule_items (content_of report.now)) (enumerate_from 0 report.now.rules.now)) }
{
    for (place, rule) in report.rules.iter().enumerate() {
        put_rule_items(writer, report, place, rule)?;
    }
    Ok(())
}
