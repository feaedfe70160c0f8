//! Writes the categories: one for each rule, with the rule's line as its description.
ghost use Rattle.std.specs.Prelude.{◌≡◌, get_or, length};
ghost use Rattle.std.specs.List.{flat_map, enumerate_from};
ghost use Rattle.mpw_firm_report.specs.Content.{content_of, counted, of_rule};
ghost use Rattle.mpw_firm_report.specs.Report.{layer_text, check_word, check_layers, rule_text, left_out_text, category_text};
ghost use Rattle.mpw_text.specs.Writing.{Adds};

use crate::content::Report;
use crate::name::put_name;
use crate::part::{Part, put_part};
use itoa::Buffer;
use mpw_deck::{Check, Rule};
use mpw_geom::Layer;
use mpw_markers::Marker;
use mpw_text::put;
use std::io::{self, Write};

/// Writes a layer as a deck has it, after a space.
pub(crate) fn put_layer<W: Write>(writer: &mut W, layer: Layer) -> io::Result<()>
    ensures { Adds W.contents writer.old writer.new result (layer_text layer) }
{
    let mut number = Buffer::new();
    let mut datatype = Buffer::new();
    put(
        writer,
        &[
            " ",
            number.format(layer.layer),
            "/",
            datatype.format(layer.datatype),
        ],
    )
}

/// The word of a check.
#[tactic(auto, unfolding(crate::specs::Report::check_word))]
fn check_word(check: Check) -> &'static str
    ensures { result.now ≡ check_word check }
{
    match check {
        Check::Width(_) => "width",
        Check::Space(_) => "space",
        Check::Separation(_, _) => "separation",
        Check::Enclosing(_, _) => "enclosing",
    }
}

/// Writes the layers of a check.
#[tactic(auto, unfolding(crate::specs::Report::check_layers))]
fn put_layers<W: Write>(writer: &mut W, check: Check) -> io::Result<()>
    ensures { Adds W.contents writer.old writer.new result (check_layers check) }
{
    match check {
        Check::Width(layer) | Check::Space(layer) => put_layer(writer, layer),
        Check::Separation(first, second) | Check::Enclosing(first, second) => {
            put_layer(writer, first)?;
            put_layer(writer, second)
        }
    }
}

/// Writes a rule as its deck has it.
#[tactic(auto, unfolding(crate::specs::Report::rule_text))]
pub fn put_rule<W: Write>(writer: &mut W, rule: &Rule) -> io::Result<()>
    ensures { Adds W.contents writer.old writer.new result (rule_text rule.now) }
{
    let mut distance = Buffer::new();
    put(writer, &[check_word(rule.check), " "])?;
    put_name(writer, &rule.name)?;
    put_layers(writer, rule.check)?;
    put(writer, &[" ", distance.format(rule.distance)])
}

/// Writes how many of `count` markers the limit leaves out. Writes nothing if it leaves out none.
#[tactic(auto, unfolding(crate::specs::Report::left_out_text))]
pub fn put_left_out<W: Write>(writer: &mut W, count: usize, limit: usize) -> io::Result<()>
    ensures { Adds W.contents writer.old writer.new result (left_out_text count limit) }
{
    if count <= limit {
        return Ok(());
    }
    let mut others = Buffer::new();
    let mut all = Buffer::new();
    put(
        writer,
        &[
            "; ",
            others.format(count - limit),
            " of ",
            all.format(count),
            " markers left out",
        ],
    )
}

/// How many of the markers are of the rule at index `place` in its deck.
fn count_of(markers: &[Marker], place: usize) -> usize
    ensures { result ≡ length (of_rule markers.now place) }
{
    markers
        .iter()
        .filter(|marker| marker.key.rule as usize == place)
        .count()
}

/// The number at index `place`, or 0.
fn number_at(numbers: &[usize], place: usize) -> usize
    ensures { result ≡ get_or numbers.now place 0 }
{
    match numbers.get(place) {
        Some(number) => *number,
        None => 0,
    }
}

/// How many markers the rule at index `place` has. The report's numbers are used if it has some.
fn counted(report: &Report<'_>, place: usize) -> usize
    ensures { result ≡ counted (content_of report.now).counts report.now.markers.now place }
{
    match report.counts {
        Some(counts) => number_at(counts, place),
        None => count_of(report.markers, place),
    }
}

/// Writes the category of the rule at index `place`.
#[tactic(auto, unfolding(crate::specs::Report::category_text))]
fn put_category<W: Write>(
    writer: &mut W,
    report: &Report<'_>,
    place: usize,
    rule: &Rule,
) -> io::Result<()>
    ensures { Adds W.contents writer.old writer.new result (category_text (content_of report.now) (place, rule.now)) }
{
    put_part(writer, Part::CategoryName)?;
    put_name(writer, &rule.name)?;
    put_part(writer, Part::Description)?;
    put_rule(writer, rule)?;
    put_left_out(writer, counted(report, place), report.limit)?;
    put_part(writer, Part::CategoryEnd)
}

/// Writes the categories of rules, in their order.
pub(crate) fn put_categories<W: Write>(writer: &mut W, report: &Report<'_>) -> io::Result<()>
    ensures { Adds W.contents writer.old writer.new result
        (flat_map (category_text (content_of report.now)) (enumerate_from 0 report.now.rules.now)) }
{
    for (place, rule) in report.rules.iter().enumerate() {
        put_category(writer, report, place, rule)?;
    }
    Ok(())
}
