//! The lines of a listing of waivers.
ghost use Rattle.std.specs.Prelude.{◌≡◌, ◌++◌, slice_get, IfOk, OnOk};
ghost use Rattle.std.specs.Option.{option_copied};
ghost use Rattle.mpw_signoff.specs.Named.{name_for};
ghost use Rattle.mpw_signoff.specs.WaiverLines.{lines_from, rule_line, shown_line, waiver_line};

use crate::sight::is_full;
use mpw_deck::Rule;
use mpw_geom::Name;
use mpw_markers::Marker;
use mpw_replies::Line;
use mpw_requests::MarkerName;
use mpw_waiver::{Waiver, Waivers};
use std::alloc::{AllocError, Global};

/// The name of a marker of a rule of that name.
fn name_for(rule: &Name, marker: &Marker) -> Result<MarkerName, AllocError>
    ensures { IfOk result (λ name. name ≡ name_for rule.now marker.now) }
{
    let rule = rule.copy()?;
    let piece = marker.key.piece;
    Ok(MarkerName { rule, piece })
}

/// The line of an unsigned waiver.
fn asked_line(rule: &Name, marker: &Marker, asker: &Name) -> Result<Line, AllocError>
    ensures { IfOk result (λ line. line ≡ Line.Asked (name_for rule.now marker.now) asker.now) }
{
    let asker = asker.copy()?;
    Ok(Line::Asked {
        marker: name_for(rule, marker)?,
        asker,
    })
}

/// The line of a signed waiver.
fn signed_line(
    rule: &Name,
    marker: &Marker,
    asker: &Name,
    signer: &Name,
) -> Result<Line, AllocError>
    ensures { IfOk result (λ line. line ≡ Line.Signed (name_for rule.now marker.now) asker.now signer.now) }
{
    let asker = asker.copy()?;
    let signer = signer.copy()?;
    Ok(Line::Signed {
        marker: name_for(rule, marker)?,
        asker,
        signer,
    })
}

/// The line of a marker's waiver.
fn waiver_line(rule: &Name, marker: &Marker, waiver: &Waiver) -> Result<Line, AllocError>
    ensures { IfOk result (λ line. line ≡ waiver_line (name_for rule.now marker.now) waiver.now.asker waiver.now.signer) }
{
    match &waiver.signer {
        Some(signer) => signed_line(rule, marker, &waiver.asker, signer),
        None => asked_line(rule, marker, &waiver.asker),
    }
}

/// The rule at an index of the deck.
fn rule_at(rules: &[Rule], place: u32) -> Option<&Rule>
    ensures { option_copied result ≡ slice_get rules.now place }
{
    rules.get(place as usize)
}

/// Adds the line of a marker's waiver.
fn add_line(
    lines: &mut Vec<Line>,
    rule: Option<&Rule>,
    marker: &Marker,
    waiver: &Waiver,
) -> Result<(), AllocError>
    ensures { OnOk result (lines.new.items ≡ lines.old.items ++ rule_line marker.now waiver.now (option_copied rule.entry)) }
{
    let Some(rule) = rule else {
        return Ok(());
    };
    lines.push(waiver_line(&rule.name, marker, waiver)?)?;
    Ok(())
}

/// Adds the line of a marker, if it has a waiver and is full.
fn add_shown(
    lines: &mut Vec<Line>,
    rules: &[Rule],
    seen: &[bool],
    marker: &Marker,
    waiver: Option<&Waiver>,
) -> Result<(), AllocError>
    ensures { OnOk result (lines.new.items ≡ lines.old.items ++ shown_line rules.now seen.now marker.now (option_copied waiver.entry)) }
{
    let Some(waiver) = waiver else {
        return Ok(());
    };
    if !is_full(seen, marker) {
        return Ok(());
    }
    add_line(lines, rule_at(rules, marker.key.rule), marker, waiver)
}

/// The lines of a book's markers, in order. Cost: a pass over the book, and one over the touched submissions of each marker that has a waiver.
///
/// # Errors
/// Out of memory.
pub(crate) fn waiver_lines(
    alloc: Global,
    rules: &[Rule],
    seen: &[bool],
    book: &[Marker],
    waivers: &Waivers,
) -> Result<Vec<Line>, AllocError>
    ensures { IfOk result (λ lines. lines.items ≡ lines_from rules.now seen.now waivers.now 0 book.now) }
{
    let mut lines = Vec::new(alloc);
    for place in 0..book.len() {
        add_shown(
            &mut lines,
            rules,
            seen,
            &book[place],
            waivers.waiver_at(place),
        )?;
    }
    Ok(lines)
}
