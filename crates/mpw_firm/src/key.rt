//! Markers by their keys, as the listing prints them.
ghost use Rattle.std.specs.Prelude.{◌≡◌, IfOk, Some, option_copied};
ghost use Rattle.mpw_firm.specs.Keys.{is_keyed, has_key, marker_named};
ghost use Rattle.mpw_firm_listing.specs.Keys.{key_text};

use mpw_deck::Rule;
use mpw_firm_grid::Parts;
use mpw_firm_listing::put_key;
use mpw_markers::Marker;
use std::alloc::Global;
use std::io;

/// The key of a marker of that rule.
fn key_text(alloc: Global, rule: &Rule, parts: &Parts, marker: &Marker) -> io::Result<Vec<u8>>
    ensures { IfOk result (λ text. text.items ≡ key_text parts.now rule.now.name marker.now.key.piece) }
{
    let mut text = Vec::new(alloc);
    put_key(&mut text, rule, parts, &marker.key.piece)?;
    Ok(text)
}

/// Whether a marker of that rule has that key.
fn is_keyed(
    alloc: Global,
    word: &str,
    parts: &Parts,
    marker: &Marker,
    rule: &Rule,
) -> io::Result<bool>
    ensures { IfOk result (λ same. same ≡ is_keyed parts.now word.now marker.now (Some rule.now)) }
{
    let text = key_text(alloc, rule, parts, marker)?;
    Ok(text.as_slice() == word.as_bytes())
}

/// Whether a marker has that key.
fn has_key(
    alloc: Global,
    rules: &[Rule],
    parts: &Parts,
    word: &str,
    marker: &Marker,
) -> io::Result<bool>
    ensures { IfOk result (λ same. same ≡ has_key parts.now rules.now word.now marker.now) }
{
    match rules.get(marker.key.rule as usize) {
        Some(rule) => is_keyed(alloc, word, parts, marker, rule),
        None => Ok(false),
    }
}

/// The marker of that key, if there is one. It makes the text of each key before it.
///
/// # Errors
/// If there is no memory for a key's text.
pub fn find_marker<'a>(
    alloc: Global,
    rules: &[Rule],
    parts: &Parts,
    markers: &'a [Marker],
    word: &str,
) -> io::Result<Option<&'a Marker>>
    ensures { IfOk result (λ found. option_copied found ≡ marker_named parts.now rules.now word.now markers.now) }
{
    for marker in markers {
        if has_key(alloc, rules, parts, word, marker)? {
            return Ok(Some(marker));
        }
    }
    Ok(None)
}
