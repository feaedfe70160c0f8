//! The numbers of markers by rule, and the text that has them. `specs/Counted.antt` has what contracts say of it.
ghost use Rattle.std.specs.Prelude.{◌≡◌, ◌==◌, ◌<◌, ◌+◌, ◌^◌, ◌++◌, ℕ, if◌then◌else◌, get_or, length, replicate, slice_index, IfOk};
ghost use Rattle.std.specs.String.{string_bytes};
ghost use Rattle.mpw_firm_outputs.specs.Counted.{count_line, counts_text, rule_counts, rule_lines};
ghost use Rattle.mpw_text.specs.Writing.{Adds};
ghost use Rattle.mpw_firm_outputs.specs.LeftOut.{left_out_line, left_out_lines, left_out_note, left_out_text};

use itoa::Buffer;
use mpw_deck::Rule;
use mpw_markers::Marker;
use mpw_text::put;
use std::alloc::{AllocError, Global};
use std::io::{self, Write};

/// How many markers each rule has, by its place in the deck, and how many there are, both up to 2^64 - 1.
#[derive(Clone, Copy, Drop)]
pub struct Counts<'a> {
    /// How many each rule has, by its place in the deck. One without a number has 0.
    pub rules: &'a [usize],
    /// How many there are.
    pub all: usize,
}

/// So many zeros.
fn zeros(alloc: Global, count: usize) -> Result<Vec<usize>, AllocError>
    ensures { IfOk result (λ zeros. zeros.items ≡ replicate count 0) }
{
    vec![in alloc; 0usize; count]
}

/// Counts one more at a place, if it is there.
fn count_one(counts: &mut Vec<usize>, place: usize)
    requires { (k : ℕ) → k < length counts.old.items → slice_index counts.old.items k + 1 < 2 ^ 64 }
    ensures many { length counts.new.items ≡ length counts.old.items }
    ensures more { (k : ℕ) → k < length counts.old.items → slice_index counts.new.items k ≡ slice_index counts.old.items k + (if place == k then 1 else 0) }
{
    if place < counts.len() {
        counts[place] += 1;
    }
}

/// How many markers each of so many rules has, by the rule's place in the deck: the `rules` of [`Counts`]. One pass over the markers; it
/// takes 8 bytes for each rule.
///
/// # Errors
/// Out of memory.
pub fn rule_counts(
    alloc: Global,
    rules: usize,
    markers: &[Marker],
) -> Result<Vec<usize>, AllocError>
    ensures { IfOk result (λ counts. counts.items ≡ rule_counts rules markers.now) }
{
    let mut counts = zeros(alloc, rules)?;
    for marker in markers {
        count_one(&mut counts, marker.key.rule as usize);
    }
    Ok(counts)
}

/// Writes the line of a name and a number.
#[tactic(auto, unfolding(crate::specs::Counted::count_line))]
fn put_line<W: Write>(writer: &mut W, name: &str, count: usize) -> io::Result<()>
    ensures { Adds W.contents writer.old writer.new result (count_line name.now count) }
{
    put(writer, &[name, " ", Buffer::new().format(count), "\n"])
}

/// The number at a place, or 0.
fn number_at(numbers: &[usize], place: usize) -> usize
    ensures { result ≡ get_or numbers.now place 0 }
{
    match numbers.get(place) {
        Some(number) => *number,
        None => 0,
    }
}

/// Writes the lines of rules that have so many markers.
fn put_rules<W: Write>(writer: &mut W, rules: &[Rule], counts: &[usize]) -> io::Result<()>
    ensures { Adds W.contents writer.old writer.new result (rule_lines rules.now counts.now) }
{
    for (place, rule) in rules.iter().enumerate() {
        put_line(writer, rule.name.as_str(), number_at(counts, place))?;
    }
    Ok(())
}

/// The note of a rule of whose markers some are left out.
#[tactic(auto, unfolding(crate::specs::LeftOut::left_out_line))]
fn left_out_line(alloc: Global, name: &str, left: usize, count: usize) -> Result<String, AllocError>
    ensures { IfOk result (λ text. string_bytes text ≡ left_out_line name.now left count) }
{
    format!(in alloc; "note: rule {name}: {left} of {count} markers left out\n")
}

/// Adds that of a rule with so many markers, if more are there than are listed.
fn add_left_out(
    alloc: Global,
    text: &mut String,
    name: &str,
    count: usize,
    most: usize,
) -> Result<(), AllocError>
    ensures { IfOk result (λ _. string_bytes text.new ≡ string_bytes text.old ++ left_out_note name.now count most) }
{
    if count > most {
        let line = left_out_line(alloc, name, count - most, count)?;
        text.push_str(line.as_str())
    } else {
        Ok(())
    }
}

/// The notes of the rules of which more than so many markers are there.
fn left_out_lines(
    alloc: Global,
    rules: &[Rule],
    counts: &[usize],
    most: usize,
) -> Result<String, AllocError>
    ensures { IfOk result (λ text. string_bytes text ≡ left_out_lines rules.now counts.now most) }
{
    let mut text = String::new(alloc);
    for (place, rule) in rules.iter().enumerate() {
        let count = number_at(counts, place);
        add_left_out(alloc, &mut text, rule.name.as_str(), count, most)?;
    }
    Ok(text)
}

/// A line for each rule of which markers are left out by a limit, with how many these are, and how many there are. It takes the text's size.
///
/// # Errors
/// Out of memory.
pub fn left_out_text(
    alloc: Global,
    rules: &[Rule],
    counts: &[usize],
    limit: Option<u32>,
) -> Result<String, AllocError>
    ensures { IfOk result (λ text. string_bytes text ≡ left_out_text rules.now counts.now limit) }
{
    match limit {
        Some(most) => left_out_lines(alloc, rules, counts, most as usize),
        None => Ok(String::new(alloc)),
    }
}

/// Writes a line for each rule of a deck, with its name and how many markers it has, and one for all. A rule without a number has 0. It takes no
/// memory.
///
/// # Errors
/// Those of the writer, which then has a part of the text.
pub fn write_counts<W: Write>(writer: &mut W, rules: &[Rule], counts: &Counts<'_>) -> io::Result<()>
    ensures { Adds W.contents writer.old writer.new result (counts_text rules.now counts.now.rules.now counts.now.all) }
{
    put_rules(writer, rules, counts.rules)?;
    put_line(writer, "all", counts.all)
}
