//! The changes that the requests of a script leave with a store writer, counted by their lines and the replies that the script has.

use crate::replies::lines_behind;
use gate_events::Transcript;
use std::str::from_utf8;

/// The first words of requests that change nothing.
const LISTINGS: [&str; 8] = [
    "whoami", "cells", "shapes", "status", "markers", "waivers", "verdict", "trail",
];

/// The first line of a text, without its line feed, and the rest.
fn split_line(text: &[u8]) -> (&[u8], &[u8]) {
    match text.iter().position(|byte| *byte == b'\n') {
        Some(end) => (&text[..end], &text[end + 1..]),
        None => (text, &text[text.len()..]),
    }
}

/// A text after that many bytes.
fn behind_bytes(text: &[u8], count: usize) -> &[u8] {
    &text[count.min(text.len())..]
}

/// A text after that many lines.
fn behind_lines(text: &[u8], count: usize) -> &[u8] {
    let mut rest = text;
    for _ in 0..count {
        rest = split_line(rest).1;
    }
    rest
}

/// The first word of a line.
fn verb_of(line: &str) -> &str {
    line.split_whitespace().next().unwrap_or("")
}

/// The number of bytes of the payload after a line.
fn payload_behind(line: &str) -> usize {
    let verb = verb_of(line);
    if verb != "submit" && verb != "deck" {
        return 0;
    }
    match line.rsplit_once(' ') {
        Some((_, length)) => length.parse::<usize>().unwrap_or(0),
        None => 0,
    }
}

/// Whether a request with that first word changes nothing.
fn is_listing(verb: &str) -> bool {
    for listing in LISTINGS {
        if listing == verb {
            return true;
        }
    }
    false
}

/// How many changes an accepted request leaves: none if it only lists; for a run, also that it was finished.
fn changes_of(verb: &str) -> usize {
    if is_listing(verb) {
        0
    } else if verb == "run" {
        2
    } else {
        1
    }
}

/// Whether a connection has a session after an accepted request.
fn has_session_behind(verb: &str, had_session: bool) -> bool {
    match verb {
        "open" => true,
        "close" => false,
        _ => had_session,
    }
}

/// How many changes a store writer has after that many lines of a script got the replies that it has, and the connection ended: those that
/// were accepted, a run's end for each run, and the end of a session.
pub fn kept_after(script: &Transcript, answered: usize) -> usize {
    let (mut input, mut replies) = (script.input.as_slice(), script.replies.as_slice());
    let (mut kept, mut has_session) = (0usize, false);
    for _ in 0..answered {
        let (line, behind) = split_line(input);
        let (first, more) = split_line(replies);
        let line = from_utf8(line).unwrap_or("");
        let first = from_utf8(first).unwrap_or("");
        if first.starts_with("OK ") {
            kept = kept.saturating_add(changes_of(verb_of(line)));
            has_session = has_session_behind(verb_of(line), has_session);
        }
        input = behind_bytes(behind, payload_behind(line));
        replies = behind_lines(more, lines_behind(first));
    }
    kept.saturating_add(if has_session { 1 } else { 0 })
}
