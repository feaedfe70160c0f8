//! Counts the replies of a text.

use std::str::from_utf8;

/// How many lines follow a reply's first line.
pub fn lines_behind(first: &str) -> usize {
    match first.split_once(' ') {
        Some(("OK", count)) => count.parse::<usize>().unwrap_or(0),
        _ => 0,
    }
}

/// How many complete lines a text has.
fn whole_lines(text: &[u8]) -> usize {
    let mut count = 0usize;
    for byte in text {
        if *byte == b'\n' {
            count = count.saturating_add(1);
        }
    }
    count
}

/// How many complete replies a text has.
pub fn whole_replies(text: &[u8]) -> usize {
    let (mut count, mut behind) = (0usize, 0usize);
    for line in from_utf8(text)
        .unwrap_or("")
        .lines()
        .take(whole_lines(text))
    {
        behind = if behind > 0 {
            behind - 1
        } else {
            lines_behind(line)
        };
        if behind == 0 {
            count = count.saturating_add(1);
        }
    }
    count
}
