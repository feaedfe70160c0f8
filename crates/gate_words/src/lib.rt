//! The words in lines of golden tests: tables of lines, numbers, placings, boxes and checks; and random numbers that are the same in each run.
#![tactic(auto)]

mod answers;
mod markers;
mod numerals;
mod plane;
mod random;
mod rule;
mod tables;
mod words;

pub use answers::{Answers, HEAD, answer_lines, read_input, table};
pub use markers::{axis, key, letter, marker, print_marker, side, tell_marker};
pub use numerals::{coordinate, coordinate_or_zero, number, numbers};
pub use plane::{
    ORIENTS, coordinates, is_coordinate, is_near, is_ordered, orient, orient_of, orient_word,
    placing,
};
pub use random::Random;
pub use rule::check_of;
pub use tables::{Table, read_tables};
pub use words::Words;
