//! Checks by their words.

use mpw_deck::Check;
use mpw_geom::Layer;

/// The check of a word, of a first layer or of both; `None` at another word.
pub fn check_of(word: &str, first: Layer, second: Layer) -> Option<Check> {
    match word {
        "width" => Some(Check::Width(first)),
        "space" => Some(Check::Space(first)),
        "separation" => Some(Check::Separation(first, second)),
        "enclosing" => Some(Check::Enclosing(first, second)),
        _ => None,
    }
}
