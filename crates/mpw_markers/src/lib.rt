//! Markers: what the checks of all tiles found, stitched into one book.
//!
//! A tile's job lists the markers of its core. If a run of rows continues from one core to the next, its pieces are listed
//! separately. [`stitch`] makes one [`Marker`] of each run, which touches what its pieces touch. The [`Book`] is sorted, so
//! [`Book::place`] and [`Book::find`] find a key by binary search.
//!
//! A marker names the submissions whose shapes touch its box. [`met_origins`] finds them for many boxes at once, by
//! halving the list of boxes: each half visits only the rectangles near it.
#![tactic(auto)]

mod book;
mod fill;
mod laws;
mod marker;
mod met;
mod place;
mod search;
mod stitching;

pub use book::Book;
pub use fill::met_origins;
pub use laws::{lists_determine_the_book, places_are_of_their_keys, stitched_is_whole};
pub use marker::{Key, Line, Marker, TileMarkers};
pub use met::Met;
pub use search::Rectangle;
pub use stitching::stitch;
