//! Draws what was checked, as SVG: its layers and its markers in a window.
//!
//! - A [`Picture`] is a window in nm, the rectangles of shapes in it, and the markers that touch it.
//! - [`draw`], [`draw_view`] and [`draw_with`] make one from a snapshot and its markers, the last with the elements that are left out for
//!   their faults. The window is [`whole_window`] or [`marker_window`]. A walk visits only what
//!   touches the window.
//! - [`write_picture`] writes a picture part by part. It takes no memory.
//!
//! `specs/Text.antt` defines the text, and `specs/Drawn.antt` the content of a picture.
//!
//! No two layers of a picture have the same style ([`layers_look_unlike`]).
//!
//! In a drawing y points down, so boxes are turned (`turned` of `specs/Sizes.antt`).
#![tactic(auto)]

mod density;
mod drawing;
mod laws;
mod layers;
mod left;
mod legend;
mod look;
mod mark;
mod part;
mod picture;
mod shapes;
mod size;
mod squares;
mod title;
mod wanted;
mod window;
mod write;

pub use laws::layers_look_unlike;
pub use picture::{LeftOut, Mark, Picture, View, draw, draw_view, draw_with};
pub use window::{marker_window, whole_window};
pub use write::write_picture;
