//! Rectangles from words.

use anyhow::Result;
use gate_words::Words;
use mpw_geom::Layer;
use mpw_tiles::Rectangle;
use std::alloc::Global;

/// Takes an origin, a layer and an area.
fn rectangle(words: &mut Words<'_>) -> Rectangle {
    let origin = words.number();
    let layer = Layer {
        layer: u16::try_from(words.number()).unwrap_or(0),
        datatype: 0,
    };
    Rectangle {
        area: words.area(),
        layer,
        origin,
    }
}

/// Rectangles with `,` between them.
pub fn rectangles(alloc: Global, text: &str) -> Result<Vec<Rectangle>> {
    let mut list = Vec::new(alloc);
    for part in text.split(',') {
        let mut words = Words::of(part);
        list.push(rectangle(&mut words))?;
        words.end()?;
    }
    Ok(list)
}
