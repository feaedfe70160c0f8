//! Reads layers from a word of a command line.
ghost use Rattle.std.specs.Prelude.{◌≡◌, map, option_map, IfOk};
ghost use Rattle.mpw_deck.specs.Reading.{layer_from};
ghost use Rattle.mpw_firm_choices.specs.Layers.{layer_in, layers_in, layers_of};

use mpw_geom::Layer;
use mpw_text::{parts, read_number};
use std::alloc::{AllocError, Global};

/// The layer that the halves of a word spell.
fn layer_from(halves: &[&[u8]]) -> Option<Layer>
    ensures { result ≡ layer_from (map (λ x. x.now) halves.now) }
{
    let [layer, datatype] = halves else {
        return None;
    };
    let layer = read_number(layer, 0, 65535)?;
    let datatype = read_number(datatype, 0, 65535)?;
    Some(Layer {
        layer: layer as u16,
        datatype: datatype as u16,
    })
}

/// The layer that a word `L/D` spells.
fn layer_in(alloc: Global, word: &[u8]) -> Result<Option<Layer>, AllocError>
    ensures { IfOk result (λ layer. layer ≡ layer_in word.now) }
{
    let halves = parts(alloc, word, b'/')?;
    Ok(layer_from(halves.as_slice()))
}

/// The layers that these words spell, if each does.
fn layers_in(alloc: Global, words: &[&[u8]]) -> Result<Option<Vec<Layer>>, AllocError>
    ensures { IfOk result (λ read. layers_in (map (λ x. x.now) words.now) ≡ option_map (λ layers. layers.items) read) }
{
    let mut layers = Vec::new(alloc);
    for word in words {
        match layer_in(alloc, word)? {
            Some(layer) => layers.push(layer)?,
            None => return Ok(None),
        }
    }
    Ok(Some(layers))
}

/// The layers that a word `L/D,L/D,..` spells, in order, if it has that form: each part is two numbers from 0 to 65535.
///
/// # Errors
/// Out of memory.
pub fn read_layers(alloc: Global, word: &[u8]) -> Result<Option<Vec<Layer>>, AllocError>
    ensures { IfOk result (λ read. layers_of word.now ≡ option_map (λ layers. layers.items) read) }
{
    let words = parts(alloc, word, b',')?;
    layers_in(alloc, words.as_slice())
}
