//! The parts of the text that all pictures have in common.
ghost use Rattle.std.specs.Prelude.{◌≡◌};
ghost use Rattle.mpw_firm_picture.specs.Parts.{part_text};
ghost use Rattle.mpw_text.specs.Writing.{Adds};

use mpw_text::put;
use std::io::{self, Write};

/// A part of the text that all pictures have in common.
#[derive(Clone, Copy)]
pub(crate) enum Part {
    /// Before the height of the whole picture.
    Head,
    /// Before the name of the structure.
    Title,
    /// After it, with the colours of layers.
    LayerColours,
    /// The colours of rules, and of the ring and arrow at the selected marker.
    RuleColours,
    /// Before the patterns.
    Patterns,
    /// After them, and the background.
    Ground,
    /// After the number of markers that are drawn as a density.
    Dense,
    /// After the last row.
    End,
}

/// The text of a part.
#[tactic(auto, unfolding(crate::specs::Parts::part_text))]
fn text(part: Part) -> &'static str
    ensures { result.now ≡ part_text part }
{
    match part {
        Part::Head =>
            "<?xml version=\"1.0\" encoding=\"utf-8\"?>\n<svg xmlns=\"http://www.w3.org/2000/svg\" font-family=\"sans-serif\" font-size=\"16\" viewBox=\"-170 -90 1340 ",
        Part::Title => "\">\n<title>",
        Part::LayerColours =>
            "</title>\n<style>\n.l{opacity:.6}\n.l0{fill:#4e79a7}\n.l1{fill:#f28e2b}\n.l2{fill:#59a14f}\n.l3{fill:#b07aa1}\n.l4{fill:#edc948}\n.l5{fill:#76b7b2}\n.l6{fill:#9c755f}\n.l7{fill:#17becf}\n.l8{fill:#bcbd22}\n.l9{fill:#8cd17d}\n.l10{fill:#9ecae1}\n.l11{fill:#79706e}\n",
        Part::RuleColours =>
            ".m{fill-opacity:.2;stroke-linejoin:round}\n.m0{fill:#d00000;stroke:#d00000}\n.m1{fill:#0000d0;stroke:#0000d0}\n\
            .m2{fill:#b000b0;stroke:#b000b0}\n.m3{fill:#000000;stroke:#000000}\n.m4{fill:#007000;stroke:#007000}\n\
            .m5{fill:#804000;stroke:#804000}\n.m6{fill:#ff5a00;stroke:#ff5a00}\n.m7{fill:#008b8b;stroke:#008b8b}\n\
            .m8{fill:#6a00ff;stroke:#6a00ff}\n.m9{fill:#808000;stroke:#808000}\n.m10{fill:#ff1493;stroke:#ff1493}\n\
            .m11{fill:#405a80;stroke:#405a80}\n.w{fill:none;stroke:#000;stroke-linecap:round;stroke-linejoin:round}\n",
        Part::Patterns => "</style>\n<defs>\n",
        Part::Ground =>
            "</defs>\n<rect x=\"-170\" y=\"-90\" width=\"100%\" height=\"100%\" fill=\"#fff\"/>\n",
        Part::Dense =>
            " markers, drawn as a density: the darker a square, the more digits has the number of markers in it</text>\n",
        Part::End => "</g>\n</svg>\n",
    }
}

/// Writes a part.
pub(crate) fn put_part<W: Write>(writer: &mut W, part: Part) -> io::Result<()>
    ensures { Adds W.contents writer.old writer.new result (part_text part) }
{
    put(writer, &[text(part)])
}
