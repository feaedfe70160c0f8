//! What is refused of a text: its first fault.

use crate::entry::{Detail, Entry};

/// Faults of a library's text. Each is reported with the byte of its record.
static LIBRARY: [Entry; 17] = [
    Entry {
        word: "short",
        form: "REFUSED 1 short byte",
        meaning: "the file ends too early",
        detail: Detail::Refusal {
            number: "1",
            remedy: "copy or export it again",
        },
    },
    Entry {
        word: "badlength",
        form: "REFUSED 2 badlength byte",
        meaning: "a record's length is odd or below 4",
        detail: Detail::Refusal {
            number: "2",
            remedy: "the file is damaged, or is no GDSII",
        },
    },
    Entry {
        word: "badtype",
        form: "REFUSED 3 badtype byte",
        meaning: "a record has data of another type",
        detail: Detail::Refusal {
            number: "3",
            remedy: "the file is damaged, or is no GDSII",
        },
    },
    Entry {
        word: "unexpected",
        form: "REFUSED 4 unexpected byte",
        meaning: "the format has no such record at this place",
        detail: Detail::Refusal {
            number: "4",
            remedy: "export without what isn't geometry, as properties",
        },
    },
    Entry {
        word: "badsize",
        form: "REFUSED 5 badsize byte",
        meaning: "a record has too much or too little data",
        detail: Detail::Refusal {
            number: "5",
            remedy: "polygons of more than 8191 points have to be split (gdspy: \
                .fracture(max_points=8190))",
        },
    },
    Entry {
        word: "badname",
        form: "REFUSED 6 badname byte",
        meaning: "a name is empty, longer than 255 bytes, or has a blank or another byte outside \
            21 to 7E hex",
        detail: Detail::Refusal {
            number: "6",
            remedy: "rename the structure (KLayout: 'Rename cell'; gdspy: rename_cell())",
        },
    },
    Entry {
        word: "unit",
        form: "REFUSED 7 unit byte",
        meaning: "the database unit isn't a whole number of nm from 1 to 1000, as 0.5 isn't",
        detail: Detail::Refusal {
            number: "7",
            remedy: "export with a unit of 1 nm (KLayout: 'Database unit' 0.001; gdspy: \
                precision=1e-9)",
        },
    },
    Entry {
        word: "mag",
        form: "REFUSED 8 mag byte",
        meaning: "a reference is magnified",
        detail: Detail::Refusal {
            number: "8",
            remedy: "resolve it before the export (KLayout: 'Flatten' that instance; gdspy: \
                flatten() the cell that has it)",
        },
    },
    Entry {
        word: "angle",
        form: "REFUSED 9 angle byte",
        meaning: "an angle isn't a multiple of 90 degrees, or is beyond -360 to 360",
        detail: Detail::Refusal {
            number: "9",
            remedy: "turn the reference by such an angle; flattened at another one, its edges would \
                be refused too",
        },
    },
    Entry {
        word: "notmanhattan",
        form: "REFUSED 10 notmanhattan byte",
        meaning: "an edge is neither horizontal nor vertical, as one at 45 degrees",
        detail: Detail::Refusal {
            number: "10",
            remedy: "only such edges are checked; draw it in steps, or export without that shape",
        },
    },
    Entry {
        word: "roundpath",
        form: "REFUSED 11 roundpath byte",
        meaning: "a path has round ends (type 1)",
        detail: Detail::Refusal {
            number: "11",
            remedy: "give it ends of type 0, 2 or 4 (KLayout: the path's properties; gdspy: \
                ends='flush' or 'extended'); a polygon of it would be refused too",
        },
    },
    Entry {
        word: "oddwidth",
        form: "REFUSED 12 oddwidth byte",
        meaning: "a path's width is odd",
        detail: Detail::Refusal {
            number: "12",
            remedy: "make it even, or export the path as a polygon (KLayout: 'Convert to polygon'; \
                gdspy: gdsii_path=False)",
        },
    },
    Entry {
        word: "pointpath",
        form: "REFUSED 13 pointpath byte",
        meaning: "all points of a path are one",
        detail: Detail::Refusal {
            number: "13",
            remedy: "remove it",
        },
    },
    Entry {
        word: "columns",
        form: "REFUSED 14 columns byte",
        meaning: "an array has fewer than one column or row",
        detail: Detail::Refusal {
            number: "14",
            remedy: "remove it, or export its elements",
        },
    },
    Entry {
        word: "pitch",
        form: "REFUSED 15 pitch byte",
        meaning: "an array's step isn't a whole number of nm",
        detail: Detail::Refusal {
            number: "15",
            remedy: "export its elements one by one (KLayout: open the file and save it again)",
        },
    },
    Entry {
        word: "doublename",
        form: "REFUSED 16 doublename byte",
        meaning: "two structures have one name",
        detail: Detail::Refusal {
            number: "16",
            remedy: "rename one of them",
        },
    },
    Entry {
        word: "absolute",
        form: "REFUSED 18 absolute byte",
        meaning: "an angle is absolute",
        detail: Detail::Refusal {
            number: "18",
            remedy: "export it relative to the reference",
        },
    },
];

/// Faults of a library's text. Each is reported with the byte of its record.
pub(crate) fn library() -> &'static [Entry] {
    &LIBRARY
}

/// Faults of a deck's text. Each is reported with its line.
static DECK: [Entry; 7] = [
    Entry {
        word: "word",
        form: "REFUSED 51 word line",
        meaning: "a line of the deck isn't one",
        detail: Detail::Refusal {
            number: "51",
            remedy: "a line is 'tile SIDE', or 'CHECK NAME LAYER.. DISTANCE' with width, space, \
                separation or enclosing; no line is empty or a comment, and a NAME has no colon",
        },
    },
    Entry {
        word: "number",
        form: "REFUSED 52 number line",
        meaning: "a number of the deck isn't one",
        detail: Detail::Refusal {
            number: "52",
            remedy: "a distance is 1 to 65535 nm, and a tile's side 256 to 2^30 nm; lines end with \
                a line feed alone",
        },
    },
    Entry {
        word: "layer",
        form: "REFUSED 53 layer line",
        meaning: "a layer of the deck isn't one",
        detail: Detail::Refusal {
            number: "53",
            remedy: "a layer is two numbers to 65535 with a slash between them, as 1/0",
        },
    },
    Entry {
        word: "samelayer",
        form: "REFUSED 54 samelayer line",
        meaning: "a rule of two layers names one layer twice",
        detail: Detail::Refusal {
            number: "54",
            remedy: "separation and enclosing take two different layers",
        },
    },
    Entry {
        word: "doublerule",
        form: "REFUSED 55 doublerule line",
        meaning: "two rules of the deck have one name",
        detail: Detail::Refusal {
            number: "55",
            remedy: "each rule has a name of its own",
        },
    },
    Entry {
        word: "tile",
        form: "REFUSED 56 tile line",
        meaning: "the deck doesn't begin with its tile, or has a second one",
        detail: Detail::Refusal {
            number: "56",
            remedy: "the first line is 'tile SIDE', and no other",
        },
    },
    Entry {
        word: "rules",
        form: "REFUSED 57 rules line",
        meaning: "the deck has too many rules",
        detail: Detail::Refusal {
            number: "57",
            remedy: "a deck has at most 256 rules",
        },
    },
];

/// Faults of a deck's text. Each is reported with its line.
pub(crate) fn deck() -> &'static [Entry] {
    &DECK
}
