//! What a fault of a library or a deck means, and what to do. `specs/Sentences.antt` has each sentence.
ghost use Rattle.std.specs.Prelude.{◌≡◌, if◌then◌else◌};
ghost use Rattle.mpw_records.specs.declared.fault.Code.TheVariants as code;
ghost use Rattle.mpw_firm_messages.specs.Sentences.{colon_sentence, record_sentence, library_sentence, structure_sentence, deck_sentence};

use crate::cause::{Cause, cause_of};
use mpw_deck::DeckKind;
use mpw_hier::HierFault;
use mpw_records::{Code, ReadFault};

/// What it means that a reference is magnified, or that it is turned by another angle, and what to do.
#[tactic(auto, unfolding(crate::specs::Sentences::record_sentence))]
fn of_reference(is_turned: bool) -> &'static str
    ensures { result.now ≡ record_sentence (if is_turned then code.Angle else code.Magnification) }
{
    if is_turned {
        "an angle isn't a multiple of 90 degrees, or is beyond -360 to 360: turn the reference by \
        such an angle; flattened at another one, its edges would be refused too"
    } else {
        "a reference is magnified: resolve it before the export (KLayout: 'Flatten' that instance; \
        gdspy: flatten() the cell that has it)"
    }
}

/// What a fault of a library's records means and what to do, by its code alone.
#[tactic(auto, unfolding(crate::specs::Sentences::record_sentence))]
fn of_record(code: Code) -> &'static str
    ensures { result.now ≡ record_sentence code }
{
    match code {
        Code::Short => "the file ends too early: copy or export it again",
        Code::BadLength =>
            "a record's length is odd or below 4: the file is damaged, or is no GDSII",
        Code::BadType => "a record has data of another type: the file is damaged, or is no GDSII",
        Code::Unexpected =>
            "the format has no such record at this place: export without what isn't geometry, \
            as properties",
        Code::BadSize =>
            "a record has too much or too little data: polygons of more than 8191 points have to \
            be split (gdspy: .fracture(max_points=8190))",
        Code::BadName =>
            "a name is empty, longer than 255 bytes, or has a blank or another byte outside 21 to \
            7E hex: rename the structure (KLayout: 'Rename cell'; gdspy: rename_cell())",
        Code::Unit =>
            "the database unit isn't a whole number of nm from 1 to 1000, as 0.5 isn't: export \
            with a unit of 1 nm (KLayout: 'Database unit' 0.001; gdspy: precision=1e-9)",
        Code::Magnification => of_reference(false),
        Code::Angle => of_reference(true),
        Code::NotManhattan =>
            "an edge is neither horizontal nor vertical, as one at 45 degrees: only such edges are \
            checked; draw it in steps, or export without that shape",
        Code::RoundPath =>
            "a path has round ends (type 1): give it ends of type 0, 2 or 4 (KLayout: the path's \
            properties; gdspy: ends='flush' or 'extended'); a polygon of it would be refused too",
        Code::OddWidth =>
            "a path's width is odd: make it even, or export the path as a polygon (KLayout: \
            'Convert to polygon'; gdspy: gdsii_path=False)",
        Code::PointPath => "all points of a path are one: remove it",
        Code::Columns =>
            "an array has fewer than one column or row: remove it, or export its elements",
        Code::Pitch =>
            "an array's step isn't a whole number of nm: export its elements one by one (KLayout: \
            open the file and save it again)",
        Code::DoubleName => "two structures have one name: rename one of them",
        Code::Absolute => "an angle is absolute: export it relative to the reference",
    }
}

/// What a fault of a library of that text means and what to do.
#[tactic(auto, unfolding(crate::specs::Sentences::cause_sentence))]
pub fn of_library(fault: ReadFault, text: &[u8]) -> &'static str
    ensures { result.now ≡ library_sentence fault text.now }
{
    match cause_of(fault, text) {
        Cause::Code => of_record(fault.code),
        Cause::Split =>
            "an element's points stand in several XY records: export polygons and paths of at most \
            8191 points, each in one XY record (KLayout: switch off 'Multi-XY record mode for \
            boundaries'; gdspy: .fracture(max_points=8190))",
        Cause::Property =>
            "a property of the library stands behind UNITS or between structures: export without \
            it (KLayout: switch off 'Write file properties'; gdspy writes none)",
        Cause::Foreign =>
            "the file doesn't begin as GDSII does: where it is compressed or another format \
            (OASIS), export it as GDSII",
    }
}

/// What a fault of a top's structures means and what to do.
#[tactic(auto, unfolding(crate::specs::Sentences::structure_sentence))]
pub fn of_structure(fault: HierFault) -> &'static str
    ensures { result.now ≡ structure_sentence fault }
{
    match fault {
        HierFault::NoTop => "the library has no structure of that name: name another with --top",
        HierFault::Cycle =>
            "a structure contains itself, directly or through others: take one of the references away",
        HierFault::Extent => "a structure goes beyond 2^30 nm: move it nearer to its origin",
        HierFault::Shapes =>
            "the structure shows more than 2^40 shapes: split it, and check each piece with --top",
        HierFault::Deep => "the structure has more than 64 levels: flatten some of them",
        _ => "the structure can't be placed",
    }
}

/// What a fault of a deck's line means and what to do.
#[tactic(auto, unfolding(crate::specs::Sentences::deck_sentence))]
pub fn of_deck(kind: DeckKind) -> &'static str
    ensures { result.now ≡ deck_sentence kind }
{
    match kind {
        DeckKind::Word =>
            "a line is 'tile SIDE', or 'CHECK NAME LAYER.. DISTANCE' with width, space, separation \
            or enclosing; no line is empty or a comment",
        DeckKind::Number =>
            "a distance is 1 to 65535 nm, and a tile's side 256 to 2^30 nm; lines end with a line \
            feed alone",
        DeckKind::Layer => "a layer is two numbers to 65535 with a slash between them, as 1/0",
        DeckKind::SameLayer => "separation and enclosing take two different layers",
        DeckKind::DoubleRule => "each rule has a name of its own",
        DeckKind::Tile => "the first line is 'tile SIDE', and no other",
        DeckKind::Rules => "a deck has at most 256 rules",
        DeckKind::Memory => "there is no room for it",
    }
}

/// The same of a line whose rule's name has a colon.
#[tactic(auto, unfolding(crate::specs::Sentences::colon_sentence))]
pub fn of_colon() -> &'static str
    ensures { result.now ≡ colon_sentence }
{
    "a rule's name has a colon, which parts the words of a marker's key: take another sign for it, \
    as _"
}
