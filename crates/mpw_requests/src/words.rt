//! The words of operands.
ghost use Rattle.std.specs.Prelude.{◌≡◌};
ghost use Rattle.mpw_requests.specs.Words.{orient_text, axis_text, operation_text, first_of, orient_of, axis_of, operation_of, is_on_cells};

use mpw_edges::Axis;
use mpw_geom::Orient;
use mpw_permissions::Operation;

/// Each orientation.
pub const ORIENTS: [Orient; 8] = [
    Orient::R0,
    Orient::R90,
    Orient::R180,
    Orient::R270,
    Orient::M0,
    Orient::M90,
    Orient::M180,
    Orient::M270,
];

/// The word of an orientation. It takes no memory.
#[tactic(auto, unfolding(crate::specs::Words::orient_text))]
pub fn orient_word(orient: &Orient) -> &str
    ensures { result.now ≡ orient_text orient.now }
{
    match orient {
        Orient::R0 => "R0",
        Orient::R90 => "R90",
        Orient::R180 => "R180",
        Orient::R270 => "R270",
        Orient::M0 => "M0",
        Orient::M90 => "M90",
        Orient::M180 => "M180",
        Orient::M270 => "M270",
    }
}

/// The first of the orientations that has the word.
fn first_orient(word: &[u8], orients: &[Orient]) -> Option<Orient>
    ensures { result ≡ first_of orient_text word.now orients.now }
{
    for orient in orients {
        if word == orient_word(orient).as_bytes() {
            return Some(*orient);
        }
    }
    None
}

/// The orientation that a word names. It takes no memory.
#[tactic(auto, unfolding(crate::specs::Words::orient_of))]
pub fn orient_of(word: &[u8]) -> Option<Orient>
    ensures { result ≡ orient_of word.now }
{
    first_orient(word, &ORIENTS)
}

/// The letter of an axis. It takes no memory.
#[tactic(auto, unfolding(crate::specs::Words::axis_text))]
pub fn axis_letter(axis: &Axis) -> &str
    ensures { result.now ≡ axis_text axis.now }
{
    match axis {
        Axis::V => "V",
        Axis::H => "H",
    }
}

/// The axis of a letter. It takes no memory.
#[tactic(auto, unfolding(crate::specs::Words::axis_of))]
pub fn axis_of(word: &[u8]) -> Option<Axis>
    ensures { result ≡ axis_of word.now }
{
    if word == axis_letter(&Axis::V).as_bytes() {
        Some(Axis::V)
    } else if word == axis_letter(&Axis::H).as_bytes() {
        Some(Axis::H)
    } else {
        None
    }
}

/// Each operation.
pub const OPERATIONS: [Operation; 11] = [
    Operation::Submit,
    Operation::Use,
    Operation::Read,
    Operation::Place,
    Operation::Admin,
    Operation::Deck,
    Operation::Run,
    Operation::Waive,
    Operation::Sign,
    Operation::Verdict,
    Operation::Audit,
];

/// The word of an operation. It takes no memory.
#[tactic(auto, unfolding(crate::specs::Words::operation_text))]
pub fn operation_word(operation: &Operation) -> &str
    ensures { result.now ≡ operation_text operation.now }
{
    match operation {
        Operation::Submit => "submit",
        Operation::Use => "use",
        Operation::Read => "read",
        Operation::Place => "place",
        Operation::Admin => "admin",
        Operation::Deck => "deck",
        Operation::Run => "run",
        Operation::Waive => "waive",
        Operation::Sign => "sign",
        Operation::Verdict => "verdict",
        Operation::Audit => "audit",
    }
}

/// The first of the operations that has the word.
fn first_operation(word: &[u8], operations: &[Operation]) -> Option<Operation>
    ensures { result ≡ first_of operation_text word.now operations.now }
{
    for operation in operations {
        if word == operation_word(operation).as_bytes() {
            return Some(*operation);
        }
    }
    None
}

/// The operation that a word names. It takes no memory.
#[tactic(auto, unfolding(crate::specs::Words::operation_of))]
pub fn operation_of(word: &[u8]) -> Option<Operation>
    ensures { result ≡ operation_of word.now }
{
    first_operation(word, &OPERATIONS)
}

/// Whether the operation is on cells. The others are on the desk. It takes no memory.
#[tactic(auto, unfolding(crate::specs::Words::is_on_cells))]
pub fn is_on_cells(operation: Operation) -> bool
    ensures { result ≡ is_on_cells operation }
{
    match operation {
        Operation::Submit | Operation::Use | Operation::Read | Operation::Place => true,
        _ => false,
    }
}
