//! The table of requests: each verb with its word and its operands. The file of each group has the lines of its verbs.
//!
//! Whoever adds a request adds its verb to `ALL`, and all else in the file of its group. Readers and writers of lines go by the shape alone.
ghost use Rattle.std.specs.Prelude.{◌≡◌, true, false};
ghost use Rattle.mpw_requests.specs.Table.{verb_text, verb_shape, has_payload, lists, verb_of};
ghost use Rattle.mpw_requests.specs.Words.{first_of};

use crate::layouts::{LayoutVerb, layout_form};
use crate::policy::{PolicyVerb, policy_form};
use crate::run::{RunVerb, run_form};
use crate::sign_off::{SignOffVerb, sign_off_form};
use crate::wafer::{WaferVerb, wafer_form};

/// The verb of a request, by its group. It has one word. The request types say what each does.
#[derive(Clone, Copy)]
pub enum Verb {
    Policy(PolicyVerb),
    Whoami,
    Layout(LayoutVerb),
    Wafer(WaferVerb),
    Run(RunVerb),
    SignOff(SignOffVerb),
    Trail,
}

/// The operands of a request, by their kinds.
#[derive(Clone, Copy)]
pub enum Shape {
    /// None.
    Alone,
    /// A name.
    Name,
    /// Two names.
    Pair,
    /// A user's name, and a token or its digest.
    Login,
    /// An operation, an object and a role.
    Grant,
    /// A set's name, its cardinality and its roles.
    Set,
    /// A cell, a label, an orientation and two coordinates.
    Placement,
    /// The key of a marker.
    Key,
}

/// The line of a request, as the table has it.
#[derive(Clone, Copy)]
pub struct Form {
    /// The verb's word.
    pub word: &'static str,
    /// What follows the word, as the help has it: nothing, or a space and the names of the words that follow.
    pub operands: &'static str,
    /// The kinds of the operands.
    pub shape: Shape,
    /// Whether the number of bytes of a payload comes last, and the payload after the line.
    pub has_payload: bool,
    /// Whether the request only lists.
    pub lists: bool,
}

/// Each verb, in the order of the help.
pub const ALL: [Verb; 34] = [
    Verb::Policy(PolicyVerb::Open),
    Verb::Policy(PolicyVerb::Close),
    Verb::Policy(PolicyVerb::Activate),
    Verb::Policy(PolicyVerb::DropRole),
    Verb::Whoami,
    Verb::Policy(PolicyVerb::AddUser),
    Verb::Policy(PolicyVerb::DelUser),
    Verb::Policy(PolicyVerb::AddRole),
    Verb::Policy(PolicyVerb::DelRole),
    Verb::Policy(PolicyVerb::Assign),
    Verb::Policy(PolicyVerb::Deassign),
    Verb::Policy(PolicyVerb::Grant),
    Verb::Policy(PolicyVerb::Revoke),
    Verb::Policy(PolicyVerb::Inherit),
    Verb::Policy(PolicyVerb::Uninherit),
    Verb::Policy(PolicyVerb::Ssd),
    Verb::Policy(PolicyVerb::Dsd),
    Verb::Policy(PolicyVerb::UnSsd),
    Verb::Policy(PolicyVerb::UnDsd),
    Verb::Layout(LayoutVerb::Submit),
    Verb::Layout(LayoutVerb::Cells),
    Verb::Layout(LayoutVerb::Shapes),
    Verb::Wafer(WaferVerb::Place),
    Verb::Wafer(WaferVerb::Unplace),
    Verb::Wafer(WaferVerb::Deck),
    Verb::Run(RunVerb::Run),
    Verb::Run(RunVerb::Cancel),
    Verb::Run(RunVerb::Status),
    Verb::Run(RunVerb::Markers),
    Verb::SignOff(SignOffVerb::Waive),
    Verb::SignOff(SignOffVerb::Sign),
    Verb::SignOff(SignOffVerb::Waivers),
    Verb::SignOff(SignOffVerb::Verdict),
    Verb::Trail,
];

/// The line of a request that changes something, without a payload.
pub(crate) const fn line(word: &'static str, operands: &'static str, shape: Shape) -> Form
    ensures word { result.word.now ≡ word.now }
    ensures rest { (result.shape ≡ shape) × (result.has_payload ≡ false) × (result.lists ≡ false) }
{
    Form {
        word,
        operands,
        shape,
        has_payload: false,
        lists: false,
    }
}

/// The line of a request that only lists.
pub(crate) const fn listing(word: &'static str, operands: &'static str, shape: Shape) -> Form
    ensures word { result.word.now ≡ word.now }
    ensures rest { (result.shape ≡ shape) × (result.has_payload ≡ false) × (result.lists ≡ true) }
{
    Form {
        word,
        operands,
        shape,
        has_payload: false,
        lists: true,
    }
}

/// The line of a request with a payload.
pub(crate) const fn upload(word: &'static str, operands: &'static str, shape: Shape) -> Form
    ensures word { result.word.now ≡ word.now }
    ensures rest { (result.shape ≡ shape) × (result.has_payload ≡ true) × (result.lists ≡ false) }
{
    Form {
        word,
        operands,
        shape,
        has_payload: true,
        lists: false,
    }
}

/// The form of a verb's line. It takes no memory.
#[tactic(auto, unfolding(crate::specs::Table::verb_form, crate::specs::Table::has_payload, crate::specs::Table::lists))]
pub const fn form_of(verb: Verb) -> Form
    ensures word { result.word.now ≡ verb_text verb }
    ensures shape { result.shape ≡ verb_shape verb }
    ensures payload { result.has_payload ≡ has_payload verb }
    ensures lists { result.lists ≡ lists verb }
{
    match verb {
        Verb::Policy(verb) => policy_form(verb),
        Verb::Whoami => listing("whoami", "", Shape::Alone),
        Verb::Layout(verb) => layout_form(verb),
        Verb::Wafer(verb) => wafer_form(verb),
        Verb::Run(verb) => run_form(verb),
        Verb::SignOff(verb) => sign_off_form(verb),
        Verb::Trail => listing("trail", "", Shape::Alone),
    }
}

/// The first of the verbs that has the word.
fn first_verb(word: &[u8], verbs: &[Verb]) -> Option<Verb>
    ensures { result ≡ first_of verb_text word.now verbs.now }
{
    for verb in verbs {
        if word == form_of(*verb).word.as_bytes() {
            return Some(*verb);
        }
    }
    None
}

/// The verb of a word. One pass over the table, and no memory.
#[tactic(auto, unfolding(crate::specs::Table::verb_of))]
pub fn verb_of(word: &[u8]) -> Option<Verb>
    ensures { result ≡ verb_of word.now }
{
    first_verb(word, &ALL)
}
