//! The first line of a reply: how many lines follow, what the session lacks, or why the request is refused.
//!
//! The trail has the same words for each request, so they are defined here. They take no memory.
ghost use Rattle.std.specs.Prelude.{◌≡◌};
ghost use Rattle.std.specs.List.{flat_map};
ghost use Rattle.mpw_trail.specs.FirstLineText.{object_text, denial_word, denial_text, fault_text, deck_text, code_text};

use crate::verdict::{Code, Denial};
use mpw_deck::DeckKind;
use mpw_permissions::Object;
use mpw_records::Code as TextFault;
use mpw_requests::operation_word;

/// The word of an object.
#[tactic(auto, unfolding(crate::specs::FirstLineText::object_text))]
pub(crate) fn object_word(object: &Object) -> &str
    ensures { result.now ≡ object_text object.now }
{
    match object {
        Object::Cell(name) => name.as_str(),
        Object::Desk => "desk",
    }
}

/// The beginning of the text that says what a session lacks.
#[tactic(auto, unfolding(crate::specs::FirstLineText::denial_word))]
fn denial_word(denial: &Denial) -> &str
    ensures { result.now ≡ denial_word denial.now }
{
    match denial {
        Denial::Session => "DENIED session",
        Denial::Login => "DENIED login",
        Denial::Permission(_, _) => "DENIED permission ",
        Denial::Activation(_) => "DENIED permission activate ",
        Denial::Ssd(_) => "DENIED ssd ",
        Denial::Dsd(_) => "DENIED dsd ",
        Denial::Submitter(_) => "DENIED submitter ",
        Denial::Asker => "DENIED asker",
    }
}

/// The parts of the text that says what a session lacks. Empty parts follow the last.
#[tactic(auto, unfolding(crate::specs::FirstLineText::denial_text))]
pub fn denial_parts(denial: &Denial) -> [&str; 4]
    ensures { flat_map (λ part. part.now) result ≡ denial_text denial.now }
{
    let word = denial_word(denial);
    match denial {
        Denial::Session | Denial::Login | Denial::Asker => [word, "", "", ""],
        Denial::Permission(operation, object) => {
            [word, operation_word(operation), " ", object_word(object)]
        }
        Denial::Activation(name)
        | Denial::Ssd(name)
        | Denial::Dsd(name)
        | Denial::Submitter(name) => [word, name.as_str(), "", ""],
    }
}

/// The number and the word of a text's fault.
#[tactic(auto, unfolding(crate::specs::FirstLineText::fault_text))]
fn fault_words(code: TextFault) -> &'static str
    ensures { result.now ≡ fault_text code }
{
    match code {
        TextFault::Short => "1 short",
        TextFault::BadLength => "2 badlength",
        TextFault::BadType => "3 badtype",
        TextFault::Unexpected => "4 unexpected",
        TextFault::BadSize => "5 badsize",
        TextFault::BadName => "6 badname",
        TextFault::Unit => "7 unit",
        TextFault::Magnification => "8 mag",
        TextFault::Angle => "9 angle",
        TextFault::NotManhattan => "10 notmanhattan",
        TextFault::RoundPath => "11 roundpath",
        TextFault::OddWidth => "12 oddwidth",
        TextFault::PointPath => "13 pointpath",
        TextFault::Columns => "14 columns",
        TextFault::Pitch => "15 pitch",
        TextFault::DoubleName => "16 doublename",
        TextFault::Absolute => "18 absolute",
    }
}

/// The number and the word of a deck's fault.
#[tactic(auto, unfolding(crate::specs::FirstLineText::deck_text))]
fn deck_words(kind: DeckKind) -> &'static str
    ensures { result.now ≡ deck_text kind }
{
    match kind {
        DeckKind::Word => "51 word",
        DeckKind::Number => "52 number",
        DeckKind::Layer => "53 layer",
        DeckKind::SameLayer => "54 samelayer",
        DeckKind::DoubleRule => "55 doublerule",
        DeckKind::Tile => "56 tile",
        DeckKind::Rules => "57 rules",
        DeckKind::Memory => "17 memory",
    }
}

/// The number and the word of a refusal. It takes no memory.
#[tactic(auto, unfolding(crate::specs::FirstLineText::code_text))]
pub fn code_words(code: Code) -> &'static str
    ensures { result.now ≡ code_text code }
{
    match code {
        Code::Read(fault) => fault_words(fault.code),
        Code::Deck(fault) => deck_words(fault.kind),
        Code::NoTop => "20 notop",
        Code::Cycle => "21 cycle",
        Code::NoCell => "23 nocell",
        Code::Extent => "24 extent",
        Code::Shapes => "25 shapes",
        Code::Deep => "26 deep",
        Code::Full => "27 full",
        Code::Tiles => "28 tiles",
        Code::Opened => "30 opened",
        Code::NoRun => "31 norun",
        Code::Unknown => "32 unknown",
        Code::Known => "33 known",
        Code::Used => "35 used",
        Code::Loop => "36 loop",
        Code::Running => "37 running",
        Code::NoDeck => "38 nodeck",
        Code::Empty => "39 empty",
        Code::NotFinished => "43 notfinished",
        Code::NoMarker => "44 marker",
        Code::NoWaiver => "45 nowaiver",
        Code::Ended => "46 ended",
        Code::Store => "60 store",
        Code::Closed => "61 closed",
    }
}
