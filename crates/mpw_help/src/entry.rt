//! Entries of the table.
ghost use Rattle.std.specs.Prelude.{◌≡◌};
ghost use Rattle.mpw_help.specs.Help.{has_number, is_asked};

/// What the help says about a word besides its meaning.
#[derive(Clone, Copy)]
pub enum Detail {
    /// A request of a connection: its tests in order, each with the reply if it fails, and its reply.
    Request {
        tests: &'static str,
        reply: &'static str,
    },
    /// A command of the program: its exit statuses.
    Command {
        statuses: &'static str,
    },
    /// A denial: what to do.
    Denial {
        remedy: &'static str,
    },
    /// A refusal: the number of its code, and what to do.
    Refusal {
        number: &'static str,
        remedy: &'static str,
    },
}

/// A request, a command, a denial or a code. No text has a line feed, a bar or a backquote.
#[derive(Clone, Copy)]
pub struct Entry {
    /// The word by which it is found.
    pub word: &'static str,
    /// The request's line, or the reply's.
    pub form: &'static str,
    /// What it does, or when it comes.
    pub meaning: &'static str,
    /// By what it is: tests and reply, statuses, or what to do.
    pub detail: Detail,
}

/// The entries of a subject.
#[derive(Clone, Copy)]
pub struct Table {
    /// The subject, which comes before the entries' words when `mpw help` lists them.
    pub title: &'static str,
    /// In the order in which the help prints them.
    pub entries: &'static [Entry],
}

/// Whether a detail is that of the code of this number.
#[tactic(auto, unfolding(crate::specs::Help::has_number))]
fn has_number(detail: Detail, word: &str) -> bool
    ensures { result ≡ has_number word.now detail }
{
    match detail {
        Detail::Refusal { number, remedy: _ } => number.as_bytes() == word.as_bytes(),
        _ => false,
    }
}

impl Entry {
    /// Whether the entry is found by a word: its own, or the number of its code.
    #[tactic(auto, unfolding(crate::specs::Help::is_asked))]
    pub(crate) fn is_asked(&self, word: &str) -> bool
        ensures { result ≡ is_asked word.now self.now }
    {
        self.word.as_bytes() == word.as_bytes() || has_number(self.detail, word)
    }
}
