//! What a session lacks.

use crate::entry::{Detail, Entry};

/// The denials.
static DENIALS: [Entry; 8] = [
    Entry {
        word: "session",
        form: "DENIED session",
        meaning: "the connection has no session",
        detail: Detail::Denial {
            remedy: "open one; if it was opened before, that was denied, or the session was closed, or its user was deleted",
        },
    },
    Entry {
        word: "login",
        form: "DENIED login",
        meaning: "there is no such user, or the token is another one",
        detail: Detail::Denial {
            remedy: "look at both; the reply doesn't say which is wrong",
        },
    },
    Entry {
        word: "permission",
        form: "DENIED permission operation object",
        meaning: "no acting role of the session was granted that",
        detail: Detail::Denial {
            remedy: "activate a role that was, or have the officer grant it",
        },
    },
    Entry {
        word: "permission",
        form: "DENIED permission activate role",
        meaning: "the user isn't authorized for that role, or there is no such role",
        detail: Detail::Denial {
            remedy: "have the officer assign it (assign)",
        },
    },
    Entry {
        word: "ssd",
        form: "DENIED ssd set",
        meaning: "a user would have too many roles of that static set, inherited ones too",
        detail: Detail::Denial {
            remedy: "assign another user, or take one of the set's roles back before",
        },
    },
    Entry {
        word: "dsd",
        form: "DENIED dsd set",
        meaning: "a session would have too many roles of that dynamic set active, inherited ones too",
        detail: Detail::Denial {
            remedy: "drop one of them before, or open another session",
        },
    },
    Entry {
        word: "submitter",
        form: "DENIED submitter cell",
        meaning: "the user submitted that cell, and the marker touches it",
        detail: Detail::Denial {
            remedy: "have it signed by one who submitted nothing that it touches",
        },
    },
    Entry {
        word: "asker",
        form: "DENIED asker",
        meaning: "the user asked for the waiver that is to be signed",
        detail: Detail::Denial {
            remedy: "have it signed by another",
        },
    },
];

/// The denials.
pub(crate) fn all() -> &'static [Entry] {
    &DENIALS
}
