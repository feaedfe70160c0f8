//! What is refused besides, by number.

use crate::entry::{Detail, Entry};

/// Of what is shown.
static LIMITS: [Entry; 9] = [
    Entry {
        word: "memory",
        form: "REFUSED 17 memory",
        meaning: "out of memory; nothing has changed",
        detail: Detail::Refusal {
            number: "17",
            remedy: "ask again, or ask for less",
        },
    },
    Entry {
        word: "notop",
        form: "REFUSED 20 notop",
        meaning: "the library has no structure of that name",
        detail: Detail::Refusal {
            number: "20",
            remedy: "name another with --top, or in the line of submit",
        },
    },
    Entry {
        word: "cycle",
        form: "REFUSED 21 cycle",
        meaning: "a structure contains itself, directly or through others",
        detail: Detail::Refusal {
            number: "21",
            remedy: "take one of the references away",
        },
    },
    Entry {
        word: "nocell",
        form: "REFUSED 23 nocell",
        meaning: "a cell that is named, or a name outside the library, has no submission",
        detail: Detail::Refusal {
            number: "23",
            remedy: "have it submitted before, or put the structure into the library",
        },
    },
    Entry {
        word: "extent",
        form: "REFUSED 24 extent",
        meaning: "a structure goes beyond 2^30 nm",
        detail: Detail::Refusal {
            number: "24",
            remedy: "move it nearer to its origin; a placement, nearer to the wafer's",
        },
    },
    Entry {
        word: "shapes",
        form: "REFUSED 25 shapes",
        meaning: "the structure shows more than 2^20 shapes (`mpw check`: 2^40)",
        detail: Detail::Refusal {
            number: "25",
            remedy: "split it, and check each piece with --top; on the wafer, place less",
        },
    },
    Entry {
        word: "deep",
        form: "REFUSED 26 deep",
        meaning: "the structure has more than 64 levels",
        detail: Detail::Refusal {
            number: "26",
            remedy: "flatten some of them",
        },
    },
    Entry {
        word: "full",
        form: "REFUSED 27 full",
        meaning: "as many are there as the limit allows",
        detail: Detail::Refusal {
            number: "27",
            remedy: "delete some; cells and submissions stay, so begin a new desk for more",
        },
    },
    Entry {
        word: "tiles",
        form: "REFUSED 28 tiles",
        meaning: "more than 4096 tiles would cover what is checked",
        detail: Detail::Refusal {
            number: "28",
            remedy: "take a larger tile in the deck's first line",
        },
    },
];

/// Of what is shown.
pub(crate) fn limits() -> &'static [Entry] {
    &LIMITS
}

/// Of what is there.
static STATES: [Entry; 9] = [
    Entry {
        word: "opened",
        form: "REFUSED 30 opened",
        meaning: "the connection has a session",
        detail: Detail::Refusal {
            number: "30",
            remedy: "close it before",
        },
    },
    Entry {
        word: "norun",
        form: "REFUSED 31 norun",
        meaning: "no run is cutting or checking",
        detail: Detail::Refusal {
            number: "31",
            remedy: "there is nothing to leave; status shows how far the run is",
        },
    },
    Entry {
        word: "unknown",
        form: "REFUSED 32 unknown",
        meaning: "what is named isn't there",
        detail: Detail::Refusal {
            number: "32",
            remedy: "look at its name, and add it before",
        },
    },
    Entry {
        word: "known",
        form: "REFUSED 33 known",
        meaning: "what is named is there already; a waiver was asked for, or is signed",
        detail: Detail::Refusal {
            number: "33",
            remedy: "nothing has to be done, or take another name",
        },
    },
    Entry {
        word: "used",
        form: "REFUSED 35 used",
        meaning: "the role is in a set of separation of duty",
        detail: Detail::Refusal {
            number: "35",
            remedy: "delete the set before (unssd, undsd)",
        },
    },
    Entry {
        word: "loop",
        form: "REFUSED 36 loop",
        meaning: "the junior is at or above the senior, so that the pair would close a cycle",
        detail: Detail::Refusal {
            number: "36",
            remedy: "take a pair of the chain back before (uninherit)",
        },
    },
    Entry {
        word: "running",
        form: "REFUSED 37 running",
        meaning: "a run is cutting or checking",
        detail: Detail::Refusal {
            number: "37",
            remedy: "wait for it, as mpw-ask --wait does, or cancel it; with mpw script it ran out of memory: cancel it, and run with more",
        },
    },
    Entry {
        word: "nodeck",
        form: "REFUSED 38 nodeck",
        meaning: "there is no deck",
        detail: Detail::Refusal {
            number: "38",
            remedy: "upload one (deck)",
        },
    },
    Entry {
        word: "empty",
        form: "REFUSED 39 empty",
        meaning: "what is placed shows no shape",
        detail: Detail::Refusal {
            number: "39",
            remedy: "place a cell that has shapes",
        },
    },
];

/// Of what is there.
pub(crate) fn states() -> &'static [Entry] {
    &STATES
}

/// Of lines, markers and the desk's history.
static LINES: [Entry; 9] = [
    Entry {
        word: "form",
        form: "REFUSED 40 form",
        meaning: "the line is no request's text",
        detail: Detail::Refusal {
            number: "40",
            remedy: "look for two spaces, a tab, a carriage return or a wrong word; of submit and \
                deck the payload is then read as lines",
        },
    },
    Entry {
        word: "long",
        form: "REFUSED 41 long",
        meaning: "a line is longer than 4096 bytes, or a length above 2^24; the connection ends",
        detail: Detail::Refusal {
            number: "41",
            remedy: "split the library, or count its bytes anew (wc -c)",
        },
    },
    Entry {
        word: "cut",
        form: "REFUSED 42 cut",
        meaning: "the input ends inside a payload; the connection ends",
        detail: Detail::Refusal {
            number: "42",
            remedy: "name the length that the payload has (wc -c)",
        },
    },
    Entry {
        word: "notfinished",
        form: "REFUSED 43 notfinished",
        meaning: "no run is finished",
        detail: Detail::Refusal {
            number: "43",
            remedy: "ask status; if a run goes on, wait, as mpw-ask --wait does; if it is idle, ask run; in \
                mpw script ask cancel and then run",
        },
    },
    Entry {
        word: "marker",
        form: "REFUSED 44 marker",
        meaning: "no marker of that key is seen in full",
        detail: Detail::Refusal {
            number: "44",
            remedy: "take the key from a line of markers, in a session that may read all its cells",
        },
    },
    Entry {
        word: "nowaiver",
        form: "REFUSED 45 nowaiver",
        meaning: "no waiver of that marker was asked for",
        detail: Detail::Refusal {
            number: "45",
            remedy: "have it asked for before (waive)",
        },
    },
    Entry {
        word: "ended",
        form: "REFUSED 46 ended",
        meaning: "the history holds 2^20 calls",
        detail: Detail::Refusal {
            number: "46",
            remedy: "with a store, start the program again; without one, or with nearly 2^20 rows, begin a new \
                desk",
        },
    },
    Entry {
        word: "store",
        form: "REFUSED 60 store",
        meaning: "the change could not be stored; nothing has changed, and the desk is closed",
        detail: Detail::Refusal {
            number: "60",
            remedy: "look at the store's disk, and start the program again: it goes on from what \
                is stored",
        },
    },
    Entry {
        word: "closed",
        form: "REFUSED 61 closed",
        meaning: "an earlier change could not be stored, so the desk answers no request",
        detail: Detail::Refusal {
            number: "61",
            remedy: "start the program again: it goes on from what is stored",
        },
    },
];

/// Of lines, markers and the desk's history.
pub(crate) fn lines() -> &'static [Entry] {
    &LINES
}
