//! The requests of a connection about cells, their placing, the run and the trail, in the order in which the specification has them.

use crate::entry::{Detail, Entry};

/// Of cells, placements and the deck.
static CELLS: [Entry; 6] = [
    Entry {
        word: "submit",
        form: "submit cell top length",
        meaning: "submits the GDSII library of so many bytes after the line as the next version \
            of the cell, which shows the structure top",
        detail: Detail::Request {
            tests: "a session (DENIED session); the permission submit on the cell (DENIED permission \
                submit cell); the bytes are a library (the first fault, from 1 short to 18 \
                absolute); it has the top (20 notop); neither the top nor a structure that it \
                reaches leads back to itself (21 cycle); the permission use on each name outside \
                the library (DENIED permission use cell, the first in alphabetical order); each of these has a \
                submission (23 nocell); within -2^30 to 2^30 nm (24 extent); at most 2^20 shapes \
                (25 shapes); at most 64 levels (26 deep); at most 1024 cells and 4096 \
                submissions (27 full)",
            reply: "OK 1, and version V",
        },
    },
    Entry {
        word: "cells",
        form: "cells",
        meaning: "lists the cells that the session may read",
        detail: Detail::Request {
            tests: "a session (DENIED session)",
            reply: "OK n, and a line each in alphabetical order: cell V submitter",
        },
    },
    Entry {
        word: "shapes",
        form: "shapes cell",
        meaning: "lists the shapes of the cell's present submission that come from cells that the \
            session may read",
        detail: Detail::Request {
            tests: "a session (DENIED session); the permission read on the cell (DENIED permission \
                read cell); the cell has a submission (23 nocell)",
            reply: "OK n, and a line each: cell V L/D boundary x y .., or cell V L/D path W B E x \
                y ..",
        },
    },
    Entry {
        word: "place",
        form: "place cell label orientation x y",
        meaning: "places the cell's present submission on the wafer under a label; orientations \
            are R0 R90 R180 R270 M0 M90 M180 M270, and x y is in nm",
        detail: Detail::Request {
            tests: "a session (DENIED session); the permission place on the cell (DENIED \
                permission place cell); the cell has a submission (23 nocell); it has no placement \
                of that label (33 known); it lies within -2^30 to 2^30 nm there (24 extent); all \
                placements show at most 2^20 shapes (25 shapes); fewer than 4096 placements before \
                it (27 full)",
            reply: "OK 1, and version V",
        },
    },
    Entry {
        word: "unplace",
        form: "unplace cell label",
        meaning: "takes a placement away",
        detail: Detail::Request {
            tests: "a session (DENIED session); the permission place on the cell (DENIED \
                permission place cell); the cell has a placement of that label (32 unknown)",
            reply: "OK 0",
        },
    },
    Entry {
        word: "deck",
        form: "deck length",
        meaning: "uploads the deck of so many bytes after the line; it replaces the one before",
        detail: Detail::Request {
            tests: "a session (DENIED session); the permission deck on the desk (DENIED permission \
                deck desk); the bytes are a deck (the first fault, from 51 word to 57 rules)",
            reply: "OK 0",
        },
    },
];

/// Of cells, placements and the deck.
pub(crate) fn cells() -> &'static [Entry] {
    &CELLS
}

/// Of the run, its markers and their waivers, and the trail.
static RUNS: [Entry; 9] = [
    Entry {
        word: "run",
        form: "run",
        meaning: "begins to check what is placed by the deck; the run before it, with its markers \
            and waivers, is dropped",
        detail: Detail::Request {
            tests: "a session (DENIED session); the permission run on the desk (DENIED permission \
                run desk); no run is cutting or checking (37 running); there is a deck (38 \
                nodeck); what is placed shows a shape (39 empty); at most 4096 tiles cover it (28 \
                tiles)",
            reply: "OK 1, and run N",
        },
    },
    Entry {
        word: "cancel",
        form: "cancel",
        meaning: "leaves the run that goes on",
        detail: Detail::Request {
            tests: "a session (DENIED session); the permission run on the desk (DENIED permission \
                run desk); a run is cutting or checking (31 norun)",
            reply: "OK 0",
        },
    },
    Entry {
        word: "status",
        form: "status",
        meaning: "shows how far the run is",
        detail: Detail::Request {
            tests: "a session (DENIED session)",
            reply: "OK 1, and idle, cutting N, checking N done total or finished N",
        },
    },
    Entry {
        word: "markers",
        form: "markers",
        meaning: "lists the markers of the finished run: in full those whose cells the session may \
            all read, and how many more it may read in part",
        detail: Detail::Request {
            tests: "a session (DENIED session); the run is finished (43 notfinished)",
            reply: "OK n, and a line each: rule:axis:side:x1:x2:y0:y1 cell .., then masked rule m",
        },
    },
    Entry {
        word: "waive",
        form: "waive key",
        meaning: "asks for a waiver of a marker; the key is the first word of the marker's line",
        detail: Detail::Request {
            tests: "a session (DENIED session); the permission waive on the desk (DENIED \
                permission waive desk); the run is finished (43 notfinished); the run has a \
                marker of that key, which the session sees in full (44 marker); no waiver of it \
                was asked for (33 known)",
            reply: "OK 0",
        },
    },
    Entry {
        word: "sign",
        form: "sign key",
        meaning: "signs the waiver of a marker",
        detail: Detail::Request {
            tests: "a session (DENIED session); the permission sign on the desk (DENIED permission \
                sign desk); the run is finished (43 notfinished); the run has a marker of that \
                key, which the session sees in full (44 marker); a waiver of it was asked for (45 \
                nowaiver); it isn't signed (33 known); the user submitted nothing that the marker \
                touches (DENIED submitter cell); the user didn't ask for the waiver (DENIED asker)",
            reply: "OK 0",
        },
    },
    Entry {
        word: "waivers",
        form: "waivers",
        meaning: "lists the waivers of the markers that the session sees in full",
        detail: Detail::Request {
            tests: "a session (DENIED session); the run is finished (43 notfinished)",
            reply: "OK n, and a line each: key asked A, or key signed A S",
        },
    },
    Entry {
        word: "verdict",
        form: "verdict",
        meaning: "shows whether each marker has a signed waiver, and deck and placements are still \
            those of the run",
        detail: Detail::Request {
            tests: "a session (DENIED session); the permission verdict on the desk (DENIED \
                permission verdict desk); the run is finished (43 notfinished)",
            reply: "OK 1, and clean, open N or stale",
        },
    },
    Entry {
        word: "trail",
        form: "trail",
        meaning: "lists the requests so far",
        detail: Detail::Request {
            tests: "a session (DENIED session); the permission audit on the desk (DENIED \
                permission audit desk)",
            reply: "OK n, and a line each: k,user,verb,object,first line of the reply",
        },
    },
];

/// Of the run, its markers and their waivers, and the trail.
pub(crate) fn runs() -> &'static [Entry] {
    &RUNS
}
