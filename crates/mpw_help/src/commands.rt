//! The program's commands.

use crate::entry::{Detail, Entry};

/// The commands.
static COMMANDS: [Entry; 7] = [
    Entry {
        word: "script",
        form: "mpw script --officer NAME --digest HEX",
        meaning: "serves the lines of the standard input on a new desk, and writes the replies to \
            the standard output; --store FILE stores each change in a database, and goes on from \
            those that it has",
        detail: Detail::Command {
            statuses: "0 the connection ended; 2 the command line is wrong, or asks for help; \
                3 a device or the store failed; 5 out of memory outside a request",
        },
    },
    Entry {
        word: "serve",
        form: "mpw serve --listen ADDRESS:PORT --connections N --workers W --officer NAME --digest HEX",
        meaning: "serves connections that share a new desk, N in all, or with --ongoing N at a time; \
            --idle SECONDS ends one that sends nothing for so long, --log FILE writes a line for each \
            connection and each request, and --store FILE stores each change in a database, and goes \
            on from those that it has",
        detail: Detail::Command {
            statuses: "0 the connections ended, or the desk's history is full; 2 the command line \
                is wrong, or asks for help; 3 the store or the log can't be opened, a change could \
                not be stored, the address can't be bound, the output failed, a connection can't be \
                accepted or no number is left for one; 4 the desk has a call that nobody made; 5 \
                out of memory, or a thread can't be started",
        },
    },
    Entry {
        word: "check",
        form: "mpw check --deck DECK [--top STRUCTURE] FILE",
        meaning: "checks a structure of a GDSII library by itself under a deck, and prints its \
            markers as the request markers does; without --top the one that no other places; \
            --report OUT, --page OUT and --picture OUT write them for KLayout, for a browser and as \
            SVG, --marker KEY draws what is around one, --limit N lists the first N of each rule, \
            --summary prints their numbers alone, --tile SIDE takes tiles of that side instead of \
            the deck's, --tiles TILES prints the part of a share for mpw stitch, --skip-layers \
            L/D,.. leaves out the elements on these layers, --skip-unreached the structures that \
            the top doesn't reach, --skip-faulty the elements with a fault of their own, --faults \
            prints the fault of each element, and --strict refuses a check of which a rule looks \
            at nothing",
        detail: Detail::Command {
            statuses: "0 no markers, and --skip-faulty left nothing out; 1 markers, or elements \
                that --skip-faulty left out; 2 the command line is wrong, an output is an input or \
                another output, no marker has the key of --marker, or there aren't all the columns \
                of --tiles; 3 a file can't be read or written, or the output failed; 4 the \
                library, the structure or the deck has a fault, or with --strict a rule looks at \
                nothing; 5 out of memory",
        },
    },
    Entry {
        word: "stitch",
        form: "mpw stitch PART..",
        meaning: "puts the parts of one check together that have each of its columns once, and \
            prints the markers that mpw check prints of the whole; --report OUT writes them to a \
            file for KLayout, and --limit N lists the first N of each rule",
        detail: Detail::Command {
            statuses: "0 no markers; 1 markers; 2 the command line is wrong, or an output is a part \
                or another output; 3 a file can't be read or written, or the output failed; 4 a \
                file is no part, one of an older form or one that was cut off, a part is of another \
                library, deck, structure or cut, or a column is in no part or in two; 5 out of \
                memory",
        },
    },
    Entry {
        word: "trail",
        form: "mpw trail FILE",
        meaning: "lists the rows of a store, a line each: place, connection, kind and line; \
            --payload K writes the library or the deck of row K instead",
        detail: Detail::Command {
            statuses: "0 the rows, the payload or the help was printed; 2 the command line is \
                wrong; 3 the file can't be opened or read, row K has no payload, or the output \
                failed; 5 out of memory",
        },
    },
    Entry {
        word: "store",
        form: "mpw store check FILE",
        meaning: "tests whether a desk accepts the rows of a store, and how its log ends",
        detail: Detail::Command {
            statuses: "0 the store is sound, or the help was printed; 2 the command line is wrong; 3 \
                the file can't be opened or read, or the output failed; 4 the store isn't sound; 5 \
                out of memory",
        },
    },
    Entry {
        word: "help",
        form: "mpw help [CODE-OR-REQUEST]",
        meaning: "explains what a request, a denial, a code or a command means; without a word it \
            lists them",
        detail: Detail::Command {
            statuses: "0 the text was printed; 2 there is nothing of that word; 3 the output failed; \
                5 out of memory",
        },
    },
];

/// The commands.
pub(crate) fn all() -> &'static [Entry] {
    &COMMANDS
}
