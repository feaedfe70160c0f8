//! The requests of a connection about its session and the policy, in the order in which the specification has them.

use crate::entry::{Detail, Entry};

/// Of sessions.
static SESSIONS: [Entry; 5] = [
    Entry {
        word: "open",
        form: "open user token",
        meaning: "begins a session of the user, in which no role is active yet",
        detail: Detail::Request {
            tests: "the connection has no session (30 opened); the user is known with that token \
                (DENIED login, the same for an unknown user and for another token)",
            reply: "OK 0",
        },
    },
    Entry {
        word: "close",
        form: "close",
        meaning: "ends the session",
        detail: Detail::Request {
            tests: "a session (DENIED session)",
            reply: "OK 0",
        },
    },
    Entry {
        word: "activate",
        form: "activate role",
        meaning: "makes a role of the user active in the session",
        detail: Detail::Request {
            tests: "a session (DENIED session); the role is there, and the user is authorized for \
                it (DENIED permission activate role); it isn't active yet (33 known); no dynamic \
                set is broken (DENIED dsd set)",
            reply: "OK 0",
        },
    },
    Entry {
        word: "drop",
        form: "drop role",
        meaning: "takes an active role from the session",
        detail: Detail::Request {
            tests: "a session (DENIED session); the role is active (32 unknown)",
            reply: "OK 0",
        },
    },
    Entry {
        word: "whoami",
        form: "whoami",
        meaning: "lists the session's user, its active roles and those that it is authorized for",
        detail: Detail::Request {
            tests: "a session (DENIED session)",
            reply: "OK n, and a line each: user U, then active R and then authorized R, each in \
                alphabetical order",
        },
    },
];

/// Of sessions.
pub(crate) fn sessions() -> &'static [Entry] {
    &SESSIONS
}

/// Of users, roles and grants.
static ROLES: [Entry; 8] = [
    Entry {
        word: "adduser",
        form: "adduser user token",
        meaning: "adds a user, without roles",
        detail: Detail::Request {
            tests: "a session (DENIED session); the permission admin on the desk (DENIED \
                permission admin desk); there is no such user (33 known); fewer than 512 users (27 \
                full)",
            reply: "OK 0",
        },
    },
    Entry {
        word: "deluser",
        form: "deluser user",
        meaning: "deletes a user with its assignments, and ends its sessions",
        detail: Detail::Request {
            tests: "a session (DENIED session); the permission admin on the desk (DENIED \
                permission admin desk); there is such a user (32 unknown)",
            reply: "OK 0",
        },
    },
    Entry {
        word: "addrole",
        form: "addrole role",
        meaning: "adds a role, without juniors or seniors",
        detail: Detail::Request {
            tests: "a session (DENIED session); the permission admin on the desk (DENIED \
                permission admin desk); there is no such role (33 known); fewer than 512 roles (27 \
                full)",
            reply: "OK 0",
        },
    },
    Entry {
        word: "delrole",
        form: "delrole role",
        meaning: "deletes a role with its pairs, assignments and grants",
        detail: Detail::Request {
            tests: "a session (DENIED session); the permission admin on the desk (DENIED \
                permission admin desk); there is such a role (32 unknown); it is in no set of \
                separation of duty (35 used)",
            reply: "OK 0",
        },
    },
    Entry {
        word: "assign",
        form: "assign user role",
        meaning: "assigns a role to a user",
        detail: Detail::Request {
            tests: "a session (DENIED session); the permission admin on the desk (DENIED \
                permission admin desk); user and role are there (32 unknown); the role isn't \
                assigned to the user (33 known); no static set is broken (DENIED ssd set)",
            reply: "OK 0",
        },
    },
    Entry {
        word: "deassign",
        form: "deassign user role",
        meaning: "takes an assignment back",
        detail: Detail::Request {
            tests: "a session (DENIED session); the permission admin on the desk (DENIED \
                permission admin desk); the role is assigned to the user (32 unknown)",
            reply: "OK 0",
        },
    },
    Entry {
        word: "grant",
        form: "grant operation object role",
        meaning: "grants an operation on an object to a role: submit, use, read or place on a \
            cell; admin, deck, run, waive, sign, verdict or audit on the object desk",
        detail: Detail::Request {
            tests: "a session (DENIED session); the permission admin on the desk (DENIED \
                permission admin desk); there is such a role (32 unknown); it wasn't granted that \
                (33 known); fewer than 4096 grants (27 full)",
            reply: "OK 0",
        },
    },
    Entry {
        word: "revoke",
        form: "revoke operation object role",
        meaning: "takes a grant back",
        detail: Detail::Request {
            tests: "a session (DENIED session); the permission admin on the desk (DENIED \
                permission admin desk); the role was granted that (32 unknown)",
            reply: "OK 0",
        },
    },
];

/// Of users, roles and grants.
pub(crate) fn roles() -> &'static [Entry] {
    &ROLES
}

/// Of the hierarchy and the sets of separation of duty.
static SETS: [Entry; 6] = [
    Entry {
        word: "inherit",
        form: "inherit senior junior",
        meaning: "makes a role an immediate junior of another, which then acts with what the \
            junior was granted",
        detail: Detail::Request {
            tests: "a session (DENIED session); the permission admin on the desk (DENIED \
                permission admin desk); both roles are there (32 unknown); they aren't such a pair \
                (33 known); the junior isn't at or above the senior (36 loop); no static set is \
                broken (DENIED ssd set); no dynamic set is broken (DENIED dsd set)",
            reply: "OK 0",
        },
    },
    Entry {
        word: "uninherit",
        form: "uninherit senior junior",
        meaning: "takes an immediate pair back",
        detail: Detail::Request {
            tests: "a session (DENIED session); the permission admin on the desk (DENIED \
                permission admin desk); they are an immediate pair (32 unknown)",
            reply: "OK 0",
        },
    },
    Entry {
        word: "ssd",
        form: "ssd name n role role ..",
        meaning: "makes a static set: nobody may be authorized for n of its roles",
        detail: Detail::Request {
            tests: "a session (DENIED session); the permission admin on the desk (DENIED \
                permission admin desk); no static set has that name (33 known); each role is there \
                (32 unknown); no static set is broken, the new one with them (DENIED ssd set); \
                fewer than 64 static sets (27 full)",
            reply: "OK 0",
        },
    },
    Entry {
        word: "dsd",
        form: "dsd name n role role ..",
        meaning: "makes a dynamic set: in no session may n of its roles act",
        detail: Detail::Request {
            tests: "a session (DENIED session); the permission admin on the desk (DENIED \
                permission admin desk); no dynamic set has that name (33 known); each role is \
                there (32 unknown); no dynamic set is broken, the new one with them (DENIED dsd \
                set); fewer than 64 dynamic sets (27 full)",
            reply: "OK 0",
        },
    },
    Entry {
        word: "unssd",
        form: "unssd name",
        meaning: "deletes a static set",
        detail: Detail::Request {
            tests: "a session (DENIED session); the permission admin on the desk (DENIED \
                permission admin desk); there is such a set (32 unknown)",
            reply: "OK 0",
        },
    },
    Entry {
        word: "undsd",
        form: "undsd name",
        meaning: "deletes a dynamic set",
        detail: Detail::Request {
            tests: "a session (DENIED session); the permission admin on the desk (DENIED \
                permission admin desk); there is such a set (32 unknown)",
            reply: "OK 0",
        },
    },
];

/// Of the hierarchy and the sets of separation of duty.
pub(crate) fn sets() -> &'static [Entry] {
    &SETS
}
