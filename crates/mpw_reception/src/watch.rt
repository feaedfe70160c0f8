//! What is known of a connection while it is served.

use std::sync::atomic::{AtomicBool, Ordering};
use std::sync::{Mutex, Wait};

/// Why a connection is read or written no further.
#[derive(Clone, Copy, PartialEq, Eq, Debug)]
pub enum Limit {
    /// It took too long for a line or a payload, or was a stranger for too long.
    Time,
    /// No bytes are left for the payloads of strangers, or for those of its user.
    Memory,
    /// It doesn't read what is written to it.
    Unread,
}

/// What is known of a connection while it is served: whether it had a session, whether its last line was answered, whether its user may send payloads, and the limit
/// that it met.
#[derive(Drop)]
pub struct Watch {
    has_session: AtomicBool,
    is_answered: AtomicBool,
    is_spent: AtomicBool,
    limit: Mutex<Option<Limit>>,
}

impl Watch {
    /// Of a connection that was just accepted.
    pub fn new() -> Watch {
        Watch {
            has_session: AtomicBool::new(false),
            is_answered: AtomicBool::new(false),
            is_spent: AtomicBool::new(false),
            limit: Mutex::new(None),
        }
    }

    /// Notes that a session began. It returns whether that was the first one.
    pub fn note_session(&self) -> bool {
        !self.has_session.fetch_or(true, Ordering::SeqCst)
    }

    /// Whether it never had a session.
    pub fn is_stranger(&self) -> bool {
        !self.has_session.load(Ordering::SeqCst)
    }

    /// Notes whether no payload of its user is read any more.
    pub fn note_spent(&self, is_spent: bool) {
        self.is_spent.store(is_spent, Ordering::SeqCst);
    }

    /// Whether no payload of its user is read any more.
    pub(crate) fn is_spent(&self) -> bool {
        self.is_spent.load(Ordering::SeqCst)
    }

    /// Notes that a reply was written as a whole.
    pub fn note_answer(&self) {
        self.is_answered.store(true, Ordering::SeqCst);
    }

    /// Whether a reply was written that wasn't taken.
    #[inline(always)]
    pub(crate) fn is_answered(&self) -> bool {
        self.is_answered.load(Ordering::SeqCst)
    }

    /// Whether a reply was written since the last call.
    pub(crate) fn take_answer(&self) -> bool {
        let is_answered = self.is_answered();
        if is_answered {
            self.is_answered.store(false, Ordering::SeqCst);
        }
        is_answered
    }

    /// Notes the limit that it met, unless it met one before.
    pub(crate) fn note_limit<R: Wait>(&self, rt: &R, limit: Limit) {
        let mut met = self.limit.lock(rt);
        if met.is_none() {
            *met = Some(limit);
        }
    }

    /// The first limit that it met.
    pub fn limit<R: Wait>(&self, rt: &R) -> Option<Limit> {
        *self.limit.lock(rt)
    }
}
