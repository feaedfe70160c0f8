//! What sessions sent in submissions that weren't accepted. The desk's history has these payloads for as long as it is served, so a user may send so many
//! bytes that are denied, and equal payloads of one user share their memory. Each user has its own, so no time of a reply shows what another user sent.
ghost use Rattle.std.specs.Prelude.{◌≡◌, IfOk, IfSome};
ghost use Rattle.mpw_requests.specs.declared.layouts.LayoutRequest.TheVariants.{Submit};
ghost use Rattle.mpw_requests.specs.declared.request.Request.TheVariants.{Layout};

use indexmap::IndexMap;
use mpw_admission::{Budget, DENIED_BYTES};
use mpw_geom::Name;
use mpw_library::LibraryText;
use mpw_requests::{LayoutRequest, PolicyRequest, Request, SharedRequest, digest_of};
use std::alloc::{AllocError, Global};
use std::sync::{Mutex, Wait};

/// What came of a submission.
#[derive(Clone, Copy, PartialEq, Eq)]
pub(crate) enum Fate {
    Accepted,
    Denied,
    /// It was refused, or memory ran out.
    Refused,
}

/// What a user has left for submissions that are denied, and its texts that weren't accepted.
#[derive(Drop)]
struct Account {
    budget: Budget,
    /// The texts by their digests.
    texts: IndexMap<[u8; 32], LibraryText>,
}

impl Account {
    /// Of a user whose submissions so far were accepted.
    fn new(alloc: Global) -> Account {
        Account {
            budget: Budget::new(DENIED_BYTES),
            texts: IndexMap::new(alloc),
        }
    }

    /// Takes so many bytes out of what is left, and returns whether nothing is left.
    fn charge(&mut self, bytes: u64) -> bool {
        let _ = self.budget.lend(bytes);
        self.budget.left == 0
    }
}

/// The accounts of the users who had a submission that wasn't accepted.
#[derive(Drop)]
pub(crate) struct Ledger {
    alloc: Global,
    accounts: Mutex<IndexMap<Name, Account>>,
}

impl Ledger {
    /// Nothing was submitted yet.
    pub(crate) fn new(alloc: Global) -> Ledger {
        Ledger {
            alloc,
            accounts: Mutex::new(IndexMap::new(alloc)),
        }
    }

    /// What a user has left. There is none if each submission so far was accepted.
    fn left<R: Wait>(&self, rt: &R, user: &Name) -> Option<Budget> {
        Some(self.accounts.lock(rt).get(user)?.budget)
    }

    /// Takes so many bytes out of what a user has left, and notes the text, so that equal ones of that user can share its memory. It returns whether nothing
    /// is left. If there is no memory to note it, nothing is.
    fn charge<R: Wait>(&self, rt: &R, user: &Name, bytes: u64, text: LibraryText) -> bool {
        let digest = digest_of(text.as_bytes());
        let Ok(name) = user.copy() else {
            return true;
        };
        let mut accounts = self.accounts.lock(rt);
        if accounts.get(user).is_none()
            && accounts.insert(name, Account::new(self.alloc)).is_err()
        {
            return true;
        }
        let Some(account) = accounts.get_mut(user) else {
            return true;
        };
        let _ = account.texts.insert(digest, text);
        account.charge(bytes)
    }

    /// An equal text of this user that was noted before. Cost: the digest of the text, and a comparison.
    fn find<R: Wait>(&self, rt: &R, user: &Name, text: &LibraryText) -> Option<LibraryText>
        ensures { IfSome result (λ found. found ≡ text.now) }
    {
        let digest = digest_of(text.as_bytes());
        let found = self.noted(rt, user, &digest)?;
        if found.as_bytes() == text.as_bytes() {
            Some(found)
        } else {
            None
        }
    }

    /// The text of this user that was noted with a digest.
    fn noted<R: Wait>(&self, rt: &R, user: &Name, digest: &[u8; 32]) -> Option<LibraryText> {
        let accounts = self.accounts.lock(rt);
        accounts.get(user)?.texts.get(digest)?.alone().ok()
    }
}

/// Whose submissions a connection's are, and the one that has no answer yet.
#[derive(Drop)]
pub(crate) struct Payer {
    /// The user of the connection's last session.
    user: Option<Name>,
    /// The user of an `open` that has no answer yet.
    opened: Option<Name>,
    /// The text of a submission that has no answer yet.
    sent: Option<LibraryText>,
}

/// The user whose session a request would begin.
pub(crate) fn user_opened(request: &Request) -> Option<Name> {
    match request {
        Request::Policy(PolicyRequest::Open { user, .. }) => user.copy().ok(),
        _ => None,
    }
}

/// A submission of this text.
fn submission(
    alloc: Global,
    cell: &Name,
    top: &Name,
    text: LibraryText,
) -> Result<SharedRequest, AllocError>
    ensures { IfOk result (λ shared. shared ≡ Layout (Submit cell.now top.now text)) }
{
    let cell = cell.copy()?;
    let top = top.copy()?;
    SharedRequest::new(
        alloc,
        Request::Layout(LayoutRequest::Submit { cell, top, text }),
    )
}

impl Payer {
    /// Of a connection that has asked nothing yet.
    pub(crate) fn new() -> Payer {
        Payer {
            user: None,
            opened: None,
            sent: None,
        }
    }

    /// Notes a request, and returns it. If it submits a text of the same user that was noted before, it shares the memory of that one.
    pub(crate) fn ask<R: Wait>(
        &mut self,
        rt: &R,
        alloc: Global,
        ledger: &Ledger,
        request: SharedRequest,
    ) -> SharedRequest
        ensures { result ≡ request }
    {
        self.opened = user_opened(request.get());
        self.sent = None;
        let Request::Layout(LayoutRequest::Submit { cell, top, text }) = request.get() else {
            return request;
        };
        let Some(found) = self.find(rt, ledger, text) else {
            self.sent = text.alone().ok();
            return request;
        };
        self.sent = found.alone().ok();
        match submission(alloc, cell, top, found) {
            Ok(shared) => shared,
            Err(_) => request,
        }
    }

    /// An equal text of the user that was noted before. It is looked for only if the user had a submission that wasn't accepted, since that takes the text's digest.
    fn find<R: Wait>(&self, rt: &R, ledger: &Ledger, text: &LibraryText) -> Option<LibraryText>
        ensures { IfSome result (λ found. found ≡ text.now) }
    {
        let user = self.user.as_ref()?;
        let _ = ledger.left(rt, user)?;
        ledger.find(rt, user, text)
    }

    /// Notes what came of the request. It returns whether the user may send no more payloads, and `None` if that is as before.
    pub(crate) fn answer<R: Wait>(&mut self, rt: &R, ledger: &Ledger, fate: Fate) -> Option<bool> {
        if fate == Fate::Accepted {
            self.user = Some(self.opened.take()?);
            return Some(match ledger.left(rt, self.user.as_ref()?) {
                Some(budget) => budget.left == 0,
                None => false,
            });
        }
        let text = self.sent.take()?;
        let bytes = match fate {
            Fate::Denied => text.as_bytes().len() as u64,
            _ => 0,
        };
        Some(ledger.charge(rt, self.user.as_ref()?, bytes, text))
    }
}
