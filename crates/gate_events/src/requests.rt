//! Requests by their words.

use crate::words::{digest, name, object, operation};
use anyhow::{Result, bail};
use gate_samples::text_of_library;
use gate_words::coordinate;
use mpw_deck::DeckText;
use mpw_geom::{Orient, Placing, Point};
use mpw_library::LibraryText;
use mpw_permissions::Grant;
use mpw_requests::{
    LayoutRequest, PolicyRequest, Request, RunRequest, SharedRequest, WaferRequest,
};
use std::alloc::{AllocError, Global};

/// The text of a deck, from its lines with `; ` between them.
fn deck_text(alloc: Global, lines: &str) -> Result<DeckText, AllocError> {
    let mut bytes = Vec::new(alloc);
    for line in lines.split("; ") {
        bytes.extend_from_slice(line.as_bytes())?;
        bytes.push(b'\n')?;
    }
    DeckText::read(alloc, bytes)
}

/// The upload of a deck.
fn deck(alloc: Global, lines: &str) -> Result<SharedRequest> {
    let text = deck_text(alloc, lines)?;
    let request = Request::Wafer(WaferRequest::Deck { text });
    Ok(SharedRequest::new(alloc, request)?)
}

/// The submission of a library's structure as a cell.
fn submission(alloc: Global, cell: &str, top: &str, notation: &str) -> Result<SharedRequest> {
    let text = LibraryText::read(alloc, text_of_library(alloc, notation)?)?;
    let cell = name(alloc, cell)?;
    let top = name(alloc, top)?;
    let request = Request::Layout(LayoutRequest::Submit { cell, top, text });
    Ok(SharedRequest::new(alloc, request)?)
}

/// The placement of a cell as it is drawn, with a displacement.
fn placement(alloc: Global, cell: &str, label: &str, x: &str, y: &str) -> Result<SharedRequest> {
    let by = Point {
        x: coordinate(x)?,
        y: coordinate(y)?,
    };
    let placing = Placing {
        orient: Orient::R0,
        by,
    };
    let cell = name(alloc, cell)?;
    let label = name(alloc, label)?;
    let request = Request::Wafer(WaferRequest::Place {
        cell,
        label,
        placing,
    });
    Ok(SharedRequest::new(alloc, request)?)
}

/// The removal of a placement.
fn removal(alloc: Global, cell: &str, label: &str) -> Result<SharedRequest> {
    let cell = name(alloc, cell)?;
    let label = name(alloc, label)?;
    let request = Request::Wafer(WaferRequest::Unplace { cell, label });
    Ok(SharedRequest::new(alloc, request)?)
}

/// A request of the run.
fn run(alloc: Global, request: RunRequest) -> Result<SharedRequest> {
    Ok(SharedRequest::new(alloc, Request::Run(request))?)
}

/// A grant by its words.
fn grant(alloc: Global, operation_word: &str, object_word: &str, role: &str) -> Result<Grant> {
    let operation = operation(operation_word)?;
    let role = name(alloc, role)?;
    let object = object(alloc, object_word)?;
    Ok(Grant {
        operation,
        object,
        role,
    })
}

/// The policy requests with a verb and one word or two.
fn policy(alloc: Global, words: &[&str]) -> Result<PolicyRequest> {
    match words {
        ["close"] => Ok(PolicyRequest::Close),
        ["activate", role] => Ok(PolicyRequest::Activate {
            role: name(alloc, role)?,
        }),
        ["addrole", role] => Ok(PolicyRequest::AddRole {
            role: name(alloc, role)?,
        }),
        ["open", user, token] => Ok(PolicyRequest::Open {
            user: name(alloc, user)?,
            digest: digest(token),
        }),
        ["adduser", user, token] => Ok(PolicyRequest::AddUser {
            user: name(alloc, user)?,
            digest: digest(token),
        }),
        ["grant", operation, object, role] => Ok(PolicyRequest::Grant {
            grant: grant(alloc, operation, object, role)?,
        }),
        words => assignment(alloc, words),
    }
}

/// The policy requests of a user and a role.
fn assignment(alloc: Global, words: &[&str]) -> Result<PolicyRequest> {
    let [verb, user, role] = words else {
        bail!("a request");
    };
    let user = name(alloc, user)?;
    let role = name(alloc, role)?;
    match *verb {
        "assign" => Ok(PolicyRequest::Assign { user, role }),
        "deassign" => Ok(PolicyRequest::Deassign { user, role }),
        _ => bail!("a request"),
    }
}

/// The request of some words, with a library in the notation of `gate_samples`, or a deck's lines with `; ` between them.
///
/// # Errors
/// The words are none of a request, or out of memory.
pub fn request(alloc: Global, words: &[&str], payload: &str) -> Result<SharedRequest> {
    match words {
        ["submit", cell, top] => submission(alloc, cell, top, payload),
        ["deck"] => deck(alloc, payload),
        ["place", cell, label, x, y] => placement(alloc, cell, label, x, y),
        ["unplace", cell, label] => removal(alloc, cell, label),
        ["run"] => run(alloc, RunRequest::Run),
        ["cancel"] => run(alloc, RunRequest::Cancel),
        ["status"] => run(alloc, RunRequest::Status),
        ["markers"] => run(alloc, RunRequest::Markers),
        ["whoami"] => Ok(SharedRequest::new(alloc, Request::Whoami)?),
        words => {
            let request = policy(alloc, words)?;
            Ok(SharedRequest::new(alloc, Request::Policy(request))?)
        }
    }
}
