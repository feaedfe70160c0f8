//! What a store has of the requests on the standard input, and what is read back.
//!
//! Each line is repeated, with the answer below. A line that begins with `#`, and an empty one, says nothing.
//! - `asked LINE` has a request's line: its stored line is printed, and read back. It submits as many zeros as it says;
//! - `stored LINE` has a stored line without a payload, `payload N LINE` one with a payload of N zeros: whether they
//!   are a request's;
//! - `grant` prints the stored lines of grants whose objects are of either kind, and reads them back.
use anyhow::{Context, Result, bail};
use mpw_geom::Name;
use mpw_permissions::{Grant, Object, Operation};
use mpw_requests::{PolicyRequest, Request, SharedRequest};
use mpw_store_text::{read_stored, stored_line, stored_payload};
use mpw_wire::{LineAsk, parse_line};
use std::alloc::{AllocError, Global};

fn zeros(alloc: Global, count: usize) -> Result<Vec<u8>, AllocError> {
    vec![in alloc; 0u8; count.min(65535)]
}

/// The request of a line; it submits zeros.
fn request_of(alloc: Global, line: &str) -> Result<SharedRequest> {
    let request = match parse_line(alloc, line.as_bytes())? {
        LineAsk::Request(request) => return Ok(request),
        LineAsk::Upload { upload, length } => upload.with(alloc, zeros(alloc, length)?)?,
        LineAsk::Long | LineAsk::Form => bail!("a request's line"),
    };
    Ok(SharedRequest::new(alloc, request)?)
}

/// Whether a line and a payload are read as a request that has them.
fn is_read(alloc: Global, line: &str, payload: Option<&[u8]>) -> Result<bool> {
    let Some(request) = read_stored(alloc, line, payload)? else {
        return Ok(false);
    };
    if stored_line(alloc, request.get())?.as_str() != line {
        bail!("the request's line");
    }
    Ok(true)
}

/// Prints a request's stored line, and reads it back.
fn tell_request(rt: &HostRuntime, request: &Request) -> Result<()> {
    let line = stored_line(rt.alloc(), request)?;
    println!(rt; "    {line}")?;
    let payload = stored_payload(request);
    if let Some(bytes) = payload {
        println!(rt; "    with {} bytes", bytes.len())?;
    }
    if !is_read(rt.alloc(), line.as_str(), payload)? {
        bail!("the request");
    }
    Ok(println!(rt; "    read back")?)
}

/// Prints whether a line and a payload are a request's.
fn tell_stored(rt: &HostRuntime, line: &str, payload: Option<&[u8]>) -> Result<()> {
    let is_read = is_read(rt.alloc(), line, payload)?;
    Ok(println!(rt; "    {}", if is_read { "a request's" } else { "nobody's" })?)
}

/// Prints the stored line of a grant to role `r`.
fn tell_grant(rt: &HostRuntime, operation: Operation, object: Object) -> Result<()> {
    let role = Name::read(rt.alloc(), b"r")?;
    let grant = Grant {
        operation,
        object,
        role,
    };
    tell_request(rt, &Request::Policy(PolicyRequest::Grant { grant }))
}

/// Prints the stored lines of grants on the desk and on a cell that is named `desk`, by operations of either kind.
fn tell_grants(rt: &HostRuntime) -> Result<()> {
    for operation in [Operation::Submit, Operation::Admin] {
        tell_grant(rt, operation, Object::Desk)?;
        tell_grant(
            rt,
            operation,
            Object::Cell(Name::read(rt.alloc(), b"desk")?),
        )?;
    }
    Ok(())
}

fn answer(rt: &HostRuntime, verb: &str, text: &str) -> Result<()> {
    match verb {
        "grant" => tell_grants(rt),
        "asked" => tell_request(rt, request_of(rt.alloc(), text)?.get()),
        "stored" => tell_stored(rt, text, None),
        "payload" => {
            let (count, text) = text.split_once(' ').context("a number of bytes")?;
            let payload = zeros(rt.alloc(), count.parse::<usize>()?)?;
            tell_stored(rt, text, Some(payload.as_slice()))
        }
        _ => bail!("a command"),
    }
}

/// Answers the lines of its table.
pub(crate) fn run(rt: &HostRuntime, lines: &str) -> Result<()> {
    for line in lines.lines() {
        println!(rt; "{line}")?;
        if !line.is_empty() && !line.starts_with('#') {
            let (verb, text) = line.split_once(' ').unwrap_or((line, ""));
            answer(rt, verb, text)?;
        }
    }
    Ok(())
}
