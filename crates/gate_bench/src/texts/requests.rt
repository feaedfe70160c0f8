//! What reading a line with its payload gives.

use anyhow::{Result, bail};
use gate_events::Text;
use mpw_requests::Request;
use mpw_store_text::{stored_line, stored_payload};
use mpw_wire::{Asked, WireFault, read_request};

/// Prints how many bytes were taken, those of the payload, and the request's stored line.
fn report_request(rt: &HostRuntime, request: &Request, taken: usize) -> Result<()> {
    let line = stored_line(rt.alloc(), request)?;
    match stored_payload(request) {
        Some(bytes) => Ok(println!(rt; "asked {taken} {} {line}", bytes.len())?),
        None => Ok(println!(rt; "asked {taken} - {line}")?),
    }
}

/// Takes a line with its payload, and prints what it asks for.
pub fn report(rt: &HostRuntime, bytes: &[u8]) -> Result<()> {
    let mut source = Text {
        bytes,
        at: 0,
        fails_at: usize::MAX,
        failures: 0,
    };
    match read_request(rt.alloc(), &mut source) {
        Ok(Asked::Request(request)) => report_request(rt, request.get(), source.at),
        Ok(Asked::Form) => Ok(println!(rt; "form {}", source.at)?),
        Ok(Asked::Long) => Ok(println!(rt; "long")?),
        Ok(Asked::Cut) => Ok(println!(rt; "cut")?),
        Ok(Asked::End) => Ok(println!(rt; "end {}", source.at)?),
        Err(WireFault::Memory) => bail!("out of memory"),
        Err(_) => bail!("the text can't be read"),
    }
}
