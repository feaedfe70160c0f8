//! Prints the end of a day.

use crate::shared::account::{Account, push_request};
use crate::shared::day::Day;
use anyhow::{Result, bail};
use gate_events::tell_response;
use mpw_events::{Call, Event};
use std::alloc::Global;

/// Prints the replies of a connection.
fn tell_account(rt: &HostRuntime, account: &Account) -> Result<()> {
    println!(rt; "  connection {}", account.connection)?;
    for line in account.told.lines() {
        println!(rt; "    {line}")?;
    }
    Ok(())
}

/// Prints the replies of the connections, and what failed.
///
/// # Errors
/// It can't be printed.
pub fn tell_accounts(rt: &HostRuntime, accounts: &[Account], day: &Day) -> Result<()> {
    for account in accounts {
        if !account.asked.is_empty() {
            tell_account(rt, account)?;
        }
        if let Some(trouble) = account.trouble {
            println!(rt; "  {}: TROUBLE, {trouble}", account.connection)?;
        }
    }
    if day.was_given_up() {
        println!(rt; "  the gate: TROUBLE, tile 0 was not let pass")?;
    }
    Ok(())
}

/// The lines of a connection's requests in the history.
fn lines_in(alloc: Global, calls: &[Call], asker: u32) -> Result<String> {
    let mut lines = String::new(alloc);
    for call in calls {
        if let Event::Ask {
            connection,
            request,
        } = &call.event
        {
            if *connection == asker {
                push_request(alloc, &mut lines, request.get())?;
            }
        }
    }
    Ok(lines)
}

/// Prints whether the history has each connection's requests as they were made.
fn tell_requests(rt: &HostRuntime, calls: &[Call], accounts: &[Account]) -> Result<()> {
    for account in accounts {
        let lines = lines_in(rt.alloc(), calls, account.connection)?;
        if lines.as_str() != account.asked.as_str() {
            println!(rt;
                "  the history has OTHER requests of {}",
                account.connection
            )?;
        }
    }
    Ok(println!(rt;
        "  the history has the requests of {} passes",
        accounts.len()
    )?)
}

/// Prints the last answer about tile 0 of run 1.
fn tell_late(rt: &HostRuntime, calls: &[Call]) -> Result<()> {
    let mut last = None;
    for call in calls {
        if let Event::Tile(answer) = &call.event {
            let job = answer.get().job();
            if job.run() == 1 && job.tile() == 0 {
                last = Some(&call.response);
            }
        }
    }
    let Some(response) = last else {
        bail!("an answer of tile 0");
    };
    println!(rt; "  of tile 0 of run 1 is told last")?;
    tell_response(rt, response)
}

/// Prints what the history has, if all passes came back.
///
/// # Errors
/// It can't be printed, or out of memory.
pub fn tell_history(
    rt: &HostRuntime,
    calls: &[Call],
    accounts: &[Account],
    day: &Day,
) -> Result<()> {
    tell_requests(rt, calls, accounts)?;
    if day.is_late() {
        tell_late(rt, calls)?;
    }
    Ok(())
}
