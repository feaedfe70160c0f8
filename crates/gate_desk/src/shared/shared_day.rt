//! A day of a shared desk, from its sharing until its passes have come back.
ghost use Rattle.std.specs.Prelude.{◌≡◌, ◌≤◌, None};
ghost use Rattle.mpw_desk.specs.Numbers.{AreBelow};
ghost use Rattle.mpw_events.specs.History.{kept_desk};

use crate::shared::account::Account;
use crate::shared::day::{Day, KeptBack};
use crate::shared::ending::{tell_accounts, tell_history};
use crate::shared::threads::{FIRST, Part, all_parts, check_first};
use anyhow::Result;
use mpw_desk::{Blank, Pass, Room, Shared};
use mpw_events::{Handler, NoKeeper};
use std::alloc::Global;
use std::marker::Brand;
use std::sync::Wait;
use std::thread::Threads;
use std::time::Clock;

/// The passes and their results, in order.
fn apart<N: Room>(alloc: Global, parts: Vec<Part<N>>) -> Result<(Vec<Pass<N>>, Vec<Account>)> {
    let mut passes = Vec::new(alloc);
    let mut accounts = Vec::new(alloc);
    for part in parts {
        let (pass, account) = part.into_parts();
        passes.push(pass)?;
        accounts.push(account)?;
    }
    Ok((passes, accounts))
}

/// Leaves a pass out.
fn keep_back<N: Room>(passes: &mut Vec<Pass<N>>, kept_back: KeptBack) {
    match kept_back {
        KeptBack::Nobody => {}
        KeptBack::Connection if passes.is_empty() => {}
        KeptBack::Connection => drop(passes.remove(0)),
        KeptBack::Worker => drop(passes.pop()),
    }
}

/// Shares a desk for a day, and prints the result.
fn run_day<H, N, R>(
    rt: &HostRuntime,
    threads: &R,
    core: Box<H>,
    blank: Blank,
    day: &Day,
) -> Result<()>
where
    H: Handler + Send + Drop,
    N: Room + Send + Sync,
    R: Threads + Wait + Clock + Sync,
    requires begun { N.begun ≡ kept_desk (H.desk core.value) None 0 }
    requires name { blank.name ≡ N.name }
    requires parts { (blank.parts ≡ N.parts) × (N.all ≡ N.parts) × (1048577 ≤ N.all) }
    requires table { blank.table ≡ N.table }
    requires first { N.first ≡ 2 }
    requires above { AreBelow 2 (H.desk core.value).history }
{
    let shared: Shared<H, NoKeeper, N> = Shared::new(core, NoKeeper, blank, FIRST);
    let parts = all_parts::<H, N, R, Day>(threads, &shared, day)?;
    let (mut passes, accounts) = apart(rt.alloc(), parts)?;
    tell_accounts(rt, accounts.as_slice(), day)?;
    keep_back(&mut passes, day.kept_back());
    match shared.finish(passes) {
        Ok((core, _keeper)) => {
            println!(rt; "  all calls are counted")?;
            tell_history(rt, core.calls(), accounts.as_slice(), day)
        }
        Err(_) => Ok(println!(rt; "  some calls are nobody's")?),
    }
}

/// Shares a desk under a name for a day, and prints the result.
///
/// # Errors
/// There is no thread, it can't be printed, or out of memory.
pub fn tell_day<H, R>(rt: &HostRuntime, threads: &R, core: Box<H>, day: &Day) -> Result<()>
where
    H: Handler + Send + Drop,
    R: Threads + Wait + Clock + Sync,
{
    check_first(core.calls())?;
    let blank = Blank::new(rt.alloc())?;
    run_day::<H, Brand, R>(rt, threads, core, blank, day)
}
