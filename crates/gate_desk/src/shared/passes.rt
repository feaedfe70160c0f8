//! How many passes a desk has.
ghost use Rattle.std.specs.Prelude.{◌≡◌, ◌≤◌, None};
ghost use Rattle.mpw_desk.specs.Numbers.{AreBelow};
ghost use Rattle.mpw_events.specs.History.{kept_desk};

use crate::shared::threads::{FIRST, check_first};
use anyhow::Result;
use mpw_desk::{Blank, Room, Shared};
use mpw_events::{Handler, NoKeeper};
use std::marker::Brand;
use std::sync::Wait;

/// Takes at most that many passes, each of which is dropped at once, and returns how many there were.
fn count_passes<H: Handler + Drop, N: Room, R: Wait>(
    rt: &R,
    core: Box<H>,
    blank: Blank,
    most: u32,
) -> u32
    requires begun { N.begun ≡ kept_desk (H.desk core.value) None 0 }
    requires name { blank.name ≡ N.name }
    requires parts { (blank.parts ≡ N.parts) × (N.all ≡ N.parts) × (1048577 ≤ N.all) }
    requires table { blank.table ≡ N.table }
    requires first { N.first ≡ 2 }
    requires above { AreBelow 2 (H.desk core.value).history }
{
    let shared: Shared<H, NoKeeper, N> = Shared::new(core, NoKeeper, blank, FIRST);
    for count in 0..most {
        if shared.pass(rt).is_none() {
            return count;
        }
    }
    most
}

/// Prints how many of that many passes and one more there are.
///
/// # Errors
/// It can't be printed, or out of memory.
pub fn tell_passes<H: Handler + Drop, R: Wait>(
    rt: &HostRuntime,
    threads: &R,
    core: Box<H>,
    most: u32,
) -> Result<()> {
    check_first(core.calls())?;
    let blank = Blank::new(rt.alloc())?;
    let count = count_passes::<H, Brand, R>(threads, core, blank, most.saturating_add(1));
    Ok(println!(rt; "  {count} passes of {most} and one more")?)
}
