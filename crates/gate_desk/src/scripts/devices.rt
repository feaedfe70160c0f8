//! A writer that counts its flushes.
ghost use Rattle.std.specs.Prelude.{None};

use anyhow::Result as Told;
use mpw_devices::{Counted, Sink};
use std::io;
use std::io::Write;

/// A writer of std that stores nothing, and counts its flushes.
#[derive(Drop)]
struct Flushes<'a> {
    count: &'a mut usize,
}

impl Write for Flushes<'_> {
    ghost contents = { λ _. None };

    fn write(&mut self, bytes: &[u8]) -> io::Result<usize> {
        Ok(bytes.len())
    }

    fn flush(&mut self) -> io::Result<()> {
        *self.count = self.count.saturating_add(1);
        Ok(())
    }
}

/// How many of three flushes a counted writer passes on.
fn flushes_of_three() -> usize {
    let mut count = 0usize;
    let mut sink = Counted::new(Flushes { count: &mut count });
    for _ in 0..3 {
        let _ = Sink::flush(&mut sink);
    }
    drop(sink);
    count
}

/// Prints how many flushes a counted writer passes on.
pub fn tell_flushes(rt: &HostRuntime) -> Told<()> {
    println!(rt;
        "of 3 flushes a counted writer hands on {}",
        flushes_of_three()
    )?;
    Ok(())
}
