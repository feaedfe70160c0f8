//! Devices: they give bytes or take them.
//!
//! A [`Source`] shows which bytes it has left, and a [`Sink`] which bytes it has taken, if that is known. Both count their failures. A sink
//! also shows whether it took bytes since it was flushed. [`Counted`] makes both from std's readers and writers.
ghost use Rattle.std.specs.Prelude.{◌≡◌, ℕ, Bool, false, List, ◌+◌, ◌<◌, ◌≤◌, length, IfOk, Option};
ghost use Rattle.std.specs.Io.KnownBytes.{Keeps, ReadConsumes, WriteAppends};
ghost use Rattle.std.specs.Io.Iter.{u64_saturate};
ghost use Rattle.std.specs.Io.{ReadsAtMost, WritesAtMost};
ghost use Rattle.mpw_devices.specs.Device.{GivesByte, failures_after, pending_after_write, pending_after_flush};

use std::io;
use std::io::{ErrorKind, Read, Write};
use thiserror::Error;

/// A device failed.
#[derive(Clone, Copy, Debug, Error)]
#[error("the device failed")]
pub struct DeviceFault;

/// A reader: the bytes that it has left, if they are known, and the number of its failures.
pub trait Source {
    ghost remaining: { Self → Option (List ℕ) };

    ghost failures: { Self → ℕ };

    /// The next byte, and `None` at the end.
    fn next_byte(&mut self) -> Result<Option<u8>, DeviceFault>
        ensures byte { GivesByte (remaining self.old) (remaining self.new) result }
        ensures failures { failures self.new ≡ failures_after result (failures self.old) };
}

/// A writer: the bytes that it has taken, if they are known, the number of its failures, and whether bytes are pending. Bytes are pending
/// if they were taken and no flush succeeded since.
pub trait Sink {
    ghost contents: { Self → Option (List ℕ) };

    ghost failures: { Self → ℕ };

    ghost pending: { Self → Bool };

    /// Takes bytes off the front, at least one if there is one. It returns how many.
    fn write(&mut self, bytes: &[u8]) -> Result<usize, DeviceFault>
        ensures bound { IfOk result (λ taken. taken ≤ length bytes.now) }
        ensures some { IfOk result (λ taken. 0 < length bytes.now → 0 < taken) }
        ensures bytes { WriteAppends (contents self.old) (contents self.new) result bytes.now }
        ensures pending { pending self.new ≡ pending_after_write result (pending self.old) }
        ensures failures { failures self.new ≡ failures_after result (failures self.old) };

    /// Passes on the bytes that it took.
    fn flush(&mut self) -> Result<(), DeviceFault>
        ensures bytes { Keeps (contents self.old) (contents self.new) }
        ensures pending { pending self.new ≡ pending_after_flush result (pending self.old) }
        ensures failures { failures self.new ≡ failures_after result (failures self.old) };
}

/// A reader or a writer of std, with the number of its failures, and whether it took bytes since it was flushed. A call that a signal
/// interrupts is made again, and is no failure. A write that takes nothing of some bytes is one.
#[derive(Drop)]
pub struct Counted<D> {
    device: D,
    failures: u64,
    is_pending: bool,
}

impl<D> Counted<D> {
    /// The device, with no failure so far.
    pub fn new(device: D) -> Counted<D>
        ensures { result ≡ record { device = device; failures = 0; is_pending = false } }
    {
        Counted {
            device,
            failures: 0,
            is_pending: false,
        }
    }

    /// Counts a failure, up to 2^64 - 1.
    fn fail(&mut self) -> DeviceFault
        ensures device { self.new.device ≡ self.old.device }
        ensures pending { self.new.is_pending ≡ self.old.is_pending }
        ensures failures { self.new.failures ≡ u64_saturate (self.old.failures + 1) }
    {
        self.failures = self.failures.saturating_add(1);
        DeviceFault
    }
}

/// Reads, again if a signal interrupts the call.
fn read_again<R: Read>(reader: &mut R, buffer: &mut [u8]) -> io::Result<usize>
    ensures bound { ReadsAtMost result buffer.new }
    ensures bytes { ReadConsumes (R.remaining reader.old) (R.remaining reader.new) result buffer.new }
{
    for _ in 0..u64::MAX {
        match reader.read(buffer) {
            Err(error) if error.kind() == ErrorKind::Interrupted => {}
            answer => return answer,
        }
    }
    Err(io::Error::from(ErrorKind::Interrupted))
}

/// Writes, again if a signal interrupts the call.
fn write_again<W: Write>(writer: &mut W, bytes: &[u8]) -> io::Result<usize>
    ensures bound { WritesAtMost result bytes.now }
    ensures bytes { WriteAppends (W.contents writer.old) (W.contents writer.new) result bytes.now }
{
    for _ in 0..u64::MAX {
        match writer.write(bytes) {
            Err(error) if error.kind() == ErrorKind::Interrupted => {}
            answer => return answer,
        }
    }
    Err(io::Error::from(ErrorKind::Interrupted))
}

impl<R: Read> Source for Counted<R> {
    ghost remaining = { λ counted. R.remaining counted.device };

    ghost failures = { λ counted. counted.failures };

    fn next_byte(&mut self) -> Result<Option<u8>, DeviceFault> {
        let mut byte = [0u8; 1];
        match read_again(&mut self.device, &mut byte) {
            Ok(0) => Ok(None),
            Ok(_) => Ok(Some(byte[0])),
            Err(_) => Err(self.fail()),
        }
    }
}

impl<W: Write> Sink for Counted<W> {
    ghost contents = { λ counted. W.contents counted.device };

    ghost failures = { λ counted. counted.failures };

    ghost pending = { λ counted. counted.is_pending };

    fn write(&mut self, bytes: &[u8]) -> Result<usize, DeviceFault> {
        match write_again(&mut self.device, bytes) {
            Ok(0) if !bytes.is_empty() => Err(self.fail()),
            Ok(taken) => {
                self.is_pending |= taken > 0;
                Ok(taken)
            }
            Err(_) => Err(self.fail()),
        }
    }

    fn flush(&mut self) -> Result<(), DeviceFault> {
        match self.device.flush() {
            Ok(()) => {
                self.is_pending = false;
                Ok(())
            }
            Err(_) => Err(self.fail()),
        }
    }
}
