//! Devices that bytes come from and go to, with the number of their failures.
//!
//! A program reads bytes from a [`Source`] and writes them to a [`Sink`]. [`Counted`] makes both from std's readers and writers. Contracts see
//! the bytes that are left or were taken, if they are known, how often the device failed, and whether bytes wait for a flush.
#![tactic(auto)]

mod device;

pub use device::{Counted, DeviceFault, Sink, Source};
