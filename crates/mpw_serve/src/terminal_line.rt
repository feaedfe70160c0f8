//! The progress of a run, on one line of a terminal.
ghost use Rattle.std.specs.Prelude.{◌≡◌};
ghost use Rattle.mpw_serve.specs.Terminal.{line_end, line_text};
ghost use Rattle.mpw_wire.specs.Writing.{Writes};

use crate::progress::Progress;
use itoa::Buffer;
use mpw_devices::{Counted, Sink};
use mpw_reply_text::write_parts;
use mpw_wire::WireFault;
use std::io::{IsTerminal, Stderr};

/// What ends the line after so many jobs of so many: a line feed after the last one.
fn line_end(done: usize, total: usize) -> &'static str
    ensures { result.now ≡ line_end done total }
{
    if done == total { "\n" } else { "" }
}

/// Writes the line for so many jobs of so many over the one before it.
#[tactic(auto, unfolding(crate::specs::Terminal::line_text))]
fn write_line<W: Sink>(terminal: &mut W, done: usize, total: usize) -> Result<(), WireFault>
    ensures { Writes W.contents W.failures terminal.old terminal.new result (line_text done total) }
{
    write_parts(
        terminal,
        &[
            "\rmpw: ",
            Buffer::new().format(done),
            " of ",
            Buffer::new().format(total),
            " tiles checked",
            line_end(done, total),
        ],
    )
}

/// A line on a terminal that shows how far a run has come. Without a terminal it shows nothing.
pub struct TerminalLine<W: Sink> {
    terminal: Option<W>,
}

impl<W: Sink + Drop> Drop for TerminalLine<W> {
    fn drop(self) {
        let TerminalLine { terminal } = self;
        drop(terminal);
    }
}

impl TerminalLine<Counted<Stderr>> {
    /// The line on the standard error, if that is a terminal.
    pub fn new(rt: &HostRuntime) -> TerminalLine<Counted<Stderr>> {
        let stderr = rt.stderr();
        let terminal = if stderr.is_terminal() {
            Some(Counted::new(stderr))
        } else {
            None
        };
        TerminalLine { terminal }
    }
}

impl<W: Sink> Progress for TerminalLine<W> {
    ghost use Rattle.mpw_serve.specs.Terminal.{Shows};

    ghost shows = { λ before done total after. Shows W.contents W.failures before.terminal done total after.terminal };

    /// Rewrites the line, and ends it after the last job. A terminal that fails doesn't stop the run.
    fn tell(&mut self, done: usize, total: usize) {
        if let Some(terminal) = &mut self.terminal {
            let _ = write_line(terminal, done, total);
        }
    }
}
