//! The steps of a connection over a shared desk.

use crate::shared::account::{Account, Trouble, has_line, push_request, reply_text};
use crate::shared::flags::{Flag, Flags};
use gate_events::request;
use mpw_desk::{Pass, Room, Shared};
use mpw_events::{Handler, NoKeeper, Response};
use std::alloc::Global;
use std::sync::Wait;
use std::thread;
use std::time::{Clock, Duration};

/// How often a request is asked until it gets the expected reply.
const MOST_ASKS: u32 = 100_000;

/// The pause between two requests, in milliseconds.
const PAUSE: u64 = 1;

/// A step of a connection.
#[derive(Clone, Copy)]
enum Step<'a> {
    /// Asks a line, and prints the reply.
    Tell(&'a str),
    /// Asks a line until a line of the reply begins with the front.
    Until { front: &'a str, line: &'a str },
    /// Sets a flag.
    Set(Flag),
    /// Waits for a flag.
    Wait(Flag),
}

/// The flag of a word.
fn read_flag(word: &str) -> Result<Flag, Trouble> {
    match Flag::read(word) {
        Some(flag) => Ok(flag),
        None => Err(Trouble::Form),
    }
}

/// The step of a line.
fn read_step(line: &str) -> Result<Step<'_>, Trouble> {
    match line.split_once(' ') {
        Some(("tell", line)) => Ok(Step::Tell(line)),
        Some(("until", rest)) => match rest.split_once(' ') {
            Some((front, line)) => Ok(Step::Until { front, line }),
            None => Err(Trouble::Form),
        },
        Some(("set", word)) => Ok(Step::Set(read_flag(word)?)),
        Some(("wait", word)) => Ok(Step::Wait(read_flag(word)?)),
        _ => Err(Trouble::Form),
    }
}

/// What the steps need: the desk, and the flags of the day.
pub struct Asking<'a, H: Handler + Drop, N: Room, R: Wait + Clock> {
    /// The runtime that waits for the lock.
    pub rt: &'a R,
    /// The allocator of texts.
    pub alloc: Global,
    /// The desk.
    pub shared: &'a Shared<H, NoKeeper, N>,
    /// The flags that the threads set and wait for.
    pub flags: &'a Flags,
}

impl<'a, H: Handler + Drop, N: Room, R: Wait + Clock> Drop for Asking<'a, H, N, R> {
    fn drop(self) {
        let Asking {
            rt: _,
            alloc: _,
            shared: _,
            flags: _,
        } = self;
    }
}

impl<'a, H: Handler + Drop, N: Room, R: Wait + Clock> Asking<'a, H, N, R> {
    /// Asks a line, and returns the text of the reply.
    fn ask(
        &self,
        pass: &mut Pass<N>,
        account: &mut Account,
        line: &str,
    ) -> Result<String, Trouble> {
        let words: Vec<&str> = line.split_whitespace().collect(self.alloc)?;
        let Ok(request) = request(self.alloc, words.as_slice(), "") else {
            return Err(Trouble::Form);
        };
        push_request(self.alloc, &mut account.asked, request.get())?;
        let response = self.shared.ask(self.rt, pass, request)?;
        reply_text(self.alloc, &response)
    }

    /// Asks a line until a line of the reply begins with the front.
    fn ask_until(
        &self,
        pass: &mut Pass<N>,
        account: &mut Account,
        front: &str,
        line: &str,
    ) -> Result<(), Trouble> {
        for _ in 0..MOST_ASKS {
            let reply = self.ask(pass, account, line)?;
            if has_line(reply.as_str(), front) {
                return Ok(());
            }
            thread::sleep(self.rt, Duration::from_millis(PAUSE));
        }
        Err(Trouble::Asked)
    }

    /// Does a step.
    fn step(&self, pass: &mut Pass<N>, account: &mut Account, line: &str) -> Result<(), Trouble> {
        match read_step(line)? {
            Step::Tell(line) => {
                let reply = self.ask(pass, account, line)?;
                Ok(account.told.push_str(reply.as_str())?)
            }
            Step::Until { front, line } => self.ask_until(pass, account, front, line),
            Step::Set(flag) => {
                self.flags.set(flag);
                Ok(())
            }
            Step::Wait(flag) if self.flags.wait(flag) => Ok(()),
            Step::Wait(_) => Err(Trouble::Flag),
        }
    }

    /// Does the steps of the connection with that number in a script, counted from 1.
    fn serve_steps(
        &self,
        pass: &mut Pass<N>,
        account: &mut Account,
        text: &str,
        place: u32,
    ) -> Result<(), Trouble> {
        let mut at = 0u32;
        for line in text.lines() {
            if line == "connection" {
                at = at.saturating_add(1);
            } else if at == place {
                self.step(pass, account, line)?;
            }
        }
        Ok(())
    }

    /// Does the steps of the connection with that number in a script, counted from 1, and hands in its end.
    ///
    /// # Errors
    /// The first step that fails.
    pub fn serve(
        &self,
        pass: &mut Pass<N>,
        account: &mut Account,
        text: &str,
        place: u32,
    ) -> Result<(), Trouble> {
        self.serve_steps(pass, account, text, place)?;
        let response = self.shared.gone(self.rt, pass)?;
        if matches!(&response, Response::Ended) {
            return Err(Trouble::Ended);
        }
        Ok(())
    }
}
