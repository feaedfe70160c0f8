//! Reads a connection within its limits.
//!
//! A line is counted at its first byte, and ends with its line feed. What is read after that and before the reply is its payload. Payloads of users
//! are long, so each of their bytes that came with an earlier one is handed on without a look at the limits.
ghost use Rattle.std.specs.Io.{ReadsAtMost};

use crate::notice::Notice;
use crate::rations::{Rations, own_lines};
use crate::reception::Arrival;
use crate::time::now;
use crate::watch::{Limit, Watch};
use mpw_admission::{Pail, Stage, Visit};
use std::alloc::Global;
use std::io::{self, BufRead, BufReader, ErrorKind, Read};
use std::net::TcpStream;
use std::sync::Wait;
use std::time::{Clock, Duration};

/// How often a system call is made in all if it is interrupted.
const TRIES: u32 = 16;

/// How many bytes of a payload are lent to a stranger at once.
const LOAN: u64 = 4096;

/// The longest time between two looks of a line that waits, in milliseconds.
const STEP: u64 = 1000;

/// Whether the socket's time limit has passed.
fn is_late(error: &io::Error) -> bool {
    matches!(error.kind(), ErrorKind::WouldBlock | ErrorKind::TimedOut)
}

/// Where a connection is, and what it may take. Times are in milliseconds.
#[derive(Drop)]
struct Account {
    begun: u64,
    rested: Option<u64>,
    since: Option<u64>,
    stage: Stage,
    /// The lines that it may still ask while it is a stranger.
    lines: Pail,
    /// Whether its first line, which wasn't begun yet, may be read.
    has_turn: bool,
    /// How many bytes of a payload are left of what was lent to it.
    lent: u64,
    /// The time limit that the socket has.
    limit: u64,
}

impl Account {
    /// Of a connection that was just accepted.
    fn new(now: u64) -> Account {
        Account {
            begun: now,
            rested: Some(now),
            since: None,
            stage: Stage::Rest,
            lines: own_lines(),
            has_turn: false,
            lent: 0,
            limit: 0,
        }
    }

    /// Takes the turn that it waited for before its first byte was read, and returns whether it had one.
    fn take_turn(&mut self) -> bool {
        let has_turn = self.has_turn;
        self.has_turn = false;
        has_turn
    }

    /// Notes that its line was answered: the next byte begins a line.
    fn note_answer(&mut self) {
        self.stage = Stage::Rest;
        self.rested = None;
        self.since = None;
    }

    /// Notes a byte that was read.
    fn note_byte(&mut self, byte: u8) {
        let next = self.stage.after(byte);
        if self.stage.is_line() != next.is_line() {
            self.since = None;
        }
        self.stage = next;
    }

    /// Where the connection is at this time.
    fn visit(&mut self, is_stranger: bool, now: u64) -> Visit {
        Visit {
            is_stranger,
            begun: self.begun,
            rested: *self.rested.get_or_insert(now),
            since: *self.since.get_or_insert(now),
            stage: self.stage,
        }
    }
}

/// The reader of a connection. With limits it fails once the connection is at one of them.
pub struct Intake<'s, 'a, R: Wait + Clock> {
    rt: &'a R,
    stream: &'s TcpStream,
    input: BufReader<&'s TcpStream>,
    watch: &'s Watch,
    notice: &'s Notice,
    /// What strangers may take together, if that is limited.
    rations: Option<&'a Rations>,
    account: Account,
    /// How many bytes of the buffer are of a user's payload, and were counted already.
    counted: usize,
}

impl<'s, 'a, R: Wait + Clock> Drop for Intake<'s, 'a, R> {
    fn drop(self) {
        let Intake {
            rt: _,
            stream: _,
            input,
            watch: _,
            notice: _,
            rations: _,
            account: _,
            counted: _,
        } = self;
        drop(input);
    }
}

impl<'s, 'a, R: Wait + Clock> Intake<'s, 'a, R> {
    /// The reader of a connection that was just accepted. Without rations it has no limits but those of its socket.
    ///
    /// # Errors
    /// If there is no room for its buffer, or the clock can't be read.
    pub fn new(
        rt: &'a R,
        alloc: Global,
        arrival: &'s Arrival,
        rations: Option<&'a Rations>,
    ) -> io::Result<Intake<'s, 'a, R>> {
        let account = Account::new(now(rt)?);
        let stream = &arrival.stream;
        let input = BufReader::new(alloc, stream)?;
        Ok(Intake {
            rt,
            stream,
            input,
            watch: &arrival.watch,
            notice: &*arrival.notice,
            rations,
            account,
            counted: 0,
        })
    }

    /// Waits for the first byte, and until the first line may be read. It returns whether a line begins. The byte isn't taken yet.
    pub fn begins(&mut self) -> bool {
        self.has_byte() && self.await_first().is_ok()
    }

    /// Waits until the first line may be read.
    fn await_first(&mut self) -> io::Result<()> {
        if let Some(rations) = self.rations {
            self.await_turn(rations)?;
            self.account.has_turn = true;
        }
        Ok(())
    }

    /// Waits for the first byte, and returns whether one came.
    fn has_byte(&mut self) -> bool {
        if self.set_limit_within(self.rations).is_err() {
            return false;
        }
        for _ in 0..TRIES {
            match self.input.fill_buf() {
                Ok(bytes) => return !bytes.is_empty(),
                Err(error) if error.kind() == ErrorKind::Interrupted => {}
                Err(_) => return false,
            }
        }
        false
    }

    /// Gives the socket the time that the next byte may take, if that is limited.
    fn set_limit_within(&mut self, rations: Option<&Rations>) -> io::Result<()> {
        match rations {
            Some(rations) => self.set_limit(rations),
            None => Ok(()),
        }
    }

    /// Ends the connection at a limit.
    fn end(&self, limit: Limit) -> io::Error {
        self.watch.note_limit(self.rt, limit);
        io::Error::from(ErrorKind::TimedOut)
    }

    /// Gives the socket the time that the next byte may take.
    fn set_limit(&mut self, rations: &Rations) -> io::Result<()> {
        let now = now(self.rt)?;
        let visit = self.account.visit(self.watch.is_stranger(), now);
        let patience = visit.patience(rations.times, now);
        if patience == 0 {
            return Err(self.end(Limit::Time));
        }
        if patience != self.account.limit {
            self.stream
                .set_read_timeout(Some(Duration::from_millis(patience)))?;
            self.account.limit = patience;
        }
        Ok(())
    }

    /// Waits until a stranger's line may be read. One that has to leave its place takes no turn.
    fn await_turn(&mut self, rations: &Rations) -> io::Result<()> {
        if self.account.take_turn() {
            return Ok(());
        }
        for _ in self.rt.forever() {
            if self.notice.is_given(self.rt) {
                return Err(io::Error::from(ErrorKind::ConnectionAborted));
            }
            let now = now(self.rt)?;
            let wait = rations.take_line(self.rt, &mut self.account.lines, now);
            if wait == 0 {
                return Ok(());
            }
            if now.saturating_sub(self.account.begun) >= rations.times.login {
                return Err(self.end(Limit::Time));
            }
            self.notice.wait(self.rt, wait.min(STEP));
        }
        unreachable!()
    }

    /// Sees to it that a payload's byte may be read. That of a stranger is taken out of what was lent to it, and that of a user is free, as long as the user
    /// may send payloads.
    fn pay_byte(&mut self, rations: &Rations) -> io::Result<()> {
        if !self.watch.is_stranger() {
            return match self.watch.is_spent() {
                true => Err(self.end(Limit::Memory)),
                false => Ok(()),
            };
        }
        if self.account.lent == 0 {
            self.account.lent = rations.lend(self.rt, LOAN);
        }
        match self.account.lent.checked_sub(1) {
            Some(lent) => {
                self.account.lent = lent;
                Ok(())
            }
            None => Err(self.end(Limit::Memory)),
        }
    }

    /// Reads a byte within the limits.
    fn read_byte(&mut self, rations: &Rations, buffer: &mut [u8]) -> io::Result<usize>
        ensures { ReadsAtMost result buffer.new }
    {
        if self.watch.take_answer() {
            self.account.note_answer();
        }
        self.counted = 0;
        if self.account.stage.is_payload() {
            self.pay_byte(rations)?;
        }
        if self.input.buffer().is_empty() {
            self.set_limit(rations)?;
        }
        let most = buffer.len().min(1);
        let count = match self.input.read(&mut buffer[..most]) {
            Ok(count) => count,
            Err(error) if is_late(&error) => return Err(self.end(Limit::Time)),
            Err(error) => return Err(error),
        };
        if count == 1 {
            if self.account.stage.is_rest() && self.watch.is_stranger() {
                self.await_turn(rations)?;
            }
            self.account.note_byte(buffer[0]);
            self.count_ahead();
        }
        Ok(count)
    }

    /// Counts the bytes of a user's payload that are in the buffer already.
    fn count_ahead(&mut self) {
        let is_user = !self.watch.is_stranger() && !self.watch.is_spent();
        if is_user && self.account.stage.is_payload() {
            self.counted = self.input.buffer().len();
            self.account.stage = self.account.stage.with(self.counted as u64);
        }
    }

    /// Whether the bytes of the buffer need no look at the limits.
    #[inline(always)]
    fn is_free(&self) -> bool {
        match self.rations {
            Some(_) => self.counted > 0 && !self.watch.is_answered(),
            None => true,
        }
    }

    /// Takes the next byte of the buffer, if it has one.
    #[inline(always)]
    fn next_buffered(&mut self) -> Option<u8> {
        let byte = *self.input.buffer().first()?;
        self.input.consume(1);
        self.counted = self.counted.saturating_sub(1);
        Some(byte)
    }

    /// Reads the first byte that isn't free.
    fn read_on(&mut self, buffer: &mut [u8]) -> io::Result<usize>
        ensures { ReadsAtMost result buffer.new }
    {
        match self.rations {
            Some(rations) => self.read_byte(rations, buffer),
            None => self.input.read(buffer),
        }
    }
}

impl<'s, 'a, R: Wait + Clock> Read for Intake<'s, 'a, R> {
    /// Reads a byte, or more if there are no limits.
    #[inline(always)]
    fn read(&mut self, buffer: &mut [u8]) -> io::Result<usize> {
        if !self.is_free() {
            return self.read_on(buffer);
        }
        let Some(place) = buffer.first_mut() else {
            return Ok(0);
        };
        match self.next_buffered() {
            Some(byte) => {
                *place = byte;
                Ok(1)
            }
            None => self.read_on(buffer),
        }
    }
}
