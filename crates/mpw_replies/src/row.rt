//! The result of a request's decision table: what it lists or changes, or the denial or refusal of the first test that fails.
ghost use Rattle.std.specs.Prelude.{◌≡◌, IfErr, option_map};
ghost use Rattle.mpw_replies.specs.Rows.{Answers, ended_by, needed};
ghost use Rattle.mpw_replies.specs.declared.row.Ending.{Ending as AnyEnding};
ghost use Rattle.mpw_replies.specs.declared.row.Fault.TheVariants.{Memory};

use crate::{Lines, Reply};
use mpw_trail::{Code, Denial};
use std::alloc::AllocError;

/// What the decision table of a request gives if all its tests pass.
#[derive(Drop)]
pub enum Done<P> {
    /// The reply has these lines, and nothing changes.
    Lists(Lines),
    /// This part of the desk changes, and the reply has these lines.
    Changes { part: P, lines: Lines },
}

/// The first test that fails ends the table: with a denial or a refusal.
#[derive(Drop)]
pub enum Ending {
    /// What the session lacks, or why its user may not sign.
    Denied(Denial),
    /// Any other reason, by its code.
    Refused(Code),
}

impl Ending {
    /// Its reply. It takes no memory.
    pub fn reply(self) -> Reply
        ensures { result ≡ ended_by self }
    {
        match self {
            Ending::Denied(why) => Reply::Denied(why),
            Ending::Refused(why) => Reply::Refused(why),
        }
    }
}

/// What may end the decision tables of a group of requests.
pub trait Ends {
    ghost ending: { Self → AnyEnding };

    /// As a denial or a refusal. It takes no memory.
    fn ending(self) -> Ending
        ensures { result ≡ ending self };
}

impl Ends for Code {
    ghost use Rattle.mpw_replies.specs.declared.row.Ending.TheVariants.{Refused};

    ghost ending = { λ code. Refused code };

    fn ending(self) -> Ending {
        Ending::Refused(self)
    }
}

impl Ends for Ending {
    ghost ending = { λ e. e };

    fn ending(self) -> Ending {
        self
    }
}

/// Why a decision table gives no value. `E` is what may end the table.
#[derive(Drop)]
pub enum Fault<E> {
    /// A test failed.
    Told(E),
    /// Memory ran out. There is no reply.
    Memory,
}

impl<E> From<AllocError> for Fault<E> {
    ghost from_gives = { λ _ fault. fault ≡ Memory };

    fn from(_error: AllocError) -> Fault<E> {
        Fault::Memory
    }
}

/// The value, which must be there.
///
/// # Errors
/// That ending if there is no value.
pub fn need<T, E: Drop>(value: Option<&T>, ending: E) -> Result<&T, Fault<E>>
    ensures row { Answers (λ x. x.now) result (needed ending (option_map (λ x. x.now) value.entry)) }
    ensures told { IfErr result (λ fault. fault ≡ Fault.Told ending) }
{
    match value {
        Some(value) => Ok(value),
        None => Err(Fault::Told(ending)),
    }
}
