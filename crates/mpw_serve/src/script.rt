//! A script: one connection over a new desk.
ghost use Rattle.std.specs.Prelude.{◌≡◌};
ghost use Rattle.mpw_serve.specs.Script.{ServesScript, fault_told};
ghost use Rattle.mpw_wire.specs.Reading.{read_failures};
ghost use Rattle.mpw_serve.specs.Serving.{LeavesNothingPending, write_failures};

use crate::executor::Executor;
use crate::own_desk::{OwnDesk, serve_core};
use crate::progress::Progress;
use crate::serve::Served;
use mpw_devices::{Sink, Source};
use mpw_events::{Handler, NoKeeper};
use mpw_settings::Officer;
use std::alloc::AllocError;
use std::thread::Threads;

/// The number of a script's connection.
const CONNECTION: u32 = 1;

/// Serves the reader to the writer as connection 1 of a new desk with this officer. The store writer stores nothing. The executor executes
/// the runs. [`serve_core`] serves a script over another desk, with a store writer or a connection of its own.
///
/// # Errors
/// `AllocError` if there is no memory for the new desk. Then nothing is read or written.
pub fn serve_script<H: Handler + Drop, T: Threads + Sync, P: Progress + Drop, R: Source, W: Sink>(
    executor: Executor<'_, T, P>,
    officer: Officer,
    reader: &mut R,
    writer: &mut W,
) -> Result<Served, AllocError>
    ensures served { ServesScript officer (R.remaining reader.old) (R.remaining reader.new) (W.contents writer.old) (W.contents writer.new) result }
    ensures reader { R.failures reader.new ≡ read_failures (fault_told result) (R.failures reader.old) }
    ensures writer { W.failures writer.new ≡ write_failures (fault_told result) (W.failures writer.old) }
    ensures handed { LeavesNothingPending (fault_told result) (W.pending writer.old) (W.pending writer.new) }
{
    let Officer { name, digest } = officer;
    let core = H::new_boxed(executor.alloc, name, digest)?;
    let mut own = OwnDesk::new(core, NoKeeper, CONNECTION, executor);
    let served = serve_core(&mut own, reader, writer);
    let (_core, _keeper) = own.into_parts();
    Ok(served)
}
