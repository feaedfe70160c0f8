//! What the program does with a script over a store.
ghost use Rattle.std.specs.Prelude.{◌≡◌, Err, IfErr, IfOk, IsSome, IsSomeAnd};
ghost use Rattle.std.specs.Process.{exit_status};
ghost use Rattle.mpw_stored_desk.specs.Reopening.{IsIdle};
ghost use Rattle.mpw_serve.specs.Status.{devices};
ghost use Rattle.mpw_stored_desk.specs.Ending.{EndsAs, EndsOver, EndsOverFile, ExitsWith};
ghost use Rattle.mpw_stored_desk.specs.Status.{end_told, exit_of};
ghost use Rattle.mpw_stored_desk.specs.declared.fault.StoredFault.TheVariants as told;
ghost use Rattle.sqlite.specs.Held.{state};
ghost use Rattle.sqlite.specs.State.{HasCleanDisk};

use crate::fault::{StoredFault, exit_status};
use crate::opening::open_announced;
use crate::serving::{Stopped, serve_store};
use mpw_devices::{Counted, Sink, Source};
use mpw_events::Handler;
use mpw_serve::{End, Executor, Progress};
use mpw_settings::{Officer, Store};
use mpw_store::{FileConnection, FileFault, StoreFault};
use mpw_wire::WireFault;
use sqlite::{Alter, Connection};
use std::alloc::Global;
use std::io::{BufReader, BufWriter, Read, Write};
use std::process::ExitCode;
use std::thread::Threads;

/// How the program ends by the outcome of the connection and of the store.
fn end_told(ended: Result<End, WireFault>, fault: Option<StoreFault>) -> Result<End, StoredFault>
    ensures { result ≡ end_told ended fault }
{
    match (fault, ended) {
        (Some(fault), _) => Err(StoredFault::Closed(fault)),
        (None, Ok(end)) => Ok(end),
        (None, Err(fault)) => Err(StoredFault::Wire(fault)),
    }
}

/// Serves the reader to the writer as a script over a store, which is returned.
fn serve<S, H, T, P, R, W>(
    executor: Executor<'_, T, P>,
    conn: Connection<S>,
    officer: Officer,
    reader: &mut R,
    writer: &mut W,
) -> (Result<End, StoredFault>, Connection<S>)
where
    S: Alter + Drop,
    H: Handler + Drop,
    T: Threads + Sync,
    P: Progress + Drop,
    R: Source,
    W: Sink,
    requires { HasCleanDisk (state S.Store conn) → IsIdle (state S.Store conn) }
    ensures { EndsAs officer (state S.Store conn) (state S.Store result.1) (devices R.remaining R.failures W.contents W.failures W.pending reader.old writer.old) (devices R.remaining R.failures W.contents W.failures W.pending reader.new writer.new) result.0 }
{
    match serve_store::<S, H, T, P, R, W>(executor, conn, officer, reader, writer) {
        Ok(
            Stopped {
                conn,
                served,
                fault,
            },
        ) => (end_told(served.ended, fault), conn),
        Err((fault, conn)) => (Err(fault), conn),
    }
}

/// The exit status of how the program ended. A fault is printed on the standard error.
fn exit(rt: &HostRuntime, ended: &Result<End, StoredFault>) -> ExitCode
    ensures { exit_status result ≡ exit_of ended.now }
{
    if let Err(fault) = ended {
        let _ = eprintln!(rt; "{fault}");
    }
    ExitCode::from(exit_status(ended))
}

/// Serves the reader to the writer as a script of this officer over a store, which is returned. A fault is printed on the standard error.
///
/// The exit status is 0 if the connection ended and each change was stored, 5 if memory ran out for something else than a change, else 3.
pub fn run_script_over_store<S, H, T, P, R, W>(
    rt: &HostRuntime,
    executor: Executor<'_, T, P>,
    store: (Connection<S>, Officer),
    reader: &mut R,
    writer: &mut W,
) -> (ExitCode, Connection<S>)
where
    S: Alter + Drop,
    H: Handler + Drop,
    T: Threads + Sync,
    P: Progress + Drop,
    R: Source,
    W: Sink,
    requires { HasCleanDisk (state S.Store store.0) → IsIdle (state S.Store store.0) }
    ensures { ExitsWith store.1 (state S.Store store.0) (state S.Store result.1) (devices R.remaining R.failures W.contents W.failures W.pending reader.old writer.old) (devices R.remaining R.failures W.contents W.failures W.pending reader.new writer.new) (exit_status result.0) }
{
    let (conn, officer) = store;
    let (ended, conn) = serve::<S, H, T, P, R, W>(executor, conn, officer, reader, writer);
    (exit(rt, &ended), conn)
}

/// Serves the devices as [`run_script_over_store`] does, and drops them.
fn run_between<S, H, T, P, R, W>(
    rt: &HostRuntime,
    executor: Executor<'_, T, P>,
    conn: Connection<S>,
    officer: Officer,
    between: (R, W),
) -> (ExitCode, Connection<S>)
where
    S: Alter + Drop,
    H: Handler + Drop,
    T: Threads + Sync,
    P: Progress + Drop,
    R: Source + Drop,
    W: Sink + Drop,
    requires { HasCleanDisk (state S.Store conn) → IsIdle (state S.Store conn) }
    ensures { EndsOver officer (state S.Store conn) (state S.Store result.1) (devices R.remaining R.failures W.contents W.failures W.pending between.0 between.1) (exit_status result.0) }
{
    let (mut reader, mut writer) = between;
    run_script_over_store::<S, H, T, P, R, W>(
        rt,
        executor,
        (conn, officer),
        &mut reader,
        &mut writer,
    )
}

/// Serves the devices as a script of this officer over a store, if it was opened and there was room for them. The store is returned. A fault is
/// printed on the standard error, and the exit status is the fault's, or as of [`run_script_over_store`].
pub fn run_opened<S, H, T, P, R, W>(
    rt: &HostRuntime,
    executor: Executor<'_, T, P>,
    store: Result<Connection<S>, FileFault>,
    officer: Officer,
    io: Result<(R, W), WireFault>,
) -> (ExitCode, Option<Connection<S>>)
where
    S: Alter + Drop,
    H: Handler + Drop,
    T: Threads + Sync,
    P: Progress + Drop,
    R: Source + Drop,
    W: Sink + Drop,
    requires { IfOk store (λ conn. HasCleanDisk (state S.Store conn) → IsIdle (state S.Store conn)) }
    ensures unopened { IfErr store (λ fault. exit_status result.0 ≡ exit_of (Err (told.File fault))) }
    ensures unbuffered { IfOk store (λ _. IfErr io (λ fault. exit_status result.0 ≡ exit_of (Err (told.Wire fault)))) }
    ensures served { IfOk store (λ conn. IfOk io (λ d. IsSomeAnd result.1 (λ left. EndsOver officer (state S.Store conn) (state S.Store left) (devices R.remaining R.failures W.contents W.failures W.pending d.0 d.1) (exit_status result.0)))) }
    ensures back { IfOk store (λ _. IsSome result.1) }
{
    match store {
        Ok(conn) => match io {
            Ok(between) => {
                let (status, conn) = run_between::<S, H, T, P, R, W>(
                    rt, executor, conn, officer, between,
                );
                (status, Some(conn))
            }
            Err(fault) => (exit(rt, &Err(StoredFault::Wire(fault))), Some(conn)),
        },
        Err(fault) => (exit(rt, &Err(StoredFault::File(fault))), None),
    }
}

/// The input and the output, buffered and counted.
fn buffered<R: Read + Drop, W: Write + Drop>(
    alloc: Global,
    input: R,
    output: W,
) -> Result<(Counted<BufReader<R>>, Counted<BufWriter<W>>), WireFault>
    ensures reads { IfOk result (λ d. d.0.failures ≡ 0) }
    ensures writes { IfOk result (λ d. d.1.failures ≡ 0) }
    ensures memory { IfErr result (λ fault. fault ≡ WireFault.Memory) }
{
    let Ok(input) = BufReader::new(alloc, input) else {
        return Err(WireFault::Memory);
    };
    let Ok(output) = BufWriter::new(alloc, output) else {
        return Err(WireFault::Memory);
    };
    Ok((Counted::new(input), Counted::new(output)))
}

/// Closes the file of a store. If that fails, its rows are in the log next to it, and the standard error gets a warning.
fn close(rt: &HostRuntime, conn: FileConnection) {
    if let Err(error) = conn.close() {
        let _ = eprintln!(rt;
            "warning: the store: it was left with its log, which belongs to it: {error}"
        );
    }
}

/// Opens the file of a store as the settings say, prints on the standard error how many rows it has, buffers the input and the output, and goes on as
/// [`run_opened`], whose exit status is returned. The store is closed then.
pub fn run_stored_script<H, T, P, R, W>(
    rt: &HostRuntime,
    executor: Executor<'_, T, P>,
    store: (&Store, Officer),
    input: R,
    output: W,
) -> ExitCode
where
    H: Handler + Drop,
    T: Threads + Sync,
    P: Progress + Drop,
    R: Read + Drop,
    W: Write + Drop,
    ensures { EndsOverFile (exit_status result) }
{
    let (settings, officer) = store;
    let store = open_announced(rt, settings);
    let io = buffered(rt.alloc(), input, output);
    let (status, conn) = run_opened::<_, H, T, P, _, _>(rt, executor, store, officer, io);
    if let Some(conn) = conn {
        close(rt, conn);
    }
    status
}
