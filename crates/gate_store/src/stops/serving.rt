//! A session that is stopped.
ghost use Rattle.sqlite.specs.Held.{state};
ghost use Rattle.sqlite.specs.State.{HasCleanDisk, Opens};

use crate::stops::disks::{After, Fuses, Outcome, look};
use anyhow::Result;
use gate_events::{Paper, Text};
use mpw_core::Core;
use mpw_geom::Name;
use mpw_requests::digest_of;
use mpw_serve::{Executor, Silent};
use mpw_settings::Officer;
use mpw_stored_desk::{Stopped, serve_store};
use sqlite::{Alter, Connection, Files, Options};
use sqlite_disk::{Fuse, Memory};
use std::alloc::Global;
use std::thread::Threads;

/// Nine requests, each of which changes the desk.
const REQUESTS: &[u8] =
    b"open root abc\nactivate officer\nadduser ann abc\naddrole alpha\nassign ann alpha\ngrant read pad alpha\nclose\nopen ann abc\nactivate alpha\n";

/// The reply to each.
const ACCEPTED: &[u8] = b"OK 0\n";

/// How many rows the session leaves: those of its requests, and that of its end.
const ROWS: usize = 10;

/// How many requests were accepted before the first that wasn't.
fn accepted(replies: &[u8]) -> usize {
    replies
        .chunks(ACCEPTED.len())
        .take_while(|reply| *reply == ACCEPTED)
        .count()
}

/// What a session came to: how many requests were accepted, whether the desk was closed or not opened, and the store.
struct Came<S: Alter> {
    accepted: usize,
    is_stopped: bool,
    conn: Connection<S>,
}

/// Serves the session over a store.
fn serve<S: Alter + Drop>(
    threads: &(impl Threads + Sync),
    alloc: Global,
    conn: Connection<S>,
) -> Result<Came<S>>
    requires { HasCleanDisk (state S.Store conn) → Opens (state S.Store conn) }
{
    let officer = Officer {
        name: Name::read(alloc, b"root")?,
        digest: digest_of(b"abc"),
    };
    let executor = Executor {
        threads,
        alloc,
        progress: Silent,
    };
    let mut reader = Text {
        bytes: REQUESTS,
        at: 0,
        fails_at: usize::MAX,
        failures: 0,
    };
    let mut writer = Paper::new(alloc, usize::MAX);
    let came = serve_store::<S, Core, _, _, _, _>(
        executor,
        conn,
        officer,
        &mut reader,
        &mut writer,
    );
    let replies = writer.into_bytes();
    match came {
        Ok(
            Stopped {
                conn,
                served: _,
                fault,
            },
        ) => Ok(Came {
            accepted: accepted(replies.as_slice()),
            is_stopped: fault.is_some(),
            conn,
        }),
        Err((_, conn)) => Ok(Came {
            accepted: 0,
            is_stopped: true,
            conn,
        }),
    }
}

/// Serves the session over a new store whose files fail, and looks at what it has then.
pub fn stop_session(threads: &(impl Threads + Sync), alloc: Global, fuses: Fuses) -> Result<After> {
    let files = Files {
        log: Fuse::new(Memory::new(alloc), fuses.log),
        db: Fuse::new(Memory::new(alloc), fuses.database),
    };
    let (outcome, committed, files) = match Connection::open_files(alloc, files, Options::new(8)) {
        Ok(conn) => {
            let Came {
                accepted,
                is_stopped,
                conn,
            } = serve(threads, alloc, conn)?;
            let files = conn.into_store().close();
            if is_stopped {
                (Outcome::Stopped, accepted, files)
            } else {
                (Outcome::Whole, ROWS, files)
            }
        }
        Err((_, left)) => (Outcome::Unopened, 0, left.into_files()),
    };
    let (killed, cut_off) = look(alloc, files)?;
    Ok(After {
        outcome,
        committed,
        killed,
        cut_off,
    })
}
