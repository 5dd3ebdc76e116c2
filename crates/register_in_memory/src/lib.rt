//! A run over a register in memory.
#![tactic(auto)]

ghost use Rattle.std.specs.Prelude.{◌≡◌, ◌⊎◌, false, IfOk, IfErr};
ghost use Rattle.register_desk.specs.Run.{LeavesReader, LeavesWriter};
ghost use Rattle.register_in_memory.specs.{InMemory.RunsInMemory, Within.RunsNew};
ghost use Rattle.sqlite.specs.Held.{state};

use memory_disk::MemoryDisk;
use register_desk::{Desk, OpenRefusal, Outcome, run};
use sqlite::{Alter, Connection, Files, Options};
use std::alloc::Global;
use std::io::{Read, Write};
use streams::Watched;

/// The log is copied into the database at so many pages: so short a one stays in the processor's
/// cache.
const CHECKPOINT_FRAMES: usize = 200;

/// Makes an empty register in memory and runs over the request lines of `reader` there, as [`run`]
/// does. The register is gone at the end.
///
/// It lies in the pages of files in memory, so that a request costs no more than over a file,
/// however many there were.
///
/// # Errors
/// [`OpenRefusal::Memory`] where memory gave out before the database was there;
/// [`OpenRefusal::Store`] after it, before the register was.
pub fn run_in_memory<R: Read, W: Write>(
    alloc: Global,
    reader: &mut Watched<R>,
    writer: &mut Watched<W>,
) -> Result<Outcome, OpenRefusal>
    requires reader { reader.old.failed ≡ false }
    requires writer { writer.old.failed ≡ false }
    ensures runs { IfOk result (RunsInMemory (R.remaining reader.old.inner)
        (W.contents writer.old.inner) (W.contents writer.new.inner)) }
    ensures reader { IfOk result (LeavesReader R.remaining reader.old reader.new) }
    ensures writer { IfOk result (LeavesWriter W.contents writer.old writer.new) }
    ensures refused { IfErr result (λ refusal.
        (refusal ≡ OpenRefusal.Memory) ⊎ (refusal ≡ OpenRefusal.Store)) }
    ensures untouched { IfErr result (λ _. writer.new ≡ writer.old) }
{
    let files = Files {
        log: MemoryDisk::new(alloc),
        db: MemoryDisk::new(alloc),
    };
    let options = Options {
        checkpoint_frames: CHECKPOINT_FRAMES,
        ..Options::new(0)
    };
    let Ok(connection) = Connection::open_files(alloc, files, options) else {
        return Err(OpenRefusal::Memory);
    };
    run_new(alloc, connection, reader, writer)
}

/// Makes an empty register in the database and runs over the request lines of `reader` there.
///
/// # Errors
/// [`OpenRefusal::Store`] where no register could be made; nothing was read or written then.
fn run_new<S: Alter + Drop, R: Read, W: Write>(
    alloc: Global,
    connection: Connection<S>,
    reader: &mut Watched<R>,
    writer: &mut Watched<W>,
) -> Result<Outcome, OpenRefusal>
    requires idle { connection.in_transaction ≡ false }
    requires reader { reader.old.failed ≡ false }
    requires writer { writer.old.failed ≡ false }
    ensures runs { IfOk result (RunsNew S.Store (state S.Store connection)
        (R.remaining reader.old.inner) (W.contents writer.old.inner)
        (W.contents writer.new.inner)) }
    ensures reader { IfOk result (LeavesReader R.remaining reader.old reader.new) }
    ensures writer { IfOk result (LeavesWriter W.contents writer.old writer.new) }
    ensures refused { IfErr result (λ refusal. refusal ≡ OpenRefusal.Store) }
    ensures untouched { IfErr result (λ _. writer.new ≡ writer.old) }
{
    let Ok(mut desk) = Desk::create(alloc, connection) else {
        return Err(OpenRefusal::Store);
    };
    Ok(run(reader, writer, &mut desk))
}
