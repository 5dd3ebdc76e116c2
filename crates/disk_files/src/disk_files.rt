//! The files of a register on the machine's disk.
ghost use Rattle.std.specs.Prelude.{◌≡◌};
ghost use Rattle.sqlite.specs.{WalFiles.image_at, Files.over_files};
ghost use Rattle.sqlite_store.specs.FileStore as files;
ghost use Rattle.machine_traits.specs.Closing.{ClosesFiles};

use crate::opening::{FailedFiles, open_files};
use machine_traits::{Absent, Closed, ConnectError, Files, LogCopy, NotConnected};
use sqlite::{Connection, FileFrom, FileStore, Start};
use sqlite_disk::Disk;
use sqlite_trees::store::Store;

/// The register's files as the kit opens them. `S` says what they hold at first, and what a torn
/// write may leave.
#[derive(Drop)]
pub struct DiskFiles<'a, S: Start> {
    rt: &'a HostRuntime,
    start: S,
}

impl<'a, S: Start> DiskFiles<'a, S> {
    /// The files that begin so.
    pub fn new(rt: &'a HostRuntime, start: S) -> Self {
        DiskFiles { rt, start }
    }
}

/// Copies the log into the database file, if that can be done.
fn checkpoint_store<D: Disk + Drop>(mut store: FileStore<D>) -> Closed<FileStore<D>>
    ensures { ClosesFiles over_files (λ left. (files.state left).may_leave) store result }
{
    if store.is_broken() {
        return Closed {
            store,
            log: LogCopy::Kept,
        };
    }
    // Nothing is open, but only this store's rollback says of its log that it has no more than
    // what was committed.
    store.rollback();
    match store.checkpoint() {
        Ok(()) => Closed {
            store,
            log: LogCopy::Copied,
        },
        Err(_) if store.is_broken() => Closed {
            store,
            log: LogCopy::Broken,
        },
        Err(_) => Closed {
            store,
            log: LogCopy::Kept,
        },
    }
}

impl<'a, S: Start> Files for DiskFiles<'a, S> {
    ghost use Rattle.sqlite.proofs.Theorems.{opens_again};
    ghost use Rattle.disk_files.specs.LeftOver.{MayBeLeft};

    type Opened = FileStore<FileFrom<S>>;

    type Failed = FailedFiles<FileFrom<S>>;

    ghost start = { λ files file. image_at S.Start };

    ghost may_leave = { λ left. (files.state left).may_leave };

    ghost may_leave_failed = { λ it. MayBeLeft (image_at S.Start) it.left };

    ghost opens_again = { λ it. opens_again it };

    fn connect(
        self,
        file: &str,
        absent: Absent,
    ) -> Result<Connection<FileStore<FileFrom<S>>>, NotConnected<FailedFiles<FileFrom<S>>>> {
        if let Absent::Refused = absent {
            if let Some(failed) = FailedFiles::of_no_file(self.rt, file) {
                return Err(NotConnected {
                    error: ConnectError::Store,
                    failed,
                });
            }
        }
        open_files(self.rt, file, self.start)
    }

    fn close(store: FileStore<FileFrom<S>>) -> Closed<FileStore<FileFrom<S>>>
        ensures { ClosesFiles over_files (λ left. (files.state left).may_leave) store result }
    {
        checkpoint_store(store)
    }
}
