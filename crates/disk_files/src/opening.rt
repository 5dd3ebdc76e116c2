//! Opening the register's files, and what is left of them where that fails: whoever opened them, or
//! saw that there are none, tells it, and nothing else of the crate makes a [`FailedFiles`].
ghost use Rattle.std.specs.Prelude.{◌≡◌, ◌↔◌, IfErr, IfOk, IfSome, None, false};
ghost use Rattle.sqlite.specs.{Files.over_files, Held.state, Recovery.Image, State.HasCleanDisk};
ghost use Rattle.sqlite.specs.WalFiles.{image_at};
ghost use Rattle.machine_traits.specs.{Closing.StandsAs, Found.ShowsFiles};
ghost use Rattle.disk_files.specs.LeftOver.{MayBeLeft};

use machine_traits::{ConnectError, NotConnected};
use sqlite::{Connection, Error, ErrorCode, FileFrom, FileStore, Leftover, Start};
use sqlite_disk::Disk;
use std::fs;

/// What is left of files on the disk that could not be opened.
#[derive(Drop)]
pub struct FailedFiles<D: Disk> {
    /// Where they were opened before it failed.
    left: Option<Leftover<D>>,
}

impl<D: Disk> FailedFiles<D> {
    /// What is left where there is no file. Where the system does not tell there is one: then the
    /// opening does.
    pub(crate) fn of_no_file(rt: &HostRuntime, file: &str) -> Option<Self>
        ensures { IfSome result (λ it. it.left ≡ None) }
    {
        if fs::exists(rt, file).unwrap_or(true) {
            return None;
        }
        Some(FailedFiles { left: None })
    }
}

/// Why an opening ended with this error: for want of memory exactly where the error says so.
fn connect_error(error: &Error) -> ConnectError
    ensures { (result ≡ ConnectError.Memory)
        ↔ (error.now ≡ Error.SqliteFailure ErrorCode.OutOfMemory) }
{
    match error {
        Error::SqliteFailure(ErrorCode::OutOfMemory) => ConnectError::Memory,
        _ => ConnectError::Store,
    }
}

/// A connection to the file, which is made where there is none.
pub(crate) fn open_files<S: Start>(
    rt: &HostRuntime,
    file: &str,
    start: S,
) -> Result<Connection<FileStore<FileFrom<S>>>, NotConnected<FailedFiles<FileFrom<S>>>>
    ensures shows { IfOk result (λ connection. HasCleanDisk (state over_files connection)
        → ShowsFiles (image_at S.Start) (state over_files connection)) }
    ensures idle { IfOk result (λ connection. connection.in_transaction ≡ false) }
    ensures stands { IfErr result (λ it. (left : Image)
        → MayBeLeft (image_at S.Start) it.failed.left left
        → ∥ StandsAs (image_at S.Start) left ∥₁) }
{
    match Connection::open_from(rt, file, false, start) {
        Ok(connection) => Ok(connection),
        Err((error, left)) => Err(NotConnected {
            error: connect_error(&error),
            failed: FailedFiles { left },
        }),
    }
}
