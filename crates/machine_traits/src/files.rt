//! The files of a register, whoever opens them.
ghost use Rattle.std.specs.Prelude.{◌≡◌, ℕ, List, false, IfOk, IfErr, IsTrue};
ghost use Rattle.sqlite.specs.Held.{AreDatabases, state};
ghost use Rattle.sqlite.specs.{Files.HoldsDatabase, Recovery.Image, State.HasCleanDisk, Tree.Trees};
ghost use Rattle.machine_traits.specs.{Closing.ClosesFiles, Closing.StandsAs, Found.ShowsFiles};

use sqlite::{Alter, Connection};

/// What became of the log as the files were closed.
#[derive(Clone, Copy, Drop)]
pub enum LogCopy {
    /// It was copied into the database file.
    Copied,
    /// It was not. The files show what they showed.
    Kept,
    /// A fault shut the store while the log was copied.
    Broken,
}

/// The files that a call left.
#[derive(Drop)]
pub struct Closed<S> {
    /// The store that they were opened as, which nobody uses any more.
    pub store: S,
    pub log: LogCopy,
}

/// What becomes of an opening where there is no file.
#[derive(Clone, Copy, Drop)]
pub enum Absent {
    /// One is made.
    Made,
    /// The opening fails.
    Refused,
}

/// Why files could not be opened.
#[derive(Clone, Copy, Drop)]
pub enum ConnectError {
    /// Memory gave out.
    Memory,
    /// The file cannot be opened, or is no database, or is not there and is not to be made.
    Store,
}

/// Files that could not be opened.
#[derive(Drop)]
pub struct NotConnected<U> {
    pub error: ConnectError,
    /// What is left of them.
    pub failed: U,
}

/// How the files of a register are opened and closed: the database file, and its log beside it.
pub trait Files {
    /// The store that they are opened as.
    type Opened: Alter + Drop;

    /// What is left of them where they could not be opened. Nobody else makes one, so none is there
    /// but of a [`connect`](Files::connect) that failed.
    type Failed: Drop;

    /// What the file of this path and its log hold before they are opened.
    ghost start: { Self → List ℕ → Image };

    /// What a stop may leave in them.
    ghost may_leave: { Self.Opened → Image → Type 0 };

    /// What a stop may leave in them where they could not be opened.
    ghost may_leave_failed: { Self.Failed → Image → Type 0 };

    /// A connection to the file.
    ///
    /// # Errors
    /// As [`ConnectError`] has them.
    fn connect(
        self,
        file: &str,
        absent: Absent,
    ) -> Result<Connection<Self::Opened>, NotConnected<Self::Failed>>
        // The connection shows what the files hold.
        ensures shows { IfOk result (λ connection. HasCleanDisk (state Self.Opened.Store connection)
            → ShowsFiles (start self file.now) (state Self.Opened.Store connection)) }
        ensures idle { IfOk result (λ connection. connection.in_transaction ≡ false) }
        // What failed left what the files held.
        ensures stands { IfErr result (λ it. (left : Image) → may_leave_failed it.failed left
            → ∥ StandsAs (start self file.now) left ∥₁) };

    /// Copies the log into the database file. What cannot be copied stays in the log, where the
    /// next opening finds it.
    fn close(store: Self::Opened) -> Closed<Self::Opened>
        ensures { ClosesFiles Self.Opened.Store may_leave store result };

    /// An opening of what a stop leaves finds a database that the store may come back as.
    ghost opens_again: { (it : Self.Opened) → IsTrue (Self.Opened.Store.view it).is_numbered
        → AreDatabases (Self.Opened.Store.recovers it) → (left : Image) → may_leave it left
        → ∥ ((db : Trees) × (Self.Opened.Store.recovers it db) × HoldsDatabase left db) ∥₁ };
}
