//! Registers in files in memory, of which calls fail.
//!
//! A function that names the type of the store costs about a minute in a proof, and any other a few
//! seconds. So it stands in [`over_files`] alone, over any disk, and is handed what to do as a
//! [`FileTask`]; and the disk stands in [`files_of`] and [`Lab::try_out`].
ghost use Rattle.std.specs.Prelude.{◌≡◌, false, IfOk, IsTrue};
ghost use Rattle.sqlite_disk.specs.Memory.{memory_is_usable};

use crate::contents::{Contents, Stopped};
use register_desk::{Desk, OpenRefusal};
use sqlite::{Alter, Connection, Files, Options};
use sqlite_disk::{Crash, Disk, Memory};
use std::alloc::Global;
use std::test::Fail;
use test_desk_trials::TriedDesk;
use test_faulty_devices::{Counter, Plan, Planned};

/// The files of a register that have the calls that fail.
#[derive(Clone, Copy, Debug, PartialEq, Eq)]
pub enum FaultPlace {
    Log,
    Database,
    /// Both: their calls are counted together, and they stop together.
    Machine,
}

/// Which calls of which files fail.
#[derive(Clone, Copy, Debug, PartialEq, Eq)]
pub struct Fault {
    pub place: FaultPlace,
    pub plan: Plan,
}

/// No call fails.
pub const HONEST: Fault = Fault {
    place: FaultPlace::Machine,
    plan: Plan::Honest,
};

impl Fault {
    /// The same with this many calls before the first that fails.
    pub fn at(self, before: u64) -> Fault {
        Fault {
            place: self.place,
            plan: self.plan.at(before),
        }
    }

    /// The plan of the log, and that of the database file.
    fn plans(self) -> (Plan, Plan) {
        match self.place {
            FaultPlace::Log => (self.plan, Plan::Honest),
            FaultPlace::Database => (Plan::Honest, self.plan),
            FaultPlace::Machine => (self.plan, self.plan),
        }
    }
}

/// What is left of files whose calls failed.
#[derive(Drop)]
pub struct Left {
    pub stopped: Stopped,
    /// Whether a call failed.
    pub has_failed: bool,
    /// How many calls the fault counted.
    pub calls: u64,
}

/// What is done with a connection to files of which calls fail.
pub trait FileTask {
    type Outcome: Drop;

    /// Does it, and gives the store back, whatever came of it.
    fn perform<S: Alter + Drop>(
        &self,
        alloc: Global,
        connection: Connection<S>,
    ) -> Result<(S, Self::Outcome), Fail>
        requires { connection.in_transaction ≡ false };
}

/// What is done over a register in such files.
pub trait DeskTask {
    type Outcome: Drop;

    /// Does it over the register's desk.
    fn perform<D: TriedDesk>(&self, alloc: Global, desk: &mut D) -> Result<Self::Outcome, Fail>;
}

/// How a desk is come by.
#[derive(Clone, Copy)]
pub enum Entry {
    /// A register is made.
    Creation,
    /// The register is opened.
    Opening,
    /// The register of the first version is opened, and so taken to this program's.
    Migration,
}

/// Why there is no desk.
#[derive(Clone, Copy, PartialEq, Eq)]
pub enum NoDesk {
    /// The files are no database, or a call of theirs failed.
    NoConnection,
    /// No register was made or opened.
    Refused(OpenRefusal),
}

/// The store of a connection. It has no clause, as none of the functions over any store here has.
fn store_of<S: Alter + Drop>(connection: Connection<S>) -> S {
    connection.into_store()
}

/// The desk, or the store and why there is no desk.
fn enter<S: Alter + Drop>(
    alloc: Global,
    entry: Entry,
    connection: Connection<S>,
) -> Result<Desk<S>, (S, OpenRefusal)>
    requires { connection.in_transaction ≡ false }
{
    let entered = match entry {
        Entry::Creation => Desk::create(alloc, connection),
        Entry::Opening | Entry::Migration => Desk::open(alloc, connection),
    };
    match entered {
        Ok(desk) => Ok(desk),
        Err(unopened) => {
            let refusal = unopened.refusal();
            Err((store_of(unopened.into_connection()), refusal))
        }
    }
}

/// Makes or opens the register and does it over the desk.
#[derive(Drop)]
struct OverDesk<'a, T> {
    entry: Entry,
    task: &'a T,
}

impl<T: DeskTask> FileTask for OverDesk<'_, T> {
    type Outcome = Result<T::Outcome, OpenRefusal>;

    fn perform<S: Alter + Drop>(
        &self,
        alloc: Global,
        connection: Connection<S>,
    ) -> Result<(S, Result<T::Outcome, OpenRefusal>), Fail> {
        match enter(alloc, self.entry, connection) {
            Ok(mut desk) => {
                let outcome = self.task.perform(alloc, &mut desk)?;
                Ok((store_of(desk.close().0), Ok(outcome)))
            }
            Err((store, refusal)) => Ok((store, Err(refusal))),
        }
    }
}

/// Nothing is done over the desk.
pub struct Nothing;

impl DeskTask for Nothing {
    type Outcome = ();

    fn perform<D: TriedDesk>(&self, _alloc: Global, _desk: &mut D) -> Result<(), Fail> {
        Ok(())
    }
}

/// Where tasks are done.
#[derive(Clone, Copy)]
pub struct Lab {
    pub alloc: Global,
    /// How many written pages are kept in memory before they go to the log.
    spill_pages: usize,
}

/// Few pages are kept in memory, so that a look at another one reads a file. Each transaction but
/// the first copies into the database file what the one before it wrote, so that this file is
/// written too.
fn options(spill_pages: usize) -> Options {
    Options {
        cache_pages: 4,
        spill_pages,
        checkpoint_frames: 1,
        seed: 7,
    }
}

/// A file with these bytes, all synced.
fn file_of(alloc: Global, bytes: &[u8]) -> Result<Memory, Fail>
    ensures { IfOk result (λ file. IsTrue (memory_is_usable file)) }
{
    let mut file = Memory::new(alloc);
    file.write_at(0, bytes)?;
    file.sync()?;
    Ok(file)
}

/// Files with these contents whose calls fail so.
fn files_of(
    alloc: Global,
    contents: &Contents,
    fault: Fault,
) -> Result<Files<Planned<Memory>>, Fail>
    ensures log { IfOk result (λ files.
        IsTrue (⟦<Planned<Memory> as Disk>⟧.is_usable files.log)) }
    ensures db { IfOk result (λ files.
        IsTrue (⟦<Planned<Memory> as Disk>⟧.is_usable files.db)) }
{
    let (of_log, of_database) = fault.plans();
    let counter = Counter::new(alloc)?;
    let log = file_of(alloc, &contents.log)?;
    let db = file_of(alloc, &contents.database)?;
    Ok(Files {
        log: Planned::new(log, of_log, counter.share()?),
        db: Planned::new(db, of_database, counter),
    })
}

fn left_of(alloc: Global, files: Files<Planned<Memory>>) -> Result<Left, Fail> {
    let Files { log, db } = files;
    let has_failed = log.has_failed() || db.has_failed();
    let calls = log.calls();
    let (mut log, mut db) = (log.into_inner(), db.into_inner());
    let written = Contents::of(alloc, log.bytes(), db.bytes())?;
    log.crash();
    db.crash();
    let synced = Contents::of(alloc, log.bytes(), db.bytes())?;
    Ok(Left {
        stopped: Stopped { written, synced },
        has_failed,
        calls,
    })
}

/// Does it over the files, and gives these back; `None` where the connection was refused.
fn over_files<D: Disk + Drop, T: FileTask>(
    alloc: Global,
    files: Files<D>,
    options: Options,
    task: &T,
) -> Result<(Option<T::Outcome>, Files<D>), Fail>
    requires log { IsTrue (D.Disk.is_usable files.log) }
    requires db { IsTrue (D.Disk.is_usable files.db) }
{
    match Connection::open_files(alloc, files, options) {
        Ok(connection) => {
            let (store, outcome) = task.perform(alloc, connection)?;
            Ok((Some(outcome), store.close()))
        }
        Err((_, left)) => Ok((None, left.into_files())),
    }
}

impl Lab {
    /// A lab whose requests keep what they write in memory until they are committed.
    pub fn new(alloc: Global) -> Lab {
        Lab {
            alloc,
            spill_pages: 2000,
        }
    }

    /// A lab whose requests write to the log before they are committed, since they change more
    /// pages than are kept.
    pub fn with_small_cache(alloc: Global) -> Lab {
        Lab {
            alloc,
            spill_pages: 2,
        }
    }

    /// Does it over copies of the files; `None` where the connection was refused.
    pub fn try_out<T: FileTask>(
        &self,
        files: &Contents,
        fault: Fault,
        task: &T,
    ) -> Result<(Option<T::Outcome>, Left), Fail> {
        let files = files_of(self.alloc, files, fault)?;
        let (outcome, files) = over_files(self.alloc, files, options(self.spill_pages), task)?;
        Ok((outcome, left_of(self.alloc, files)?))
    }

    /// Does it over files of which no call fails. What comes of it, and the files.
    pub fn carry_out<T: FileTask>(
        &self,
        files: &Contents,
        task: &T,
    ) -> Result<(T::Outcome, Contents), Fail> {
        let (outcome, left) = self.try_out(files, HONEST, task)?;
        match outcome {
            Some(outcome) => Ok((outcome, left.stopped.written)),
            None => Err(Fail::from("no connection where no call fails")),
        }
    }

    /// Does it over the desk of the register in copies of the files.
    pub fn try_out_at_desk<T: DeskTask>(
        &self,
        files: &Contents,
        fault: Fault,
        entry: Entry,
        task: &T,
    ) -> Result<(Result<T::Outcome, NoDesk>, Left), Fail> {
        let (outcome, left) = self.try_out(files, fault, &OverDesk { entry, task })?;
        let reached = match outcome {
            Some(Ok(outcome)) => Ok(outcome),
            Some(Err(refusal)) => Err(NoDesk::Refused(refusal)),
            None => Err(NoDesk::NoConnection),
        };
        Ok((reached, left))
    }

    /// Does it over the desk of the register in files of which no call fails. What comes of it, and
    /// the files.
    pub fn carry_out_at_desk<T: DeskTask>(
        &self,
        files: &Contents,
        entry: Entry,
        task: &T,
    ) -> Result<(T::Outcome, Contents), Fail> {
        let (reached, left) = self.try_out_at_desk(files, HONEST, entry, task)?;
        match reached {
            Ok(outcome) => Ok((outcome, left.stopped.written)),
            Err(_) => Err(Fail::from("no desk where no call fails")),
        }
    }
}

static SELECTED: [&str; 7] = [
    "SELECT * FROM meta",
    "SELECT * FROM keys ORDER BY number",
    "SELECT * FROM custodian ORDER BY key_no, name",
    "SELECT * FROM approval ORDER BY key_no, name",
    "SELECT * FROM request ORDER BY caller, number",
    "SELECT * FROM period ORDER BY kind",
    "SELECT * FROM quorum ORDER BY key_no",
];

/// The rows of a query as text; none where it is refused.
fn select<S: Alter>(
    alloc: Global,
    connection: &mut Connection<S>,
    sql: &str,
) -> Result<String, Fail> {
    match connection.query_all(sql, &[]) {
        Ok(rows) => Ok(format!(in alloc; "{rows:?}\n")?),
        Err(_) => Ok(String::new(alloc)),
    }
}

/// All rows of the register after these statements as text, the kept replies among them; empty
/// where none of its tables is there.
fn rows_after<S: Alter>(
    alloc: Global,
    connection: &mut Connection<S>,
    statements: &str,
) -> Result<String, Fail> {
    connection.execute_batch(statements)?;
    let mut rows = String::new(alloc);
    for sql in &SELECTED {
        rows.push_str(select(alloc, connection, sql)?.as_str())?;
    }
    Ok(rows)
}

/// Runs statements, and gives all rows after them.
#[derive(Drop)]
struct Running<'a> {
    statements: &'a str,
}

impl FileTask for Running<'_> {
    type Outcome = String;

    fn perform<S: Alter + Drop>(
        &self,
        alloc: Global,
        mut connection: Connection<S>,
    ) -> Result<(S, String), Fail> {
        let rows = rows_after(alloc, &mut connection, self.statements)?;
        Ok((store_of(connection), rows))
    }
}

impl Lab {
    /// All rows of the register in the files.
    pub fn rows_in(&self, files: &Contents) -> Result<String, Fail> {
        Ok(self.carry_out(files, &Running { statements: "" })?.0)
    }

    /// The files of a database that these statements make.
    pub fn files_by(&self, statements: &str) -> Result<Contents, Fail> {
        Ok(
            self.carry_out(&Contents::none(self.alloc), &Running { statements })?
                .1,
        )
    }

    /// The files of a new register.
    pub fn new_files(&self) -> Result<Contents, Fail> {
        let (_, files) = self.carry_out_at_desk(
            &Contents::none(self.alloc),
            Entry::Creation,
            &Nothing,
        )?;
        Ok(files)
    }
}
