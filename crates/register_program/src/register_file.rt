//! The register in a file: the database file, and its log beside it.
ghost use Rattle.std.specs.Prelude.{◌≡◌, false, IfErr, IfOk};
ghost use Rattle.sqlite_trees.specs.View.{IsClean as IsCleanStore};
ghost use Rattle.register_desk.specs.Desk.{IsClean, IsMarkOf};
ghost use Rattle.register_program.specs.FileCalls.{Exports, ImportsRows, MakesFile, OpensFile};
ghost use Rattle.register_program.specs.FileCalls.{Reports, RunsLines, ServesExchanges};
ghost use Rattle.register_program.specs.Ends.{BreaksAs, BreaksNone, EndsImport, EndsRun};
ghost use Rattle.register_program.specs.Ends.{EndsWriting};
ghost use Rattle.register_http.specs.ServedExchanges.{ExplainsEnd, nobody};
ghost use Rattle.register_program.specs.{Closing.ClosesDesk, Within.LeavesAsDesk};

use crate::refused::{Refused, close_connection_into_store};
use machine_traits::{Absent, Closed, Files, Network};
use register_desk::{Desk, DeskMark, Outcome, Watched, run};
use register_http::{Attendance, serve_at};
use register_report::{export, import, rotation};
use register_words::{Bounds, Terms};
use std::alloc::Global;
use std::io::{Read, Write};
use std::time::Clock;

/// A register in a file.
#[derive(Drop)]
pub struct RegisterFile<'a, F> {
    /// Where the file is.
    pub path: &'a str,
    /// What opens it.
    pub files: F,
}

/// What one life of a register in a file came to.
#[derive(Drop)]
pub struct FileLife<S> {
    /// What was done.
    pub outcome: Outcome,
    /// Whether that broke the desk.
    pub mark: DeskMark,
    /// The files as it left them.
    pub files: Closed<S>,
}

/// The files of a register that nobody uses any more, with the log copied into the database file,
/// and whether its desk broke.
fn close_desk<F: Files>(desk: Desk<F::Opened>) -> (Closed<F::Opened>, DeskMark)
    ensures clean { IsCleanStore (F.Opened.Store.view result.0.store)
        → IsClean F.Opened.Store desk }
    // What a stop leaves of the register is what is found in the files, up to their closing and from
    // then on.
    ensures closes { IsCleanStore (F.Opened.Store.view result.0.store)
        → ClosesDesk F.Opened.Store F.may_leave desk result.0
        (LeavesAsDesk F.Opened.Store desk) }
    ensures mark { IsMarkOf result.1 desk }
{
    let (connection, mark) = desk.close();
    (F::close(close_connection_into_store(connection)), mark)
}

/// Makes an empty register in the file, which is made where there is none. Gives the files as it
/// left them.
///
/// # Errors
/// [`OpenRefusal::NotARegister`] where the file has a table of a register; [`OpenRefusal::Store`]
/// where the file cannot be opened, or the database refused; [`OpenRefusal::Memory`] where memory
/// gave out.
pub fn init_file<F: Files>(
    alloc: Global,
    file: RegisterFile<'_, F>,
) -> Result<Closed<F::Opened>, Refused<F::Opened, F::Failed>>
    ensures { MakesFile F.Opened.Store F.may_leave F.may_leave_failed
        (F.start file.entry.files file.entry.path.now) result }
{
    let connection = file.files.connect(file.path, Absent::Made)?;
    let desk = Desk::create(alloc, connection)?;
    let (closed, _) = close_desk::<F>(desk);
    Ok(closed)
}

/// Opens the register in the file. Where there is no file none is made.
///
/// # Errors
/// As [`Desk::open`]; [`OpenRefusal::Store`] also where there is no file, or it cannot be opened,
/// or is no database.
pub fn open_file<F: Files + Drop>(
    alloc: Global,
    file: RegisterFile<'_, F>,
) -> Result<Desk<F::Opened>, Refused<F::Opened, F::Failed>>
    ensures { OpensFile F.Opened.Store F.may_leave F.may_leave_failed
        (F.start file.entry.files file.entry.path.now) result }
{
    let connection = file.files.connect(file.path, Absent::Refused)?;
    let desk = Desk::open(alloc, connection)?;
    Ok(desk)
}

/// Opens the register in the file and runs over the request lines of `reader`.
///
/// # Errors
/// As [`open_file`]; nothing was read or written then.
pub fn run_file<F: Files + Drop, R: Read, W: Write>(
    alloc: Global,
    file: RegisterFile<'_, F>,
    reader: &mut Watched<R>,
    writer: &mut Watched<W>,
) -> Result<FileLife<F::Opened>, Refused<F::Opened, F::Failed>>
    requires reader { reader.old.failed ≡ false }
    requires writer { writer.old.failed ≡ false }
    ensures runs { RunsLines F.Opened.Store F.may_leave F.may_leave_failed
        (F.start file.entry.files file.entry.path.now) (R.remaining reader.old.inner) (W.contents writer.old.inner)
        (W.contents writer.new.inner) result }
    ensures ends { IfOk result (λ life. EndsRun R.remaining W.contents reader.old reader.new
        writer.old writer.new life.outcome) }
    ensures desk { IfOk result (λ life. BreaksAs life.outcome.end life.mark) }
    ensures untouched { IfErr result (λ _. writer.new ≡ writer.old) }
{
    let mut desk = open_file(alloc, file)?;
    let outcome = run(reader, writer, &mut desk);
    let (files, mark) = close_desk::<F>(desk);
    Ok(FileLife {
        outcome,
        mark,
        files,
    })
}

/// Opens the register in the file, and registers a key for each row of the table that `reader`
/// gives, as [`import`](register_report::import).
///
/// # Errors
/// As [`open_file`]; nothing was read or written then.
pub fn import_file<F: Files + Drop, R: Read, W: Write>(
    alloc: Global,
    file: RegisterFile<'_, F>,
    terms: &Terms,
    reader: &mut Watched<R>,
    writer: &mut Watched<W>,
) -> Result<FileLife<F::Opened>, Refused<F::Opened, F::Failed>>
    requires reader { reader.old.failed ≡ false }
    requires writer { writer.old.failed ≡ false }
    ensures imports { ImportsRows F.Opened.Store F.may_leave F.may_leave_failed
        (F.start file.entry.files file.entry.path.now) terms.now (R.remaining reader.old.inner)
        (W.contents writer.old.inner) (W.contents writer.new.inner) result }
    ensures ends { IfOk result (λ life. EndsImport R.remaining W.contents reader.old reader.new
        writer.old writer.new life.outcome) }
    ensures desk { IfOk result (λ life. BreaksAs life.outcome.end life.mark) }
    ensures untouched { IfErr result (λ _. writer.new ≡ writer.old) }
{
    let mut desk = open_file(alloc, file)?;
    let outcome = import(
        alloc,
        &mut desk,
        terms.moment,
        &terms.caller,
        terms.first.get(),
        reader,
        writer,
    );
    let (files, mark) = close_desk::<F>(desk);
    Ok(FileLife {
        outcome,
        mark,
        files,
    })
}

/// Opens the register in the file, and writes all its keys, as [`export`](register_report::export).
///
/// # Errors
/// As [`open_file`]; nothing was written then.
pub fn export_file<F: Files + Drop, W: Write>(
    alloc: Global,
    file: RegisterFile<'_, F>,
    writer: &mut Watched<W>,
) -> Result<FileLife<F::Opened>, Refused<F::Opened, F::Failed>>
    requires { writer.old.failed ≡ false }
    ensures exports { Exports F.Opened.Store F.may_leave F.may_leave_failed
        (F.start file.entry.files file.entry.path.now) (W.contents writer.old.inner) (W.contents writer.new.inner)
        result }
    ensures ends { IfOk result (λ life. EndsWriting W.contents writer.old writer.new life.outcome) }
    ensures desk { IfOk result (λ life. BreaksNone life.outcome.end life.mark) }
    ensures untouched { IfErr result (λ _. writer.new ≡ writer.old) }
{
    let mut desk = open_file(alloc, file)?;
    let outcome = export(alloc, &mut desk, writer);
    let (files, mark) = close_desk::<F>(desk);
    Ok(FileLife {
        outcome,
        mark,
        files,
    })
}

/// Opens the register in the file, and writes which keys are due for rotation in this number of
/// days, as [`rotation`](register_report::rotation).
///
/// # Errors
/// As [`open_file`]; nothing was written then.
pub fn report_file<F: Files + Drop, W: Write>(
    alloc: Global,
    file: RegisterFile<'_, F>,
    days: u32,
    writer: &mut Watched<W>,
) -> Result<FileLife<F::Opened>, Refused<F::Opened, F::Failed>>
    requires { writer.old.failed ≡ false }
    ensures reports { Reports F.Opened.Store F.may_leave F.may_leave_failed
        (F.start file.entry.files file.entry.path.now) days (W.contents writer.old.inner)
        (W.contents writer.new.inner) result }
    ensures ends { IfOk result (λ life. EndsWriting W.contents writer.old writer.new life.outcome) }
    ensures desk { IfOk result (λ life. BreaksNone life.outcome.end life.mark) }
    ensures untouched { IfErr result (λ _. writer.new ≡ writer.old) }
{
    let mut desk = open_file(alloc, file)?;
    let outcome = rotation(alloc, &mut desk, days, writer);
    let (files, mark) = close_desk::<F>(desk);
    Ok(FileLife {
        outcome,
        mark,
        files,
    })
}

/// Opens the register in the file, and serves exchanges, as [`serve_at`].
///
/// # Errors
/// As [`open_file`]; no connection was accepted then.
pub fn serve_file<F: Files + Drop, N: Network + Clock>(
    alloc: Global,
    file: RegisterFile<'_, F>,
    network: &mut N,
    bounds: &Bounds,
    attendance: &mut Attendance,
) -> Result<FileLife<F::Opened>, Refused<F::Opened, F::Failed>>
    requires { attendance.old ≡ nobody }
    ensures serves { ServesExchanges F.Opened.Store F.may_leave F.may_leave_failed
        (F.start file.entry.files file.entry.path.now) bounds.now.exchanges (N.visits network.old)
        (N.visits network.new) attendance.new.accepted result }
    ensures ends { IfOk result (λ life.
        ExplainsEnd bounds.now.exchanges attendance.new life.outcome.end) }
    ensures desk { IfOk result (λ life. BreaksAs life.outcome.end life.mark) }
{
    let mut desk = open_file(alloc, file)?;
    let end = serve_at(alloc, &mut desk, network, bounds, attendance);
    let (files, mark) = close_desk::<F>(desk);
    Ok(FileLife {
        outcome: Outcome::ended_without_bytes(end),
        mark,
        files,
    })
}
