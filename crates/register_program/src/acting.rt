//! What the program does, over the streams that it is given.
ghost use Rattle.std.specs.Prelude.{◌≡◌, ◌≤◌, false, length};
ghost use Rattle.register_program.specs.Alone.{ActsAlone, end_alone};
ghost use Rattle.register_program.specs.Job.{BreaksFor, EndsFor, Performs, end_of, line_after};
ghost use Rattle.register_program.specs.Job.{status_after};
ghost use Rattle.register_program.specs.{Act.ActsInMemory, Faults.Tells, Words.ReadsTask};
ghost use Rattle.register_program.specs.Sentence.{LeadsFrom};
ghost use Rattle.register_program.specs.Traffic.{traffic_of, traffic_through};
ghost use Rattle.register_http.specs.ServedExchanges.{nobody};

use crate::faults::{report_bad_value, report_finish, report_no_command, report_refusal};
use crate::refused::Refused;
use crate::register_file::{
    FileLife, RegisterFile, export_file, import_file, init_file, report_file, run_file, serve_file,
};
use clap::Error;
use machine_traits::{Closed, Files, Network};
use register_desk::{Finish, OpenRefusal, Outcome, Watched};
use register_http::Attendance;
use register_in_memory::run_in_memory;
use register_words::{GivenTask, Job, Task, read_words};
use std::alloc::Global;
use std::io::{Read, Write};
use std::time::Clock;

/// What the program writes to: its output, and what it has to say of an end, a refusal or the words.
#[derive(Drop)]
pub struct Outputs<W, E> {
    pub writer: Watched<W>,
    pub faults: Watched<E>,
}

/// What comes in: request lines or rows, and clients, at moments.
#[derive(Drop)]
pub struct Inputs<R, N> {
    pub reader: Watched<R>,
    /// Where clients come, and the clock.
    pub network: N,
    /// Who came.
    pub attendance: Attendance,
}

/// What a job over a register in a file came to.
#[derive(Drop)]
pub enum Done<S, U> {
    /// A register was to be made.
    Made(Result<Closed<S>, Refused<S, U>>),
    /// The register was to be opened for what was done.
    Lived(Result<FileLife<S>, Refused<S, U>>),
}

impl<S, U> Done<S, U> {
    /// How it ended: at an end of the register, which one that was made has not, or before that.
    fn end(&self) -> Result<Finish, OpenRefusal>
        ensures { result ≡ end_of self.now }
    {
        match self {
            Done::Made(Ok(_)) => Ok(Finish::AtEnd { rest: 0 }),
            Done::Made(Err(refused)) => Err(refused.refusal()),
            Done::Lived(Ok(life)) => Ok(life.outcome.end),
            Done::Lived(Err(refused)) => Err(refused.refusal()),
        }
    }
}

/// What came of a job, and the program's exit status.
#[derive(Drop)]
pub struct Acted<S, U> {
    pub done: Done<S, U>,
    pub status: u8,
}

/// A run of the program that somebody asks for, with all that it is given of the machine.
#[derive(Drop)]
pub struct Asked<F, N, R, W, E> {
    pub job: Job,
    /// How files are opened and closed.
    pub files: F,
    /// Where clients come, and the clock.
    pub network: N,
    pub reader: R,
    pub outputs: Outputs<W, E>,
}

/// A run of the program that was, with what it gives back.
#[derive(Drop)]
pub struct Ran<S, U, N, R, W, E> {
    pub acted: Acted<S, U>,
    pub inputs: Inputs<R, N>,
    pub outputs: Outputs<W, E>,
}

/// The task that was given, where each of its values is one. It is given nothing of the machine, so
/// where there is no task nothing is done.
///
/// # Errors
/// The exit status, where the words are no command or ask for help, or a value among them is none,
/// of which `faults` was told: 1, or 3 after want of memory.
pub fn read_task<'a, E: Write>(
    alloc: Global,
    given: &Result<GivenTask<'a>, Error>,
    faults: &mut Watched<E>,
) -> Result<Task<'a>, u8>
    ensures { ReadsTask E.contents given.now result faults.old faults.new }
{
    match given {
        Ok(given) => match given.read() {
            Some(task) => Ok(task),
            None => Err(report_bad_value(faults)),
        },
        Err(error) => Err(report_no_command(alloc, error, faults)),
    }
}

/// Names what kept the program from its end on `faults`, and gives the exit status.
fn report<E: Write>(ended: Result<Finish, OpenRefusal>, faults: &mut Watched<E>) -> u8
    ensures status { result ≡ status_after ended }
    ensures tells { Tells E.contents (line_after ended) faults.old faults.new }
{
    match ended {
        Ok(finish) => report_finish(finish, faults),
        Err(refusal) => report_refusal(refusal, faults),
    }
}

/// How a run in memory ended, or that there was none.
fn end_in_memory(came: &Result<Outcome, OpenRefusal>) -> Result<Finish, OpenRefusal>
    ensures { result ≡ end_alone came.now }
{
    match came {
        Ok(outcome) => Ok(outcome.end),
        Err(refusal) => Err(*refusal),
    }
}

/// Runs over the request lines of `reader`, over a new register in memory, and names what kept it
/// from its end. It is given no file and no network.
///
/// Gives the exit status: 0 where all went well, 2 where the register could not be made, 3 after an
/// end of the register, and 4 after a fault of a stream.
pub fn act_in_memory<R: Read, W: Write, E: Write>(
    alloc: Global,
    reader: &mut Watched<R>,
    outputs: &mut Outputs<W, E>,
) -> u8
    requires reader { reader.old.failed ≡ false }
    requires writer { outputs.old.writer.failed ≡ false }
    ensures does { ActsAlone R.remaining W.contents E.contents reader.old reader.new
        outputs.old outputs.new result }
    // Of an input whose bytes are known, what is written and the status are those of a run from the
    // empty history.
    ensures acts { ActsInMemory (R.remaining reader.old.inner) result
        (W.contents outputs.old.writer.inner) (W.contents outputs.new.writer.inner) }
{
    let Outputs { writer, faults } = outputs;
    let came = run_in_memory(alloc, reader, writer);
    report(end_in_memory(&came), faults)
}

/// Does the job over the register in the file.
fn perform<F: Files + Drop, N: Network + Clock, R: Read, W: Write>(
    alloc: Global,
    file: RegisterFile<'_, F>,
    job: &Job,
    inputs: &mut Inputs<R, N>,
    writer: &mut Watched<W>,
) -> Done<F::Opened, F::Failed>
    requires reader { inputs.old.reader.failed ≡ false }
    requires attendance { inputs.old.attendance ≡ nobody }
    requires writer { writer.old.failed ≡ false }
    ensures performs { Performs F.Opened.Store F.may_leave F.may_leave_failed
        (F.start file.entry.files file.entry.path.now) job.now
        (traffic_of R.remaining W.contents N.visits inputs.old inputs.new writer.old writer.new)
        result }
    ensures ends { EndsFor R.remaining W.contents job.now inputs.old inputs.new
        writer.old writer.new result }
    ensures desk { BreaksFor job.now result }
{
    let Inputs {
        reader,
        network,
        attendance,
    } = inputs;
    match *job {
        Job::Init => Done::Made(init_file(alloc, file)),
        Job::Run => Done::Lived(run_file(alloc, file, reader, writer)),
        Job::Import { terms } => { Done::Lived(import_file(alloc, file, &terms, reader, writer)) }
        Job::Export => Done::Lived(export_file(alloc, file, writer)),
        Job::Report { days } => Done::Lived(report_file(alloc, file, days, writer)),
        Job::Serve { bounds } => {
            Done::Lived(serve_file(alloc, file, network, &bounds, attendance))
        }
    }
}

/// Does the job over the register in the file, and names what kept it from its end.
///
/// Gives what came of it, with the exit status: 0 where all went well, 2 where the register could
/// not be made or opened, 3 after an end of the register, and 4 after a fault of a stream or an
/// import without its header row.
pub fn act<F: Files + Drop, N: Network + Clock, R: Read, W: Write, E: Write>(
    alloc: Global,
    file: RegisterFile<'_, F>,
    job: &Job,
    inputs: &mut Inputs<R, N>,
    outputs: &mut Outputs<W, E>,
) -> Acted<F::Opened, F::Failed>
    requires reader { inputs.old.reader.failed ≡ false }
    requires attendance { inputs.old.attendance ≡ nobody }
    requires writer { outputs.old.writer.failed ≡ false }
    // It comes to what the call that the job names comes to.
    ensures performs { Performs F.Opened.Store F.may_leave F.may_leave_failed
        (F.start file.entry.files file.entry.path.now) job.now
        (traffic_of R.remaining W.contents N.visits inputs.old inputs.new outputs.old.writer
        outputs.new.writer) result.done }
    // What a stream or the network is blamed for has its cause there.
    ensures ends { EndsFor R.remaining W.contents job.now inputs.old inputs.new
        outputs.old.writer outputs.new.writer result.done }
    // 31 comes of a call that broke the desk, and 32 of none.
    ensures desk { BreaksFor job.now result.done }
    // Whatever register the file held, it holds that after the life that this was.
    ensures leads { LeadsFrom F.Opened.Store F.may_leave F.may_leave_failed
        (F.start file.entry.files file.entry.path.now) job.now
        (traffic_of R.remaining W.contents N.visits inputs.old inputs.new outputs.old.writer
        outputs.new.writer) result.done }
    // What kept it from its end is named on the writer of faults, and nothing else.
    ensures tells { Tells E.contents (line_after (end_of result.done)) outputs.old.faults
        outputs.new.faults }
    ensures status { result.status ≡ status_after (end_of result.done) }
{
    let Outputs { writer, faults } = outputs;
    let done = perform(alloc, file, job, inputs, writer);
    let status = report(done.end(), faults);
    Acted { done, status }
}

/// The run that was asked for, over the register in the file at this path, by [`act`].
pub fn run_asked<F: Files + Drop, N: Network + Clock, R: Read, W: Write, E: Write>(
    alloc: Global,
    path: &str,
    asked: Asked<F, N, R, W, E>,
) -> Ran<F::Opened, F::Failed, N, R, W, E>
    requires { asked.outputs.writer.failed ≡ false }
    ensures leads { LeadsFrom F.Opened.Store F.may_leave F.may_leave_failed
        (F.start asked.files path.now) asked.job
        (traffic_through R.remaining W.contents N.visits asked result) result.acted.done }
    ensures tells { Tells E.contents (line_after (end_of result.acted.done)) asked.outputs.faults
        result.outputs.faults }
    ensures status { result.acted.status ≡ status_after (end_of result.acted.done) }
{
    let Asked {
        job,
        files,
        network,
        reader,
        mut outputs,
    } = asked;
    let mut inputs = Inputs {
        reader: Watched::new(reader),
        network,
        attendance: Attendance::new(),
    };
    let acted = act(
        alloc,
        RegisterFile { path, files },
        &job,
        &mut inputs,
        &mut outputs,
    );
    Ran {
        acted,
        inputs,
        outputs,
    }
}

/// What the program is given of the machine, and all that it can reach of it.
#[derive(Drop)]
pub struct Machine<F, N> {
    pub alloc: Global,
    /// How files are opened and closed.
    pub files: F,
    /// Where clients come, and the clock.
    pub network: N,
}

/// Does what the words ask for: a job over a file, by [`run_asked`], or a run in memory, by
/// [`act_in_memory`], which is given no files and no network; nothing, where the words are none.
/// Gives the exit status, and what it wrote to.
pub fn act_on_words<F: Files + Drop, N: Network + Clock + Drop, R: Read + Drop, W: Write, E: Write>(
    machine: Machine<F, N>,
    words: &[String],
    reader: R,
    outputs: Outputs<W, E>,
) -> (u8, Outputs<W, E>)
    requires { outputs.writer.failed ≡ false }
    ensures acts { length words.now ≤ 1 → ActsInMemory (R.remaining reader) result.0
        (W.contents outputs.writer.inner) (W.contents result.1.writer.inner) }
{
    let Machine {
        alloc,
        files,
        network,
    } = machine;
    let mut outputs = outputs;
    let given = read_words(alloc, words);
    match read_task(alloc, &given, &mut outputs.faults) {
        Ok(Task::RunInMemory) => {
            let status = act_in_memory(alloc, &mut Watched::new(reader), &mut outputs);
            (status, outputs)
        }
        Ok(Task::InFile { file, job }) => {
            let asked = Asked {
                job,
                files,
                network,
                reader,
                outputs,
            };
            let ran = run_asked(alloc, file, asked);
            (ran.acted.status, ran.outputs)
        }
        Err(status) => (status, outputs),
    }
}
