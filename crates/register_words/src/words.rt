//! What the program's words ask for.
ghost use Rattle.std.specs.Prelude.{◌≡◌, ◌≤◌, length, Ok};
ghost use Rattle.register_words.specs.{Values.ReadsValue, Words.IsJob, Words.IsTask};

use crate::values::{Bounds, GivenBounds, GivenTerms, Terms, read_days};
use clap::error::ErrorKind;
use clap::{Arg, ArgAction, ArgMatches, Command, Error};
use std::alloc::{AllocError, Global};

/// What the program is asked to do.
#[derive(Clone, Copy)]
pub enum Task<'a> {
    /// Request lines over a new register in memory.
    RunInMemory,
    /// A job over the register in the file.
    InFile { file: &'a str, job: Job },
}

/// What is to be done over a register in a file.
#[derive(Clone, Copy)]
pub enum Job {
    /// An empty register is made in the file.
    Init,
    /// Request lines.
    Run,
    /// A registration for each row of a table, on these terms.
    Import { terms: Terms },
    /// All keys, as a table.
    Export,
    /// The keys that are due for rotation in this number of days.
    Report { days: u32 },
    /// HTTP exchanges, within these bounds.
    Serve { bounds: Bounds },
}

/// A job with its values as they were given.
#[derive(Clone, Copy)]
pub enum GivenJob<'a> {
    Init,
    Run,
    Import { terms: GivenTerms<'a> },
    Export,
    Report { days: &'a str },
    Serve { bounds: GivenBounds<'a> },
}

impl GivenJob<'_> {
    /// The job, where each text is a value.
    pub fn read(&self) -> Option<Job>
        ensures { ReadsValue IsJob self.now result }
    {
        match *self {
            GivenJob::Init => Some(Job::Init),
            GivenJob::Run => Some(Job::Run),
            GivenJob::Import { terms } => Some(Job::Import {
                terms: terms.read()?,
            }),
            GivenJob::Export => Some(Job::Export),
            GivenJob::Report { days } => Some(Job::Report {
                days: read_days(days)?,
            }),
            GivenJob::Serve { bounds } => Some(Job::Serve {
                bounds: bounds.read()?,
            }),
        }
    }
}

/// What the program is asked to do, with the values as they were given.
#[derive(Clone, Copy)]
pub enum GivenTask<'a> {
    RunInMemory,
    InFile { file: &'a str, job: GivenJob<'a> },
}

impl<'a> GivenTask<'a> {
    /// The task, where each text is a value.
    pub fn read(&self) -> Option<Task<'a>>
        ensures { ReadsValue IsTask self.now result }
    {
        match *self {
            GivenTask::RunInMemory => Some(Task::RunInMemory),
            GivenTask::InFile { file, job } => Some(Task::InFile {
                file,
                job: job.read()?,
            }),
        }
    }
}

/// The program's version (CHANGES.md), that of the tables that it writes, and the program logic
/// that it is proved with.
const VERSION: &str = "1.0.1 (tables of version 2, program logic dac8208d650f15bf)";

const ABOUT: &str = "The register of cryptographic keys: owners, purposes and lifecycles";

const NO_COMMAND: &str =
    "With no command, request lines are applied to a new register in memory.\n\n\
    Exit status, with the name on standard error:\n  \
    0  all went well; requests that are refused are well too\n  \
    1  the words are no command, ask for help, or have a bad value: BadValue\n  \
    2  the register could not be made or opened: NotARegister, NewerVersion; Store where the file\n     \
    is not there, is held by another program or is no database; Memory\n  \
    3  the database or memory ended the command: Store, Broken, Memory\n  \
    4  its input or its output did: ReadFault, WriteFault, BadHeader\n\n\
    keyreg(1) says what each name comes of, and what to do.";

/// An option whose value has to be given. The word after its name is the value, whatever it begins
/// with.
struct RequiredOption {
    name: &'static str,
    /// What stands for its value in the help.
    value: &'static str,
    help: &'static str,
}

static FILE: RequiredOption = RequiredOption {
    name: "file",
    value: "FILE",
    help: "The file of the register: a path, not :memory: nor file:...",
};

/// A command over a register in a file.
struct FileCommand {
    name: &'static str,
    about: &'static str,
    after_help: Option<&'static str>,
    /// Its options beside the file.
    options: &'static [RequiredOption],
}

static FILE_COMMANDS: [FileCommand; 6] = [
    FileCommand {
        name: "init",
        about: "Makes an empty register in a file",
        after_help: None,
        options: &[],
    },
    FileCommand {
        name: "run",
        about: "Applies the request lines of standard input, and writes their reply lines",
        after_help: Some(
            "A line is: moment caller number command. The moment is in seconds since 1970.",
        ),
        options: &[],
    },
    FileCommand {
        name: "import",
        about: "Registers a key for each row of the CSV of standard input, and writes the reply lines",
        after_help: Some(
            "The first row is: type,owner,activation,protect_stop,deactivation,purpose\n\
            A date is empty or YYYY-MM-DDTHH:MM:SSZ. The n-th reply line is that of the n-th row after it.",
        ),
        options: &[
            RequiredOption {
                name: "moment",
                value: "SECONDS",
                help: "The moment of all rows, in seconds since 1970, from 0 to 253402300799",
            },
            RequiredOption {
                name: "caller",
                value: "NAME",
                help: "Who asks: 1 to 64 characters, each an ASCII letter, a digit, - _ . or @",
            },
            RequiredOption {
                name: "first",
                value: "NUMBER",
                help: "The request number of the first row, from 1 to 9007199254740991",
            },
        ],
    },
    FileCommand {
        name: "export",
        about: "Writes all keys as CSV",
        after_help: None,
        options: &[],
    },
    FileCommand {
        name: "report",
        about: "Writes which keys are due for rotation",
        after_help: None,
        options: &[RequiredOption {
            name: "days",
            value: "DAYS",
            help: "How many days after the latest moment it looks ahead, from 0 to 36500",
        }],
    },
    FileCommand {
        name: "serve",
        about: "Serves HTTP exchanges on 127.0.0.1, one connection after the other",
        after_help: None,
        options: &[
            RequiredOption {
                name: "port",
                value: "PORT",
                help: "The port, from 1 to 65535",
            },
            RequiredOption {
                name: "exchanges",
                value: "NUMBER",
                help: "How many connections it serves before it ends, from 1 to 1000000",
            },
        ],
    },
];

fn arg_of<'a>(alloc: Global, option: &RequiredOption) -> Arg<'a> {
    Arg::new(alloc, option.name)
        .long(option.name)
        .value_name(option.value)
        .required(true)
        .allow_hyphen_values(true)
        .action(ArgAction::Set)
        .help(option.help)
}

fn subcommand_of<'a>(alloc: Global, given: &FileCommand) -> Result<Command<'a>, AllocError> {
    let mut command = Command::new(alloc, given.name)
        .about(given.about)
        .arg(arg_of(alloc, &FILE))?;
    if let Some(text) = given.after_help {
        command = command.after_help(text);
    }
    for option in given.options {
        command = command.arg(arg_of(alloc, option))?;
    }
    Ok(command)
}

/// The program's own command, with none below it.
fn empty_command<'a>(alloc: Global) -> Command<'a> {
    Command::new(alloc, "keyreg")
        .about(ABOUT)
        .version(VERSION)
        .after_help(NO_COMMAND)
        .override_usage("keyreg [COMMAND]")
        .subcommand_required(true)
        .disable_help_subcommand(true)
}

fn keyreg_command<'a>(alloc: Global) -> Result<Command<'a>, AllocError> {
    let mut command = empty_command(alloc);
    for given in &FILE_COMMANDS {
        let below = subcommand_of(alloc, given)?;
        command = command.subcommand(below)?;
    }
    Ok(command)
}

/// What is said of the rows of an import.
fn terms_of<'a>(options: &ArgMatches<'a>) -> Option<GivenTerms<'a>> {
    Some(GivenTerms {
        moment: options.get_str("moment")?,
        caller: options.get_str("caller")?,
        first: options.get_str("first")?,
    })
}

/// Where and how often exchanges are served.
fn bounds_of<'a>(options: &ArgMatches<'a>) -> Option<GivenBounds<'a>> {
    Some(GivenBounds {
        port: options.get_str("port")?,
        exchanges: options.get_str("exchanges")?,
    })
}

/// The job that a command asks for, with the values of its options.
fn job_of<'a>(command: &str, options: &ArgMatches<'a>) -> Option<GivenJob<'a>> {
    match command {
        "init" => Some(GivenJob::Init),
        "run" => Some(GivenJob::Run),
        "import" => Some(GivenJob::Import {
            terms: terms_of(options)?,
        }),
        "export" => Some(GivenJob::Export),
        "report" => Some(GivenJob::Report {
            days: options.get_str("days")?,
        }),
        "serve" => Some(GivenJob::Serve {
            bounds: bounds_of(options)?,
        }),
        _ => None,
    }
}

/// The file of a command and the job over it.
fn given_job<'a>(matches: &ArgMatches<'a>) -> Option<(&'a str, GivenJob<'a>)> {
    let (command, options) = matches.subcommand()?;
    Some((options.get_str("file")?, job_of(command, options)?))
}

/// The file and the job that the words give, where they are a command below this one.
fn job_by<'a>(
    command: &mut Command<'a>,
    words: &'a [String],
) -> Result<(&'a str, GivenJob<'a>), Error> {
    let matches = command.try_get_matches_from_mut(words)?;
    match given_job(&matches) {
        Some(job) => Ok(job),
        None => Err(command.error(ErrorKind::MissingSubcommand, "a command is missing")?),
    }
}

/// The file and the job that the words give.
fn read_given_job(alloc: Global, words: &[String]) -> Result<(&str, GivenJob<'_>), Error> {
    let mut command = keyreg_command(alloc)?;
    job_by(&mut command, words)
}

/// Reads the words, of which the first is the program's own name.
///
/// # Errors
/// `clap`'s help, where that was asked for, or its account of what is wrong with the words.
pub fn read_words(alloc: Global, words: &[String]) -> Result<GivenTask<'_>, Error>
    ensures { length words.now ≤ 1 → result ≡ Ok GivenTask.RunInMemory }
{
    // `clap` would ask for a command.
    if words.len() <= 1 {
        return Ok(GivenTask::RunInMemory);
    }
    let (file, job) = read_given_job(alloc, words)?;
    Ok(GivenTask::InFile { file, job })
}
