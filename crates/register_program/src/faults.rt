//! What the program names on standard error, and the exit statuses that go with it.
ghost use Rattle.std.specs.Prelude.{◌≡◌};
ghost use Rattle.register_desk.specs.End.{exit_status};
ghost use Rattle.register_program.specs.Act.{status_of, unopened_status, usage_status};
ghost use Rattle.register_program.specs.Faults.{Tells, TellsOfWords, bad_value_line, end_line};
ghost use Rattle.register_program.specs.Faults.{finish_line, refusal_line};

use clap::error::ErrorKind;
use register_desk::{End, Finish, MAX_IDLE_TURNS, OpenRefusal, Watched};
use std::alloc::Global;
use std::io::Write;

/// The exit status where the words are no command, ask for help, or have a bad value.
const USAGE: u8 = 1;

/// The exit status where the register cannot be made or opened.
const UNOPENED: u8 = 2;

/// Writes the text, as far as that goes: nobody is left to hear of a fault in reporting one.
fn tell<E: Write>(faults: &mut Watched<E>, text: &str)
    ensures { Tells E.contents text.now faults.old faults.new }
{
    let _ = faults.write_flushed(MAX_IDLE_TURNS, text.as_bytes());
}

/// The line that names the end.
fn end_line(end: End) -> &'static str
    ensures { result.now ≡ end_line end }
{
    match end {
        End::Memory => "keyreg: Memory\n",
        End::Store => "keyreg: Store\n",
        End::Broken => "keyreg: Broken\n",
        End::ReadFault => "keyreg: ReadFault\n",
        End::WriteFault => "keyreg: WriteFault\n",
        End::BadHeader => "keyreg: BadHeader\n",
    }
}

/// The line that names the refusal.
fn refusal_line(refusal: OpenRefusal) -> &'static str
    ensures { result.now ≡ refusal_line refusal }
{
    match refusal {
        OpenRefusal::Memory => end_line(End::Memory),
        OpenRefusal::Store => end_line(End::Store),
        OpenRefusal::NotARegister => "keyreg: NotARegister\n",
        OpenRefusal::NewerVersion { .. } => "keyreg: NewerVersion\n",
    }
}

/// Names a bad value among the words on `faults`, and gives its exit status.
pub fn report_bad_value<E: Write>(faults: &mut Watched<E>) -> u8
    ensures status { result ≡ usage_status }
    ensures tells { Tells E.contents bad_value_line faults.old faults.new }
{
    tell(faults, "keyreg: BadValue\n");
    USAGE
}

/// Names the end on `faults`, and gives its exit status.
pub fn report_end<E: Write>(end: End, faults: &mut Watched<E>) -> u8
    ensures status { result ≡ exit_status end }
    ensures tells { Tells E.contents (end_line end) faults.old faults.new }
{
    tell(faults, end_line(end));
    end.exit_status()
}

/// Names what ended a run on `faults`, if anything did before the end of its input, and gives its
/// exit status.
pub(crate) fn report_finish<E: Write>(finish: Finish, faults: &mut Watched<E>) -> u8
    ensures status { result ≡ status_of finish }
    ensures tells { Tells E.contents (finish_line finish) faults.old faults.new }
{
    match finish {
        Finish::AtEnd { .. } => 0,
        Finish::Ended(end) => report_end(end, faults),
    }
}

/// Names the refusal on `faults`, and gives its exit status.
pub fn report_refusal<E: Write>(refusal: OpenRefusal, faults: &mut Watched<E>) -> u8
    ensures status { result ≡ unopened_status }
    ensures tells { Tells E.contents (refusal_line refusal) faults.old faults.new }
{
    tell(faults, refusal_line(refusal));
    UNOPENED
}

/// Writes `clap`'s account of the words to `faults`, or names want of memory for them, and gives
/// the exit status.
pub(crate) fn report_no_command<E: Write>(
    alloc: Global,
    error: &clap::Error,
    faults: &mut Watched<E>,
) -> u8
    ensures { TellsOfWords E.contents result faults.old faults.new }
{
    if error.kind() == ErrorKind::OutOfMemory {
        return report_end(End::Memory, faults);
    }
    match error.to_string(alloc) {
        Ok(text) => {
            tell(faults, text.as_str());
            USAGE
        }
        Err(_) => report_end(End::Memory, faults),
    }
}
