//! Readers and writers that fail, are interrupted or take nothing, at each turn of a call.
use crate::contents::Contents;
use crate::files::{DeskTask, Entry, Lab};
use crate::texts::{
    EXCHANGE, IMPORT, IMPORT_HEAD, IMPORT_ROWS, IMPORTED, IN_USE, KEY, LineAndReply, REGISTERED,
    ROTATION, TextParts, join,
};
use crate::trials::{files_with, rows_by_step};
use register_desk::{End, Finish, Outcome};
use std::alloc::{AllocError, Global};
use std::test::Fail;
use test_desk_trials::{ADVANCE, ADVANCED, Call, Cells, TriedDesk, export_of};
use test_faulty_devices::{CountedTurns, Counter, OneByte, Trouble, Troubled};

/// More turns than any call takes.
const MAX_TURNS: usize = 5000;

/// What a call is to write.
#[derive(Clone, Copy)]
enum Output {
    Pieces(TextParts),
    /// The export of one key with these cells.
    Export(Cells<'static>),
}

impl Output {
    fn text(self, alloc: Global) -> Result<String, AllocError> {
        match self {
            Output::Pieces(pieces) => join(alloc, pieces),
            Output::Export(cells) => export_of(alloc, &[cells]),
        }
    }
}

/// What is lent, over the register with one key, and what is to come of it.
#[derive(Clone, Copy)]
struct Lent {
    name: &'static str,
    call: Call,
    /// The requests that it sends.
    sent: &'static [LineAndReply],
    input: TextParts,
    output: Output,
}

/// The troubled one of the two.
#[derive(Clone, Copy, Debug, PartialEq, Eq)]
enum Stream {
    Reader,
    Writer,
}

/// Which stream has which trouble, and whether it stays.
#[derive(Clone, Copy, Debug, PartialEq, Eq)]
pub struct Case {
    stream: Stream,
    trouble: Trouble,
    stays: bool,
}

/// The interrupted turns in a row after which a writer is given up.
const MAX_IDLE: usize = 10_000;

/// The reads after which the reader of an exchange is given up.
const MAX_EXCHANGE_READS: usize = 80_000;

impl Case {
    /// How many turns of the reader go well, and how many of the writer, where so many of the
    /// troubled one do.
    fn good_turns(self, good: usize) -> (usize, usize) {
        match self.stream {
            Stream::Reader => (good, usize::MAX),
            Stream::Writer => (usize::MAX, good),
        }
    }

    /// The trouble, with a counter.
    fn count(self, turns: Counter) -> CountedTurns {
        CountedTurns {
            trouble: self.trouble,
            stays: self.stays,
            turns,
        }
    }

    /// Whether the call ends in this case within reasonable time: the reads of a run and of an
    /// import have a bound of 2000000000.
    fn is_for(self, call: Call) -> bool {
        let stays = self.stays && self.stream == Stream::Reader;
        match call {
            Call::Run | Call::Import { .. } => !stays,
            Call::Export | Call::Rotation { .. } | Call::Exchange { .. } => true,
        }
    }

    /// After how many turns the call gives up a stream that is always interrupted after so many
    /// good ones: a reader that is so is lent to an exchange alone.
    fn turns_at_end(self, good: usize) -> usize {
        match self.stream {
            Stream::Writer => good.saturating_add(MAX_IDLE),
            Stream::Reader => MAX_EXCHANGE_READS,
        }
    }

    /// The end that the trouble comes to.
    fn end(self) -> End {
        match self.stream {
            Stream::Reader => End::ReadFault,
            Stream::Writer => End::WriteFault,
        }
    }

    /// Whether the call may go as where no turn is troubled: a flush takes no byte, and an
    /// interrupted turn is tried again.
    fn may_be_whole(self) -> bool {
        self.trouble != Trouble::Fails && !self.stays
    }

    /// Whether it may end by the trouble.
    fn may_end(self) -> bool {
        self.trouble != Trouble::IsInterrupted || self.stays
    }
}

/// A call with its texts, the files that it finds, and the rows after each step.
#[derive(Drop)]
struct Given {
    call: Call,
    /// How many steps it takes.
    steps: usize,
    input: String,
    output: String,
    files: Contents,
    rows: Vec<String>,
}

/// What a call did, and how many turns the troubled stream then had had.
#[derive(Drop)]
struct Performed {
    outcome: Outcome,
    output: Vec<u8>,
    turns: u64,
}

/// Makes the call over streams of which one has the trouble after so many good turns.
#[derive(Drop)]
struct Lending<'a> {
    given: &'a Given,
    case: Case,
    good: usize,
}

impl DeskTask for Lending<'_> {
    type Outcome = Performed;

    fn perform<D: TriedDesk>(&self, alloc: Global, desk: &mut D) -> Result<Performed, Fail> {
        let (good_reads, good_writes) = self.case.good_turns(self.good);
        let (reads, writes) = (Counter::new(alloc)?, Counter::new(alloc)?);
        let reader = Troubled {
            inner: OneByte(self.given.input.as_bytes()),
            trouble: self.case.count(reads.share()?),
            good_turns: good_reads,
        };
        let writer = Troubled {
            inner: Vec::new(alloc),
            trouble: self.case.count(writes.share()?),
            good_turns: good_writes,
        };
        let ended = desk.call(alloc, self.given.call, reader, writer);
        let outcome = ended.outcome;
        let writer = ended.writer;
        Ok(Performed {
            outcome,
            output: writer.inner,
            turns: match self.case.stream {
                Stream::Reader => reads.count(),
                Stream::Writer => writes.count(),
            },
        })
    }
}

/// The call over the register in the files, and these after it.
fn lend(
    lab: Lab,
    files: &Contents,
    given: &Given,
    case: Case,
    good: usize,
) -> Result<(Performed, Contents), Fail> {
    lab.carry_out_at_desk(files, Entry::Opening, &Lending { given, case, good })
}

impl Given {
    fn new(lab: Lab, lent: &Lent) -> Result<Given, Fail> {
        Ok(Given {
            call: lent.call,
            steps: lent.sent.len(),
            input: join(lab.alloc, lent.input)?,
            output: lent.output.text(lab.alloc)?,
            files: files_with(lab, KEY)?,
            rows: rows_by_step(lab, KEY, lent.sent)?,
        })
    }

    /// Whether the call went as where no turn is troubled.
    fn is_whole(&self, done: &Performed) -> bool {
        done.outcome.end == Finish::AtEnd { rest: 0 }
            && done.output.as_slice() == self.output.as_bytes()
            && done.outcome.written == self.output.len() as u64
    }

    /// Whether it ended so, and what was written is a prefix of what was to be written.
    fn is_prefix(&self, done: &Performed, end: End) -> bool {
        done.outcome.end == Finish::Ended(end)
            && self.output.as_bytes().starts_with(&done.output)
            && done.outcome.written == done.output.len() as u64
    }

    /// How many requests have acted, if the call ended as it may after so many good turns.
    fn steps_of(&self, case: Case, done: &Performed, good: usize) -> Option<usize> {
        if case.stays && done.turns != case.turns_at_end(good) as u64 {
            return None;
        }
        let replies = done.outcome.replies as usize;
        if case.may_be_whole() && self.is_whole(done) {
            Some(self.steps)
        } else if case.may_end() && self.is_prefix(done, case.end()) {
            match case.stream {
                Stream::Reader => Some(replies),
                Stream::Writer => Some(replies.saturating_add(1).min(self.steps)),
            }
        } else {
            None
        }
    }

    /// Whether the files have the register with the rows, and the call over it, with no trouble,
    /// then ends as it should, with the last rows.
    fn is_left_so(&self, lab: Lab, files: &Contents, steps: usize) -> Result<bool, Fail> {
        if self.rows.get(steps) != Some(&lab.rows_in(files)?) {
            return Ok(false);
        }
        // With so many good turns there is no trouble in any case.
        let (done, files) = lend(lab, files, self, CASES[0], usize::MAX)?;
        Ok(self.is_whole(&done) && self.rows.last() == Some(&lab.rows_in(&files)?))
    }
}

/// One call: whether its trouble came, or what it did otherwise than it should.
fn try_turn(
    lab: Lab,
    given: &Given,
    case: Case,
    good: usize,
) -> Result<Result<bool, Outcome>, Fail> {
    let (done, left) = lend(lab, &given.files, given, case, good)?;
    let has_come = done.turns > good as u64;
    let steps = if has_come {
        given.steps_of(case, &done, good)
    } else if given.is_whole(&done) {
        Some(given.steps)
    } else {
        None
    };
    match steps {
        Some(steps) if given.is_left_so(lab, &left, steps)? => Ok(Ok(has_come)),
        _ => Ok(Err(done.outcome)),
    }
}

/// Lets each turn in turn be troubled, until none is. Gives how many were, or the turn at which the
/// call did otherwise than it should.
fn try_turns(lab: Lab, given: &Given, case: Case) -> Result<Result<usize, (usize, Outcome)>, Fail> {
    for good in 0..MAX_TURNS {
        match try_turn(lab, given, case, good)? {
            Ok(true) => {}
            Ok(false) => return Ok(Ok(good)),
            Err(outcome) => return Ok(Err((good, outcome))),
        }
    }
    Err(Fail::from("more turns than any call takes"))
}

#[rattlefmt::skip]
static CASES: [Case; 7] = [
    Case { stream: Stream::Reader, trouble: Trouble::Fails, stays: false },
    Case { stream: Stream::Reader, trouble: Trouble::IsInterrupted, stays: false },
    Case { stream: Stream::Reader, trouble: Trouble::IsInterrupted, stays: true },
    Case { stream: Stream::Writer, trouble: Trouble::Fails, stays: false },
    Case { stream: Stream::Writer, trouble: Trouble::TakesNothing, stays: false },
    Case { stream: Stream::Writer, trouble: Trouble::IsInterrupted, stays: false },
    Case { stream: Stream::Writer, trouble: Trouble::IsInterrupted, stays: true },
];

static LENT: [Lent; 6] = [
    Lent {
        name: "run",
        call: Call::Run,
        sent: &[
            REGISTERED,
            ("100 ann  2 advance", "refused 1 BadLine"),
            ("900 ann 2 advance", "ok 0 - 900"),
        ],
        input: &["100 ann 1 register master bob - - - x\n100 ann  2 advance\n900 ann 2 advance\n"],
        output: Output::Pieces(&["ok 2 Pre-Active 100\nrefused 1 BadLine\nok 0 - 900\n"]),
    },
    Lent {
        name: "import",
        call: IMPORT,
        sent: IMPORTED,
        input: &[IMPORT_HEAD, IMPORT_ROWS],
        output: Output::Pieces(&["ok 2 Active 100\nrefused 1 BadLine\nok 3 Pre-Active 100\n"]),
    },
    Lent {
        name: "export",
        call: Call::Export,
        sent: &[],
        input: &[],
        output: Output::Export(&[
            ("protect_stop", "1970-01-01T00:11:40Z"),
            ("deactivation", "1970-01-01T00:15:00Z"),
            ("initial", "1970-01-01T00:00:50Z"),
            ("purpose", "old disks"),
        ]),
    },
    Lent {
        name: "report",
        call: ROTATION,
        sent: &[],
        input: &[],
        output: Output::Pieces(&[
            "Keys due for rotation by 1970-01-02T00:00:50Z\n",
            "      1  1970-01-01T00:11:40Z  due      data-encryption         bob  old disks\n",
            "total 1\n",
        ]),
    },
    Lent {
        name: "post",
        call: EXCHANGE,
        sent: &[("100 ann 1 advance", "ok 0 - 100")],
        input: &[ADVANCE],
        output: Output::Pieces(&[ADVANCED]),
    },
    Lent {
        name: "get",
        call: EXCHANGE,
        sent: &[],
        input: &["GET /keys/1/usage HTTP/1.1\r\nHost: localhost\r\n\r\n"],
        output: Output::Pieces(&[IN_USE]),
    },
];

/// Whether the call does as it should in this case, and a turn is troubled of a stream that has
/// turns.
fn is_right(lab: Lab, given: &Given, case: Case) -> Result<bool, Fail> {
    let has_turns = case.stream == Stream::Writer || !given.input.is_empty();
    match try_turns(lab, given, case)? {
        Ok(turns) => Ok((turns > 0) == has_turns),
        Err(_) => Ok(false),
    }
}

/// The first case in which the call does otherwise than it should.
fn wrong_case(lab: Lab, given: &Given) -> Result<Option<Case>, Fail> {
    for case in &CASES {
        if case.is_for(given.call) && !is_right(lab, given, *case)? {
            return Ok(Some(*case));
        }
    }
    Ok(None)
}

/// The first call that does, with the case.
pub fn trouble_at_fault(alloc: Global) -> Result<Option<(&'static str, Case)>, Fail> {
    let lab = Lab::new(alloc);
    for lent in &LENT {
        if let Some(case) = wrong_case(lab, &Given::new(lab, lent)?)? {
            return Ok(Some((lent.name, case)));
        }
    }
    Ok(None)
}
