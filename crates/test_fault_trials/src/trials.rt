//! What is tried while calls of the files fail: something is done over a register, and what it
//! leaves is opened again.
use crate::contents::{Contents, Stopped, first_version};
use crate::files::{DeskTask, Entry, Fault, HONEST, Lab, Left, NoDesk, Nothing};
use crate::leaving::{LEAVINGS, Leaving};
use crate::sending::{Came, Way, is_broken, send};
use crate::texts::LineAndReply;
use register_desk::OpenRefusal;
use std::alloc::Global;
use std::test::Fail;
use test_desk_trials::TriedDesk;

/// More calls than any trial makes.
const MAX_CALLS: u64 = 5000;

/// Requests that are sent over a register.
#[derive(Clone, Copy)]
pub struct Trial {
    pub name: &'static str,
    /// The requests that made the register.
    pub before: &'static [LineAndReply],
    pub sent: &'static [LineAndReply],
    pub way: Way,
    /// How many transactions of the database it takes.
    pub commits: u64,
}

impl Trial {
    /// How many steps it takes from the register that it finds to the one that it leaves.
    fn steps(&self) -> usize {
        match self.way {
            Way::Entry(Entry::Creation | Entry::Migration) => 1,
            Way::Entry(Entry::Opening) => 0,
            Way::Lines | Way::Rows(_) | Way::Post(..) => self.sent.len(),
        }
    }

    /// Whether it looks for tables that are not there. The count of one of these may be refused,
    /// and is passed over.
    fn looks_for_tables(&self) -> bool {
        match self.way {
            Way::Entry(Entry::Creation | Entry::Migration) => true,
            Way::Entry(Entry::Opening) | Way::Lines | Way::Rows(_) | Way::Post(..) => false,
        }
    }
}

/// How often a trial ended so.
#[derive(Clone, Copy)]
pub struct Count {
    /// The calls that were the first to fail.
    pub faults: u64,
    /// What the files were left with, each content once after as many answers.
    pub left: u64,
    /// Among them those that had the register with one step more than was answered.
    pub ahead: u64,
}

/// The files that a trial begins with, and the rows of the register after each step.
#[derive(Drop)]
struct Made {
    files: Contents,
    rows: Vec<String>,
}

/// Sends requests. A desk that was refused is broken.
#[derive(Drop)]
struct Sending<'a> {
    sent: &'a [LineAndReply],
    way: Way,
}

impl DeskTask for Sending<'_> {
    type Outcome = Came;

    fn perform<D: TriedDesk>(&self, alloc: Global, desk: &mut D) -> Result<Came, Fail> {
        let came = send(alloc, desk, self.sent, self.way)?;
        let is_good = came == Came::Whole || is_broken(alloc, desk);
        Ok(if is_good { came } else { Came::Wrong })
    }
}

/// Sends requests again, and then those before them and them as lines: whether all are answered as
/// they were.
#[derive(Drop)]
struct Repeating<'a> {
    trial: &'a Trial,
}

impl DeskTask for Repeating<'_> {
    type Outcome = bool;

    fn perform<D: TriedDesk>(&self, alloc: Global, desk: &mut D) -> Result<bool, Fail> {
        let trial = self.trial;
        Ok(
            send(alloc, desk, trial.sent, trial.way)? == Came::Whole
                && send(alloc, desk, trial.before, Way::Lines)? == Came::Whole
                && send(alloc, desk, trial.sent, Way::Lines)? == Came::Whole,
        )
    }
}

/// The files after the requests, which are answered as they should be.
fn files_after(lab: Lab, files: &Contents, sent: &[LineAndReply]) -> Result<Contents, Fail> {
    let sending = Sending {
        sent,
        way: Way::Lines,
    };
    match lab.carry_out_at_desk(files, Entry::Opening, &sending)? {
        (Came::Whole, files) => Ok(files),
        _ => Err(Fail::from("not answered so where no call fails")),
    }
}

/// The files of the register with these requests.
pub fn files_with(lab: Lab, sent: &[LineAndReply]) -> Result<Contents, Fail> {
    files_after(lab, &lab.new_files()?, sent)
}

/// The files after one request more, whose rows are put after the others.
fn take_step(
    lab: Lab,
    files: &Contents,
    one: &[LineAndReply],
    rows: &mut Vec<String>,
) -> Result<Contents, Fail> {
    let files = files_after(lab, files, one)?;
    rows.push(lab.rows_in(&files)?)?;
    Ok(files)
}

/// The rows of the register, and then with each request more.
pub fn rows_by_step(
    lab: Lab,
    before: &[LineAndReply],
    sent: &[LineAndReply],
) -> Result<Vec<String>, Fail> {
    let mut rows = Vec::new(lab.alloc);
    let mut files = files_with(lab, before)?;
    rows.push(lab.rows_in(&files)?)?;
    for one in sent.chunks(1) {
        files = take_step(lab, &files, one, &mut rows)?;
    }
    Ok(rows)
}

/// The files of the worked register of the first version.
fn files_of_first_version(lab: Lab) -> Result<Contents, Fail> {
    let mut statements = String::new(lab.alloc);
    for sql in first_version() {
        statements.push_str(sql)?;
        statements.push_str(";\n")?;
    }
    lab.files_by(statements.as_str())
}

/// What leads from these files to those in one step.
fn made_between(lab: Lab, files: Contents, after: &Contents) -> Result<Made, Fail> {
    let mut rows = Vec::new(lab.alloc);
    rows.push(lab.rows_in(&files)?)?;
    rows.push(lab.rows_in(after)?)?;
    Ok(Made { files, rows })
}

fn make(lab: Lab, trial: &Trial) -> Result<Made, Fail> {
    match trial.way {
        Way::Entry(Entry::Creation) => made_between(
            lab,
            Contents::none(lab.alloc),
            &lab.new_files()?,
        ),
        Way::Entry(Entry::Migration) => {
            let files = files_of_first_version(lab)?;
            made_between(lab, files, &files_with(lab, trial.before)?)
        }
        Way::Entry(Entry::Opening) | Way::Lines | Way::Rows(_) | Way::Post(..) => Ok(Made {
            files: files_with(lab, trial.before)?,
            rows: rows_by_step(lab, trial.before, trial.sent)?,
        }),
    }
}

/// How many calls that the fault counts an opening takes.
pub fn calls_of_opening(lab: Lab, files: &Contents, fault: Fault) -> Result<u64, Fail> {
    let (_, left) = lab.try_out_at_desk(files, fault.at(MAX_CALLS), Entry::Opening, &Nothing)?;
    Ok(left.calls)
}

/// How many calls that the fault counts come before those of the trial.
fn calls_before(lab: Lab, trial: &Trial, files: &Contents, fault: Fault) -> Result<u64, Fail> {
    match trial.way {
        Way::Entry(_) => Ok(0),
        Way::Lines | Way::Rows(_) | Way::Post(..) => calls_of_opening(lab, files, fault),
    }
}

/// What came of an opening or a making.
fn of_entry(entered: Result<(), NoDesk>) -> Came {
    match entered {
        Ok(()) => Came::Whole,
        Err(NoDesk::NoConnection | NoDesk::Refused(OpenRefusal::Store)) => Came::Refused(0),
        Err(NoDesk::Refused(_)) => Came::Wrong,
    }
}

/// Does what is tried while calls fail.
fn attempt(lab: Lab, trial: &Trial, files: &Contents, fault: Fault) -> Result<(Came, Left), Fail> {
    match trial.way {
        Way::Entry(entry) => {
            let (entered, left) = lab.try_out_at_desk(files, fault, entry, &Nothing)?;
            Ok((of_entry(entered), left))
        }
        Way::Lines | Way::Rows(_) | Way::Post(..) => {
            let sending = Sending {
                sent: trial.sent,
                way: trial.way,
            };
            let (came, left) = lab.try_out_at_desk(files, fault, Entry::Opening, &sending)?;
            Ok((came.unwrap_or(Came::Wrong), left))
        }
    }
}

/// Sends all again over the register in the files, which is made where one was to be made and none
/// is there. Whether it is answered as it was, and the files.
fn repeated(lab: Lab, trial: &Trial, files: &Contents) -> Result<(bool, Contents), Fail> {
    let repeating = Repeating { trial };
    let (reached, left) = lab.try_out_at_desk(files, HONEST, Entry::Opening, &repeating)?;
    match (reached, trial.way) {
        (Ok(is_told), _) => Ok((is_told, left.stopped.written)),
        (Err(NoDesk::Refused(OpenRefusal::NotARegister)), Way::Entry(Entry::Creation)) => {
            lab.carry_out_at_desk(&left.stopped.written, Entry::Creation, &repeating)
        }
        _ => Ok((false, left.stopped.written)),
    }
}

/// Whether what was tried and what made the register is answered again as it was, and has then
/// acted once in all.
fn acts_once(lab: Lab, trial: &Trial, made: &Made, files: &Contents) -> Result<bool, Fail> {
    let (is_told, files) = repeated(lab, trial, files)?;
    let rows = lab.rows_in(&files)?;
    Ok(is_told && made.rows.last() == Some(&rows))
}

/// Whether the files have the register with so many steps, which is `Some(false)`, or with one
/// more, `Some(true)`; and this, opened, is as it should be.
fn is_ahead(
    lab: Lab,
    trial: &Trial,
    made: &Made,
    files: &Contents,
    steps: usize,
) -> Result<Option<bool>, Fail> {
    let rows = lab.rows_in(files)?;
    let is_here = made.rows.get(steps) == Some(&rows);
    let is_next = made.rows.get(steps.saturating_add(1)) == Some(&rows);
    if (is_here || is_next) && acts_once(lab, trial, made, files)? {
        Ok(Some(!is_here))
    } else {
        Ok(None)
    }
}

/// What was left behind an attempt, and how many steps were answered.
#[derive(Drop)]
struct Remains {
    steps: usize,
    stopped: Stopped,
}

/// The contents that were looked at after so many steps. Each is looked at once.
#[derive(Drop)]
struct Looked {
    steps: usize,
    contents: Vec<Contents>,
}

impl Looked {
    fn new(alloc: Global, steps: usize) -> Looked {
        Looked {
            steps,
            contents: Vec::new(alloc),
        }
    }

    fn has(&self, files: &Contents) -> bool {
        for content in &self.contents {
            if content.is_same(files) {
                return true;
            }
        }
        false
    }
}

/// What was looked at in a trial, and how often it ended so.
#[derive(Drop)]
struct Search {
    looked: Looked,
    last: Option<Remains>,
    count: Count,
}

/// Looks at all that may be left of the files. Gives the first that is not as it should be.
fn look_at_all(
    lab: Lab,
    trial: &Trial,
    made: &Made,
    after: &Remains,
    search: &mut Search,
) -> Result<Option<Leaving>, Fail> {
    let Search { looked, count, .. } = search;
    if looked.steps != after.steps {
        *looked = Looked::new(lab.alloc, after.steps);
    }
    for leaving in &LEAVINGS {
        let files = leaving.of(lab.alloc, &after.stopped)?;
        if !looked.has(&files) {
            let Some(is_ahead) = is_ahead(lab, trial, made, &files, after.steps)? else {
                return Ok(Some(*leaving));
            };
            count.left = count.left.saturating_add(1);
            count.ahead = count.ahead.saturating_add(is_ahead as u64);
            looked.contents.push(files)?;
        }
    }
    Ok(None)
}

/// What went otherwise than it should: how the trial came out with so many calls before the first
/// that failed, or what was left of the files.
pub type Odd = (u64, Option<Came>, Option<Leaving>);

/// Whether the last attempt left the same.
fn is_seen(last: &Option<Remains>, after: &Remains) -> bool {
    match last {
        Some(last) => last.steps == after.steps && last.stopped.is_same(&after.stopped),
        None => false,
    }
}

/// What an attempt leaves, or that it came out otherwise than it should; and whether no call failed
/// any more.
fn leave_behind(
    lab: Lab,
    trial: &Trial,
    made: &Made,
    fault: Fault,
) -> Result<Result<(Remains, bool), Came>, Fail> {
    let (came, left) = attempt(lab, trial, &made.files, fault)?;
    let is_over = !left.has_failed;
    let steps = match came {
        Came::Whole if is_over || trial.looks_for_tables() => trial.steps(),
        Came::Refused(steps) if !is_over => steps,
        _ => return Ok(Err(came)),
    };
    let stopped = left.stopped;
    Ok(Ok((Remains { steps, stopped }, is_over)))
}

/// Makes an attempt and looks at what it leaves: whether no call failed any more, or what went
/// otherwise than it should.
fn try_one(
    lab: Lab,
    trial: &Trial,
    made: &Made,
    fault: Fault,
    search: &mut Search,
) -> Result<Result<bool, (Option<Came>, Option<Leaving>)>, Fail> {
    let (after, is_over) = match leave_behind(lab, trial, made, fault)? {
        Ok(found) => found,
        Err(came) => return Ok(Err((Some(came), None))),
    };
    if !is_seen(&search.last, &after) {
        let odd = look_at_all(lab, trial, made, &after, search)?;
        if odd.is_some() {
            return Ok(Err((None, odd)));
        }
    }
    search.last = Some(after);
    Ok(Ok(is_over))
}

/// Lets each call that the fault counts, from the end of the opening on, be the first that fails,
/// until none fails any more.
pub fn try_all(lab: Lab, trial: &Trial, fault: Fault) -> Result<Result<Count, Odd>, Fail> {
    let made = make(lab, trial)?;
    let first = calls_before(lab, trial, &made.files, fault)?;
    let mut search = Search {
        looked: Looked::new(lab.alloc, 0),
        last: None,
        count: Count {
            faults: 0,
            left: 0,
            ahead: 0,
        },
    };
    for before in first..MAX_CALLS {
        match try_one(lab, trial, &made, fault.at(before), &mut search)? {
            Ok(true) => return Ok(Ok(search.count)),
            Ok(false) => search.count.faults = search.count.faults.saturating_add(1),
            Err((came, leaving)) => return Ok(Err((before, came, leaving))),
        }
    }
    Ok(Err((MAX_CALLS, None, None)))
}
