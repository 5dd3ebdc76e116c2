//! Calls that read a register of twenty keys, of which a look-up fails.
use crate::contents::Contents;
use crate::files::{DeskTask, Entry, Fault, FaultPlace, Lab};
use crate::keys::{ALL, DUE, export_text, is_answered, report_text, twenty_keys};
use crate::sending::{Came, is_broken, of_reply};
use crate::texts::{EXCHANGE, IN_USE, ROTATION};
use crate::trials::calls_of_opening;
use register_desk::{End, Finish};
use std::alloc::Global;
use std::test::Fail;
use test_desk_trials::{Call, Called, Seen, TriedDesk, make_call};
use test_faulty_devices::Plan;

/// More reads than any of the calls makes.
const MAX_READS: u64 = 5000;

/// A call that reads the register.
#[derive(Clone, Copy, Debug, PartialEq, Eq)]
pub enum Look {
    Show,
    Usage,
    /// The usage, by an exchange.
    Get,
    Keys,
    /// Up to 600.
    Due,
    Export,
    Report,
}

/// All of them.
static LOOKS: [Look; 7] = [
    Look::Show,
    Look::Usage,
    Look::Get,
    Look::Keys,
    Look::Due,
    Look::Export,
    Look::Report,
];

const GET: &[u8] = b"GET /keys/7/usage HTTP/1.1\r\nHost: localhost\r\n\r\n";

/// The texts of the register.
#[derive(Drop)]
struct Texts {
    export: String,
    report: String,
}

/// What came of a table with this text.
fn of_table(called: &Called, text: &str) -> Seen {
    let (outcome, bytes) = (called.outcome, called.output.as_slice());
    let is_counted = outcome.read == 0
        && outcome.replies == 0
        && outcome.written == bytes.len() as u64;
    match outcome.end {
        Finish::AtEnd { rest: 0 } if is_counted && bytes == text.as_bytes() => Seen::Whole,
        Finish::Ended(End::Store)
            if is_counted && bytes.contains(&b'\n') && text.as_bytes().starts_with(bytes) => {
            Seen::Refused
        }
        _ => Seen::Wrong,
    }
}

/// What came of a look by an exchange.
fn of_exchange(called: &Called) -> Seen {
    match of_reply(called, IN_USE) {
        Came::Whole => Seen::Whole,
        Came::Refused(_) => Seen::Refused,
        Came::Wrong => Seen::Wrong,
    }
}

fn look_at<D: TriedDesk>(alloc: Global, desk: &mut D, texts: &Texts, look: Look) -> Seen {
    match look {
        Look::Show => desk.see_key(7),
        Look::Usage => desk.see_usage(7),
        Look::Get => of_exchange(&make_call(alloc, desk, EXCHANGE, GET)),
        Look::Keys => desk.see_keys(&ALL),
        Look::Due => desk.see_due(600, &DUE),
        Look::Export => of_table(&make_call(alloc, desk, Call::Export, b""), &texts.export),
        Look::Report => of_table(&make_call(alloc, desk, ROTATION, b""), &texts.report),
    }
}

/// Whether a desk of which a look was refused is as it should be: broken by a look at one key, and
/// else as it was.
fn goes_on<D: TriedDesk>(alloc: Global, desk: &mut D, texts: &Texts, looked: Look) -> bool {
    match looked {
        Look::Show | Look::Usage | Look::Get => is_broken(alloc, desk),
        _ => {
            look_at(alloc, desk, texts, looked) == Seen::Whole
                && is_answered(alloc, desk, "200 zed 1 advance\n", "ok 0 - 200\n")
        }
    }
}

/// Looks at the register: what is seen, or that it is wrong what comes after a look that was
/// refused.
#[derive(Drop)]
struct Looking<'a> {
    texts: &'a Texts,
    looked: Look,
}

impl DeskTask for Looking<'_> {
    type Outcome = Seen;

    fn perform<D: TriedDesk>(&self, alloc: Global, desk: &mut D) -> Result<Seen, Fail> {
        let seen = look_at(alloc, desk, self.texts, self.looked);
        let is_good = seen != Seen::Refused || goes_on(alloc, desk, self.texts, self.looked);
        Ok(if is_good { seen } else { Seen::Wrong })
    }
}

/// Lets each read after the opening fail in turn. Gives how many the look was refused for, or as an
/// error how many were before the one at which it went otherwise.
fn refusals(
    lab: Lab,
    files: &Contents,
    texts: &Texts,
    looked: Look,
    fault: Fault,
) -> Result<Result<u64, u64>, Fail> {
    let first = calls_of_opening(lab, files, fault)?;
    let looking = Looking { texts, looked };
    for before in first..MAX_READS {
        let (seen, left) = lab.try_out_at_desk(files, fault.at(before), Entry::Opening, &looking)?;
        match (seen, left.has_failed) {
            (Ok(Seen::Whole), false) => return Ok(Ok(before.saturating_sub(first))),
            (Ok(Seen::Refused), true) => {}
            _ => return Ok(Err(before)),
        }
    }
    Ok(Err(MAX_READS))
}

/// The first place of a file of which a read in this look does not fail as it should, or of which
/// too few are read.
fn place_not_refused(
    lab: Lab,
    files: &Contents,
    texts: &Texts,
    looked: Look,
) -> Result<Option<FaultPlace>, Fail> {
    // What was copied into the database file is read there. The log may have nothing that a look at
    // one key needs.
    for (place, least) in [(FaultPlace::Log, 0), (FaultPlace::Database, 1)] {
        let fault = Fault {
            place,
            plan: Plan::FailRead(0),
        };
        match refusals(lab, files, texts, looked, fault)? {
            Ok(count) if count >= least => {}
            _ => return Ok(Some(place)),
        }
    }
    Ok(None)
}

/// The first look of which a read does not fail as it should, with the place of the file.
pub fn look_at_fault(alloc: Global) -> Result<Option<(Look, FaultPlace)>, Fail> {
    let lab = Lab::new(alloc);
    let files = twenty_keys(lab)?;
    let texts = Texts {
        export: export_text(lab.alloc)?,
        report: report_text(lab.alloc)?,
    };
    for looked in &LOOKS {
        if let Some(place) = place_not_refused(lab, &files, &texts, *looked)? {
            return Ok(Some((*looked, place)));
        }
    }
    Ok(None)
}
