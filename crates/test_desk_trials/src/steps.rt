//! How many steps of the database each command takes: its calls, and the rows that they hand out.
use crate::calls::Call;
use crate::memory_desk::MemoryDesk;
use std::alloc::Global;
use std::test::Fail;

/// A day on which each command is accepted, the reply lines, and the steps of each by the statements
/// that docs/SPECIFICATION.md has. A search for what is kept takes 1 where nothing is, a transaction
/// 2, the two updates of due keys 2, the request's row and that of meta 2. A command that names a
/// key takes 2 to read it and 1 to change it; one that looks at custody 1 more for each list and for
/// each name in it; a destruction 2 more to read the need that is set; one that changes custody 1
/// more, and one that sets the need 2 more. A registration, an activation and a change of dates take
/// 1 more to look for the period of the type, which is not set, and a command that sets it 2 more.
#[rattlefmt::skip]
static DAY: [(&str, &str, u64); 18] = [
    ("100 ann 1 register master bob 1000 2000 2000 root", "ok 1 Pre-Active 100", 9),
    ("101 bob 1 add-custodian 1 cat", "ok 1 Pre-Active 101", 13),
    ("102 bob 2 add-custodian 1 dan", "ok 1 Pre-Active 102", 14),
    ("103 bob 3 add-custodian 1 eve", "ok 1 Pre-Active 103", 15),
    ("104 bob 4 remove-custodian 1 eve", "ok 1 Pre-Active 104", 16),
    ("105 cat 1 approve 1", "ok 1 Pre-Active 105", 15),
    ("106 dan 1 approve 1", "ok 1 Pre-Active 106", 16),
    ("107 dan 2 withdraw 1", "ok 1 Pre-Active 107", 17),
    ("108 dan 3 approve 1", "ok 1 Pre-Active 108", 16),
    ("109 bob 5 set-quorum 1 2", "ok 1 Pre-Active 109", 12),
    ("110 bob 6 assign 1 fay", "ok 1 Pre-Active 110", 16),
    ("111 fay 1 set 1 1200 = =", "ok 1 Pre-Active 111", 11),
    ("112 fay 2 activate 1", "ok 1 Active 112", 11),
    ("113 fay 3 revoke 1 5 -", "ok 1 Deactivated 113", 10),
    ("114 fay 4 destroy 1", "ok 1 Destroyed 114", 18),
    ("115 zed 1 advance", "ok 0 - 115", 7),
    ("116 office 1 set-period master 24 12", "ok 0 - 116", 9),
    ("117 zed 2 revoke 1 2 50", "ok 1 Destroyed-Compromised 117", 10),
];

/// How many steps a run over the line takes, and what it writes.
fn steps_of(alloc: Global, desk: &mut MemoryDesk, line: &str) -> Result<(u64, Vec<u8>), Fail> {
    let before = desk.steps();
    let line = format!(in alloc; "{line}\n")?;
    let output = desk.replies(line.as_bytes());
    Ok((desk.steps().saturating_sub(before), output))
}

/// A line of the day that has another reply or takes other steps, if there is one, or where a new
/// desk has taken any.
pub fn row_of_day_at_fault(alloc: Global) -> Result<Option<&'static str>, Fail> {
    let mut desk = MemoryDesk::new(alloc)?;
    if desk.steps() != 0 {
        return Ok(Some(""));
    }
    for (line, reply, steps) in &DAY {
        let (taken, output) = steps_of(alloc, &mut desk, line)?;
        if taken != *steps || output.as_slice().strip_suffix(b"\n") != Some(reply.as_bytes()) {
            return Ok(Some(line));
        }
    }
    Ok(None)
}

/// The desk with a key of bob's of whose destruction sixteen custodians approve, with names as long
/// as they may be.
fn full_custody(alloc: Global) -> Result<MemoryDesk, Fail> {
    let mut lines = format!(in alloc; "100 ann 1 register master bob - - - root\n")?;
    for number in 11..27 {
        let name = format!(in alloc;
            "custodian-of-the-root-keys-of-the-second-site@hsm.example.org-{number}"
        )?;
        let line = format!(in alloc;
            "100 bob {number} add-custodian 1 {name}\n100 {name} 1 approve 1\n"
        )?;
        lines.push_str(line.as_str())?;
    }
    MemoryDesk::after(alloc, lines.as_bytes())
}

/// A line, and how many steps it takes after that.
#[rattlefmt::skip]
static BEHIND: [(&str, u64); 9] = [
    // A request that comes again, one whose number is reused, and one whose moment is below the
    // latest: the look-up alone.
    ("100 bob 11 add-custodian 1 custodian-of-the-root-keys-of-the-second-site@hsm.example.org-11", 2),
    ("100 bob 11 advance", 2),
    ("99 bob 31 activate 1", 1),
    // No such key, and not the owner.
    ("100 bob 31 activate 2", 2),
    ("100 eve 9 activate 1", 4),
    // No time has passed: no key is due.
    ("100 eve 9 advance", 5),
    ("100 bob 31 set 1 = = =", 9),
    // Both lists are full.
    ("101 bob 32 add-custodian 1 c17", 37),
    ("101 bob 33 remove-custodian 1 custodian-of-the-root-keys-of-the-second-site@hsm.example.org-26", 45),
];

/// A line that asks the database for more than it needs, if there is one.
pub fn line_of_other_steps(alloc: Global) -> Result<Option<&'static str>, Fail> {
    let mut desk = full_custody(alloc)?;
    for (line, steps) in &BEHIND {
        if steps_of(alloc, &mut desk, line)?.0 != *steps {
            return Ok(Some(line));
        }
    }
    Ok(None)
}

/// Protect Stop Dates of keys that are due, and the steps of an export of them and of a report on
/// them. An export takes for each row a search and the row; a report the same, one search more
/// after the last row of each date that several have, and the search that finds none; and one
/// before for the period of each of the seven types, of which none is set.
static ROWS: [(&[u64], u64, u64); 5] = [
    (&[], 0, 8),
    (&[700, 500, 600], 6, 14),
    (&[500, 500], 4, 13),
    (&[500, 500, 500, 600], 8, 17),
    (&[500, 600, 600, 700], 8, 17),
];

/// A desk with an Active key for each of these Protect Stop Dates.
fn desk_with(alloc: Global, stops: &[u64]) -> Result<MemoryDesk, Fail> {
    let mut lines = String::new(alloc);
    for (place, stop) in stops.iter().enumerate() {
        let line = format!(in alloc;
            "100 ann {} register data-encryption bob 0 {stop} 1000 disks\n",
            place + 1
        )?;
        lines.push_str(line.as_str())?;
    }
    MemoryDesk::after(alloc, lines.as_bytes())
}

/// How many steps an export takes, and a report after it.
fn table_steps(desk: &mut MemoryDesk) -> (u64, u64) {
    let before = desk.steps();
    let _ = desk.make_call(Call::Export, b"");
    let between = desk.steps();
    let _ = desk.make_call(Call::Rotation { days: 1 }, b"");
    let after = desk.steps();
    (
        between.saturating_sub(before),
        after.saturating_sub(between),
    )
}

/// How many keys an export or a report is of that takes other steps, if there is one.
pub fn table_of_other_steps(alloc: Global) -> Result<Option<usize>, Fail> {
    for (stops, export, report) in &ROWS {
        let mut desk = desk_with(alloc, stops)?;
        if table_steps(&mut desk) != (*export, *report) {
            return Ok(Some(stops.len()));
        }
    }
    Ok(None)
}
