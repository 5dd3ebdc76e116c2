//! Registers in files of the machine: each command of the program over them, over several lives, and
//! over one that was changed beside it. What else the words may be, checks/program/words.py has.
use super::acting::{acted, edit, fails, succeeds};
use std::fs;
use std::test::Fail;
use test_desk_trials::{Cells, export_of};

/// Takes the file and its log away, where they are there.
pub fn remove(rt: &HostRuntime, file: &str) -> Result<(), Fail> {
    let _ = fs::remove_file(rt, file);
    let log = format!(in rt.alloc(); "{file}-wal")?;
    let _ = fs::remove_file(rt, log.as_str());
    Ok(())
}

/// Makes a register in the file, in the place of what was there.
pub fn is_made(rt: &HostRuntime, file: &str) -> Result<bool, Fail> {
    remove(rt, file)?;
    succeeds(rt, &["init", "--file", file], b"", b"")
}

/// What the program is given, and what it does.
#[derive(Clone, Copy)]
struct Act {
    words: &'static [&'static str],
    input: &'static [u8],
    status: u8,
    output: &'static str,
    faults: &'static str,
}

/// The request of *defaults*, and the same at 50.
const DEFAULTS: &[u8] = b"100 ann 1 register data-encryption bob 0 - - payroll disks\n";

const AGAIN: &[u8] = b"50 ann 1 register data-encryption bob 0 - - payroll disks\n";

/// The table of the worked row *imported*.
const IMPORTED: &[u8] =
    b"type,owner,activation,protect_stop,deactivation,purpose\ndata-encryption,bob,1970-01-01T00:00:00Z,,,\"disks, payroll\"\nmaster,bob,1970-01-01,,,x\n";

const REPLIES: &str = "ok 1 Active 100\nrefused 1 BadLine\n";

/// Lives of two files, one after the other. Each call of a command over a file is made here once.
#[rattlefmt::skip]
static ACTS: [Act; 11] = [
    // A register is made once. A request comes again in a later life.
    Act { words: &["init", "--file", "defaults.keyreg"], input: b"", status: 0, output: "", faults: "" },
    Act { words: &["init", "--file", "defaults.keyreg"], input: b"", status: 2, output: "", faults: "keyreg: NotARegister\n" },
    Act { words: &["run", "--file", "defaults.keyreg"], input: DEFAULTS, status: 0, output: "ok 1 Active 100\n", faults: "" },
    Act { words: &["run", "--file", "defaults.keyreg"], input: AGAIN, status: 0, output: "ok 1 Active 100\n", faults: "" },
    // The worked rows *due in 730 days* and *due in 729 days*.
    Act { words: &["report", "--file", "defaults.keyreg", "--days", "730"], input: b"", status: 0, faults: "",
        output: "Keys due for rotation by 1972-01-01T00:01:40Z\n      1  1972-01-01T00:00:00Z  due      data-encryption         bob  payroll disks\ntotal 1\n" },
    Act { words: &["report", "--file", "defaults.keyreg", "--days", "729"], input: b"", status: 0, faults: "",
        output: "Keys due for rotation by 1971-12-31T00:01:40Z\ntotal 0\n" },
    // The worked rows *imported* and *imported without a header*.
    Act { words: &["init", "--file", "imported.keyreg"], input: b"", status: 0, output: "", faults: "" },
    Act { words: &["import", "--file", "imported.keyreg", "--moment", "100", "--caller", "ann", "--first", "1"],
        input: IMPORTED, status: 0, output: REPLIES, faults: "" },
    Act { words: &["import", "--file", "imported.keyreg", "--moment", "200", "--caller", "ann", "--first", "1"],
        input: IMPORTED, status: 0, output: REPLIES, faults: "" },
    Act { words: &["import", "--file", "imported.keyreg", "--moment", "300", "--caller", "ann", "--first", "3"],
        input: b"master,bob,,,,a\n", status: 4, output: "", faults: "keyreg: BadHeader\n" },
    // No file.
    Act { words: &["run", "--file", "none.keyreg"], input: b"", status: 2, output: "", faults: "keyreg: Store\n" },
];

/// The place of an act that does not go as it should, if there is one.
fn wrong_act(rt: &HostRuntime) -> Result<Option<usize>, Fail> {
    for (place, act) in ACTS.iter().enumerate() {
        let done = acted(rt, act.words, act.input)?;
        if !done.is(act.status, act.output.as_bytes(), act.faults) {
            return Ok(Some(place));
        }
    }
    Ok(None)
}

/// Whether the file's keys are exported so.
fn is_exported(rt: &HostRuntime, file: &str, keys: &[Cells<'_>]) -> Result<bool, Fail> {
    let text = export_of(rt.alloc(), keys)?;
    succeeds(rt, &["export", "--file", file], b"", text.as_bytes())
}

/// Whether a word that is no command is told so, with status 1.
fn is_no_command(rt: &HostRuntime) -> Result<bool, Fail> {
    let done = acted(rt, &["show"], DEFAULTS)?;
    let first_line = b"error: unrecognized subcommand 'show'\n".as_slice();
    let is_told = done.faults.as_slice().starts_with(first_line);
    Ok(done.status == 1 && done.output.is_empty() && is_told)
}

/// Takes both files away.
fn remove_both(rt: &HostRuntime) -> Result<(), Fail> {
    remove(rt, "defaults.keyreg")?;
    remove(rt, "imported.keyreg")
}

/// The cells of the worked row *exported*.
const EXPORTED: Cells<'static> = &[("purpose", "\"disks, payroll\"")];

#[test]
fn lives_of_files(rt: HostRuntime) -> Result<(), Fail> {
    remove_both(&rt)?;
    assert_eq!(rt; wrong_act(&rt)?, None);
    assert!(rt; is_exported(&rt, "imported.keyreg", &[EXPORTED])?);
    assert!(rt; is_no_command(&rt)?);
    remove_both(&rt)
}

/// Makes the register of *defaults* in the file.
fn is_defaults(rt: &HostRuntime, file: &str) -> Result<bool, Fail> {
    let run = ["run", "--file", file];
    Ok(is_made(rt, file)? && succeeds(rt, &run, DEFAULTS, b"ok 1 Active 100\n")?)
}

/// Changes of the register of *defaults*, and what a run is refused by then.
static CHANGES: [(&str, &str); 2] = [
    ("UPDATE keys SET state = 5", "keyreg: NotARegister\n"),
    ("UPDATE meta SET version = 7", "keyreg: NewerVersion\n"),
];

/// Whether a run over this register after the change is refused with this name, and leaves the file
/// byte for byte.
fn is_left(
    rt: &HostRuntime,
    file: &str,
    register: &[u8],
    change: &str,
    fault: &str,
) -> Result<bool, Fail> {
    remove(rt, file)?;
    fs::write(rt, file, register)?;
    edit(rt, file, change)?;
    let before = fs::read(rt, file)?;
    let is_refused = fails(rt, &["run", "--file", file], DEFAULTS, 2, fault)?;
    Ok(is_refused && fs::read(rt, file)?.as_slice() == before.as_slice())
}

/// The change after which the register is not refused and left so, if there is one.
fn change_not_left(rt: &HostRuntime, file: &str) -> Result<Option<&'static str>, Fail> {
    if !is_defaults(rt, file)? {
        return Ok(Some("none"));
    }
    let register = fs::read(rt, file)?;
    for (change, fault) in &CHANGES {
        if !is_left(rt, file, &register, change, fault)? {
            return Ok(Some(change));
        }
    }
    Ok(None)
}

#[test]
fn a_changed_file_is_left_as_it_is(rt: HostRuntime) -> Result<(), Fail> {
    let file = "changed.keyreg";
    assert_eq!(rt; change_not_left(&rt, file)?, None);
    remove(&rt, file)
}

/// Whether the program answers a hundred lines, with which the owner gives the key to itself, behind
/// this many hundreds.
fn is_hundred_answered(rt: &HostRuntime, file: &str, before: u8) -> Result<bool, Fail> {
    let mut lines = String::new(rt.alloc());
    let mut replies = String::new(rt.alloc());
    for place in 1..=100u64 {
        let number = 100 * u64::from(before) + place;
        writeln!(lines, "{} bob {number} assign 1 bob", 100 + number)?;
        writeln!(replies, "ok 1 Active {}", 100 + number)?;
    }
    succeeds(
        rt,
        &["run", "--file", file],
        lines.as_bytes(),
        replies.as_bytes(),
    )
}

/// Runs three hundred lines over the file, a life for each hundred, and again. Gives the first life
/// that does not write what it should.
fn wrong_hundred(rt: &HostRuntime, file: &str) -> Result<Option<u8>, Fail> {
    for before in [0, 1, 2, 0, 1, 2] {
        if !is_hundred_answered(rt, file, before)? {
            return Ok(Some(before));
        }
    }
    Ok(None)
}

/// Whether the register in the file is at moment 400, and its key that of *defaults* still.
fn is_lived(rt: &HostRuntime, file: &str) -> Result<bool, Fail> {
    let lines = b"399 zed 9 advance\n500 zed 1 destroy 1\n";
    let replies = b"refused 3 MomentBehind latest=400\nrefused 5 NotOwner\n";
    Ok(
        succeeds(
            rt,
            &["run", "--file", file],
            lines.as_slice(),
            replies.as_slice(),
        )? && is_exported(rt, file, &[&[]])?,
    )
}

#[test]
fn three_hundred_lines_in_lives_of_a_file(rt: HostRuntime) -> Result<(), Fail> {
    let file = "lives.keyreg";
    assert!(rt; is_defaults(&rt, file)?);
    assert_eq!(rt; wrong_hundred(&rt, file)?, None);
    assert!(rt; is_lived(&rt, file)?);
    remove(&rt, file)
}
