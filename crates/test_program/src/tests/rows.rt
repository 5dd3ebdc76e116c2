//! The worked rows of docs/WORKED.md that are request lines, each served by the program over no file.
//! checks/program/worked.py reads them on that page.
use super::acting::succeeds;
use std::alloc::Global;
use std::test::Fail;

/// A request line and its reply line, each without its LF. What has no reply is no line: it stands
/// after the last LF.
type Exchange = (&'static str, &'static str);

/// A name, and a run over an empty register.
type WorkedRow = (&'static str, &'static [Exchange]);

// Lines that several rows begin with: that of *defaults*; a key, two custodians who both approve of
// its destruction, and its compromise.
#[rattlefmt::skip]
const DEFAULTS: Exchange = ("100 ann 1 register data-encryption bob 0 - - payroll disks", "ok 1 Active 100");

#[rattlefmt::skip]
const REGISTERED: Exchange = ("100 ann 1 register master bob - - - spare", "ok 1 Pre-Active 100");

const CAT_ADDED: Exchange = ("101 bob 1 add-custodian 1 cat", "ok 1 Pre-Active 101");

const DAN_ADDED: Exchange = ("102 bob 2 add-custodian 1 dan", "ok 1 Pre-Active 102");

const CAT_APPROVES: Exchange = ("103 cat 1 approve 1", "ok 1 Pre-Active 103");

const DAN_APPROVES: Exchange = ("104 dan 1 approve 1", "ok 1 Pre-Active 104");

const COMPROMISED: Exchange = ("105 zed 1 revoke 1 3 50", "ok 1 Compromised 105");

/// Rows on lines, moments and the order of dates.
#[rattlefmt::skip]
static LINES: [WorkedRow; 6] = [
    ("first day", &[
        ("100 ann 1 register data-encryption bob 0 500 1000 payroll disks", "ok 1 Active 100"),
        ("999 ann 2 advance", "ok 0 - 999"),
        ("1000 ann 3 register data-encryption bob 0 500 1000 old disks", "ok 2 Deactivated 1000"),
        ("999 ann 4 advance", "refused 3 MomentBehind latest=1000"),
    ]),
    ("activated and deactivated at once", &[
        ("100 ann 1 register master bob 200 300 300 x", "ok 1 Pre-Active 100"),
        ("400 ann 2 advance", "ok 0 - 400"),
    ]),
    ("nothing", &[]),
    ("not a request", &[
        ("253402300800 ann 1 advance", "refused 1 BadLine"),
        ("0100 ann 1 advance", "refused 1 BadLine"),
        ("100 ann 1 advance", ""),
    ]),
    ("two spaces", &[("100 ann 1  advance", "refused 1 BadLine")]),
    ("dates out of order", &[("100 ann 1 register master bob 500 400 600 x", "refused 9 DateOrder")]),
];

/// Rows on requests that come again, and on a deactivation.
#[rattlefmt::skip]
static REPEATS: [WorkedRow; 6] = [
    ("defaults", &[DEFAULTS]),
    ("repeated with an earlier moment", &[
        DEFAULTS,
        ("50 ann 1 register data-encryption bob 0 - - payroll disks", "ok 1 Active 100"),
    ]),
    ("number used again", &[
        DEFAULTS,
        ("100 ann 1 register data-encryption bob 0 - - other", "refused 2 RequestReused"),
        ("99 ann 1 advance", "refused 2 RequestReused"),
        ("100 bob 1 advance", "ok 0 - 100"),
    ]),
    ("number of a refused request", &[
        DEFAULTS,
        ("99 ann 2 advance", "refused 3 MomentBehind latest=100"),
        ("101 ann 2 assign 1 ann", "refused 5 NotOwner"),
        ("101 ann 2 advance", "ok 0 - 101"),
        ("99 ann 2 advance", "ok 0 - 101"),
    ]),
    ("to the day of the deactivation", &[DEFAULTS, ("157766399 ann 3 advance", "ok 0 - 157766399")]),
    ("on the day of the deactivation", &[
        DEFAULTS,
        ("157766399 ann 3 advance", "ok 0 - 157766399"),
        ("157766400 ann 4 advance", "ok 0 - 157766400"),
    ]),
];

/// Rows on usage periods.
#[rattlefmt::skip]
static PERIODS: [WorkedRow; 6] = [
    ("leap day", &[
        ("1709164800 ann 1 register private-signature eve 1709164800 - - code signing", "ok 1 Active 1709164800"),
    ]),
    ("period too long", &[
        ("100 ann 1 register data-encryption bob 0 63072001 - x", "refused 10 PeriodTooLong limit=63072000"),
        ("100 ann 2 register data-encryption bob 0 63072000 - x", "ok 1 Active 100"),
    ]),
    ("protect stop at the deactivation", &[("100 ann 1 register master bob 50 - 50 spare", "ok 1 Deactivated 100")]),
    ("past the range", &[
        ("253402300799 ann 1 register data-encryption bob 253402300799 - - x", "refused 11 DateRange"),
        (
            "253402300799 ann 2 register data-encryption bob 253402300799 253402300799 253402300799 x",
            "ok 1 Deactivated 253402300799",
        ),
    ]),
    ("order before period", &[("100 ann 1 register master bob 0 40000000 30000000 x", "refused 9 DateOrder")]),
    ("originator's limit", &[
        ("100 ann 1 register master bob 0 40000000 - x", "refused 10 PeriodTooLong limit=31536000"),
    ]),
];

/// Rows on the limits of dates.
#[rattlefmt::skip]
static LIMITS: [WorkedRow; 6] = [
    ("recipient's limit", &[
        ("100 ann 1 register data-encryption bob 0 - 157766401 x", "refused 10 PeriodTooLong limit=157766400"),
    ]),
    ("recipient's limit without activation", &[
        ("100 ann 1 register master bob - 10 11 x", "refused 10 PeriodTooLong limit=10"),
    ]),
    ("protect stop alone", &[("100 ann 1 register master bob - 10 - x", "ok 1 Pre-Active 100")]),
    ("activated at the deactivation", &[
        ("100 ann 1 register master bob - - 100 x", "ok 1 Pre-Active 100"),
        ("100 bob 1 activate 1", "ok 1 Deactivated 100"),
    ]),
    ("activated after the deactivation", &[
        ("100 ann 1 register master bob - - 100 x", "ok 1 Pre-Active 100"),
        ("101 bob 1 activate 1", "refused 9 DateOrder"),
    ]),
    ("trimmed", &[
        ("100 ann 1 register master bob - 40000000 - x", "ok 1 Pre-Active 100"),
        ("200 bob 1 activate 1", "ok 1 Active 200"),
    ]),
];

/// Rows on states, and on dates that are set.
#[rattlefmt::skip]
static STATES: [WorkedRow; 6] = [
    ("compromised before its activation", &[
        ("300 ann 1 register data-encryption bob 500 - - x", "ok 1 Pre-Active 300"),
        ("400 zed 1 revoke 1 2 -", "ok 1 Compromised 400"),
        ("600 ann 2 advance", "ok 0 - 600"),
    ]),
    ("revoked before its activation", &[
        ("100 ann 1 register master bob 1000 - - x", "ok 1 Pre-Active 100"),
        ("200 bob 1 revoke 1 5 -", "refused 7 WrongState state=Pre-Active"),
    ]),
    ("dates set", &[
        ("100 ann 1 register master bob 1000 2000 2000 x", "ok 1 Pre-Active 100"),
        ("200 bob 1 set 1 = 3000 -", "ok 1 Pre-Active 200"),
        ("1000 bob 2 set 1 1200 = =", "refused 8 DateFrozen"),
        ("3000 bob 2 set 1 = 3500 -", "refused 7 WrongState state=Deactivated"),
    ]),
    ("protect stop frozen", &[
        ("100 ann 1 register data-encryption bob 0 500 1000 x", "ok 1 Active 100"),
        ("500 bob 1 set 1 = 600 =", "refused 8 DateFrozen"),
        ("499 bob 1 set 1 = 600 =", "ok 1 Active 499"),
        ("550 bob 2 revoke 1 5 -", "ok 1 Deactivated 550"),
    ]),
    ("activated early", &[
        ("100 ann 1 register data-encryption bob 1000 - - x", "ok 1 Pre-Active 100"),
        ("400 bob 1 activate 1", "ok 1 Active 400"),
    ]),
    ("refused to strangers", &[
        DEFAULTS,
        ("200 zed 1 assign 1 zed", "refused 5 NotOwner"),
        ("200 zed 1 approve 1", "refused 6 NotCustodian"),
        ("200 zed 1 activate 9", "refused 4 UnknownKey"),
        ("200 zed 1 revoke 1 2 201", "refused 19 OccurrenceLater"),
        ("200 bob 1 revoke 1 5 100", "refused 1 BadLine"),
    ]),
];

/// Rows on owners, custodians and approvals.
#[rattlefmt::skip]
static CUSTODY: [WorkedRow; 6] = [
    ("assigned", &[
        ("100 ann 1 register master bob 50 - 50 spare", "ok 1 Deactivated 100"),
        ("200 bob 1 assign 1 eve", "ok 1 Deactivated 200"),
        ("300 bob 2 assign 1 bob", "refused 5 NotOwner"),
        ("300 eve 1 assign 1 bob", "ok 1 Deactivated 300"),
    ]),
    ("one approval is too few", &[
        ("100 ann 1 register master bob 1000 2000 2000 root", "ok 1 Pre-Active 100"),
        CAT_ADDED, DAN_ADDED, CAT_APPROVES,
        ("1500 ann 2 advance", "ok 0 - 1500"),
        ("2000 bob 3 destroy 1", "refused 18 ApprovalsMissing have=1 need=2"),
        ("1999 bob 4 destroy 1", "refused 7 WrongState state=Active"),
    ]),
    ("approved anew by one who was removed", &[
        REGISTERED, CAT_ADDED, DAN_ADDED, CAT_APPROVES, DAN_APPROVES,
        ("105 bob 3 remove-custodian 1 dan", "ok 1 Pre-Active 105"),
        ("106 bob 4 destroy 1", "refused 18 ApprovalsMissing have=1 need=2"),
        ("106 bob 4 add-custodian 1 dan", "ok 1 Pre-Active 106"),
        ("107 dan 2 approve 1", "ok 1 Pre-Active 107"),
        ("108 bob 5 destroy 1", "ok 1 Destroyed 108"),
        ("109 zed 1 revoke 1 2 -", "ok 1 Destroyed-Compromised 109"),
    ]),
    ("sixteen custodians", &[
        REGISTERED,
        ("100 bob 1 add-custodian 1 kim", "ok 1 Pre-Active 100"),
        ("100 bob 2 add-custodian 1 joe", "ok 1 Pre-Active 100"),
        ("100 bob 3 add-custodian 1 ian", "ok 1 Pre-Active 100"),
        ("100 bob 4 add-custodian 1 hal", "ok 1 Pre-Active 100"),
        ("100 bob 5 add-custodian 1 gil", "ok 1 Pre-Active 100"),
        ("100 bob 6 add-custodian 1 fay", "ok 1 Pre-Active 100"),
        ("100 bob 7 add-custodian 1 dan", "ok 1 Pre-Active 100"),
        ("100 bob 8 add-custodian 1 cat", "ok 1 Pre-Active 100"),
        ("100 bob 9 add-custodian 1 max", "ok 1 Pre-Active 100"),
        ("100 bob 10 add-custodian 1 nat", "ok 1 Pre-Active 100"),
        ("100 bob 11 add-custodian 1 oda", "ok 1 Pre-Active 100"),
        ("100 bob 12 add-custodian 1 pam", "ok 1 Pre-Active 100"),
        ("100 bob 13 add-custodian 1 ron", "ok 1 Pre-Active 100"),
        ("100 bob 14 add-custodian 1 sal", "ok 1 Pre-Active 100"),
        ("100 bob 15 add-custodian 1 tom", "ok 1 Pre-Active 100"),
        ("100 bob 16 add-custodian 1 una", "ok 1 Pre-Active 100"),
        ("100 bob 17 add-custodian 1 lea", "refused 14 TooManyCustodians"),
    ]),
    ("the owner as custodian", &[
        REGISTERED, CAT_ADDED,
        ("102 bob 2 add-custodian 1 bob", "refused 15 OwnerCustodian"),
        ("102 bob 2 add-custodian 1 cat", "refused 12 AlreadyCustodian"),
        ("102 bob 2 remove-custodian 1 dan", "refused 13 NoSuchCustodian"),
    ]),
    ("compromise ends the approvals", &[REGISTERED, CAT_ADDED, DAN_ADDED, CAT_APPROVES, DAN_APPROVES, COMPROMISED]),
];

/// A usage period that the office sets, and destructions.
#[rattlefmt::skip]
static OTHERS: [WorkedRow; 3] = [
    ("a period set by the office", &[
        DEFAULTS,
        ("200 zed 1 set-period data-encryption 12 36", "refused 21 NotOffice"),
        ("200 office 1 set-period data-encryption 12 36", "ok 0 - 200"),
        ("300 ann 2 register data-encryption bob 0 63072000 - x", "refused 10 PeriodTooLong limit=31536000"),
        ("300 ann 2 register data-encryption bob 0 - - x", "ok 2 Active 300"),
        ("400 bob 1 set 1 = = 150000000", "refused 10 PeriodTooLong limit=31536000"),
    ]),
    ("destroyed after a compromise", &[
        REGISTERED, CAT_ADDED, DAN_ADDED, CAT_APPROVES, DAN_APPROVES, COMPROMISED,
        ("106 bob 3 destroy 1", "refused 18 ApprovalsMissing have=0 need=2"),
        ("106 cat 2 approve 1", "ok 1 Compromised 106"),
        ("107 dan 2 approve 1", "ok 1 Compromised 107"),
        ("107 dan 3 approve 1", "refused 16 AlreadyApproved"),
        ("107 dan 3 withdraw 1", "ok 1 Compromised 107"),
        ("107 dan 4 withdraw 1", "refused 17 NoApproval"),
        ("107 dan 4 approve 1", "ok 1 Compromised 107"),
        ("108 bob 4 destroy 1", "ok 1 Destroyed-Compromised 108"),
        ("109 dan 5 withdraw 1", "refused 7 WrongState state=Destroyed-Compromised"),
        ("110 bob 5 assign 1 cat", "refused 15 OwnerCustodian"),
    ]),
    ("three approvals asked for", &[
        REGISTERED, CAT_ADDED, DAN_ADDED,
        ("103 bob 3 set-quorum 1 3", "ok 1 Pre-Active 103"),
        ("104 cat 1 approve 1", "ok 1 Pre-Active 104"),
        ("105 dan 1 approve 1", "ok 1 Pre-Active 105"),
        ("106 bob 4 destroy 1", "refused 18 ApprovalsMissing have=2 need=3"),
        ("106 bob 4 set-quorum 1 2", "ok 1 Pre-Active 106"),
        ("107 bob 5 destroy 1", "ok 1 Destroyed 107"),
        ("108 bob 6 set-quorum 1 6", "refused 1 BadLine"),
    ]),
];

fn lines() -> &'static [WorkedRow] {
    &LINES
}

fn repeats() -> &'static [WorkedRow] {
    &REPEATS
}

fn periods() -> &'static [WorkedRow] {
    &PERIODS
}

fn limits() -> &'static [WorkedRow] {
    &LIMITS
}

fn states() -> &'static [WorkedRow] {
    &STATES
}

fn custody() -> &'static [WorkedRow] {
    &CUSTODY
}

fn others() -> &'static [WorkedRow] {
    &OTHERS
}

/// What a run over the lines is given, and what it writes.
fn input_and_output(alloc: Global, lines: &[Exchange]) -> Result<(String, String), Fail> {
    let mut input = String::new(alloc);
    let mut output = String::new(alloc);
    for (request, reply) in lines {
        let end = if reply.is_empty() { "" } else { "\n" };
        write!(input, "{request}{end}")?;
        write!(output, "{reply}{end}")?;
    }
    Ok((input, output))
}

/// Whether the program serves the lines and ends with status 0, with nothing on standard error.
fn is_served(rt: &HostRuntime, lines: &[Exchange]) -> Result<bool, Fail> {
    let (input, output) = input_and_output(rt.alloc(), lines)?;
    succeeds(rt, &[], input.as_bytes(), output.as_bytes())
}

/// Which of these rows is not served so, if one is not.
fn fault_in(rt: &HostRuntime, rows: &'static [WorkedRow]) -> Result<Option<&'static str>, Fail> {
    for (name, lines) in rows {
        if !is_served(rt, lines)? {
            return Ok(Some(name));
        }
    }
    Ok(None)
}

/// The tables. A function that names one writes it out, and one of all rows is past the checker's
/// steps.
fn tables() -> [&'static [WorkedRow]; 7] {
    [
        lines(),
        repeats(),
        periods(),
        limits(),
        states(),
        custody(),
        others(),
    ]
}

/// Which of all rows is not served so, if one is not.
fn worked_row_at_fault(rt: &HostRuntime) -> Result<Option<&'static str>, Fail> {
    for rows in tables() {
        if let Some(name) = fault_in(rt, rows)? {
            return Ok(Some(name));
        }
    }
    Ok(None)
}

#[test]
fn worked_rows_are_served(rt: HostRuntime) -> Result<(), Fail> {
    assert_eq!(rt; worked_row_at_fault(&rt)?, None);
    Ok(())
}
