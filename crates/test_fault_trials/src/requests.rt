//! The trials, as data.
use crate::files::Entry;
use crate::sending::Way;
use crate::texts::{IMPORT_ROWS, IMPORTED, KEY, LineAndReply, REGISTERED};
use crate::trials::Trial;

/// A day on which each command is accepted, of a ninth key. At each moment from 1100 to 2600 one of
/// the first eight has just been activated or deactivated by the time.
#[rattlefmt::skip]
pub static DAY: [LineAndReply; 30] = [
    ("100 ann 1 register data-encryption bob 1050 1100 1150 disks", "ok 1 Pre-Active 100"),
    ("100 ann 2 register data-encryption bob 1250 1300 1350 disks", "ok 2 Pre-Active 100"),
    ("100 ann 3 register data-encryption bob 1450 1500 1550 disks", "ok 3 Pre-Active 100"),
    ("100 ann 4 register data-encryption bob 1650 1700 1750 disks", "ok 4 Pre-Active 100"),
    ("100 ann 5 register data-encryption bob 1850 1900 1950 disks", "ok 5 Pre-Active 100"),
    ("100 ann 6 register data-encryption bob 2050 2100 2150 disks", "ok 6 Pre-Active 100"),
    ("100 ann 7 register data-encryption bob 2250 2300 2350 disks", "ok 7 Pre-Active 100"),
    ("100 ann 8 register data-encryption bob 2450 2500 2550 disks", "ok 8 Pre-Active 100"),
    ("1100 ann 9 register master bob 10000 20000 20000 root", "ok 9 Pre-Active 1100"),
    ("1200 bob 1 add-custodian 9 cat", "ok 9 Pre-Active 1200"),
    ("1300 bob 2 add-custodian 9 dan", "ok 9 Pre-Active 1300"),
    ("1400 dan 1 approve 9", "ok 9 Pre-Active 1400"),
    ("1500 bob 3 remove-custodian 9 dan", "ok 9 Pre-Active 1500"),
    ("1600 bob 4 add-custodian 9 dan", "ok 9 Pre-Active 1600"),
    ("1700 cat 1 approve 9", "ok 9 Pre-Active 1700"),
    ("1800 cat 2 withdraw 9", "ok 9 Pre-Active 1800"),
    ("1900 cat 3 approve 9", "ok 9 Pre-Active 1900"),
    ("2000 bob 5 assign 9 fay", "ok 9 Pre-Active 2000"),
    ("2100 fay 1 set 9 12000 = =", "ok 9 Pre-Active 2100"),
    ("2200 fay 2 activate 9", "ok 9 Active 2200"),
    ("2300 fay 3 revoke 9 5 -", "ok 9 Deactivated 2300"),
    ("2400 dan 2 approve 9", "ok 9 Deactivated 2400"),
    ("2400 fay 4 set-quorum 9 2", "ok 9 Deactivated 2400"),
    ("2500 fay 5 destroy 9", "ok 9 Destroyed 2500"),
    ("2600 zed 1 advance", "ok 0 - 2600"),
    ("2600 office 1 set-period data-encryption 12 36", "ok 0 - 2600"),
    ("2700 zed 2 revoke 9 2 50", "ok 9 Destroyed-Compromised 2700"),
    ("2800 bob 6 add-custodian 8 cat", "ok 8 Deactivated 2800"),
    ("2900 cat 4 approve 8", "ok 8 Deactivated 2900"),
    ("3000 zed 3 revoke 8 2 -", "ok 8 Compromised 3000"),
];

/// How many of its requests make the keys that time moves.
pub const FIRST_OF_DAY: usize = 8;

/// The place of its last request.
pub fn last_of_day() -> usize {
    DAY.len().saturating_sub(1)
}

/// One request of the day after those before it.
pub fn of_day(place: usize) -> Option<Trial> {
    let (before, others) = DAY.split_at_checked(place)?;
    let sent = others.get(..1)?;
    Some(Trial {
        name: "a request of the day",
        before,
        sent,
        way: Way::Lines,
        commits: 1,
    })
}

/// A register with the whole day is opened.
pub fn opening() -> Trial {
    Trial {
        name: "opening",
        before: &DAY,
        sent: &[],
        way: Way::Entry(Entry::Opening),
        commits: 0,
    }
}

/// The request of the worked row *defaults*.
const DEFAULTS: LineAndReply = (
    "100 ann 1 register data-encryption bob 0 - - payroll disks",
    "ok 1 Active 100",
);

/// The same with an earlier moment.
const AT_50: LineAndReply = (
    "50 ann 1 register data-encryption bob 0 - - payroll disks",
    "ok 1 Active 100",
);

/// The worked row *one approval is too few*, up to its refused Destroy, after which the key is
/// Active still.
#[rattlefmt::skip]
const ONE_APPROVAL: &[LineAndReply] = &[
    ("100 ann 1 register master bob 1000 2000 2000 root", "ok 1 Pre-Active 100"),
    ("101 bob 1 add-custodian 1 cat", "ok 1 Pre-Active 101"),
    ("102 bob 2 add-custodian 1 dan", "ok 1 Pre-Active 102"),
    ("103 cat 1 approve 1", "ok 1 Pre-Active 103"),
    ("1500 ann 2 advance", "ok 0 - 1500"),
];

#[rattlefmt::skip]
const TOO_FEW: LineAndReply = ("2000 bob 3 destroy 1", "refused 18 ApprovalsMissing have=1 need=2");

/// Five lines, one of which is no request; time moves two keys in the last.
#[rattlefmt::skip]
const FIVE: &[LineAndReply] = &[
    ("100 ann 2 register master bob 500 600 600 root", "ok 2 Pre-Active 100"),
    ("101 bob 1 add-custodian 2 cat", "ok 2 Pre-Active 101"),
    ("101 bob  2 advance", "refused 1 BadLine"),
    ("102 cat 1 approve 2", "ok 2 Pre-Active 102"),
    ("1000 zed 1 advance", "ok 0 - 1000"),
];

/// The POST of the registration.
const POST: &str =
    "POST /requests HTTP/1.1\r\nHost: localhost\r\nCaller: ann\r\nRequest-Number: 1\r\n\
    Content-Length: 121\r\n\r\n{\"kind\":\"register\",\"type\":\"master\",\"owner\":\"bob\",\"activation\":null,\
    \"protect_stop\":null,\"deactivation\":null,\"purpose\":\"x\"}";

/// The reply to it.
const POSTED: &str = "HTTP/1.1 200 OK\r\nContent-Type: application/json\r\nContent-Length: 43\r\n\
    Connection: close\r\n\r\n{\"key\":2,\"moment\":100,\"state\":\"Pre-Active\"}";

/// The beginnings: a register is made; that of *defaults* in a file of the first version is opened;
/// and the worked row of stops, which is the request of *defaults* over a disk that stops.
#[rattlefmt::skip]
pub static BEGINNINGS: [Trial; 3] = [
    Trial { name: "creation", before: &[], sent: &[], way: Way::Entry(Entry::Creation), commits: 1 },
    Trial { name: "migration", before: &[DEFAULTS], sent: &[], way: Way::Entry(Entry::Migration), commits: 1 },
    Trial { name: "worked row of stops", before: &[], sent: &[DEFAULTS], way: Way::Lines, commits: 1 },
];

/// One request each.
#[rattlefmt::skip]
pub static SINGLE: [Trial; 3] = [
    Trial { name: "repeat", before: &[DEFAULTS], sent: &[AT_50], way: Way::Lines, commits: 0 },
    Trial { name: "refused destroy", before: ONE_APPROVAL, sent: &[TOO_FEW], way: Way::Lines, commits: 0 },
    Trial { name: "exchange", before: KEY, sent: &[REGISTERED], way: Way::Post(POST, POSTED), commits: 1 },
];

/// Several requests each.
#[rattlefmt::skip]
pub static SEVERAL: [Trial; 2] = [
    Trial { name: "five lines", before: KEY, sent: FIVE, way: Way::Lines, commits: 4 },
    Trial { name: "import", before: KEY, sent: IMPORTED, way: Way::Rows(IMPORT_ROWS), commits: 2 },
];
