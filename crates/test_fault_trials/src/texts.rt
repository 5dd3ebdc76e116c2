//! Texts that several cases share.
use std::alloc::{AllocError, Global};
use test_desk_trials::Call;

/// A request line and its reply line, each without its LF.
pub type LineAndReply = (&'static str, &'static str);

/// A text in pieces, some of which stand in other texts too.
pub type TextParts = &'static [&'static str];

/// The pieces, one after the other.
pub fn join(alloc: Global, text: &[&str]) -> Result<String, AllocError> {
    let mut whole = String::new(alloc);
    for piece in text {
        whole.push_str(piece)?;
    }
    Ok(whole)
}

/// A register with one key, which is deactivated at 900.
pub const KEY: &[LineAndReply] = &[(
    "50 eve 1 register data-encryption bob 0 700 900 old disks",
    "ok 1 Active 50",
)];

/// A registration over it.
pub const REGISTERED: LineAndReply = (
    "100 ann 1 register master bob - - - x",
    "ok 2 Pre-Active 100",
);

/// The import that trials make.
pub const IMPORT: Call = Call::Import {
    seconds: 100,
    first: 1,
};

/// The report.
pub const ROTATION: Call = Call::Rotation { days: 1 };

/// The exchange.
pub const EXCHANGE: Call = Call::Exchange { seconds: 100 };

/// The header row of an import.
pub const IMPORT_HEAD: &str = "type,owner,activation,protect_stop,deactivation,purpose\n";

/// The rows of a table, of which the second is no registration.
pub const IMPORT_ROWS: &str = "data-encryption,bob,1970-01-01T00:00:00Z,,,\"disks, payroll\"\n\
    master,bob,1970-01-01,,,x\n\
    master,bob,,,,x\n";

/// What these rows ask for over the register with one key, at 100, of the caller ann, from number 1
/// on.
pub const IMPORTED: &[LineAndReply] = &[
    (
        "100 ann 1 register data-encryption bob 0 - - disks, payroll",
        "ok 2 Active 100",
    ),
    ("100 ann 2", "refused 1 BadLine"),
    (
        "100 ann 3 register master bob - - - x",
        "ok 3 Pre-Active 100",
    ),
];

/// The reply about the usage of a key that is in full use.
pub const IN_USE: &str =
    "HTTP/1.1 200 OK\r\nContent-Type: application/json\r\nContent-Length: 32\r\n\
    Connection: close\r\n\r\n{\"process\":\"yes\",\"protect\":true}";
