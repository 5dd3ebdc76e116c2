//! What a register's files hold, what is left of it where the machine stopped, and the statements
//! that make a register of the first version of the tables.
use std::alloc::{AllocError, Global};

/// The bytes of a register's log and of its database file.
#[derive(Drop)]
pub struct Contents {
    pub log: Vec<u8>,
    pub database: Vec<u8>,
}

fn copy_of(alloc: Global, bytes: &[u8]) -> Result<Vec<u8>, AllocError> {
    let mut copy = Vec::new(alloc);
    copy.extend_from_slice(bytes)?;
    Ok(copy)
}

impl Contents {
    /// Nothing in either.
    pub fn none(alloc: Global) -> Contents {
        Contents {
            log: Vec::new(alloc),
            database: Vec::new(alloc),
        }
    }

    /// Copies of these bytes.
    pub fn of(alloc: Global, log: &[u8], database: &[u8]) -> Result<Contents, AllocError> {
        Ok(Contents {
            log: copy_of(alloc, log)?,
            database: copy_of(alloc, database)?,
        })
    }

    /// Whether the others have the same bytes.
    pub fn is_same(&self, others: &Contents) -> bool {
        self.log.as_slice() == others.log.as_slice()
            && self.database.as_slice() == others.database.as_slice()
    }
}

/// What was written to files, and what was synced of it.
#[derive(Drop)]
pub struct Stopped {
    pub written: Contents,
    pub synced: Contents,
}

impl Stopped {
    /// Whether the others are the same.
    pub fn is_same(&self, others: &Stopped) -> bool {
        self.written.is_same(&others.written) && self.synced.is_same(&others.synced)
    }
}

/// The register of *defaults* as the first version has it.
static DEFAULTS: [&str; 8] = [
    "CREATE TABLE meta (id INTEGER PRIMARY KEY, version INTEGER NOT NULL, latest INTEGER NOT NULL,
        key_count INTEGER NOT NULL) STRICT",
    "CREATE TABLE keys (number INTEGER PRIMARY KEY, kind INTEGER NOT NULL, owner TEXT NOT NULL,
        purpose TEXT NOT NULL, state INTEGER NOT NULL, initial INTEGER NOT NULL,
        activation INTEGER NOT NULL, protect_stop INTEGER NOT NULL, deactivation INTEGER NOT NULL,
        destroyed INTEGER NOT NULL, compromised INTEGER NOT NULL, occurrence INTEGER NOT NULL) STRICT",
    "CREATE TABLE custodian (key_no INTEGER NOT NULL REFERENCES keys(number), name TEXT NOT NULL,
        PRIMARY KEY (key_no, name)) STRICT",
    "CREATE TABLE approval (key_no INTEGER NOT NULL, name TEXT NOT NULL, PRIMARY KEY (key_no, name),
        FOREIGN KEY (key_no, name) REFERENCES custodian(key_no, name) ON DELETE CASCADE) STRICT",
    "CREATE TABLE request (caller TEXT NOT NULL, number INTEGER NOT NULL, command TEXT NOT NULL,
        key_no INTEGER NOT NULL, state INTEGER NOT NULL, moment INTEGER NOT NULL,
        PRIMARY KEY (caller, number)) STRICT",
    "INSERT INTO meta (id, version, latest, key_count) VALUES (1, 1, 100, 1)",
    "INSERT INTO keys (number, kind, owner, purpose, state, initial, activation, protect_stop, deactivation,
        destroyed, compromised, occurrence) VALUES (1, 1, 'bob', 'payroll disks', 2, 100, 0, 63072000, 157766400,
        253402300800, 253402300800, 253402300800)",
    "INSERT INTO request (caller, number, command, key_no, state, moment)
        VALUES ('ann', 1, 'register data-encryption bob 0 - - payroll disks', 1, 2, 100)",
];

/// The statements that make it.
pub fn first_version() -> &'static [&'static str] {
    &DEFAULTS
}
