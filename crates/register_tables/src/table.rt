//! The tables of a register.
ghost use Rattle.std.specs.Prelude.{◌≡◌};
ghost use Rattle.register_tables.specs.Tables.{count_text, create_statement};

use crate::columns;

/// One of the tables of a register.
#[derive(Clone, Copy)]
pub enum TableName {
    /// The one row of the register's own: version, latest moment, number of keys.
    Meta,
    Keys,
    Custodian,
    Approval,
    /// What is kept of each accepted request.
    Request,
    /// The period that is set for a type.
    Period,
    /// The number of approvals that a key needs.
    Quorum,
}

/// The tables in the order in which they are made: one that refers to another stands after it.
pub const TABLES: [TableName; 7] = [
    TableName::Meta,
    TableName::Keys,
    TableName::Custodian,
    TableName::Approval,
    TableName::Request,
    TableName::Period,
    TableName::Quorum,
];

impl TableName {
    /// The statement that makes the table.
    pub fn create_sql(self) -> &'static str
        ensures { result.now ≡ create_statement self }
    {
        match self {
            TableName::Meta => {
                columns!(meta defined "CREATE TABLE meta (id INTEGER PRIMARY KEY, ", ") STRICT")
            }
            TableName::Keys => {
                columns!(keys defined "CREATE TABLE keys (number INTEGER PRIMARY KEY, ", ") STRICT")
            }
            TableName::Custodian => {
                "CREATE TABLE custodian (key_no INTEGER NOT NULL REFERENCES keys(number), \
                name TEXT NOT NULL, PRIMARY KEY (key_no, name)) STRICT"
            }
            TableName::Approval => columns!(
                names defined "CREATE TABLE approval (",
                ", PRIMARY KEY (key_no, name), FOREIGN KEY (key_no, name) \
                REFERENCES custodian(key_no, name) ON DELETE CASCADE) STRICT"
            ),
            TableName::Request => columns!(
                request defined
                "CREATE TABLE request (caller TEXT NOT NULL, number INTEGER NOT NULL, ",
                ", PRIMARY KEY (caller, number)) STRICT"
            ),
            TableName::Period => columns!(
                period defined "CREATE TABLE period (kind INTEGER PRIMARY KEY, ",
                ") STRICT"
            ),
            TableName::Quorum => columns!(
                quorum defined
                "CREATE TABLE quorum (key_no INTEGER PRIMARY KEY REFERENCES keys(number), ",
                ") STRICT"
            ),
        }
    }

    /// The statement that counts the table's rows. It has a meaning exactly where the table is
    /// there.
    pub fn count_sql(self) -> &'static str
        ensures { result.now ≡ count_text self }
    {
        match self {
            TableName::Meta => "SELECT count(*) FROM meta",
            TableName::Keys => "SELECT count(*) FROM keys",
            TableName::Custodian => "SELECT count(*) FROM custodian",
            TableName::Approval => "SELECT count(*) FROM approval",
            TableName::Request => "SELECT count(*) FROM request",
            TableName::Period => "SELECT count(*) FROM period",
            TableName::Quorum => "SELECT count(*) FROM quorum",
        }
    }
}
