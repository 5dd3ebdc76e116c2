//! What the versions of the register differ in, beside their tables.
ghost use Rattle.std.specs.Prelude.{◌≡◌, ◌≢◌, MatchOption};
ghost use Rattle.register_requests.specs.declared.version.Version.{Version};

use crate::request::Command;

/// A version of the register. Whatever a version differs in is read off here.
#[derive(Clone, Copy)]
pub enum Version {
    First,
    /// It has tables of what is set, for a type of key or for a key.
    Second,
}

impl Version {
    ghost use Rattle.register_requests.specs.Version.{custodians_of, knows, version_number};

    /// The version of this program.
    pub const CURRENT: Version = Version::Second;

    /// The number that a file has, in the one row of its table `meta`.
    pub fn number(self) -> u32
        ensures { result ≡ version_number self }
    {
        match self {
            Version::First => 1,
            Version::Second => 2,
        }
    }

    /// How many custodians a key has at most (this register's own).
    pub fn max_custodians(self) -> usize
        ensures { result ≡ custodians_of self }
    {
        match self {
            Version::First => 8,
            Version::Second => 16,
        }
    }

    /// The version with this number, if there is one.
    pub fn of_number(number: u64) -> Option<Self>
        ensures { MatchOption result ((version : Version) → number ≢ version_number version)
            (λ version. number ≡ version_number version) }
    {
        match number {
            1 => Some(Version::First),
            2 => Some(Version::Second),
            _ => None,
        }
    }

    /// Whether the version knows the command (this register's own).
    pub fn knows(self, command: &Command) -> bool
        ensures { result ≡ knows self command.now }
    {
        command.kind().since().number() <= self.number()
    }
}
