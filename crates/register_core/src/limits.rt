//! The limits of a register.
/// How many keys the register takes (this register's own limit).
pub const MAX_KEYS: u32 = 1_000_000;
