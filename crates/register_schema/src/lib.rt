//! Making the tables of a register, and taking those of the first version to the second. Its
//! contracts say what each call makes of the database, and what a stop within it leaves.
#![tactic(auto)]

mod creation;
mod migration;
mod refusal;
mod schema_change;

pub use creation::create;
pub use migration::migrate;
pub use refusal::CreateError;
