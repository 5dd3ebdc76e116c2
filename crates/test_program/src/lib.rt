//! The tests: of the crates below the desk, what an input asks for, replies, and printed text; of a
//! desk, of its imports, exports, reports and exchanges, over registers in memory; of a register in
//! files whose calls fail, or that stop at a call; and of the program: the worked rows, registers in
//! files of the machine, and connections that are served. No contract says that a call goes well.
#![tactic(auto)]

#[cfg(test)]
mod tests;
