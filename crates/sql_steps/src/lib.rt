//! What statements of SQL make of a database, whatever its tables are: the words in which a layer
//! over `sqlite` says what its calls do inside a transaction, and the lemmas that lead from
//! `sqlite`'s clauses to them. It has no call of its own: the contracts of the layers above name
//! its definitions.
#![tactic(auto)]
