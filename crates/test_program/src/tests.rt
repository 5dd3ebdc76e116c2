//! Each test asserts that a case is as it should be, or that none of several is otherwise.

mod acting;
mod asked;
mod lives;
mod network;
mod printed;
mod replies;
mod rows;
mod served;
mod transitions;
mod trials;
