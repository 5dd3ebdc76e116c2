//! What an input asks for.
use crate::route::Route;
use register_core::{Command, Name, RequestNumber};

/// Why an input is answered without the register being asked.
#[derive(Clone, Copy, PartialEq, Eq)]
pub enum Rejection {
    /// 400: no head, header lines that may not be, or a body that is of no command.
    BadRequest,
    /// 404: the target is no route's.
    NoRoute,
    /// 405: the method is another than the route's.
    MethodNotAllowed(Route),
    /// 411: the head does not tell the length of the body.
    LengthRequired,
    /// 413: the head or the body is longer than what is taken.
    TooLarge,
}

/// A request as its sender has it: all but its moment.
#[derive(Clone, Copy)]
pub struct Sent {
    pub caller: Name,
    pub number: RequestNumber,
    pub command: Command,
}

/// What an input asks for.
#[derive(Clone, Copy)]
pub enum Asked {
    /// Nothing that the register is asked.
    Reject(Rejection),
    /// To be shown the key with this number.
    ShowKey(u32),
    /// What the key with this number may be used for.
    ShowUsage(u32),
    /// That the request be applied.
    Apply(Sent),
}

/// What ends the reading of an input.
#[derive(Clone, Copy)]
pub enum AskFault {
    /// A growth was refused.
    Memory,
    /// A read failed, or the bound on reads was met.
    ReadFault,
}
