//! Requests that are sent over a register, and what came of it.
use crate::files::Entry;
use crate::texts::{EXCHANGE, IMPORT, IMPORT_HEAD, LineAndReply, join};
use register_desk::{End, Finish};
use std::alloc::Global;
use std::test::Fail;
use test_desk_trials::{Call, Called, TriedDesk, make_call};

/// How requests are sent.
#[derive(Clone, Copy)]
pub enum Way {
    /// They are none: a register is made or opened.
    Entry(Entry),
    /// Their lines are run.
    Lines,
    /// These rows, one for each, are imported at 100, of the caller ann, from number 1 on.
    Rows(&'static str),
    /// The one of them is posted at 100, by this input, and has this reply.
    Post(&'static str, &'static str),
}

/// What came of it.
#[derive(Clone, Copy, Debug, PartialEq, Eq)]
pub enum Came {
    /// All was answered as it should be.
    Whole,
    /// So many were, and after them the database refused.
    Refused(usize),
    /// Anything else.
    Wrong,
}

/// The reply to the end 31.
const STORE: &str =
    "HTTP/1.1 500 Internal Server Error\r\nContent-Type: application/json\r\nContent-Length: 25\r\n\
    Connection: close\r\n\r\n{\"end\":31,\"name\":\"Store\"}";

/// The request lines, and the reply lines to them.
fn texts_of(alloc: Global, sent: &[LineAndReply]) -> Result<(String, String), Fail> {
    let mut lines = String::new(alloc);
    let mut replies = String::new(alloc);
    for (line, reply) in sent {
        writeln!(lines, "{line}")?;
        writeln!(replies, "{reply}")?;
    }
    Ok((lines, replies))
}

/// What came of lines or of a table.
fn of_items(alloc: Global, sent: &[LineAndReply], called: &Called) -> Result<Came, Fail> {
    let count = called.outcome.replies as usize;
    let Some(answered) = sent.get(..count) else {
        return Ok(Came::Wrong);
    };
    if texts_of(alloc, answered)?.1.as_bytes() != called.output.as_slice() {
        return Ok(Came::Wrong);
    }
    Ok(match called.outcome.end {
        Finish::AtEnd { rest: 0 } if count == sent.len() => Came::Whole,
        Finish::Ended(End::Store) => Came::Refused(count),
        _ => Came::Wrong,
    })
}

/// What came of an exchange with this reply.
pub fn of_reply(called: &Called, reply: &str) -> Came {
    match called.outcome.end {
        Finish::AtEnd { rest: 0 } if called.output.as_slice() == reply.as_bytes() => Came::Whole,
        Finish::Ended(End::Store) if called.output.as_slice() == STORE.as_bytes() => Came::Refused(
            0,
        ),
        _ => Came::Wrong,
    }
}

/// Sends the requests over the desk.
pub fn send<D: TriedDesk>(
    alloc: Global,
    desk: &mut D,
    sent: &[LineAndReply],
    way: Way,
) -> Result<Came, Fail> {
    let (call, input) = match way {
        Way::Entry(_) | Way::Lines => (Call::Run, texts_of(alloc, sent)?.0),
        Way::Rows(rows) => (IMPORT, join(alloc, &[IMPORT_HEAD, rows])?),
        Way::Post(input, _) => (EXCHANGE, join(alloc, &[input])?),
    };
    let called = make_call(alloc, desk, call, input.as_bytes());
    match way {
        Way::Post(_, reply) => Ok(of_reply(&called, reply)),
        _ => of_items(alloc, sent, &called),
    }
}

/// Whether the desk ends a run of a request by 32, with no reply.
pub fn is_broken<D: TriedDesk>(alloc: Global, desk: &mut D) -> bool {
    let called = make_call(alloc, desk, Call::Run, b"999 zed 9 advance\n");
    called.outcome.end == Finish::Ended(End::Broken) && called.output.is_empty()
}
