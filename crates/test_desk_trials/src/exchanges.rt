//! The worked exchanges of docs/WORKED.md over a register in memory, in pieces: each read gives a byte,
//! each write takes three, and both are interrupted.
use crate::calls::Call;
use crate::memory_desk::MemoryDesk;
use register_desk::{Finish, Outcome};
use std::alloc::{AllocError, Global};
use std::test::Fail;
use test_faulty_devices::{Interrupted, OneByte, Short};

/// The moment of an exchange in seconds, its input, and of its reply the status and the body; a reply
/// without a status is none.
type Step = (u64, &'static str, &'static str, &'static str);

/// A name, the request lines that came before, exchanges one after the other, and the latest moment
/// and the number of keys after them.
type WorkedExchange = (&'static str, &'static str, &'static [Step], (u64, u32));

/// The line of the worked row *defaults*.
const DEFAULTS: &str = "100 ann 1 register data-encryption bob 0 - - payroll disks\n";

/// The request of *advanced*.
pub const ADVANCE: &str =
    "POST /requests HTTP/1.1\r\nHost: localhost\r\nCaller: ann\r\nRequest-Number: 1\r\nContent-Length: 18\r\n\r\n{\"kind\":\"advance\"}";

/// The reply to it, and its body.
pub const ADVANCED: &str =
    "HTTP/1.1 200 OK\r\nContent-Type: application/json\r\nContent-Length: 35\r\nConnection: close\r\n\r\n{\"key\":0,\"moment\":100,\"state\":null}";

const AT_100: &str = r#"{"key":0,"moment":100,"state":null}"#;

const BAD: &str = "400 Bad Request";

const BAD_LINE: &str = r#"{"name":"BadLine","refused":1}"#;

#[rattlefmt::skip]
static EXCHANGES: [WorkedExchange; 17] = [
    ("advanced, again and too early", "", &[
        (100, ADVANCE, "200 OK", AT_100),
        (50, ADVANCE, "200 OK", AT_100),
        (50, "POST /requests HTTP/1.1\r\nHost: localhost\r\nCaller: ann\r\nRequest-Number: 2\r\nContent-Length: 18\r\n\r\n{\"kind\":\"advance\"}",
         "409 Conflict", r#"{"latest":100,"name":"MomentBehind","refused":3}"#),
    ], (100, 0)),
    ("a number with a zero", "", &[
        (100, "POST /requests HTTP/1.1\r\nHost: localhost\r\nCaller: ann\r\nRequest-Number: 01\r\nContent-Length: 18\r\n\r\n{\"kind\":\"advance\"}",
         BAD, BAD_LINE),
    ], (0, 0)),
    ("two lengths", "", &[
        (100, "POST /requests HTTP/1.1\r\nHost: localhost\r\nCaller: ann\r\nRequest-Number: 1\r\nContent-Length: 18\r\nContent-Length: 18\r\n\r\n{\"kind\":\"advance\"}",
         BAD, BAD_LINE),
    ], (0, 0)),
    ("no length", "", &[
        (100, "POST /requests HTTP/1.1\r\nHost: localhost\r\nCaller: ann\r\nRequest-Number: 1\r\n\r\n{\"kind\":\"advance\"}",
         "411 Length Required", r#"{"name":"LengthRequired"}"#),
    ], (0, 0)),
    ("too long a body", "", &[
        (100, "POST /requests HTTP/1.1\r\nHost: localhost\r\nCaller: ann\r\nRequest-Number: 1\r\nContent-Length: 65537\r\n\r\n{\"kind\":\"advance\"}",
         "413 Payload Too Large", r#"{"name":"TooLarge"}"#),
    ], (0, 0)),
    ("a length with a zero", "", &[
        (100, "POST /requests HTTP/1.1\r\nHost: localhost\r\nCaller: ann\r\nRequest-Number: 1\r\nContent-Length: 018\r\n\r\n{\"kind\":\"advance\"}",
         "200 OK", AT_100),
    ], (100, 0)),
    ("a member twice", "", &[
        (100, "POST /requests HTTP/1.1\r\nHost: localhost\r\nCaller: ann\r\nRequest-Number: 1\r\nContent-Length: 35\r\n\r\n{\"kind\":\"destroy\",\"kind\":\"advance\"}",
         "200 OK", AT_100),
    ], (100, 0)),
    ("a number with a point", DEFAULTS, &[
        (100, "POST /requests HTTP/1.1\r\nHost: localhost\r\nCaller: bob\r\nRequest-Number: 1\r\nContent-Length: 29\r\n\r\n{\"kind\":\"activate\",\"key\":1.0}",
         BAD, BAD_LINE),
    ], (100, 1)),
    ("a body cut short", "", &[
        (100, "POST /requests HTTP/1.1\r\nHost: localhost\r\nCaller: ann\r\nRequest-Number: 1\r\nContent-Length: 18\r\n\r\n{\"kind\":\"advance\"",
         BAD, BAD_LINE),
    ], (0, 0)),
    ("registered", "", &[
        (100, "POST /requests HTTP/1.1\r\nHost: localhost\r\nCaller: ann\r\nRequest-Number: 1\r\nContent-Length: 139\r\n\r\n{\"kind\":\"register\",\"type\":\"data-encryption\",\"owner\":\"bob\",\"activation\":0,\"protect_stop\":null,\"deactivation\":null,\"purpose\":\"payroll disks\"}",
         "200 OK", r#"{"key":1,"moment":100,"state":"Active"}"#),
    ], (100, 1)),
    ("shown", DEFAULTS, &[
        (100, "GET /keys/1 HTTP/1.1\r\nHost: localhost\r\n\r\n", "200 OK",
         r#"{"activation":0,"approvals":[],"compromised":null,"custodians":[],"deactivation":157766400,"destroyed":null,"initial":100,"need":2,"number":1,"occurrence":null,"owner":"bob","protect_stop":63072000,"purpose":"payroll disks","state":"Active","type":"data-encryption"}"#),
    ], (100, 1)),
    ("its usage", DEFAULTS, &[
        (100, "GET /keys/1/usage HTTP/1.1\r\nHost: localhost\r\n\r\n", "200 OK", r#"{"process":"yes","protect":true}"#),
    ], (100, 1)),
    ("no such key", DEFAULTS, &[
        (100, "GET /keys/2 HTTP/1.1\r\nHost: localhost\r\n\r\n", "404 Not Found", r#"{"name":"UnknownKey","refused":4}"#),
    ], (100, 1)),
    ("no route", DEFAULTS, &[
        (100, "GET /nothing HTTP/1.1\r\nHost: localhost\r\n\r\n", "404 Not Found", r#"{"name":"NoRoute"}"#),
    ], (100, 1)),
    ("another method", DEFAULTS, &[
        (100, "DELETE /keys/1 HTTP/1.1\r\nHost: localhost\r\n\r\n", "405 Method Not Allowed", r#"{"name":"MethodNotAllowed"}"#),
    ], (100, 1)),
    ("no host", DEFAULTS, &[(100, "GET /keys/1 HTTP/1.1\r\n\r\n", BAD, BAD_LINE)], (100, 1)),
    ("no byte", "", &[(100, "", "", "")], (0, 0)),
];

/// The reply with this status and body. Of the targets here that refuse a method each has GET alone.
fn reply_text(alloc: Global, status: &str, body: &str) -> Result<String, AllocError> {
    if status.is_empty() {
        return Ok(String::new(alloc));
    }
    let allow = if status == "405 Method Not Allowed" {
        "Allow: GET\r\n"
    } else {
        ""
    };
    format!(in alloc;
        "HTTP/1.1 {status}\r\nContent-Type: application/json\r\nContent-Length: {}\r\n{allow}Connection: close\r\n\r\n{body}",
        body.len()
    )
}

/// What an exchange does that reads so many bytes and writes this reply.
fn outcome_of(read: usize, reply: &str) -> Outcome {
    Outcome {
        read: read as u64,
        written: reply.len() as u64,
        replies: u64::from(!reply.is_empty()),
        end: Finish::AtEnd { rest: 0 },
    }
}

/// Whether the step's exchange writes its reply, and counts what it read and wrote.
fn is_replied(alloc: Global, desk: &mut MemoryDesk, step: &Step) -> Result<bool, Fail> {
    let (seconds, input, status, body) = *step;
    let reply = reply_text(alloc, status, body)?;
    let reader = Interrupted::new(OneByte(input.as_bytes()));
    let writer = Interrupted::new(Short {
        inner: Vec::new(alloc),
        max_bytes: 3,
    });
    let ended = desk.call(Call::Exchange { seconds }, reader, writer);
    let read = input.len().saturating_sub(ended.reader.inner.0.len());
    Ok(
        ended.outcome == outcome_of(read, reply.as_str())
            && ended.writer.inner.inner.as_slice() == reply.as_bytes(),
    )
}

/// Whether the worked exchange goes as it should.
fn goes(alloc: Global, row: &WorkedExchange) -> Result<bool, Fail> {
    let (_, lines, steps, stands) = *row;
    let mut desk = MemoryDesk::after(alloc, lines.as_bytes())?;
    for step in steps {
        if !is_replied(alloc, &mut desk, step)? {
            return Ok(false);
        }
    }
    Ok(desk.stands() == stands)
}

/// Which worked exchange does not go as it should, if one does not.
pub fn worked_exchange_at_fault(alloc: Global) -> Result<Option<&'static str>, Fail> {
    for row in &EXCHANGES {
        if !goes(alloc, row)? {
            return Ok(Some(row.0));
        }
    }
    Ok(None)
}
