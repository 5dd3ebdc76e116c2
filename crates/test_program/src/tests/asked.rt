//! What an input of an exchange asks for: that memory gives out is an answer which meets any
//! contract, so the call that reads it is made with ample memory. What else bodies and heads may be,
//! checks/program/exchanges_by_curl.py asks.
use http_messages::{Asked, Routes, Sent, read_asked};
use register_core::command_text;
use std::alloc::Global;
use std::io::Read;
use streams::Watched;
use test_desk_trials::ADVANCE;
use test_faulty_devices::BrokenAfter;

/// What the reader's bytes ask for, or `None` where they ask nothing or could not be read.
fn asked_of<R: Read + Drop>(alloc: Global, input: R) -> Option<Asked> {
    let mut reader = Watched::new(input);
    match read_asked(alloc, &mut Routes::new(), &mut reader).asked {
        Ok(asked) => asked,
        Err(_) => None,
    }
}

/// Whether it is the advance of ann's under number 1.
fn is_sent(sent: &Sent) -> bool {
    sent.caller.text() == "ann"
        && sent.number.get() == 1
        && command_text(&sent.command).as_str() == "advance"
}

/// Whether a GET and a POST are read, and no more than each has: after its bytes each read fails.
fn are_read_to_their_ends(alloc: Global) -> bool {
    let of_get = asked_of(
        alloc,
        BrokenAfter(b"GET /keys/1 HTTP/1.1\r\nHost: localhost\r\n\r\n"),
    );
    let is_applied = match asked_of(alloc, BrokenAfter(ADVANCE.as_bytes())) {
        Some(Asked::Apply(sent)) => is_sent(&sent),
        _ => false,
    };
    is_applied && matches!(of_get, Some(Asked::ShowKey(1)))
}

#[test]
fn requests_are_read_to_their_ends(rt: HostRuntime) {
    assert!(rt; are_read_to_their_ends(rt.alloc()));
}
