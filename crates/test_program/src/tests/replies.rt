//! The texts of replies, each call that makes one on its happy path. What each refusal and each
//! rejection comes to is said by contracts.
use http_messages::{
    Rejection, Route, answer_reply_text, key_reply_text, rejection_text, usage_reply_text,
};
use key_rows::{KeyRow, Record};
use lifecycle_core::{Dates, Process, Row, State, Usage};
use moment_core::Moment;
use period_core::KeyType;
use register_core::{Answer, Name, Names, Purpose, Quorum, Refusal, Reply};
use std::alloc::{AllocError, Global};
use std::test::Fail;

/// Whether the text is the reply with this status and body.
fn is_reply(alloc: Global, text: &str, status: &str, body: &str) -> Result<bool, AllocError> {
    let reply = format!(in alloc;
        "HTTP/1.1 {status}\r\nContent-Type: application/json\r\nContent-Length: {}\r\nConnection: close\r\n\r\n{body}",
        body.len()
    )?;
    Ok(text == reply.as_str())
}

/// Whether a reply and a refusal that tells more than its name are written so.
fn are_answers(alloc: Global) -> Result<bool, Fail> {
    let moment = Moment::new(253_402_300_799).ok_or("a moment")?;
    let reply = Reply {
        key: u32::MAX,
        state: Some(State::Deactivated),
        moment,
    };
    let accepted = answer_reply_text(alloc, &Answer::Accepted(reply))?;
    let refusal = Refusal::PeriodTooLong { limit: moment };
    let refused = answer_reply_text(alloc, &Answer::Refused(refusal))?;
    let body = r#"{"key":4294967295,"moment":253402300799,"state":"Deactivated"}"#;
    let refused_body = r#"{"limit":253402300799,"name":"PeriodTooLong","refused":10}"#;
    Ok(
        is_reply(alloc, accepted.as_str(), "200 OK", body)?
            && is_reply(alloc, refused.as_str(), "409 Conflict", refused_body)?,
    )
}

/// The reply to another method than that of `/requests`.
const OTHER_METHOD: &str =
    "HTTP/1.1 405 Method Not Allowed\r\nContent-Type: application/json\r\nContent-Length: 27\r\nAllow: POST\r\nConnection: close\r\n\r\n{\"name\":\"MethodNotAllowed\"}";

fn is_rejection(alloc: Global) -> Result<bool, AllocError> {
    let text = rejection_text(alloc, Rejection::MethodNotAllowed(Route::Requests))?;
    Ok(text.as_str() == OTHER_METHOD)
}

fn is_usage(alloc: Global) -> Result<bool, AllocError> {
    let usage = Usage {
        protect: false,
        process: Process::Special,
    };
    let text = usage_reply_text(alloc, &usage)?;
    let body = r#"{"process":"special","protect":false}"#;
    is_reply(alloc, text.as_str(), "200 OK", body)
}

/// A key with each of its dates.
fn key() -> Option<KeyRow> {
    Some(KeyRow {
        number: 12,
        kind: KeyType::Master,
        owner: Name::new(b"bob")?,
        purpose: Purpose::new(b"say \"hi\" \\ \xc3\xbc")?,
        row: Row {
            dates: Dates {
                initial: Moment::new(1)?,
                activation: Moment::new(2),
                protect_stop: Moment::new(3),
                deactivation: Moment::new(4),
                destroy: Moment::new(7),
                compromise: Moment::new(6),
                compromise_occurrence: Moment::new(5),
            },
            state: State::DestroyedCompromised,
        },
    })
}

/// Its body, with a need of 3, the custodians cat and dan, and cat's approval.
const KEY: &str =
    r#"{"activation":2,"approvals":["cat"],"compromised":6,"custodians":["cat","dan"],"deactivation":4,"destroyed":7,"initial":1,"need":3,"number":12,"occurrence":5,"owner":"bob","protect_stop":3,"purpose":"say \"hi\" \\ ü","state":"Destroyed-Compromised","type":"master"}"#;

/// A list of these names.
fn names(alloc: Global, texts: &[&str]) -> Result<Names, AllocError> {
    let mut names = Vec::new(alloc);
    for text in texts {
        if let Some(name) = Name::new(text.as_bytes()) {
            names.push(name)?;
        }
    }
    Ok(Names::from_vec(names))
}

/// The key as it is shown.
fn shown(alloc: Global) -> Result<Option<Record>, AllocError> {
    let (Some(key), Some(need)) = (key(), Quorum::new(3)) else {
        return Ok(None);
    };
    Ok(Some(Record {
        key,
        need,
        custodians: names(alloc, &["cat", "dan"])?,
        approvals: names(alloc, &["cat"])?,
    }))
}

fn is_key(alloc: Global) -> Result<bool, AllocError> {
    match shown(alloc)? {
        Some(record) => {
            let text = key_reply_text(alloc, &record)?;
            is_reply(alloc, text.as_str(), "200 OK", KEY)
        }
        None => Ok(false),
    }
}

#[test]
fn replies_have_their_texts(rt: HostRuntime) -> Result<(), Fail> {
    assert!(rt; are_answers(rt.alloc())?);
    assert!(rt; is_rejection(rt.alloc())?);
    assert!(rt; is_usage(rt.alloc())?);
    assert!(rt; is_key(rt.alloc())?);
    Ok(())
}
