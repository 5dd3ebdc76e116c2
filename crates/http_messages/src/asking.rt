//! Reads what an input asks for, its body included. The register is not asked here.
ghost use Rattle.std.specs.Prelude.{◌≡◌, ◌≢◌, ◌<◌, ◌≤◌, ◌++◌, ℕ, List, length, Some, IsUtf8, IfOk};
ghost use Rattle.std.specs.Prelude.{IfErr, OnOk, IfSome, IfNone, ◌↔◌, ◌+◌, [], map, min, take};
ghost use Rattle.std.specs.Prelude.{drop, Ok, Err, IsSomeAnd};
ghost use Rattle.std.specs.Io.KnownBytes.{Consumes, IsAtEnd};
ghost use Rattle.serde_json.specs.{Data.Data, Read.read, View.view};
ghost use Rattle.streams.specs.Watched.{IsFaulted};
ghost use Rattle.http_messages.specs.Content.{HasRead, TellsFault};
ghost use Rattle.http_messages.specs.Within.{GetsBody, ReadsInput};
ghost use Rattle.http_messages.specs.declared.head.TheConstants.{MAX_EXCHANGE_READS};
ghost use Rattle.http_messages.specs.Asked.{AsksFor, AsksBody, AsksAfter, AsksPost, HasHost};
ghost use Rattle.http_messages.specs.Asked.{IsFrom, max_body_length};
ghost use Rattle.http_messages.specs.HeaderFields.{AreGathered, IsLength, HeaderLines};
ghost use Rattle.http_messages.specs.Within.{IsFor, Says};
ghost use Rattle.http_messages.specs.declared.asked.Asked.TheVariants.{Reject};
ghost use Rattle.http_messages.specs.{CommandBody.IsAskedInRange, Route.routes};
ghost use Rattle.httparse.specs.Grammar.{RequestHead};
ghost use Rattle.httparse.specs.Spans.{IsRequestAt, IsRequestWithin, header_bytes};

use crate::asked::{AskFault, Asked, Rejection, Sent};
use crate::command_value::command_of;
use crate::head::{HeadSearch, MAX_EXCHANGE_READS, MAX_HEADERS, Prefix};
use crate::header_fields::{HeaderFields, Values};
use crate::route::{Route, RoutePattern, Routes, route_of};
use httparse::spans::{EMPTY_HEADER_SPAN, HeaderSpan, RequestSpans};
use matchit::Router;
use register_core::{Name, RequestNumber, read_request_number};
use serde_json::{Category, Value};
use std::alloc::Global;
use std::io::Read;
use streams::{ReadFault, Watched};

/// The most bytes that one read takes.
const MAX_PIECE_LENGTH: usize = 4096;

/// What came of one read.
#[derive(Clone, Copy)]
struct Piece {
    /// How many bytes were read.
    count: usize,
    kept: Result<(), AskFault>,
}

/// Reads once, at most so many bytes, and puts them after the others.
fn read_body_piece<R: Read>(most: usize, body: &mut Vec<u8>, reader: &mut Watched<R>) -> Piece
    requires { 0 < most }
    ensures bytes { (more : List ℕ) × (length more ≡ result.count)
        × Consumes (R.remaining reader.old.inner) (R.remaining reader.new.inner) more
        × OnOk result.kept (body.new.items ≡ body.old.items ++ more) }
    ensures few { result.count ≤ most }
    ensures end { OnOk result.kept (result.count ≡ 0 → IsAtEnd (R.remaining reader.new.inner)) }
    ensures sound { OnOk result.kept (reader.new.failed ≡ reader.old.failed) }
    ensures tells { TellsFault reader.old.failed reader.new.failed result.kept }
    ensures fault { IfErr result.kept (λ fault. fault ≡ AskFault.ReadFault
        → IsFaulted reader.new.failed MAX_EXCHANGE_READS reader.new.turns) }
    ensures bounded { reader.old.turns ≤ MAX_EXCHANGE_READS
        → reader.new.turns ≤ MAX_EXCHANGE_READS }
{
    let mut piece = [0; MAX_PIECE_LENGTH];
    let room = most.min(MAX_PIECE_LENGTH);
    let Ok(count) = reader.read_piece(MAX_EXCHANGE_READS, &mut piece[..room]) else {
        return Piece {
            count: 0,
            kept: Err(AskFault::ReadFault),
        };
    };
    match body.extend_from_slice(&piece[..count]) {
        Ok(()) => Piece {
            count,
            kept: Ok(()),
        },
        Err(_) => Piece {
            count,
            kept: Err(AskFault::Memory),
        },
    }
}

/// What came of reading a body.
#[derive(Drop)]
pub(crate) struct BodyRead {
    /// How many bytes were read.
    pub read: usize,
    /// The body, or `None` where the input ends before it does.
    pub body: Result<Option<Vec<u8>>, AskFault>,
}

impl BodyRead {
    /// A body that was not read whole.
    fn unfinished(read: usize, body: Result<Option<Vec<u8>>, AskFault>) -> Self
        ensures { result ≡ record { read = read; body = body } }
    {
        BodyRead { read, body }
    }
}

/// Reads the body that has this length, of which what stands here after the head is the prefix.
pub(crate) fn read_body<R: Read>(
    alloc: Global,
    after: &[u8],
    length: usize,
    reader: &mut Watched<R>,
) -> BodyRead
    ensures gets { IfOk result.body (GetsBody after.now length (R.remaining reader.old.inner)
        (R.remaining reader.new.inner)) }
    ensures read { HasRead (R.remaining reader.old.inner) (R.remaining reader.new.inner)
        result.read }
    ensures few { result.read ≤ length }
    ensures tells { TellsFault reader.old.failed reader.new.failed result.body }
    ensures fault { IfErr result.body (λ fault. fault ≡ AskFault.ReadFault
        → IsFaulted reader.new.failed MAX_EXCHANGE_READS reader.new.turns) }
    ensures bounded { reader.old.turns ≤ MAX_EXCHANGE_READS
        → reader.new.turns ≤ MAX_EXCHANGE_READS }
{
    let mut body = Vec::new(alloc);
    let held = length.min(after.len());
    let mut read = 0;
    match body.extend_from_slice(&after[..held]) {
        Ok(()) => {}
        Err(_) => return BodyRead::unfinished(read, Err(AskFault::Memory)),
    }
    'reads: while body.len() < length {
        let piece = read_body_piece(length - body.len(), &mut body, reader);
        read += piece.count;
        match piece.kept {
            Ok(()) => {}
            Err(fault) => return BodyRead::unfinished(read, Err(fault)),
        }
        if piece.count == 0 {
            return BodyRead::unfinished(read, Ok(None));
        }
    }
    BodyRead {
        read,
        body: Ok(Some(body)),
    }
}

/// The JSON value of the body, if it is one.
pub(crate) fn json_value_of(alloc: Global, body: &[u8]) -> Result<Option<Value>, AskFault>
    ensures found { IfOk result (λ o.
        IfSome o (λ v. IsUtf8 body.now × (read body.now ≡ Some (view v)))) }
    ensures none { IfOk result (λ o.
        IfNone o ((d : Data) → IsUtf8 body.now → read body.now ≢ Some d)) }
    ensures err { IfErr result (λ fault. fault ≡ AskFault.Memory) }
{
    match Value::from_slice(alloc, body) {
        Ok(value) => Ok(Some(value)),
        Err(error) => {
            if error.classify() == Category::Memory {
                Err(AskFault::Memory)
            } else {
                Ok(None)
            }
        }
    }
}

/// What came of reading an input.
#[derive(Clone, Copy)]
pub struct Asking {
    /// How many bytes were read.
    pub read: usize,
    /// What they ask for, or `None` where there are none.
    pub asked: Result<Option<Asked>, AskFault>,
}

impl Asking {
    /// Where nothing is read.
    fn with_nothing_read(asked: Result<Option<Asked>, AskFault>) -> Self
        ensures { result ≡ record { read = 0; asked = asked } }
    {
        Asking { read: 0, asked }
    }

    /// Where this is rejected, and nothing is read.
    fn rejected(rejection: Rejection) -> Self
        ensures { result ≡ record { read = 0; asked = Ok (Some (Asked.Reject rejection)) } }
    {
        Asking::with_nothing_read(Ok(Some(Asked::Reject(rejection))))
    }
}

/// The most bytes of a body.
pub const MAX_BODY_LENGTH: u32 = 65_536;

/// Whose request it is, and the caller's own number for it.
#[derive(Clone, Copy)]
struct Sender {
    pub caller: Name,
    pub number: RequestNumber,
}

/// What the header lines of a POST say.
#[derive(Clone, Copy)]
struct Post {
    /// How many bytes the body has.
    pub length: u32,
    pub sender: Sender,
}

/// The number that the digits write, or one past the limit where it is greater.
fn capped_content_length_of(text: &[u8]) -> Option<u32>
    ensures found { IfSome result (λ n. (m : ℕ) × IsLength text.now m
        × (n ≡ min m (max_body_length + 1))) }
    ensures none { IfNone result ((m : ℕ) → IsLength text.now m → ⊥) }
{
    if text.is_empty() {
        return None;
    }
    let mut number: u32 = 0;
    for byte in text {
        if !byte.is_ascii_digit() {
            return None;
        }
        // Past the limit no length is told from another, and none overflows.
        number = (number * 10 + u32::from(*byte - b'0')).min(MAX_BODY_LENGTH + 1);
    }
    Some(number)
}

/// Whose request it is, and its number.
fn caller_and_number_of(fields: &HeaderFields<'_>) -> Option<Sender>
    ensures found { (lines : HeaderLines) → AreGathered lines fields.now
        → IfSome result (λ sender. IsFrom lines sender.caller sender.number) }
    ensures none { (lines : HeaderLines) → AreGathered lines fields.now → IfNone result
        ((caller : List ℕ) (number : ℕ) → IsFrom lines caller number → ⊥) }
{
    let caller = Name::new(fields.caller.only_value()?)?;
    let number = read_request_number(fields.request_number.only_value()?)?;
    Some(Sender { caller, number })
}

/// What the header lines say of the body, or why the request is refused.
fn body_length_and_sender_of(fields: &HeaderFields<'_>) -> Result<Post, Rejection>
    ensures ok { (lines : HeaderLines) → AreGathered lines fields.now → IfOk result (Says lines) }
    ensures err { (lines : HeaderLines) → AreGathered lines fields.now
        → IfErr result (λ r. (rest : List ℕ) → AsksPost lines rest (Reject r)) }
{
    let Values::None = fields.transfer_encoding else {
        return Err(Rejection::LengthRequired);
    };
    let text = match fields.content_length {
        Values::None => return Err(Rejection::LengthRequired),
        Values::One(text) => text,
        Values::Several => return Err(Rejection::BadRequest),
    };
    let Some(length) = capped_content_length_of(text) else {
        return Err(Rejection::BadRequest);
    };
    if length > MAX_BODY_LENGTH {
        return Err(Rejection::TooLarge);
    }
    let Some(sender) = caller_and_number_of(fields) else {
        return Err(Rejection::BadRequest);
    };
    Ok(Post { length, sender })
}

/// What a body asks for whose head said this.
fn asked_by_body(alloc: Global, post: Post, body: &[u8]) -> Result<Option<Asked>, AskFault>
    ensures asks { (after : List ℕ) (n : ℕ) → n ≤ length after → body.now ≡ take n after →
        IfOk result (λ o. IsSomeAnd o (AsksBody n post.sender.caller post.sender.number after)) }
    ensures in_range { IfOk result (λ o. IfSome o IsAskedInRange) }
    ensures err { IfErr result (λ fault. fault ≡ AskFault.Memory) }
{
    let Some(value) = json_value_of(alloc, body)? else {
        return Ok(Some(Asked::Reject(Rejection::BadRequest)));
    };
    let Some(command) = command_of(&value) else {
        return Ok(Some(Asked::Reject(Rejection::BadRequest)));
    };
    Ok(Some(Asked::Apply(Sent {
        caller: post.sender.caller,
        number: post.sender.number,
        command,
    })))
}

/// What a POST asks for whose head said this, with these bytes after its head already read.
fn read_asked_by_post<R: Read>(
    alloc: Global,
    after: &[u8],
    post: Post,
    reader: &mut Watched<R>,
) -> Asking
    ensures asks { (left : List ℕ) → R.remaining reader.old.inner ≡ Some left →
        IfOk result.asked (λ o. IsSomeAnd o (AsksBody post.length post.sender.caller
        post.sender.number (after.now ++ left))) }
    ensures reads { ReadsInput R.remaining reader.old reader.new result.read result }
{
    let BodyRead { read, body } = read_body(alloc, after, post.length as usize, reader);
    match body {
        Ok(Some(body)) => Asking {
            read,
            asked: asked_by_body(alloc, post, &body),
        },
        Ok(None) => Asking {
            read,
            asked: Ok(Some(Asked::Reject(Rejection::BadRequest))),
        },
        Err(fault) => Asking {
            read,
            asked: Err(fault),
        },
    }
}

/// A head that stands whole at the start of what was read.
#[derive(Clone, Copy)]
struct Head<'b> {
    /// All that was read.
    bytes: &'b [u8],
    /// Where its header lines are, which may be fewer than there is room for.
    headers: &'b [HeaderSpan],
    /// Where its other parts are.
    spans: RequestSpans,
}

/// Refuses a head of this version without the Host that it must have.
fn check_host(minor: u8, fields: &HeaderFields<'_>) -> Result<(), Rejection>
    ensures ok { (lines : HeaderLines) → AreGathered lines fields.now
        → OnOk result (HasHost minor lines) }
    ensures err { (lines : HeaderLines) → AreGathered lines fields.now
        → IfErr result (λ r. (r ≡ Rejection.BadRequest) × (HasHost minor lines → ⊥)) }
{
    if minor == 1 && !matches!(fields.host, Values::One(_)) {
        return Err(Rejection::BadRequest);
    }
    Ok(())
}

/// The route that the head is for, or why it is for none.
fn route_or_rejection_of_head(
    router: &Router<RoutePattern>,
    head: &Head<'_>,
    fields: &HeaderFields<'_>,
) -> Result<Route, Rejection>
    requires routes { router.now ≡ routes }
    requires within { IsRequestWithin head.now.bytes.now head.now.headers.now head.now.spans }
    requires gathered { AreGathered (map (header_bytes head.now.bytes.now)
        (take head.now.spans.headers head.now.headers.now)) fields.now }
    ensures ok { (h : RequestHead) →
        IsRequestAt head.now.bytes.now head.now.headers.now head.now.spans h
        → IfOk result (IsFor h) }
    ensures err { (h : RequestHead) →
        IsRequestAt head.now.bytes.now head.now.headers.now head.now.spans h
        → IfErr result (λ r. (rest : List ℕ) → AsksAfter h rest (Asked.Reject r)) }
{
    check_host(head.spans.version, fields)?;
    let Some(route) = route_of(router, head.spans.path.of(head.bytes)) else {
        return Err(Rejection::NoRoute);
    };
    if head.spans.method.of(head.bytes) != route.method().as_bytes() {
        return Err(Rejection::MethodNotAllowed(route));
    }
    Ok(route)
}

/// What a head asks for.
fn read_asked_by_head<R: Read>(
    alloc: Global,
    routes: &mut Routes,
    head: &Head<'_>,
    reader: &mut Watched<R>,
) -> Asking
    requires { IsRequestWithin head.now.bytes.now head.now.headers.now head.now.spans }
    ensures asks { (h : RequestHead) (left : List ℕ) →
        IsRequestAt head.now.bytes.now head.now.headers.now head.now.spans h
        → R.remaining reader.old.inner ≡ Some left
        → IfOk result.asked (λ o. IsSomeAnd o
        (AsksAfter h (drop head.now.spans.len head.now.bytes.now ++ left))) }
    ensures reads { ReadsInput R.remaining reader.old reader.new result.read result }
{
    let fields = HeaderFields::gather_lines(head.bytes, &head.headers[..head.spans.headers]);
    let router = match routes.router_made_if_missing(alloc) {
        Ok(router) => router,
        Err(fault) => return Asking::with_nothing_read(Err(fault)),
    };
    let route = match route_or_rejection_of_head(router, head, &fields) {
        Ok(route) => route,
        Err(rejection) => return Asking::rejected(rejection),
    };
    match route {
        Route::Show(key) => Asking::with_nothing_read(Ok(Some(Asked::ShowKey(key)))),
        Route::Usage(key) => Asking::with_nothing_read(Ok(Some(Asked::ShowUsage(key)))),
        Route::Requests => match body_length_and_sender_of(&fields) {
            Ok(post) => read_asked_by_post(alloc, &head.bytes[head.spans.len..], post, reader),
            Err(rejection) => Asking::rejected(rejection),
        },
    }
}

/// Looks for a head with this prefix, and reads what is asked for. What is counted as read is what
/// was read beside the prefix.
fn read_head_then_asked<R: Read>(
    alloc: Global,
    routes: &mut Routes,
    prefix: &mut Prefix,
    reader: &mut Watched<R>,
) -> Asking
    requires { prefix.old ≡ [] }
    ensures asks { (input : List ℕ) → R.remaining reader.old.inner ≡ Some input →
        IfOk result.asked (AsksFor input) }
    ensures reads { ReadsInput R.remaining reader.old reader.new
        (length prefix.new + result.read) result }
{
    let mut headers = [EMPTY_HEADER_SPAN; MAX_HEADERS];
    match prefix.read_head(&mut headers, reader) {
        Err(ReadFault) => Asking::with_nothing_read(Err(AskFault::ReadFault)),
        Ok(HeadSearch::Nothing) => Asking::with_nothing_read(Ok(None)),
        Ok(HeadSearch::Bad) => Asking::rejected(Rejection::BadRequest),
        Ok(HeadSearch::TooLarge) => Asking::rejected(Rejection::TooLarge),
        Ok(HeadSearch::Whole(spans)) => {
            let head = Head {
                bytes: prefix.bytes(),
                headers: &headers,
                spans,
            };
            read_asked_by_head(alloc, routes, &head, reader)
        }
    }
}

/// Reads what the reader's bytes ask for. It reads no more than the answer needs, but for what a
/// read brings beyond a head.
pub fn read_asked<R: Read>(alloc: Global, routes: &mut Routes, reader: &mut Watched<R>) -> Asking
    ensures asks { (input : List ℕ) → R.remaining reader.old.inner ≡ Some input →
        IfOk result.asked (AsksFor input) }
    ensures read { HasRead (R.remaining reader.old.inner) (R.remaining reader.new.inner)
        result.read }
    ensures in_range { IfOk result.asked (λ asked. IfSome asked IsAskedInRange) }
    ensures fault { IfErr result.asked (λ fault. fault ≡ AskFault.ReadFault
        → IsFaulted reader.new.failed MAX_EXCHANGE_READS reader.new.turns) }
    ensures tells { TellsFault reader.old.failed reader.new.failed result.asked }
    ensures bounded { reader.old.turns ≤ MAX_EXCHANGE_READS
        → reader.new.turns ≤ MAX_EXCHANGE_READS }
{
    let mut prefix = Prefix::new();
    let after = read_head_then_asked(alloc, routes, &mut prefix, reader);
    Asking {
        read: prefix.bytes().len() + after.read,
        asked: after.asked,
    }
}
