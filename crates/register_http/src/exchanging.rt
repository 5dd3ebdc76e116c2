//! One exchange: a request is read, the register asked once, and a reply written.
ghost use Rattle.std.specs.Prelude.{◌≡◌, ℕ, List, false, Ok, Err, IfErr, IfOk, OnErr, OnOk};
ghost use Rattle.register_requests.specs.{Request.IsRequest, declared.request.Request.Request};
ghost use Rattle.register_core.specs.declared.reply.Refusal.TheVariants.{UnknownKey};
ghost use Rattle.http_messages.specs.{AnswerText.outcome_reply, CommandBody.IsAskedInRange};
ghost use Rattle.register_desk.specs.Desk.{IsClean, IsWhole, KeepsToSteps};
ghost use Rattle.register_desk.specs.Register.{StandsFor};
ghost use Rattle.register_http.specs.Exchange.{EndsAs, Exchanges, LeavesHttpReader};
ghost use Rattle.register_http.specs.Exchange.{LeavesHttpWriter};
ghost use Rattle.register_http.specs.SentReply.{Sends, end_reply, sent_text};
ghost use Rattle.register_http.specs.{Action.Acts, Action.IsTextOf, ActionReply.request_at};
ghost use Rattle.register_http.specs.{Within.KeepsWriter, OneItem.LeavesOne};

use http_messages::{
    AskFault, Asked, Routes, Sent, answer_reply_text, key_reply_text, read_asked, rejection_text,
    usage_reply_text,
};
use moment_core::Moment;
use register_core::{Answer, Refusal, Request};
use register_desk::{Desk, End, Finish, Outcome};
use sqlite::Alter;
use std::alloc::{AllocError, Global};
use std::io::{Read, Write};
use streams::{MAX_IDLE_TURNS, Watched};

/// The reply to an end, which takes no memory.
fn end_reply(end: End) -> &'static str
    ensures { result.now ≡ end_reply end }
{
    match end {
        End::Memory => {
            "HTTP/1.1 503 Service Unavailable\r\nContent-Type: application/json\r\n\
             Content-Length: 26\r\nConnection: close\r\n\r\n{\"end\":30,\"name\":\"Memory\"}"
        }
        End::Store => {
            "HTTP/1.1 500 Internal Server Error\r\nContent-Type: application/json\r\n\
             Content-Length: 25\r\nConnection: close\r\n\r\n{\"end\":31,\"name\":\"Store\"}"
        }
        End::Broken => {
            "HTTP/1.1 500 Internal Server Error\r\nContent-Type: application/json\r\n\
             Content-Length: 26\r\nConnection: close\r\n\r\n{\"end\":32,\"name\":\"Broken\"}"
        }
        End::ReadFault | End::WriteFault | End::BadHeader => "",
    }
}

/// The text, or the end that the want of memory for it is.
fn text_or_end(text: Result<String, AllocError>) -> Result<String, End>
    ensures ok { IfOk text (λ s. result ≡ Ok s) }
    ensures err { OnErr text (result ≡ Err End.Memory) }
{
    Ok(text?)
}

/// The reply where there is no such key.
fn unknown_key_text(alloc: Global) -> Result<String, AllocError>
    ensures { IfOk result (IsTextOf (outcome_reply (Err UnknownKey))) }
{
    answer_reply_text(alloc, &Answer::Refused(Refusal::UnknownKey))
}

/// Shows a key.
fn reply_text_showing_key<S: Alter>(
    alloc: Global,
    desk: &mut Desk<S>,
    key: u32,
) -> Result<String, End>
    ensures acts { (moment : ℕ) →
        Acts S.Store moment (Asked.ShowKey key) desk.old desk.new result }
    ensures steps { KeepsToSteps S.Store 38 desk.old desk.new }
{
    match desk.show(key)? {
        Some(shown) => text_or_end(key_reply_text(alloc, &shown)),
        None => text_or_end(unknown_key_text(alloc)),
    }
}

/// Tells what a key may be used for.
fn usage_reply<S: Alter>(alloc: Global, desk: &mut Desk<S>, key: u32) -> Result<String, End>
    ensures steps { KeepsToSteps S.Store 2 desk.old desk.new }
    ensures acts { (moment : ℕ) →
        Acts S.Store moment (Asked.ShowUsage key) desk.old desk.new result }
{
    match desk.usage(key)? {
        Some(usage) => text_or_end(usage_reply_text(alloc, &usage)),
        None => text_or_end(unknown_key_text(alloc)),
    }
}

/// The request that is made of what was sent, at this moment.
fn request_at(moment: Moment, sent: &Sent) -> Request
    ensures is { result ≡ request_at moment sent.now }
    ensures in_range { IsAskedInRange (Asked.Apply sent.now)
        → IsRequest (request_at moment sent.now) }
{
    Request {
        moment,
        caller: sent.caller,
        number: sent.number,
        command: sent.command,
    }
}

/// Applies what was sent at this moment.
fn reply_text_after_applying<S: Alter>(
    alloc: Global,
    moment: Moment,
    sent: &Sent,
    desk: &mut Desk<S>,
) -> Result<String, End>
    requires { IsAskedInRange (Asked.Apply sent.now) }
    ensures acts { Acts S.Store moment (Asked.Apply sent.now) desk.old desk.new result }
    ensures steps { KeepsToSteps S.Store 51 desk.old desk.new }
{
    let request = request_at(moment, sent);
    let answer = desk.apply(&request)?;
    text_or_end(answer_reply_text(alloc, &answer))
}

/// Does what is asked at this moment, and gives the text of the reply.
///
/// # Errors
/// [`End::Memory`], [`End::Store`] or [`End::Broken`], as the call of the desk has it; the first
/// also where memory gave out for the text.
fn answer_asked<S: Alter>(
    alloc: Global,
    desk: &mut Desk<S>,
    moment: Moment,
    asked: &Asked,
) -> Result<String, End>
    requires { IsAskedInRange asked.now }
    ensures acts { Acts S.Store moment asked.now desk.old desk.new result }
    ensures steps { KeepsToSteps S.Store 51 desk.old desk.new }
{
    match asked {
        Asked::Reject(rejection) => text_or_end(rejection_text(alloc, *rejection)),
        Asked::ShowKey(key) => reply_text_showing_key(alloc, desk, *key),
        Asked::ShowUsage(key) => usage_reply(alloc, desk, *key),
        Asked::Apply(sent) => reply_text_after_applying(alloc, moment, sent, desk),
    }
}

/// The bytes of the reply to what was answered.
fn reply_bytes(answered: &Result<String, End>) -> &[u8]
    ensures { result.now ≡ sent_text answered.now }
{
    match answered {
        Ok(text) => text.as_bytes(),
        Err(end) => end_reply(*end).as_bytes(),
    }
}

/// The end that was answered, or this one where a text was.
fn finish_or_end(answered: &Result<String, End>, finish: Finish) -> Finish
    ensures ok { OnOk answered.now (result ≡ finish) }
    ensures err { IfErr answered.now (λ end. result ≡ Finish.Ended end) }
{
    match answered {
        Ok(_) => finish,
        Err(end) => Finish::Ended(*end),
    }
}

/// Writes the reply to what was answered, after so many bytes were read.
fn send_reply<W: Write>(
    writer: &mut Watched<W>,
    answered: &Result<String, End>,
    read: u64,
) -> Outcome
    ensures sends { Sends (sent_text answered.now) (W.contents writer.old.inner)
        (W.contents writer.new.inner) result.written result.replies }
    ensures ends { EndsAs answered.now result.end result.replies }
    ensures keeps { KeepsWriter writer.old writer.new result.replies }
    ensures read { result.read ≡ read }
{
    let reply = reply_bytes(answered);
    let (written, replies, finish) = match writer.write_flushed(MAX_IDLE_TURNS, reply) {
        Ok(()) => (reply.len(), 1, Finish::AtEnd { rest: 0 }),
        Err(fault) => (fault.written, 0, Finish::Ended(End::WriteFault)),
    };
    Outcome {
        read,
        written: written as u64,
        replies,
        end: finish_or_end(answered, finish),
    }
}

/// One exchange at this moment: reads one request, asks the register once, and writes one reply.
/// Where the reader gives no byte it does nothing. Bytes after the request are no request. The
/// routes may serve one exchange after the other.
///
/// Its end is that after a 503 or 500 reply, [`End::Memory`], [`End::Store`] or [`End::Broken`],
/// even where writing that fails; else [`End::ReadFault`] or [`End::WriteFault`] where a stream
/// failed or a bound on its turns was met, else the end of what there is to do. At
/// [`End::ReadFault`] nothing was written, and the register was not asked.
pub fn exchange<R: Read, W: Write, S: Alter>(
    alloc: Global,
    routes: &mut Routes,
    desk: &mut Desk<S>,
    moment: Moment,
    reader: &mut Watched<R>,
    writer: &mut Watched<W>,
) -> Outcome
    requires reader { reader.old.failed ≡ false }
    requires writer { writer.old.failed ≡ false }
    ensures exchanges { Exchanges S.Store moment (R.remaining reader.old.inner) desk.old desk.new
        (W.contents writer.old.inner) (W.contents writer.new.inner) result }
    // Whatever the reader tells of its bytes, at most one request was handed to the register.
    ensures leaves { (h : List Request) → StandsFor S.Store desk.old h → IsWhole desk.old
        → IsClean S.Store desk.new → LeavesOne S.Store h desk.new result.end }
    ensures clean { IsClean S.Store desk.new → IsClean S.Store desk.old }
    // However many keys there are.
    ensures steps { KeepsToSteps S.Store 51 desk.old desk.new }
    ensures reader { LeavesHttpReader R.remaining reader.old reader.new result }
    ensures writer { LeavesHttpWriter writer.new result }
{
    reader.reset_turn_counts();
    writer.reset_turn_counts();
    let asking = read_asked(alloc, routes, reader);
    let read = asking.read as u64;
    let answered = match asking.asked {
        Ok(Some(asked)) => answer_asked(alloc, desk, moment, &asked),
        Ok(None) => return Outcome::ended_without_bytes(Finish::AtEnd { rest: 0 }).with_read(read),
        Err(AskFault::Memory) => Err(End::Memory),
        Err(AskFault::ReadFault) => {
            return Outcome::ended_without_bytes(Finish::Ended(End::ReadFault)).with_read(read);
        }
    };
    send_reply(writer, &answered, read)
}
