//! Serves connections one after the other, one HTTP exchange each.
ghost use Rattle.std.specs.Prelude.{◌≡◌, List, true};
ghost use Rattle.register_requests.specs.declared.request.Request.{Request};
ghost use Rattle.register_desk.specs.Desk.{IsClean, IsWhole, KeepsToSteps};
ghost use Rattle.register_desk.specs.{Register.StandsFor, Run.LeavesDesk};
ghost use Rattle.register_http.specs.{Exchange.Exchanges, OneItem.LeavesOne};
ghost use Rattle.register_http.specs.ServedExchanges.{ServesClients, TookThenSome, nobody};
ghost use Rattle.register_http.specs.Within.{may_serve_on};

use crate::attendance::Attendance;
use crate::exchanging::exchange;
use http_messages::Routes;
use machine_traits::{Client, Network, ReadHalf, WriteHalf};
use moment_core::Moment;
use register_desk::{Desk, End, Finish, Outcome};
use register_words::Bounds;
use sqlite::Alter;
use std::alloc::Global;
use std::io::{self, ErrorKind, Read, Write};
use std::time::{Clock, Duration, Instant};
use streams::Watched;

/// How many seconds a client may keep its exchange waiting for its bytes, and as many for it to take
/// the reply. What the register does in between is no time of the client's.
const MAX_CLIENT_SECONDS: u64 = 10;

/// A half of a client's connection, for as long as the client may keep it waiting.
#[derive(Drop)]
struct Timed<'a, H, C: Clock> {
    half: H,
    timer: &'a C,
    /// How long the client may still keep it waiting.
    left: Duration,
}

impl<H, C: Clock> Timed<'_, H, C> {
    /// When a turn begins that may wait.
    fn begin_turn(&self) -> io::Result<Instant> {
        if self.left.is_zero() {
            return Err(io::Error::from(ErrorKind::TimedOut));
        }
        Instant::now(self.timer)
    }

    /// Ends a turn that began then. Where the timer fails no time is left.
    fn end_turn(&mut self, start: Instant)
        ensures { self.new.half ≡ self.old.half }
    {
        let waited = match start.elapsed(self.timer) {
            Ok(waited) => waited,
            Err(_) => self.left,
        };
        self.left = self.left.saturating_sub(waited);
    }
}

impl<R: ReadHalf, C: Clock> Read for Timed<'_, R, C> {
    ghost remaining = { λ timed. R.remaining timed.half };

    fn read(&mut self, buf: &mut [u8]) -> io::Result<usize> {
        let start = self.begin_turn()?;
        let result = self.half.read_within(self.left, buf);
        self.end_turn(start);
        result
    }
}

impl<W: WriteHalf, C: Clock> Write for Timed<'_, W, C> {
    ghost contents = { λ timed. W.contents timed.half };

    fn write(&mut self, buf: &[u8]) -> io::Result<usize> {
        let start = self.begin_turn()?;
        let result = self.half.write_within(self.left, buf);
        self.end_turn(start);
        result
    }

    fn flush(&mut self) -> io::Result<()> {
        // The system keeps nothing back of what it took.
        Ok(())
    }
}

/// A client who was accepted.
#[derive(Drop)]
pub struct Accepted<'a, R, W, C: Clock> {
    /// Its connection.
    pub client: Client<R, W>,
    /// Measures how long it takes.
    pub timer: &'a C,
    /// The moment of its exchange.
    pub moment: Moment,
}

/// What serving one connection came to.
#[derive(Drop)]
pub struct ServedConnection<R, W> {
    /// What the exchange did.
    pub outcome: Outcome,
    /// The connection, on which no more is written or read.
    pub client: Client<R, W>,
}

/// Serves one connection: one [`exchange`] at this moment, for which the client has ten seconds to
/// send its bytes, and ten to take the reply. The client is then told that no more comes, and what
/// it has sent besides its request is taken off. It ends by [`End::ReadFault`], too, where the timer
/// fails.
pub fn serve_connection<S: Alter, R: ReadHalf, W: WriteHalf, C: Clock>(
    alloc: Global,
    routes: &mut Routes,
    desk: &mut Desk<S>,
    accepted: Accepted<'_, R, W, C>,
) -> ServedConnection<R, W>
    // Where the client's bytes are known, the reply is to those, and it is what was sent.
    ensures exchanges { Exchanges S.Store accepted.entry.moment
        (R.remaining accepted.entry.client.read_half) desk.old desk.new
        (W.contents accepted.entry.client.write_half) (W.contents result.client.write_half)
        result.outcome }
    ensures reads { TookThenSome (R.remaining accepted.entry.client.read_half)
        (R.remaining result.client.read_half) result.outcome.read }
    ensures ended { W.has_ended result.client.write_half ≡ true }
    ensures drained { R.is_drained result.client.read_half ≡ true }
    // Whatever the client tells of its bytes, at most one request was handed to the register.
    ensures leaves { (h : List Request) → StandsFor S.Store desk.old h → IsWhole desk.old
        → IsClean S.Store desk.new → LeavesOne S.Store h desk.new result.outcome.end }
    ensures clean { IsClean S.Store desk.new → IsClean S.Store desk.old }
    ensures desk { LeavesDesk desk.old desk.new result.outcome.end }
    ensures steps { KeepsToSteps S.Store 51 desk.old desk.new }
{
    let Accepted {
        client,
        timer,
        moment,
    } = accepted;
    let Client {
        read_half,
        write_half,
    } = client;
    let left = Duration::from_secs(MAX_CLIENT_SECONDS);
    let mut reader = Watched::new(Timed {
        half: read_half,
        timer,
        left,
    });
    let mut writer = Watched::new(Timed {
        half: write_half,
        timer,
        left,
    });
    let outcome = exchange(alloc, routes, desk, moment, &mut reader, &mut writer);
    let mut read_half = reader.into_inner().half;
    let mut write_half = writer.into_inner().half;
    write_half.end_writing();
    read_half.drain();
    ServedConnection {
        outcome,
        client: Client {
            read_half,
            write_half,
        },
    }
}

/// Whether a next exchange may follow one that ended so: the register may be asked again.
fn may_serve_on(finish: Finish) -> bool
    ensures { result ≡ may_serve_on finish }
{
    match finish {
        Finish::Ended(End::Store) => false,
        Finish::Ended(End::Broken) => false,
        _ => true,
    }
}

/// Serves so many connections that come to the network's port, one after the other, each one
/// exchange at the moment that is told once it was accepted. A client that is slow keeps the next
/// one waiting no longer than ten seconds for its bytes and ten for its reply, and a connection is
/// closed after its reply.
///
/// Gives the end of what there is to do after that many, or [`End::Store`] or [`End::Broken`] of
/// an exchange, or [`End::ReadFault`] where a connection could not be accepted or no moment was
/// told, as the attendance marks it.
pub fn serve_on<S: Alter, N: Network + Clock>(
    alloc: Global,
    desk: &mut Desk<S>,
    network: &mut N,
    exchanges: u32,
    attendance: &mut Attendance,
) -> Finish
    requires { attendance.old ≡ nobody }
    ensures { ServesClients S.Store exchanges (N.visits network.old) (N.visits network.new)
        attendance.new desk.old desk.new result }
{
    let mut routes = Routes::new();
    let mut served = 0;
    'exchanges: while served < exchanges {
        let Some(client) = attendance.accept(network) else {
            return Finish::Ended(End::ReadFault);
        };
        let Some(moment) = attendance.tell_moment(network) else {
            return Finish::Ended(End::ReadFault);
        };
        let accepted = Accepted {
            client,
            timer: &*network,
            moment,
        };
        let connection = serve_connection(alloc, &mut routes, desk, accepted);
        let finish = connection.outcome.end;
        network.see_off(connection.client);
        if !may_serve_on(finish) {
            return finish;
        }
        served += 1;
    }
    Finish::AtEnd { rest: 0 }
}

/// Serves so many connections that come to the port of the machine itself, as [`serve_on`]. It ends
/// by [`End::ReadFault`], too, where the port cannot be listened at.
pub fn serve_at<S: Alter, N: Network + Clock>(
    alloc: Global,
    desk: &mut Desk<S>,
    network: &mut N,
    bounds: &Bounds,
    attendance: &mut Attendance,
) -> Finish
    requires { attendance.old ≡ nobody }
    ensures { ServesClients S.Store bounds.now.exchanges (N.visits network.old)
        (N.visits network.new) attendance.new desk.old desk.new result }
{
    if !attendance.listen(network, bounds.port) {
        return Finish::Ended(End::ReadFault);
    }
    serve_on(alloc, desk, network, bounds.exchanges, attendance)
}
