//! Serving over a network of tests, of which a call fails: listening, accepting, reading, writing,
//! or a look at a clock.
ghost use Rattle.std.specs.Prelude.{[], ◌∷◌, None, Some};
ghost use Rattle.machine_traits.specs.Network.{Notes, Went};

use register_desk::{Desk, End, Finish};
use register_program::{Attendance, Client, Network, ReadHalf, WriteHalf, serve_at};
use register_words::Bounds;
use sqlite::MemStore;
use std::alloc::{AllocError, Global};
use std::cell::Cell;
use std::io::{self, ErrorKind, Read, Write};
use std::rc::Rc;
use std::test::Fail;
use std::time::{Clock, Duration};
use test_desk_trials::{ADVANCE, ADVANCED, make_desk};

/// What is asked of a network.
#[derive(Clone, Copy, PartialEq, Eq)]
enum Call {
    Listen,
    Accept,
    Read,
    Write,
    /// How long a client has taken.
    Timer,
    /// Which moment it is.
    Moment,
}

/// The calls of a kind, of which the one with this many before it fails.
#[derive(Drop)]
struct Calls {
    call: Call,
    before: u64,
    made: Rc<Cell<u64>>,
}

impl Calls {
    fn share(&self) -> Result<Calls, AllocError> {
        Ok(Calls {
            call: self.call,
            before: self.before,
            made: self.made.clone()?,
        })
    }

    /// Counts a call, and fails where it is the one.
    fn make(&self, call: Call) -> io::Result<()> {
        if call != self.call {
            return Ok(());
        }
        let before = self.made.get();
        self.made.set(before.saturating_add(1));
        if before == self.before {
            return Err(io::Error::from(ErrorKind::Other));
        }
        Ok(())
    }
}

/// The request that follows [`ADVANCE`].
const NEXT_ADVANCE: &str = "POST /requests HTTP/1.1\r\nHost: localhost\r\nCaller: ann\r\n\
     Request-Number: 2\r\nContent-Length: 18\r\n\r\n{\"kind\":\"advance\"}";

/// A network whose clients each send a request, sixteen bytes at a time, and take all.
#[derive(Drop)]
struct Tested {
    alloc: Global,
    calls: Calls,
    /// What the clients send, one after the other.
    requests: &'static [&'static str],
    /// The time in milliseconds since 1970 where nobody came yet, and as each client came.
    times: &'static [u64],
    came: usize,
    /// What those were sent who went.
    replies: Vec<Vec<u8>>,
}

impl Network for Tested {
    type ReadHalf = Sender;

    type WriteHalf = Taker;

    fn listen_at_localhost(&mut self, _port: u16) -> io::Result<()> {
        self.calls.make(Call::Listen)
    }

    fn accept_client(&mut self) -> io::Result<Client<Sender, Taker>> {
        self.calls.make(Call::Accept)?;
        let Some(request) = self.requests.get(self.came) else {
            return Err(io::Error::from(ErrorKind::Other));
        };
        self.came = self.came.saturating_add(1);
        Ok(Client {
            read_half: Sender {
                calls: self.calls.share()?,
                rest: request.as_bytes(),
            },
            write_half: Taker {
                calls: self.calls.share()?,
                taken: Vec::new(self.alloc),
            },
        })
    }

    fn tell_time(&mut self) -> io::Result<Duration> {
        self.calls.make(Call::Moment)?;
        match self.times.get(self.came) {
            Some(time) => Ok(Duration::from_millis(*time)),
            None => Err(io::Error::from(ErrorKind::Other)),
        }
    }

    fn see_off(&mut self, client: Client<Sender, Taker>)
        ensures { Notes None None (Went None ∷ []) }
    {
        let Client {
            read_half: _,
            write_half,
        } = client;
        let Taker { calls: _, taken } = write_half;
        let _ = self.replies.push(taken);
    }
}

impl Clock for Tested {
    fn monotonic(&self) -> io::Result<Duration> {
        self.calls.make(Call::Timer)?;
        Ok(Duration::from_secs(0))
    }

    fn since_1970(&self) -> io::Result<Duration> {
        Err(io::Error::from(ErrorKind::Other))
    }
}

/// A client that sends, and what it has still to send.
#[derive(Drop)]
struct Sender {
    calls: Calls,
    rest: &'static [u8],
}

impl ReadHalf for Sender {
    ghost remaining = { λ sender. Some sender.rest.now };

    fn read_within(&mut self, _wait: Duration, buf: &mut [u8]) -> io::Result<usize> {
        self.calls.make(Call::Read)?;
        let count = buf.len().min(16);
        self.rest.read(&mut buf[..count])
    }

    fn drain(&mut self) {}
}

/// The same client as it takes its reply, and what it has taken.
#[derive(Drop)]
struct Taker {
    calls: Calls,
    taken: Vec<u8>,
}

impl WriteHalf for Taker {
    ghost contents = { λ taker. Some taker.taken.items };

    fn write_within(&mut self, _wait: Duration, buf: &[u8]) -> io::Result<usize> {
        self.calls.make(Call::Write)?;
        self.taken.write(buf)
    }

    fn end_writing(&mut self) {}
}

/// What serving two clients came to.
#[derive(Drop)]
struct Served {
    finish: Finish,
    /// The latest moment after it, in seconds.
    latest: u64,
    /// How many calls of the kind were made of which one fails.
    made: u64,
    /// What those were sent who went.
    replies: Vec<Vec<u8>>,
}

/// Serves clients who send these, at these times in milliseconds.
fn serve(
    alloc: Global,
    calls: Calls,
    requests: &'static [&'static str],
    times: &'static [u64],
) -> Result<Served, Fail> {
    let mut desk: Desk<MemStore> = make_desk(alloc)?;
    let made = calls.made.clone()?;
    let mut network = Tested {
        alloc,
        calls,
        requests,
        times,
        came: 0,
        replies: Vec::new(alloc),
    };
    let mut attendance = Attendance::new();
    let bounds = Bounds {
        port: 8420,
        exchanges: 2,
    };
    let finish = serve_at(alloc, &mut desk, &mut network, &bounds, &mut attendance);
    Ok(Served {
        finish,
        latest: desk.latest().seconds(),
        made: made.get(),
        replies: network.replies,
    })
}

/// What comes of two clients who send *advanced* at 100, where the call of this kind with so many
/// before it fails.
fn serve_failing(alloc: Global, call: Call, before: u64) -> Result<Served, Fail> {
    let calls = Calls {
        call,
        before,
        made: Rc::new(alloc, Cell::new(0))?,
    };
    serve(
        alloc,
        calls,
        &[ADVANCE, ADVANCE],
        &[99_000, 100_000, 100_000],
    )
}

/// What comes of *advanced* and the request that follows it, at these times, where no call fails.
fn serve_two_at(alloc: Global, times: &'static [u64]) -> Result<Served, Fail> {
    let calls = Calls {
        call: Call::Listen,
        before: 1,
        made: Rc::new(alloc, Cell::new(0))?,
    };
    serve(alloc, calls, &[ADVANCE, NEXT_ADVANCE], times)
}

const AT_END: Finish = Finish::AtEnd { rest: 0 };

const READ_FAULT: Finish = Finish::Ended(End::ReadFault);

/// Whether a client's own failure, whichever call of this kind fails, is its own alone: the other
/// client is served, and so is the end.
fn is_passed_over(alloc: Global, call: Call) -> Result<bool, Fail> {
    for before in 0..1000 {
        let served = serve_failing(alloc, call, before)?;
        if served.made <= before {
            return Ok(before > 0);
        }
        if served.finish != AT_END || served.latest != 100 {
            return Ok(false);
        }
    }
    Ok(false)
}

#[test]
fn a_port_that_is_taken_is_told(rt: HostRuntime) -> Result<(), Fail> {
    let served = serve_failing(rt.alloc(), Call::Listen, 0)?;
    assert!(rt; served.finish == READ_FAULT && served.latest == 0);
    Ok(())
}

/// One that cannot be accepted, or is accepted at no moment, ends the serving, behind those before.
#[test]
fn no_client_and_no_moment_are_told(rt: HostRuntime) -> Result<(), Fail> {
    for call in [Call::Accept, Call::Moment] {
        let first = serve_failing(rt.alloc(), call, 0)?;
        let second = serve_failing(rt.alloc(), call, 1)?;
        assert!(rt; first.finish == READ_FAULT && first.latest == 0);
        assert!(rt; second.finish == READ_FAULT && second.latest == 100);
    }
    Ok(())
}

#[test]
fn a_failed_client_is_passed_over(rt: HostRuntime) -> Result<(), Fail> {
    for call in [Call::Read, Call::Write, Call::Timer] {
        assert!(rt; is_passed_over(rt.alloc(), call)?);
    }
    Ok(())
}

/// The moment is that of the time once the client came, in whole seconds, whatever was before.
#[test]
fn a_moment_is_told_once_its_client_came(rt: HostRuntime) -> Result<(), Fail> {
    let moved = serve_two_at(rt.alloc(), &[99_000, 100_999, 200_000])?;
    assert!(rt; moved.finish == AT_END && moved.latest == 200);
    assert!(rt;
        moved
            .replies
            .first()
            .is_some_and(|sent| sent.as_slice() == ADVANCED.as_bytes())
    );
    let set_back = serve_two_at(rt.alloc(), &[0, 100_000, 99_999])?;
    assert!(rt; set_back.finish == AT_END && set_back.latest == 100);
    assert!(rt;
        set_back
            .replies
            .get(1)
            .is_some_and(|sent| sent.starts_with(b"HTTP/1.1 409 "))
    );
    Ok(())
}

#[test]
fn moments_are_those_of_the_range(rt: HostRuntime) -> Result<(), Fail> {
    let last = serve_two_at(rt.alloc(), &[0, 0, 253_402_300_799_999])?;
    assert!(rt; last.finish == AT_END && last.latest == 253_402_300_799);
    let past = serve_two_at(rt.alloc(), &[0, 0, 253_402_300_800_000])?;
    assert!(rt; past.finish == READ_FAULT && past.latest == 0);
    Ok(())
}
