//! The machine's own network.
ghost use Rattle.std.specs.Prelude.{[], ◌∷◌, None};
ghost use Rattle.machine_traits.specs.Network.{Notes, Went};

use machine_traits::{Client, Network, ReadHalf, WriteHalf};
use std::io::{self, ErrorKind, Read, Write};
use std::net::{Ipv4Addr, Shutdown, SocketAddr, TcpListener, TcpStream};
use std::time::{Clock, Duration};

/// How many pieces of what a client has sent after its request are taken off its connection
/// before it is closed.
const MAX_READS_BEHIND: usize = 256;

/// The network that the runtime reaches, and its clock.
#[derive(Drop)]
pub struct MachineNetwork<'a> {
    rt: &'a HostRuntime,
    /// The port at which it listens.
    listener: Option<TcpListener>,
}

impl<'a> MachineNetwork<'a> {
    /// That of this runtime. It listens at no port yet.
    pub fn new(rt: &'a HostRuntime) -> Self {
        MachineNetwork { rt, listener: None }
    }

    /// Where it listens.
    ///
    /// # Errors
    /// As the system told it, and where it listens at no port.
    pub fn local_addr(&self) -> io::Result<SocketAddr> {
        self.listener()?.local_addr()
    }

    /// The port at which it listens.
    fn listener(&self) -> io::Result<&TcpListener> {
        self.listener
            .as_ref()
            .ok_or(io::Error::from(ErrorKind::NotConnected))
    }
}

impl<'a> Network for MachineNetwork<'a> {
    type ReadHalf = MachineReadHalf;

    type WriteHalf = MachineWriteHalf;

    fn listen_at_localhost(&mut self, port: u16) -> io::Result<()> {
        self.listener = Some(TcpListener::bind(self.rt, (Ipv4Addr::LOCALHOST, port))?);
        Ok(())
    }

    fn accept_client(&mut self) -> io::Result<Client<MachineReadHalf, MachineWriteHalf>> {
        let (stream, _) = self.listener()?.accept()?;
        let other = stream.try_clone()?;
        Ok(Client {
            read_half: MachineReadHalf { stream },
            write_half: MachineWriteHalf { stream: other },
        })
    }

    fn tell_time(&mut self) -> io::Result<Duration> {
        self.rt.since_1970()
    }

    fn see_off(&mut self, client: Client<MachineReadHalf, MachineWriteHalf>)
        ensures { Notes None None (Went None ∷ []) }
    {
        drop(client);
    }
}

impl<'a> Clock for MachineNetwork<'a> {
    fn monotonic(&self) -> io::Result<Duration> {
        self.rt.monotonic()
    }

    fn since_1970(&self) -> io::Result<Duration> {
        self.rt.since_1970()
    }
}

/// The half of a connection to such a port on which the client's bytes come.
#[derive(Drop)]
pub struct MachineReadHalf {
    stream: TcpStream,
}

impl ReadHalf for MachineReadHalf {
    fn read_within(&mut self, wait: Duration, buf: &mut [u8]) -> io::Result<usize> {
        self.stream.set_read_timeout(Some(wait))?;
        self.stream.read(buf)
    }

    fn drain(&mut self) {
        if self.stream.set_nonblocking(true).is_err() {
            return;
        }
        let mut piece = [0; 4096];
        for _ in 0..MAX_READS_BEHIND {
            match self.stream.read(&mut piece) {
                Ok(count) if count > 0 => {}
                _ => return,
            }
        }
    }
}

/// The half of a connection to such a port on which the client is answered.
#[derive(Drop)]
pub struct MachineWriteHalf {
    stream: TcpStream,
}

impl WriteHalf for MachineWriteHalf {
    fn write_within(&mut self, wait: Duration, buf: &[u8]) -> io::Result<usize> {
        self.stream.set_write_timeout(Some(wait))?;
        self.stream.write(buf)
    }

    fn end_writing(&mut self) {
        // Where the client has left, there is nobody to be told.
        let _ = self.stream.shutdown(Shutdown::Write);
    }
}
