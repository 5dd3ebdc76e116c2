//! The network that a register is served on, whoever is on it.
ghost use Rattle.std.specs.Prelude.{◌≡◌, ℕ, List, [], ◌∷◌, Option, None, Bool, true, IfOk, IfErr};
ghost use Rattle.std.specs.Duration.{as_nanos};
ghost use Rattle.std.specs.Io.{ReadsAtMost, WritesAtMost};
ghost use Rattle.std.specs.Io.KnownBytes.{ReadConsumes, WriteAppends};
ghost use Rattle.machine_traits.specs.Network.{LosesSome, Notes, Visit, Came, Told, Went};

use std::io;
use std::time::Duration;

/// The half of a client's connection on which its bytes come.
pub trait ReadHalf {
    /// The bytes that are still to come of the client, where they are known.
    ghost remaining: { Self → Option (List ℕ) } = { λ _. None };

    /// Whether what the client sent besides its request was taken off, where that is known.
    ghost is_drained: { Self → Bool } = { λ _. true };

    /// Reads what the client has sent, and waits no longer than this for some of it.
    ///
    /// # Errors
    /// As the system told it; also where nothing came in time.
    fn read_within(&mut self, wait: Duration, buf: &mut [u8]) -> io::Result<usize>
        ensures bound { ReadsAtMost result buf.new }
        ensures bytes { ReadConsumes (remaining self.old) (remaining self.new) result buf.new };

    /// Takes off the connection what the client has sent after its request, as far as it is there:
    /// bytes that nobody read would have the system break the connection before the client has its
    /// reply.
    fn drain(&mut self)
        ensures bytes { LosesSome (remaining self.old) (remaining self.new) }
        ensures drained { is_drained self.new ≡ true };
}

/// The half of a client's connection on which it is answered.
pub trait WriteHalf {
    /// The bytes that were sent to the client, where they are known.
    ghost contents: { Self → Option (List ℕ) } = { λ _. None };

    /// Whether the client was told that no more comes, where that is known.
    ghost has_ended: { Self → Bool } = { λ _. true };

    /// Writes what the system takes of the bytes, and waits no longer than this until it takes some.
    ///
    /// # Errors
    /// As the system told it; also where it took nothing in time.
    fn write_within(&mut self, wait: Duration, buf: &[u8]) -> io::Result<usize>
        ensures bound { WritesAtMost result buf.now }
        ensures bytes { WriteAppends (contents self.old) (contents self.new) result buf.now };

    /// Tells the client that no more comes.
    fn end_writing(&mut self)
        ensures bytes { contents self.new ≡ contents self.old }
        ensures ended { has_ended self.new ≡ true };
}

/// A client's connection. It is closed where both halves are dropped.
#[derive(Drop)]
pub struct Client<R, W> {
    pub read_half: R,
    pub write_half: W,
}

/// What a register is served on: a port of the machine at which clients come, and its clock.
pub trait Network {
    type ReadHalf: ReadHalf + Drop;

    type WriteHalf: WriteHalf + Drop;

    /// What it had of clients and of the time, in order, where that is known.
    ghost visits: { Self → Option (List Visit) } = { λ _. None };

    /// Listens at this port of the machine itself, which no other machine reaches.
    ///
    /// # Errors
    /// As the system refused it.
    fn listen_at_localhost(&mut self, port: u16) -> io::Result<()>
        ensures { visits self.new ≡ visits self.old };

    /// Waits for the next client at the port.
    ///
    /// # Errors
    /// As the system told it.
    fn accept_client(&mut self) -> io::Result<Client<Self::ReadHalf, Self::WriteHalf>>
        ensures comes { IfOk result (λ client. Notes (visits self.old) (visits self.new)
            (Came (Self.ReadHalf.remaining client.read_half)
            (Self.WriteHalf.contents client.write_half) ∷ [])) }
        ensures fails { IfErr result (λ _. visits self.new ≡ visits self.old) };

    /// The time since 1970.
    ///
    /// # Errors
    /// As the system told it.
    fn tell_time(&mut self) -> io::Result<Duration>
        ensures tells { IfOk result (λ time. Notes (visits self.old) (visits self.new)
            (Told (as_nanos time) ∷ [])) }
        ensures fails { IfErr result (λ _. visits self.new ≡ visits self.old) };

    /// Closes the connection of a client who was served.
    fn see_off(&mut self, client: Client<Self::ReadHalf, Self::WriteHalf>)
        ensures { Notes (visits self.old) (visits self.new)
            (Went (Self.WriteHalf.contents client.write_half) ∷ []) };
}
