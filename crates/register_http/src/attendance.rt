//! How many clients came, and whether the network failed. No contract can see what it answered, so
//! that is marked here and nowhere else.
ghost use Rattle.std.specs.Prelude.{◌≡◌, ◌+◌, ◌^◌, ◌<◌, true, false, [], ◌∷◌, None, IfSome, OnSome};
ghost use Rattle.machine_traits.specs.Network.{Came, Notes};
ghost use Rattle.register_http.specs.Within.{Fails, IsToldBy, MayTell};

use machine_traits::{Client, Network};
use moment_core::Moment;

/// What serving is lent: it begins with nobody accepted and no failure.
#[derive(Drop)]
pub struct Attendance {
    accepted: u32,
    failed: bool,
}

impl Attendance {
    /// Nobody was accepted yet.
    pub fn new() -> Self
        ensures { result ≡ record { accepted = 0; failed = false } }
    {
        Attendance {
            accepted: 0,
            failed: false,
        }
    }

    /// How many clients were accepted.
    pub fn accepted(&self) -> u32
        ensures { result ≡ self.now.accepted }
    {
        self.accepted
    }

    /// Whether the port could not be listened at, a client not be accepted, or no moment be told.
    pub fn has_failed(&self) -> bool
        ensures { result ≡ self.now.failed }
    {
        self.failed
    }

    /// Whether it listens at this port of the machine itself.
    pub(crate) fn listen<N: Network>(&mut self, network: &mut N, port: u16) -> bool
        ensures listens { result ≡ true → self.new ≡ self.old }
        ensures fails { result ≡ false → self.new.failed ≡ true }
        ensures counts { self.new.accepted ≡ self.old.accepted }
        ensures visits { N.visits network.new ≡ N.visits network.old }
    {
        match network.listen_at_localhost(port) {
            Ok(()) => true,
            Err(_) => {
                self.failed = true;
                false
            }
        }
    }

    /// Waits for the next client.
    pub(crate) fn accept<N: Network>(
        &mut self,
        network: &mut N,
    ) -> Option<Client<N::ReadHalf, N::WriteHalf>>
        requires { self.old.accepted + 1 < 2 ^ 32 }
        ensures counts { OnSome result
            (self.new ≡ record self.old { accepted = self.old.accepted + 1 }) }
        ensures comes { IfSome result (λ client. Notes (N.visits network.old)
            (N.visits network.new) (Came (N.ReadHalf.remaining client.read_half)
            (N.WriteHalf.contents client.write_half) ∷ [])) }
        ensures fails { result ≡ None → Fails self.old self.new
            × (N.visits network.new ≡ N.visits network.old) }
    {
        match network.accept_client() {
            Ok(client) => {
                self.accepted += 1;
                Some(client)
            }
            Err(_) => {
                self.failed = true;
                None
            }
        }
    }

    /// The moment of the next exchange, in whole seconds.
    pub(crate) fn tell_moment<N: Network>(&mut self, network: &mut N) -> Option<Moment>
        ensures same { OnSome result (self.new ≡ self.old) }
        ensures tells { IfSome result (IsToldBy (N.visits network.old) (N.visits network.new)) }
        ensures fails { result ≡ None → Fails self.old self.new
            × MayTell (N.visits network.old) (N.visits network.new) }
    {
        let Ok(time) = network.tell_time() else {
            self.failed = true;
            return None;
        };
        let moment = Moment::new(time.as_secs());
        self.failed = self.failed || moment.is_none();
        moment
    }
}
