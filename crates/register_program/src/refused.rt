//! Files in which no register was made or opened, and why. Whoever opens files gets this of one that
//! failed to, and cannot make it.
ghost use Rattle.std.specs.Prelude.{◌≡◌};
ghost use Rattle.register_program.specs.Life.{ClosesAs, connect_refusal, refusal_of};

use machine_traits::{ConnectError, NotConnected};
use register_desk::{OpenRefusal, Unopened};
use sqlite::{Alter, Connection};

/// Files in which no register was made or opened.
#[derive(Drop)]
pub enum RefusedFiles<S, U> {
    /// They could not be opened at all.
    Failed(U),
    /// They were opened, and closed.
    Shut(S),
}

/// Why a register was not made or opened. It comes of files that could not be opened, or of a
/// connection that did not become a desk, and of nothing else.
#[derive(Drop)]
pub struct Refused<S, U> {
    refusal: OpenRefusal,
    /// The files as they were left.
    files: RefusedFiles<S, U>,
}

impl<S, U> Refused<S, U> {
    /// Why.
    pub fn refusal(&self) -> OpenRefusal
        ensures { result ≡ refusal_of self.now }
    {
        self.refusal
    }
}

/// The refusal that files which could not be opened come to.
fn connect_refusal(error: ConnectError) -> OpenRefusal
    ensures { result ≡ connect_refusal error }
{
    match error {
        ConnectError::Memory => OpenRefusal::Memory,
        ConnectError::Store => OpenRefusal::Store,
    }
}

/// The refusal of files that could not be opened.
impl<S, U> From<NotConnected<U>> for Refused<S, U> {
    ghost use Rattle.register_program.specs.Life.{IsOfFailed};

    ghost from_gives = { λ it refused. IsOfFailed it.error it.failed refused };

    fn from(it: NotConnected<U>) -> Self {
        let NotConnected { error, failed } = it;
        Refused {
            refusal: connect_refusal(error),
            files: RefusedFiles::Failed(failed),
        }
    }
}

/// The refusal of files that were opened.
impl<S: Alter + Drop, U> From<Unopened<S>> for Refused<S, U> {
    ghost use Rattle.register_program.specs.Life.{GivesBack};

    ghost from_gives = { λ unopened refused. GivesBack S.Store unopened refused };

    fn from(unopened: Unopened<S>) -> Self {
        Refused {
            refusal: unopened.refusal(),
            files: RefusedFiles::Shut(close_connection_into_store(unopened.into_connection())),
        }
    }
}

/// The files of a connection that nobody uses any more.
pub(crate) fn close_connection_into_store<S: Alter + Drop>(connection: Connection<S>) -> S
    ensures { ClosesAs S.Store connection result }
{
    connection.into_store()
}
