//! The states of a key.
ghost use Rattle.std.specs.Prelude.{◌≡◌};

/// A state of KMIP 1.2 (its attribute State).
#[derive(Clone, Copy, Debug, PartialEq, Eq)]
pub enum State {
    PreActive,
    Active,
    Deactivated,
    Compromised,
    Destroyed,
    DestroyedCompromised,
}

impl State {
    ghost use Rattle.std.specs.Prelude.{◌<◌, ◌⊎◌, IfSome, IfNone};
    ghost use Rattle.lifecycle_core.specs.State.{state_text, state_code};

    /// Each state once.
    pub const ALL: [State; 6] = [
        State::PreActive,
        State::Active,
        State::Deactivated,
        State::Compromised,
        State::Destroyed,
        State::DestroyedCompromised,
    ];

    /// The state's name. The hyphen in `Destroyed-Compromised` is this register's own.
    pub fn text(self) -> &'static str
        ensures { result.now ≡ state_text self }
    {
        self.code_and_text().1
    }

    /// The state's value in the State Enumeration of KMIP 1.2, from 1 to 6.
    pub fn code(self) -> u8
        ensures { result ≡ state_code self }
    {
        self.code_and_text().0
    }

    /// The state with this value, or `None` below 1 and above 6.
    pub fn from_code(code: u8) -> Option<Self>
        ensures found { IfSome result (λ state. state_code state ≡ code) }
        ensures none { IfNone result ((code < 1) ⊎ (6 < code)) }
    {
        Self::ALL.iter().copied().find(|state| state.code() == code)
    }

    /// The state's value and its name.
    fn code_and_text(self) -> (u8, &'static str)
        ensures code { result.0 ≡ state_code self }
        ensures text { result.1.now ≡ state_text self }
    {
        match self {
            State::PreActive => (1, "Pre-Active"),
            State::Active => (2, "Active"),
            State::Deactivated => (3, "Deactivated"),
            State::Compromised => (4, "Compromised"),
            State::Destroyed => (5, "Destroyed"),
            State::DestroyedCompromised => (6, "Destroyed-Compromised"),
        }
    }
}
