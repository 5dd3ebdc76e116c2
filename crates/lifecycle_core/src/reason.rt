//! The reasons for which a key is revoked.
ghost use Rattle.std.specs.Prelude.{◌≡◌};

/// A revocation reason of KMIP 1.2 (its attribute Revocation Reason).
#[derive(Clone, Copy)]
pub enum Reason {
    Unspecified = 1,
    KeyCompromise = 2,
    CaCompromise = 3,
    AffiliationChanged = 4,
    Superseded = 5,
    CessationOfOperation = 6,
    PrivilegeWithdrawn = 7,
}

impl Reason {
    ghost use Rattle.std.specs.Prelude.{◌<◌, ◌⊎◌, IfSome, IfNone};
    ghost use Rattle.lifecycle_core.specs.Reason.{reason_code, is_compromise};

    /// The reason's value in the Revocation Reason Code Enumeration of KMIP 1.2, from 1 to 7.
    pub fn code(self) -> u8
        ensures { result ≡ reason_code self }
    {
        self as u8
    }

    /// The reason with this value, or `None` below 1 and above 7.
    pub fn from_code(code: u8) -> Option<Self>
        ensures found { IfSome result (λ reason. reason_code reason ≡ code) }
        ensures none { IfNone result ((code < 1) ⊎ (7 < code)) }
    {
        match code {
            1 => Some(Reason::Unspecified),
            2 => Some(Reason::KeyCompromise),
            3 => Some(Reason::CaCompromise),
            4 => Some(Reason::AffiliationChanged),
            5 => Some(Reason::Superseded),
            6 => Some(Reason::CessationOfOperation),
            7 => Some(Reason::PrivilegeWithdrawn),
            _ => None,
        }
    }

    /// Whether a key that is revoked for this reason is compromised. That both compromises count is
    /// this register's own.
    pub fn is_compromise(self) -> bool
        ensures { result ≡ is_compromise self }
    {
        matches!(self, Reason::KeyCompromise | Reason::CaCompromise)
    }
}
