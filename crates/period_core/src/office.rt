//! The usage periods that an office sets in the place of this register's own.
ghost use Rattle.std.specs.Prelude.{◌≡◌};

use crate::key_type::KeyType;
use crate::period::{Period, period_or_default};

/// What the office set for each type: a usage period, or none, where the type's own holds.
#[derive(Clone, Copy)]
pub struct OfficePeriods {
    data_encryption: Option<Period>,
    authentication: Option<Period>,
    key_wrapping: Option<Period>,
    private_signature: Option<Period>,
    private_authentication: Option<Period>,
    private_transport: Option<Period>,
    master: Option<Period>,
}

impl OfficePeriods {
    ghost use Rattle.std.specs.Prelude.{◌↔◌, None, is_none, IsTrue};
    ghost use Rattle.std.specs.List.{list_all};
    ghost use Rattle.period_core.specs.declared.key_type.KeyType.{KeyType};
    ghost use Rattle.period_core.specs.Office.{period_in, set_in, with_set};

    /// None of any type.
    pub const NONE: OfficePeriods = OfficePeriods {
        data_encryption: None,
        authentication: None,
        key_wrapping: None,
        private_signature: None,
        private_authentication: None,
        private_transport: None,
        master: None,
    };

    /// What the office set for the type.
    pub fn period_set_for(&self, kind: KeyType) -> Option<Period>
        ensures { result ≡ set_in self.now kind }
    {
        match kind {
            KeyType::DataEncryption => self.data_encryption,
            KeyType::Authentication => self.authentication,
            KeyType::KeyWrapping => self.key_wrapping,
            KeyType::PrivateSignature => self.private_signature,
            KeyType::PrivateAuthentication => self.private_authentication,
            KeyType::PrivateTransport => self.private_transport,
            KeyType::Master => self.master,
        }
    }

    /// Whether the office set none of any type.
    pub fn are_all_unset(&self) -> bool
        ensures { IsTrue result ↔ ((kind : KeyType) → set_in self.now kind ≡ None) }
    {
        self.are_unset_of(&KeyType::ALL)
    }

    /// The period that keys of the type are held to: the one that was set, or the type's own.
    pub fn period(&self, kind: KeyType) -> Period
        ensures { result ≡ period_in self.now kind }
    {
        period_or_default(kind, self.period_set_for(kind))
    }

    /// Takes this in the place of what was set for the type.
    pub fn set(&mut self, kind: KeyType, period: Option<Period>)
        ensures { self.new ≡ with_set self.old kind period }
    {
        match kind {
            KeyType::DataEncryption => self.data_encryption = period,
            KeyType::Authentication => self.authentication = period,
            KeyType::KeyWrapping => self.key_wrapping = period,
            KeyType::PrivateSignature => self.private_signature = period,
            KeyType::PrivateAuthentication => self.private_authentication = period,
            KeyType::PrivateTransport => self.private_transport = period,
            KeyType::Master => self.master = period,
        }
    }

    /// Whether the office set none of these types.
    fn are_unset_of(&self, types: &[KeyType]) -> bool
        ensures { result ≡ list_all (λ kind. is_none (set_in self.now kind)) types.now }
    {
        types
            .iter()
            .all(|kind| self.period_set_for(*kind).is_none())
    }
}
