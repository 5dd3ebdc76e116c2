//! The indexes of keys beside their primary key: by them the keys that are due are found without a
//! look at the others.
ghost use Rattle.std.specs.Prelude.{◌≡◌};
ghost use Rattle.register_tables.specs.KeyIndex.{index_text};

/// An index of the keys by their states, then by a date.
#[derive(Clone, Copy)]
pub enum KeyIndex {
    /// For the move of Pre-Active keys to Active.
    Activation,
    /// For the move of Active keys to Deactivated.
    Deactivation,
    /// For the scan of the Active keys that are due for rotation. It ends with the number, so
    /// that among keys with one date the scan begins after the last of them that it had, and not at
    /// the first.
    ProtectStop,
}

/// The indexes in the order in which they are made.
pub const KEY_INDEXES: [KeyIndex; 3] = [
    KeyIndex::Activation,
    KeyIndex::Deactivation,
    KeyIndex::ProtectStop,
];

impl KeyIndex {
    /// The statement that makes the index.
    pub fn index_sql(self) -> &'static str
        ensures { result.now ≡ index_text self }
    {
        match self {
            KeyIndex::Activation => "CREATE INDEX keys_by_activation ON keys (state, activation)",
            KeyIndex::Deactivation =>
                "CREATE INDEX keys_by_deactivation ON keys (state, deactivation)",
            KeyIndex::ProtectStop =>
                "CREATE INDEX keys_by_protect_stop ON keys (state, protect_stop, number)",
        }
    }
}
