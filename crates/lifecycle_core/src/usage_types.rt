//! What a key may be used for at a moment.
ghost use Rattle.std.specs.Prelude.{◌≡◌};

/// Whether a key may process protected data, as to decrypt it or to verify a signature.
#[derive(Clone, Copy, PartialEq, Eq)]
pub enum Process {
    Yes,
    /// Only under extraordinary circumstances, and with special permission (KMIP 1.2, section
    /// 3.22).
    Special,
    No,
}

impl Process {
    ghost use Rattle.lifecycle_core.specs.Usage.{process_text};

    /// The word for it.
    pub fn text(self) -> &'static str
        ensures { result.now ≡ process_text self }
    {
        match self {
            Process::Yes => "yes",
            Process::Special => "special",
            Process::No => "no",
        }
    }
}

/// What a key may be used for.
#[derive(Clone, Copy, PartialEq, Eq)]
pub struct Usage {
    /// Whether the key may apply protection, as to encrypt or to sign.
    pub protect: bool,
    pub process: Process,
}
