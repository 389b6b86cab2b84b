//! The encoding rules that an encoder's options name: basic or canonical (X.696).
ghost use Rattle.std.specs.Prelude.{◌≡◌, true, false};
ghost use Rattle.oer_write.specs.Rules.{is_oer, is_coer};

/// The octet encoding rules: basic or canonical (X.696).
#[derive(Debug, Clone, Copy, PartialEq, Eq, PartialOrd, Ord)]
pub enum EncodingRules {
    /// Basic: a value may have several encodings.
    Oer,
    /// Canonical: a value has one encoding.
    Coer,
}

impl EncodingRules {
    /// Whether these are the basic rules.
    pub fn is_oer(self) -> bool
        ensures { result ≡ is_oer self }
    {
        match self {
            EncodingRules::Oer => true,
            EncodingRules::Coer => false,
        }
    }

    /// Whether these are the canonical rules.
    pub fn is_coer(self) -> bool
        ensures { result ≡ is_coer self }
    {
        match self {
            EncodingRules::Oer => false,
            EncodingRules::Coer => true,
        }
    }
}
