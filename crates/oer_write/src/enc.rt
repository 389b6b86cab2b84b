//! The encoder's options, and the edition of the standard.
ghost use Rattle.std.specs.Prelude.{◌≡◌};
ghost use Rattle.oer_write.specs.declared.rules.EncodingRules.TheVariants.{Coer};

pub use crate::encoder::Encoder;
use crate::rules::EncodingRules;

/// The edition of ITU-T X.696 that is followed: the third, of 02/2021.
pub const ITU_T_X696_OER_EDITION: u32 = 3;

/// How an encoder writes.
#[derive(Debug, Clone, Copy)]
pub struct EncoderOptions {
    /// The rules; what is written is canonical in both.
    pub encoding_rules: EncodingRules,
}

impl EncoderOptions {
    /// Writes by the canonical rules.
    pub const fn coer() -> EncoderOptions
        ensures { result.encoding_rules ≡ Coer }
    {
        EncoderOptions {
            encoding_rules: EncodingRules::Coer,
        }
    }
}

impl Default for EncoderOptions {
    ghost use Rattle.std.specs.Prelude.{◌≡◌};
    ghost use Rattle.oer_write.specs.declared.rules.EncodingRules.TheVariants.{Coer};

    ghost is_default = { λ o. o.encoding_rules ≡ Coer };

    fn default() -> EncoderOptions {
        EncoderOptions::coer()
    }
}
