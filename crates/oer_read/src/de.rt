//! The decoder's options.
ghost use Rattle.std.specs.Prelude.{◌≡◌, ◌<◌, ◌≤◌, cond, nat_lt, Some, None};

pub use crate::decoder::Decoder;
use asn1_core::Codec;
use std::marker::Model;

/// How a decoder reads: the rules, and how many sequences, sets, lists and choices may be nested: at most 1,024.
#[derive(Debug, Clone, Copy)]
pub struct DecoderOptions {
    codec: Codec,
    levels: usize,
}

impl Model for DecoderOptions {
    ghost use Rattle.std.specs.Prelude.{◌≤◌};
    ghost use Rattle.oer_read.specs.State.{Options};

    ghost Value = { Options };

    ghost view = { λ o. record { codec = o.codec; levels = o.levels } };

    ghost invariant = { λ o. o.levels ≤ 1024 };

    ghost inverse = { λ o. record { codec = o.codec; levels = o.levels } };
}

impl DecoderOptions {
    /// How many levels may be nested where the caller chooses none.
    pub const DEFAULT_DEPTH: usize = 128;

    /// The most levels that a caller may choose.
    pub const MAX_DEPTH: usize = 1024;

    /// Lenient reading (OER) within 128 levels.
    pub const fn oer() -> DecoderOptions
        ensures { result ≡ record { codec = Codec.Oer; levels = 128 } }
    {
        DecoderOptions {
            codec: Codec::Oer,
            levels: DecoderOptions::DEFAULT_DEPTH,
        }
    }

    /// Canonical reading (COER) within 128 levels.
    pub const fn coer() -> DecoderOptions
        ensures { result ≡ record { codec = Codec.Coer; levels = 128 } }
    {
        DecoderOptions {
            codec: Codec::Coer,
            levels: DecoderOptions::DEFAULT_DEPTH,
        }
    }

    /// The same rules within that many levels; `None` above 1,024.
    pub const fn with_depth(self, levels: usize) -> Option<DecoderOptions>
        ensures { result ≡ cond (nat_lt 1024 levels) None (Some (record self { levels = levels })) }
    {
        if DecoderOptions::MAX_DEPTH < levels {
            None
        } else {
            Some(DecoderOptions {
                codec: self.codec,
                levels,
            })
        }
    }

    /// The rules that octets are read by.
    pub const fn codec(&self) -> Codec
        ensures { result ≡ self.now.codec }
    {
        self.codec
    }

    /// How many levels may be nested.
    pub const fn levels(&self) -> usize
        ensures is { result ≡ self.now.levels }
        ensures few { result ≤ 1024 }
    {
        self.levels
    }
}
