//! Reading within a chosen number of levels.
use crate::reading::{octets_and_rest, refusal};
use anyhow::{Error, Result};
use asn1_core::Constraints;
use oer_write::Encode;
use oertool_words::constrained::UnderConstraints;
use rasn_oer::{Decode, DecoderOptions, coer, oer};
use std::alloc::Global;
use std::fmt::Debug;

/// Octets that are read with these options.
#[derive(Drop)]
pub struct WithOptions<'a> {
    pub alloc: Global,
    pub options: DecoderOptions,
    pub octets: &'a [u8],
}

impl<'a> UnderConstraints for WithOptions<'a> {
    type Output = Result<String>;

    /// What is written again and what is left, or the refusal: by both modules, for which the options alone count. The
    /// type's own constraints stand.
    fn under<T: Decode + Encode + Debug + PartialEq>(
        self,
        _constraints: Constraints,
    ) -> Result<String> {
        let options = self.options;
        let one = oer::decode_with_options::<T>(self.alloc, options, self.octets);
        let other = coer::decode_with_options::<T>(self.alloc, options, self.octets);
        let differ = "the modules answer differently";
        match one {
            Ok((value, rest)) => match other {
                Ok((same, left)) => {
                    if value != same || rest != left {
                        return Err(Error::msg(differ));
                    }
                    let octets = coer::encode(self.alloc, &value)?;
                    octets_and_rest(self.alloc, octets.as_slice(), rest)
                }
                Err(_) => Err(Error::msg(differ)),
            },
            Err(e) => match other {
                Err(same) => {
                    if e != same {
                        return Err(Error::msg(differ));
                    }
                    refusal(self.alloc, &e)
                }
                Ok(_) => Err(Error::msg(differ)),
            },
        }
    }
}
