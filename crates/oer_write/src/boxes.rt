//! Boxes: a box is written as its content.
use crate::encode::Encode;
use crate::encoder::Encoder;
use asn1_core::{Constraints, EncodeError, Tag};

/// A box is written as its content.
impl<T: Encode> Encode for Box<T> {
    #[inline(always)]
    fn encode_with_tag_and_constraints(
        &self,
        encoder: &mut Encoder<'_>,
        tag: Tag,
        constraints: Constraints,
    ) -> Result<(), EncodeError> {
        (**self).encode_with_tag_and_constraints(encoder, tag, constraints)
    }
}
