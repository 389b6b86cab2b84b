//! A sequence of two required components, by closures.
ghost use Rattle.oer_spec.specs.Tree.{NoRows};
ghost use Rattle.oer_rows.specs.Integers.{none_of, two_rows};
ghost use Rattle.oer_write.specs.Rows.{InSequence};
ghost use Rattle.oer_read.specs.Parts.{NoParts, ReadsParts};
ghost use Rattle.std.specs.Prelude.{false, refl, [], ⊤};
ghost use Rattle.asn1_core.specs.declared.tag.TheConstants.Tag.{SEQUENCE};
ghost use Rattle.asn1_core.specs.declared.constraints.TheConstants.Constraints.{NONE};
ghost use Rattle.oer_spec.specs.Spelled.{IsAny};
ghost use Rattle.oer_types.specs.Pairs.{pair_rows, pair_parts};

use asn1_core::{
    AsnType, Class, Constraints, Constructed, DecodeError, EncodeError, Field, FieldPresence,
    Fields, Tag,
};
use asn1_ints::Integer;
use oer_read::{Decode, Decoder};
use oer_spec::Spelled;
use oer_write::{Encode, Encoder};
use std::alloc::Global;

/// `SEQUENCE { a INTEGER, b INTEGER }`
#[derive(Debug, PartialEq, Eq, Drop)]
pub struct Pair {
    pub a: Integer,
    pub b: Integer,
}

const PAIR_FIELDS: &'static [Field<'static>] = &[
    Field {
        index: 0,
        tag: Tag {
            class: Class::Context,
            value: 0,
        },
        presence: FieldPresence::Required,
        name: "a",
    },
    Field {
        index: 1,
        tag: Tag {
            class: Class::Context,
            value: 1,
        },
        presence: FieldPresence::Required,
        name: "b",
    },
];

impl AsnType for Pair {
    ghost TAG = { SEQUENCE };

    const TAG: Tag = Tag::SEQUENCE;

    ghost CONSTRAINTS = { NONE };

    const CONSTRAINTS: Constraints = Constraints::NONE;

    ghost consistent = { refl };
}

impl Constructed<2, 0> for Pair {
    ghost is_set = { false };

    ghost root_rows = { two_rows };

    ghost addition_rows = { [] };

    ghost IS_EXTENSIBLE = { false };

    const IS_EXTENSIBLE: bool = false;

    const FIELDS: Fields<2> = Fields {
        fields: PAIR_FIELDS,
    };

    const EXTENDED_FIELDS: Option<Fields<0>> = None;

    fn root_fields() -> &'static [Field<'static>] {
        Self::FIELDS.fields
    }

    fn addition_fields() -> &'static [Field<'static>] {
        match Self::EXTENDED_FIELDS {
            Some(table) => table.fields,
            None => &[],
        }
    }

    ghost tables = { record { root_count = refl; addition_count = refl; root_indexes = (refl, (refl, tt)); addition_indexes = tt; only = λ e. refl; distinct = λ e. absurd (cc e) } };
}

impl Spelled for Pair {
    ghost use Rattle.oer_types.specs.Pairs.{pair_tree, pair_is, pairs_alike};

    ghost tree = { λ c v. pair_tree v };

    ghost IsValue = { IsAny };

    ghost is_tree = { λ c k v i. pair_is v };

    ghost alike = { λ c k v w i j. pairs_alike v w };
}

impl Encode for Pair {
    #[tactic(auto, unfolding(crate::specs::Pairs::pair_tree))]
    fn encode_with_tag_and_constraints(
        &self,
        encoder: &mut Encoder<'_>,
        tag: Tag,
        _constraints: Constraints,
    ) -> Result<(), EncodeError> {
        encoder.encode_sequence::<2, 0, Pair, _>(
            tag,
            |encoder: &mut Encoder<'_>| -> Result<(), EncodeError>
                ensures { InSequence (pair_rows self.entry.now) NoRows encoder.old result encoder.new }
            {
                self.a
                    .encode_with_tag(encoder, Tag::new(Class::Context, 0))?;
                self.b
                    .encode_with_tag(encoder, Tag::new(Class::Context, 1))?;
                Ok(())
            },
        )
    }
}

#[tactic(auto, using(oer_read::proofs::Reading::reading))]
impl Decode for Pair {
    ghost Answered = { λ c s r t. ⊤ };

    fn decode_with_tag_and_constraints(
        alloc: Global,
        decoder: &mut Decoder<'_>,
        tag: Tag,
        _constraints: Constraints,
    ) -> Result<Pair, DecodeError> {
        decoder.decode_sequence::<2, 0, Pair, _>(
            tag,
            |decoder: &mut Decoder<'_>| -> Result<Pair, DecodeError>
                ensures { ReadsParts pair_parts NoParts pair_rows none_of decoder.old result decoder.new }
            {
                let a = Integer::decode_with_tag(alloc, decoder, Tag::new(Class::Context, 0))?;
                let b = Integer::decode_with_tag(alloc, decoder, Tag::new(Class::Context, 1))?;
                Ok(Pair { a, b })
            },
        )
    }
}
