//! A sequence of a component with a default, and an optional one.
//!
//! The closure that writes has one clause, `InSequence rows additions ..`; the closure that reads has one,
//! `ReadsParts parts additions rows ..`. The rows of a value, and the parts (the trees that each component may have), are in
//! specs. `search (reading, default_is_known)` proves each exit of the closure that reads, up to six or seven components.
//!
//! - Required: a row `Required tag tree ..`, a `RequiredPart`, written by `put_required` or the value's own `encode_with_tag`.
//! - OPTIONAL: `Optional tag slot ..`, an `OptionalPart`, written by `put_optional`. The slot is `slot_of` the tree
//!   (`oer_rows::specs::Slots`; of integers `Integers` beside it).
//! - DEFAULT: `Default tag tree slot ..`, a `DefaultPart`, written by `encode_default_with_tag_and_constraints`. The slot is
//!   absent if `==` says that the value is the default value (`present_unless`). Its lemmas come from a record `IsDefault`
//!   (`oer_rows::specs::DefaultSlots`): the type admits the default value, and `==` is equality of trees.
//! - Extension additions have rows and parts of their own, a group's row a SEQUENCE's tag. The closure asks for them behind
//!   the root, in the table's order. If a required one is absent it answers an error of its own, which loses no value
//!   (`required_addition_absent`).
//! - If a tree depends on constraints that the closure passes on, the exit's answer first rewrites the call's clause by that
//!   constant's.
ghost use Rattle.oer_spec.specs.Tree.{NoRows};
ghost use Rattle.oer_read.specs.Parts.{NoParts, ReadsParts};
ghost use Rattle.oer_write.specs.Rows.{InSequence};
ghost use Rattle.oer_rows.specs.Integers.{none_of};
ghost use Rattle.example_closures.specs.Reports.{report_rows, report_parts};

use oer_rows::put_optional;
use rasn_oer::prelude::*;
use std::alloc::Global;

/// `SEQUENCE { urgent BOOLEAN DEFAULT FALSE, number INTEGER OPTIONAL }`
#[derive(Debug, PartialEq, Eq, Drop)]
pub struct Report {
    pub urgent: bool,
    pub number: Option<Integer>,
}

impl AsnType for Report {
    ghost use Rattle.std.specs.Prelude.{refl};
    ghost use Rattle.asn1_core.specs.declared.tag.TheConstants.Tag.{SEQUENCE};
    ghost use Rattle.asn1_core.specs.declared.constraints.TheConstants.Constraints.{NONE};

    ghost TAG = { SEQUENCE };

    const TAG: Tag = Tag::SEQUENCE;

    ghost CONSTRAINTS = { NONE };

    const CONSTRAINTS: Constraints = Constraints::NONE;

    ghost consistent = { refl };
}

impl Constructed<2, 0> for Report {
    ghost use Rattle.std.specs.Prelude.{false, refl, []};
    ghost use Rattle.example_closures.specs.Reports.{report_table};

    ghost is_set = { false };

    ghost root_rows = { report_table };

    ghost addition_rows = { [] };

    ghost IS_EXTENSIBLE = { false };

    const IS_EXTENSIBLE: bool = false;

    const FIELDS: Fields<2> = Fields {
        fields: fields![0 Default Context 0 "urgent", 1 Optional Context 1 "number"],
    };

    const EXTENDED_FIELDS: Option<Fields<0>> = None;

    fn root_fields() -> &'static [Field<'static>] {
        Self::FIELDS.fields
    }

    fn addition_fields() -> &'static [Field<'static>] {
        &[]
    }

    ghost tables = { record { root_count = refl; addition_count = refl; root_indexes = (refl, (refl, tt)); addition_indexes = tt; only = λ e. refl; distinct = λ e. absurd (cc e) } };
}

impl Spelled for Report {
    ghost use Rattle.oer_spec.specs.Spelled.{IsAny};
    ghost use Rattle.example_closures.specs.Reports.{report_tree, report_is, reports_alike};

    ghost tree = { λ c v. report_tree v };

    ghost IsValue = { IsAny };

    ghost is_tree = { λ c k v i. report_is v };

    ghost alike = { λ c k v w i j. reports_alike v w };
}

impl Encode for Report {
    #[tactic(auto, unfolding(crate::specs::Reports::report_tree))]
    fn encode_with_tag_and_constraints(
        &self,
        encoder: &mut Encoder<'_>,
        tag: Tag,
        _constraints: Constraints,
    ) -> Result<(), EncodeError> {
        encoder.encode_sequence::<2, 0, Report, _>(
            tag,
            |encoder: &mut Encoder<'_>| -> Result<(), EncodeError>
                ensures { InSequence (report_rows self.entry.now) NoRows encoder.old result encoder.new }
            {
                encoder.encode_default_with_tag_and_constraints(
                    Tag::new(Class::Context, 0),
                    bool::CONSTRAINTS,
                    &self.urgent,
                    &false,
                )?;
                put_optional(encoder, Tag::new(Class::Context, 1), &self.number)?;
                Ok(())
            },
        )
    }
}

#[tactic(auto, using(oer_read::proofs::Reading::reading))]
impl Decode for Report {
    ghost use Rattle.std.specs.Prelude.{⊤};

    ghost Answered = { λ c s r t. ⊤ };

    fn decode_with_tag_and_constraints(
        alloc: Global,
        decoder: &mut Decoder<'_>,
        tag: Tag,
        _constraints: Constraints,
    ) -> Result<Report, DecodeError> {
        decoder.decode_sequence::<2, 0, Report, _>(
            tag,
            |decoder: &mut Decoder<'_>| -> Result<Report, DecodeError>
                ensures { ReadsParts report_parts NoParts report_rows none_of decoder.old result decoder.new }
            {
                let urgent = decoder.decode_default_with_tag::<bool>(
                    alloc,
                    Tag::new(Class::Context, 0),
                    false,
                )?;
                let number = decoder.decode_optional_with_tag::<Integer>(
                    alloc,
                    Tag::new(Class::Context, 1),
                )?;
                Ok(Report { urgent, number })
            },
        )
    }
}
