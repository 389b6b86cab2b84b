//! A set of a required component and an optional one, whose table isn't in the order of their tags.
//!
//! Octets have the components in tag order (X.696, 18; X.680, 8.6), here `code` before `ready`. The table, the rows and the
//! closure that writes (`InSet`) keep the order of the text, and `encode_set` sorts. `decode_set` calls its first closure for
//! each component that is present, in tag order, with its index in the table, and hands all results to its second closure:
//! so there is an enum of the components.
//!
//! - specs also has a component's index and tree, the slot of each index, and what a list of components makes. proofs also has
//!   what the loop over the components keeps. That the first closure gets only indexes of the table is the lemma `lent_call`
//!   (`oer_read::proofs::SetCalls`). `distinct` in `tables` has a `refl` for each root component: no tag occurs twice.
//! - The law is `set_by_index` (`oer_read::proofs::SetsByIndex`). A set with additions needs a row, or cites `set_law`, which
//!   takes any additions (`AdditionsRead`).
//! - What reads a component with a default value promises `ReadsDefault` and calls `refuse_default`. The law of its row also
//!   has an `IsDefault` (`Law` of `oer_read::proofs::SetLaw`).
ghost use Rattle.std.specs.Prelude.{◌<◌};
ghost use Rattle.oer_spec.specs.Tree.{NoRows};
ghost use Rattle.oer_read.specs.Law.{Decodes};
ghost use Rattle.oer_write.specs.Rows.{InSet};
ghost use Rattle.example_closures.specs.Statuses.{status_rows, part_tree, IsPartAt, StatusMade};

use oer_rows::{put_optional, put_required};
use rasn_oer::prelude::*;
use std::alloc::Global;

/// `SET { ready [1] BOOLEAN, code [0] INTEGER OPTIONAL }`
#[derive(Debug, PartialEq, Eq, Drop)]
pub struct Status {
    pub ready: bool,
    pub code: Option<Integer>,
}

/// A component of a `Status`.
#[derive(Drop)]
enum Part {
    Ready(bool),
    Code(Integer),
}

impl AsnType for Status {
    ghost use Rattle.std.specs.Prelude.{refl};
    ghost use Rattle.asn1_core.specs.declared.tag.TheConstants.Tag.{SET};
    ghost use Rattle.asn1_core.specs.declared.constraints.TheConstants.Constraints.{NONE};

    ghost TAG = { SET };

    const TAG: Tag = Tag::SET;

    ghost CONSTRAINTS = { NONE };

    const CONSTRAINTS: Constraints = Constraints::NONE;

    ghost consistent = { refl };
}

impl Constructed<2, 0> for Status {
    ghost use Rattle.std.specs.Prelude.{false, true, refl, []};
    ghost use Rattle.example_closures.specs.Statuses.{status_table};

    ghost is_set = { true };

    ghost root_rows = { status_table };

    ghost addition_rows = { [] };

    ghost IS_EXTENSIBLE = { false };

    const IS_EXTENSIBLE: bool = false;

    const FIELDS: Fields<2> = Fields {
        fields: fields![0 Required Context 1 "ready", 1 Optional Context 0 "code"],
    };

    const EXTENDED_FIELDS: Option<Fields<0>> = None;

    fn root_fields() -> &'static [Field<'static>] {
        Self::FIELDS.fields
    }

    fn addition_fields() -> &'static [Field<'static>] {
        &[]
    }

    ghost tables = { record { root_count = refl; addition_count = refl; root_indexes = (refl, (refl, tt)); addition_indexes = tt; only = λ e. refl; distinct = λ e. (refl, (refl, tt)) } };
}

impl Spelled for Status {
    ghost use Rattle.oer_spec.specs.Spelled.{IsAny};
    ghost use Rattle.example_closures.specs.Statuses.{status_tree, status_is, statuses_alike};

    ghost tree = { λ c v. status_tree v };

    ghost IsValue = { IsAny };

    ghost is_tree = { λ c k v i. status_is v };

    ghost alike = { λ c k v w i j. statuses_alike v w };
}

impl Encode for Status {
    #[tactic(auto, unfolding(crate::specs::Statuses::status_tree))]
    fn encode_with_tag_and_constraints(
        &self,
        encoder: &mut Encoder<'_>,
        tag: Tag,
        _constraints: Constraints,
    ) -> Result<(), EncodeError> {
        encoder.encode_set::<2, 0, Status, _>(
            tag,
            |encoder: &mut Encoder<'_>| -> Result<(), EncodeError>
                ensures { InSet (status_rows self.entry.now) NoRows encoder.old result encoder.new }
            {
                put_required(encoder, Tag::new(Class::Context, 1), &self.ready)?;
                put_optional(encoder, Tag::new(Class::Context, 0), &self.code)?;
                Ok(())
            },
        )
    }
}

/// The set of these components; refused without the required one, as `MissingTagClassOrValueInSequenceOrSet`.
#[tactic(auto, using(oer_read::proofs::SetFound::found_push))]
fn status_of(parts: Vec<Part>, codec: Codec) -> Result<Status, DecodeError>
    ensures { StatusMade parts.items result }
{
    let mut ready = None;
    let mut code = None;
    for part in parts {
        match part {
            Part::Ready(value) => ready = Some(value),
            Part::Code(value) => code = Some(value),
        }
    }
    match ready {
        Some(ready) => Ok(Status { ready, code }),
        None => {
            Err(DecodeErrorKind::MissingTagClassOrValueInSequenceOrSet {
                class: Class::Context,
                value: 1,
            }
            .with_codec(codec))
        }
    }
}

impl Decode for Status {
    ghost use Rattle.std.specs.Prelude.{⊤};

    ghost Answered = { λ c s r t. ⊤ };

    fn decode_with_tag_and_constraints(
        alloc: Global,
        decoder: &mut Decoder<'_>,
        tag: Tag,
        _constraints: Constraints,
    ) -> Result<Status, DecodeError> {
        let codec = decoder.codec();
        decoder.decode_set::<2, 0, Part, Status, _, _>(
            alloc,
            tag,
            |decoder: &mut Decoder<'_>, index: usize, tag: Tag| -> Result<Part, DecodeError>
                requires { index < 2 }
                ensures { Decodes part_tree (IsPartAt index) decoder.old result decoder.new }
            {
                match index {
                    0 => Ok(Part::Ready(bool::decode_with_tag(alloc, decoder, tag)?)),
                    _ => Ok(Part::Code(Integer::decode_with_tag(alloc, decoder, tag)?)),
                }
            },
            |parts: Vec<Part>| -> Result<Status, DecodeError>
                ensures { StatusMade parts.items result }
            { status_of(parts, codec) },
        )
    }
}
