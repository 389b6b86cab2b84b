//! A choice of a root alternative and an extension addition.
//!
//! `encode_choice` writes the tag, and then what its closure writes, an addition as an open type (X.696, 20). The closure's
//! clause is `WritesAlternative tree tag ..`; `put_alternative` of the prelude has a closure that writes one value.
//! `decode_choice` reads the tag and calls `from_tag`, which reads the alternative, from inside its open type if it is an
//! addition. proofs says which alternative has a tag, and answers each exit of `from_tag`. `decode_choice_with` takes a closure
//! in its place: its law is `choice_law` (`oer_read::proofs::ChoiceLaw`), and `alternative_law` answers each exit.
ghost use Rattle.std.specs.Prelude.{◌≡◌};
ghost use Rattle.oer_write.specs.Choices.{WritesAlternative};
ghost use Rattle.example_closures.specs.Commands.{command_tag, command_child};

use rasn_oer::prelude::*;
use std::alloc::Global;

/// `CHOICE { level [0] INTEGER, ..., reset [1] NULL }`
#[derive(Debug, PartialEq, Eq, Drop)]
pub enum Command {
    Level(Integer),
    Reset(()),
}

const COMMAND_ROOTS: &'static [Tag] = tags![Context 0];

const COMMAND_ADDITIONS: &'static [Tag] = tags![Context 1];

impl Command {
    /// The tag of its alternative.
    fn tag(&self) -> Tag
        ensures { result ≡ command_tag self.now }
    {
        match self {
            Command::Level(_) => Tag::new(Class::Context, 0),
            Command::Reset(_) => Tag::new(Class::Context, 1),
        }
    }
}

impl AsnType for Command {
    ghost use Rattle.std.specs.Prelude.{refl};
    ghost use Rattle.asn1_core.specs.declared.tag.TheConstants.Tag.{EOC};
    ghost use Rattle.asn1_core.specs.declared.constraints.TheConstants.Constraints.{NONE};

    ghost TAG = { EOC };

    const TAG: Tag = Tag::EOC;

    ghost CONSTRAINTS = { NONE };

    const CONSTRAINTS: Constraints = Constraints::NONE;

    ghost consistent = { refl };

    const IS_CHOICE: bool = true;
}

impl Choice for Command {
    ghost use Rattle.std.specs.Prelude.{true, refl};
    ghost use Rattle.example_closures.specs.Commands.{command_roots, command_additions};

    ghost root_tags = { command_roots };

    ghost addition_tags = { command_additions };

    ghost is_extensible = { true };

    const VARIANTS: &'static [Tag] = COMMAND_ROOTS;

    const EXTENDED_VARIANTS: Option<&'static [Tag]> = Some(COMMAND_ADDITIONS);

    fn root_tags() -> &'static [Tag] {
        Self::VARIANTS
    }

    fn addition_tags() -> Option<&'static [Tag]> {
        Self::EXTENDED_VARIANTS
    }

    ghost distinct = { (refl, (refl, tt)) };
}

impl Spelled for Command {
    ghost use Rattle.oer_spec.specs.Spelled.{IsAny};
    ghost use Rattle.example_closures.specs.Commands.{command_tree, command_is, commands_alike};

    ghost tree = { λ c v. command_tree v };

    ghost IsValue = { IsAny };

    ghost is_tree = { λ c k v i. command_is v };

    ghost alike = { λ c k v w i j. commands_alike v w };
}

impl Encode for Command {
    #[tactic(auto, unfolding(crate::specs::Commands::command_tree))]
    fn encode_with_tag_and_constraints(
        &self,
        encoder: &mut Encoder<'_>,
        _tag: Tag,
        constraints: Constraints,
    ) -> Result<(), EncodeError> {
        let tag = self.tag();
        encoder.encode_choice::<Command, _>(
            constraints,
            tag,
            |encoder: &mut Encoder<'_>| -> Result<Tag, EncodeError>
                ensures { WritesAlternative (command_child self.entry.now) tag encoder.old result encoder.new }
            {
                match self {
                    Command::Level(value) => value.encode(encoder)?,
                    Command::Reset(value) => value.encode(encoder)?,
                }
                Ok(tag)
            },
        )
    }
}

impl DecodeChoice for Command {
    ghost use Rattle.std.specs.Prelude.{⊤};
    ghost use Rattle.example_closures.specs.Commands.{command_tag, command_child, command_chosen, command_small};

    ghost tag_of = { command_tag };

    ghost child = { command_child };

    ghost AnsweredFor = { λ g s r t. ⊤ };

    ghost is_choice = { λ c v. command_chosen v };

    ghost small = { λ v i. command_small v };

    fn from_tag(
        alloc: Global,
        decoder: &mut Decoder<'_>,
        tag: Tag,
    ) -> Result<Command, DecodeError> {
        match (tag.class, tag.value) {
            (Class::Context, 0) => Ok(Command::Level(Integer::decode(alloc, decoder)?)),
            (Class::Context, 1) => Ok(Command::Reset(<()>::decode(alloc, decoder)?)),
            _ => Err(decoder.unknown_tag::<Command>(tag)),
        }
    }
}

impl Decode for Command {
    ghost use Rattle.std.specs.Prelude.{⊤};

    ghost Answered = { λ c s r t. ⊤ };

    fn decode_with_tag_and_constraints(
        alloc: Global,
        decoder: &mut Decoder<'_>,
        _tag: Tag,
        constraints: Constraints,
    ) -> Result<Command, DecodeError> {
        decoder.decode_choice::<Command>(alloc, constraints)
    }
}
