//! A CHOICE that keeps alternatives that it doesn't know.
ghost use Rattle.std.specs.Prelude.{◌≡◌, ◌≤◌, ◌-◌, Some, None, OnOk, OnErr, IfErr};
ghost use Rattle.std.specs.Option.{option_map};
ghost use Rattle.asn1_core.specs.Texts.{AnyOctets};
ghost use Rattle.oer_choices.specs.Choosing.{through};
ghost use Rattle.oer_kept.specs.KeptTags.{is_newer, newer_at, chosen_tree, IsKeptOne, KeptAnswers, never};
ghost use Rattle.oer_kept.specs.declared.choices.KeptChoice.TheVariants.{Other};
ghost use Rattle.oer_read.specs.Choices.{lent_alternative};
ghost use Rattle.oer_spec.specs.Spelled.{text};
ghost use Rattle.oer_spec.specs.Tree.{Choice};
ghost use Rattle.oer_write.specs.Choices.{WritesAlternative};
ghost use Rattle.oer_write.specs.Written.{Encodes, Refused};

use crate::enumerations::octets;
use asn1_core::{AsnType, Bounded, Constraints, DecodeError, EncodeError, EncodeErrorKind, Tag};
use oer_choices::{Alternating, OneOf, TakesAlternative};
use oer_leaf_read::read_tag;
use oer_read::{Decode, Decoder};
use oer_rows::OpenOctets;
use oer_spec::{Spelled, is_among};
use oer_write::{Encode, Encoder};
use std::alloc::Global;

/// The CHOICE (X.680, clause 29) of the alternatives of `T`, and, if it is extensible, of those that newer versions of it
/// have (X.696, 20.3).
#[derive(Clone, Debug, PartialEq, Eq, Drop)]
pub enum KeptChoice<T> {
    /// An alternative of this version.
    Known(T),
    /// The tag of another alternative, and the octets of its open type. With a tag of this version it is no value, nor is it
    /// one of a choice that isn't extensible.
    Other(Tag, OpenOctets),
}

impl<T: Alternating> AsnType for KeptChoice<T> {
    ghost use Rattle.std.specs.Prelude.{refl};
    ghost use Rattle.asn1_core.specs.declared.tag.TheConstants.Tag.{EOC};
    ghost use Rattle.asn1_core.specs.declared.constraints.TheConstants.Constraints.{NONE};

    ghost TAG = { EOC };

    const TAG: Tag = Tag::EOC;

    ghost CONSTRAINTS = { NONE };

    const CONSTRAINTS: Constraints = Constraints::NONE;

    ghost consistent = { refl };

    const IS_CHOICE: bool = true;
}

impl<T: Alternating> Spelled for KeptChoice<T> {
    ghost use Rattle.oer_choices.specs.Choosing.{through, through_is};
    ghost use Rattle.oer_kept.specs.KeptTags.{chosen_tree, IsKeptOne, chosen_is, chosen_alike};

    ghost tree = { λ c v. chosen_tree (through T.alternative T.row_choices) v };

    ghost IsValue = { λ v. IsKeptOne (through T.alternative T.row_choices) v };

    ghost is_tree = { λ c k v i. chosen_is (through T.alternative T.row_choices) (through_is T.alternative T.row_choices T.row_are_choices) v i };

    ghost alike = { λ c k v w i j. chosen_alike (through T.alternative T.row_choices) (through_is T.alternative T.row_choices T.row_are_choices) v w i j };
}

/// Whether a newer version of the choice may have an alternative with that tag: the choice is extensible, and doesn't know it.
fn is_newer<T: Alternating>(tag: Tag) -> bool
    ensures { result ≡ is_newer T.row_choices.roots T.row_choices.additions T.row_choices.is_extensible tag }
{
    match T::addition_tags() {
        Some(tags) => !is_among(T::root_tags(), tag) && !is_among(tags, tag),
        None => false,
    }
}

/// Writes the tag, and the octets as an open type under a constraint of their size.
fn put_octets<T: Alternating>(
    encoder: &mut Encoder<'_>,
    tag: Tag,
    size: Constraints,
    octets: &[u8],
) -> Result<(), EncodeError>
    ensures done { OnOk result (Encodes (Choice T.row_choices.roots T.row_choices.additions tag (text AnyOctets size octets.now)) encoder.old encoder.new) }
    ensures refused { IfErr result (λ x. Refused (Choice T.row_choices.roots T.row_choices.additions tag (text AnyOctets size octets.now)) x encoder.old encoder.new) }
{
    encoder.encode_choice::<OneOf<T>, _>(
        Constraints::NONE,
        tag,
        |encoder: &mut Encoder<'_>| -> Result<Tag, EncodeError>
            ensures { WritesAlternative (text AnyOctets size octets.entry.now) tag encoder.old result encoder.new }
        {
            encoder.encode_octet_string(Tag::OCTET_STRING, size, octets)?;
            Ok(tag)
        },
    )
}

/// Writes the tag, and the octets as an open type (X.696, 20.3 and 30).
///
/// Refused, the first that applies: a tag that no newer version may have, as `ValueConstraintNotSatisfied`; more than
/// `usize::MAX / 8` octets, as `LengthExceedsPlatformSize`. Or for want of memory.
fn put_other<T: Alternating>(
    encoder: &mut Encoder<'_>,
    tag: Tag,
    octets: &OpenOctets,
) -> Result<(), EncodeError>
    ensures done { OnOk result (Encodes (chosen_tree (through T.alternative T.row_choices) (Other tag octets.now)) encoder.old encoder.new) }
    ensures value { OnOk result (IsKeptOne (through T.alternative T.row_choices) (Other tag octets.now)) }
    ensures refused { IfErr result (λ x. Refused (chosen_tree (through T.alternative T.row_choices) (Other tag octets.now)) x encoder.old encoder.new) }
{
    if !is_newer::<T>(tag) {
        return Err(EncodeError::from(EncodeErrorKind::ValueConstraintNotSatisfied));
    }
    let content = octets.0.as_bytes();
    let count = content.len();
    if count > usize::MAX / 8 {
        return Err(EncodeError::from(EncodeErrorKind::LengthExceedsPlatformSize));
    }
    let size = Constraints::NONE.with_size(Bounded::Single(count));
    put_octets::<T>(encoder, tag, size, content)
}

/// Written as a tag and the alternative, another one as an open type (X.696, 20).
///
/// Refused: an `Other` whose tag is known, or of a choice that isn't extensible, as `ValueConstraintNotSatisfied`; one of more
/// than `usize::MAX / 8` octets, as `LengthExceedsPlatformSize`; what an alternative is refused by; or for want of memory.
impl<T: Alternating> Encode for KeptChoice<T> {
    #[inline(always)]
    fn encode_with_tag_and_constraints(
        &self,
        encoder: &mut Encoder<'_>,
        _tag: Tag,
        _constraints: Constraints,
    ) -> Result<(), EncodeError> {
        match self {
            KeptChoice::Known(value) => value.put::<OneOf<T>>(encoder),
            KeptChoice::Other(tag, octets) => put_other::<T>(encoder, *tag, octets),
        }
    }
}

/// The newer tag at the front and what stands behind it, where a level is left.
pub(crate) fn newer_tag<'input, T: Alternating>(
    decoder: &Decoder<'input>,
) -> Option<(Tag, &'input [u8])>
    ensures { option_map (λ x. (x.0, x.1.now)) result ≡ newer_at T.row_choices.roots T.row_choices.additions T.row_choices.is_extensible decoder.now }
{
    if decoder.levels() == 0 {
        return None;
    }
    match read_tag(decoder.codec(), decoder.remaining()) {
        Ok((tag, rest)) if is_newer::<T>(tag) => Some((tag, rest)),
        _ => None,
    }
}

/// A decoder of what stands behind a tag, within one level less.
fn behind<'input>(decoder: &Decoder<'input>, rest: &'input [u8]) -> Decoder<'input>
    requires { 1 ≤ decoder.now.levels }
    ensures { result ≡ lent_alternative decoder.now (decoder.now.levels - 1) rest.entry.now }
{
    Decoder::apart(rest, decoder.codec(), decoder.levels() - 1)
}

/// Reads the octets behind a newer tag as an open type.
///
/// Refused as `Decoder::decode_any` refuses.
pub(crate) fn read_other<'input, T: Alternating>(
    alloc: Global,
    decoder: &mut Decoder<'input>,
    tag: Tag,
    rest: &'input [u8],
) -> Result<KeptChoice<T>, DecodeError>
    requires { newer_at T.row_choices.roots T.row_choices.additions T.row_choices.is_extensible decoder.old ≡ Some (tag, rest.now) }
    ensures answers { KeptAnswers (through T.alternative T.row_choices) never decoder.old result decoder.new }
    ensures unchanged { OnErr result (decoder.new ≡ decoder.old) }
{
    let _input = octets(decoder);
    let mut inner = behind(decoder, rest);
    match OpenOctets::decode(alloc, &mut inner) {
        Ok(content) => {
            decoder.set_remaining(inner.remaining());
            Ok(KeptChoice::Other(tag, content))
        }
        Err(e) => Err(e),
    }
}

/// Reads a choice at whose front no newer tag stands.
///
/// Refused as `Decoder::decode_choice` refuses.
fn read_known<T: TakesAlternative>(
    alloc: Global,
    decoder: &mut Decoder<'_>,
) -> Result<KeptChoice<T>, DecodeError>
    requires { newer_at T.row_choices.roots T.row_choices.additions T.row_choices.is_extensible decoder.old ≡ None }
    ensures answers { KeptAnswers (through T.alternative T.row_choices) T.Refuses decoder.old result decoder.new }
    ensures unchanged { OnErr result (decoder.new ≡ decoder.old) }
{
    match decoder.decode_choice::<OneOf<T>>(alloc, Constraints::NONE) {
        Ok(choice) => Ok(KeptChoice::Known(choice.0)),
        Err(e) => Err(e),
    }
}

/// Reads an alternative of this version or a newer one.
fn read_kept<T: TakesAlternative>(
    alloc: Global,
    decoder: &mut Decoder<'_>,
) -> Result<KeptChoice<T>, DecodeError>
    ensures answers { KeptAnswers (through T.alternative T.row_choices) T.Refuses decoder.old result decoder.new }
    ensures unchanged { OnErr result (decoder.new ≡ decoder.old) }
{
    match newer_tag::<T>(decoder) {
        Some((tag, rest)) => read_other(alloc, decoder, tag, rest),
        None => read_known(alloc, decoder),
    }
}

/// Read by its tag (X.696, 20): an alternative that the type knows as that, another one of an extensible choice as the octets of
/// an open type, which aren't looked into.
///
/// Refused as `Decoder::decode_choice` refuses, but by an unknown tag only of a choice that isn't extensible; the octets of an
/// open type as `Decoder::decode_any` refuses.
impl<T: TakesAlternative> Decode for KeptChoice<T> {
    ghost use Rattle.oer_choices.specs.Choosing.{through};
    ghost use Rattle.oer_kept.specs.KeptTags.{KeptAnswers};

    ghost Answered = { λ c s r t. KeptAnswers (through T.alternative T.row_choices) T.Refuses s r t };

    fn decode_with_tag_and_constraints(
        alloc: Global,
        decoder: &mut Decoder<'_>,
        _tag: Tag,
        _constraints: Constraints,
    ) -> Result<KeptChoice<T>, DecodeError> {
        read_kept(alloc, decoder)
    }
}
