//! Choices: a closure reads the alternative on a decoder of its own, under the tag that was read.

ghost use Rattle.std.specs.Prelude.{◌≡◌, ◌^◌, ◌<◌, true, OnErr, OnOk, IfOk, IfErr, Ok, Err, is_some};
ghost use Rattle.std.specs.Option.{option_map};
ghost use Rattle.asn1_core.specs.Octets.{AreOctets};
ghost use Rattle.asn1_core.specs.declared.error.DecodeErrorKind.TheVariants as DecodeErrorKind;
ghost use Rattle.oer_spec.specs.Reading.{Gives};
ghost use Rattle.oer_spec.specs.Spelled.{IsConsistent};
ghost use Rattle.oer_read.specs.Choices.{Chosen, chosen_of, place_at, lent_alternative, chosen_at, behind_at, FnOnceTakesAtMutWith, FnOnceReturnsAtMutWith, ChoiceRead, ChoiceRefused, ChoiceAnswers};
ghost use Rattle.oer_read.specs.Law.{Decodes, IsRear, Promised};
ghost use Rattle.oer_read.specs.State.{State};

use crate::decoder::Decoder;
use crate::scopes::{OpenScope, one_level_less};
use asn1_core::{Choice, Constraints, DecodeError, DecodeErrorKind, Tag};
use oer_leaf_read::{read_content, read_tag, require_canonical};
use oer_spec::{Spelled, is_among};
use std::alloc::Global;

/// Whether the tag is one of a root alternative; one of neither table is refused.
fn place<D: Choice>(tag: Tag) -> Result<bool, DecodeErrorKind>
    ensures { Gives (λ b. b) result (place_at D.root_tags D.addition_tags D.is_extensible tag) }
{
    if is_among(D::root_tags(), tag) {
        return Ok(true);
    }
    match D::addition_tags() {
        Some(tags) if is_among(tags, tag) => Ok(false),
        Some(_) => Err(DecodeErrorKind::InvalidTagVariantOnChoice {
            value: tag,
            is_extensible: true,
        }),
        None => Err(DecodeErrorKind::InvalidTagVariantOnChoice {
            value: tag,
            is_extensible: false,
        }),
    }
}

impl<'input> Decoder<'input> {
    /// A decoder of an alternative's octets, within that many levels.
    fn alternative(&self, levels: usize, input: &'input [u8]) -> Decoder<'input>
        ensures { result ≡ lent_alternative self.now levels input.entry.now }
    {
        Decoder {
            input,
            codec: self.codec,
            levels,
            scope: OpenScope::closed(),
        }
    }

    /// The tag, a decoder of the alternative, and what follows its open type.
    #[tactic(auto, unfolding(crate::specs::Choices::chosen_at))]
    fn choose<D: Choice>(
        &self,
    ) -> Result<(Tag, Decoder<'input>, Option<&'input [u8]>), DecodeErrorKind>
        ensures state { Gives chosen_of result (chosen_at self.now D.root_tags D.addition_tags D.is_extensible) }
        ensures octets { AreOctets self.now.input }
    {
        let input: &'input [u8] = self.remaining();
        let levels = one_level_less(self.levels)?;
        let (tag, rest): (Tag, &'input [u8]) = read_tag(self.codec, input)?;
        if place::<D>(tag)? {
            return Ok((tag, self.alternative(levels, rest), None));
        }
        let (content, behind): (&'input [u8], &'input [u8]) = read_content(self.codec, rest)?;
        Ok((tag, self.alternative(levels, content), Some(behind)))
    }

    /// What is left behind an alternative that left that rest of what it was lent.
    fn behind(
        &self,
        behind: Option<&'input [u8]>,
        rest: &'input [u8],
    ) -> Result<&'input [u8], DecodeErrorKind>
        ensures { Gives (λ x. x.now) result (behind_at self.now.codec (option_map (λ o. o.now) behind.entry) rest.entry.now) }
    {
        match behind {
            None => Ok(rest),
            Some(behind) => {
                require_canonical(self.codec, !rest.is_empty())?;
                Ok(behind)
            }
        }
    }

    /// The refusal of a tag that is one of no alternative.
    pub fn unknown_tag<D: Choice>(&self, tag: Tag) -> DecodeError
        ensures { result ≡ record { kind = DecodeErrorKind.InvalidTagVariantOnChoice tag D.is_extensible; codec = self.now.codec } }
    {
        self.refusal(DecodeErrorKind::InvalidTagVariantOnChoice {
            value: tag,
            is_extensible: D::addition_tags().is_some(),
        })
    }

    /// Reads a CHOICE (X.696, 20): the tag, and the alternative, which `f` reads for that tag on a decoder of its own within
    /// one level less: straight behind the tag where it is one of the root alternatives, else in an open type.
    ///
    /// Refused, the first that applies: no level is left, as `ExceedsMaxParseDepth`, before anything is read; the tag as
    /// `read_tag` refuses it; a tag of neither table, as `InvalidTagVariantOnChoice`; an addition's open type as
    /// `read_content` refuses it; what `f` refuses; octets of an open type that are left over in canonical mode, as
    /// `NotValidCanonicalEncoding`.
    pub fn decode_choice_with<D, F>(
        &mut self,
        _constraints: Constraints,
        f: F,
    ) -> Result<D, DecodeError>
    where
        D: Choice + Drop,
        F: FnOnce(&mut Decoder<'_>, Tag) -> Result<D, DecodeError>,
        requires callable { (tag : _) (lent : State) (behind : _) → chosen_at self.old D.root_tags D.addition_tags D.is_extensible ≡ Ok (record { tag = tag; lent = lent; behind = behind }) → FnOnceTakesAtMutWith F.FnOnce f lent tag }
        // what the closure leaves is a rear part of what it was lent
        requires keeps { (chosen : Chosen) (after : State) (v : _) → chosen_at self.old D.root_tags D.addition_tags D.is_extensible ≡ Ok chosen → FnOnceReturnsAtMutWith F.FnOnce f chosen.tag chosen.lent (Ok v) after → IsRear chosen.lent.input after.input }
        ensures read { IfOk result (λ v. ChoiceRead (FnOnceReturnsAtMutWith F.FnOnce f) D.root_tags D.addition_tags D.is_extensible self.old v self.new) }
        ensures refused { IfErr result (λ e. ChoiceRefused (FnOnceReturnsAtMutWith F.FnOnce f) D.root_tags D.addition_tags D.is_extensible self.old e) }
        ensures unchanged { OnErr result (self.new ≡ self.old) }
        ensures rear { OnOk result (IsRear self.old.input self.new.input) }
    {
        match self.choose::<D>() {
            Err(kind) => Err(self.refusal(kind)),
            Ok((tag, chosen, behind)) => {
                let mut inner: Decoder<'input> = chosen;
                let value = f(&mut inner, tag)?;
                match self.behind(behind, inner.remaining()) {
                    Err(kind) => Err(self.refusal(kind)),
                    Ok(rest) => {
                        self.set_remaining(rest);
                        Ok(value)
                    }
                }
            }
        }
    }
}

/// A choice that is read by the tag of its alternative.
///
/// `from_tag` reads what the alternative with that tag holds, on the decoder that it is lent; so a value that it answers
/// has that very alternative, and a tag of no alternative is refused.
pub trait DecodeChoice: Choice + Spelled {
    ghost use Rattle.oer_spec.specs.Tree.{Tree, Choice};
    ghost use Rattle.asn1_core.specs.declared.constraints.Constraints.{Constraints};
    ghost use Rattle.asn1_core.specs.declared.error.DecodeError.{DecodeError};
    ghost use Rattle.asn1_core.specs.declared.tag.Tag.{Tag};
    ghost use Rattle.oer_read.specs.State.{State};
    ghost use Rattle.std.specs.Prelude.{◌≡◌, ◌<◌, ◌^◌, Result};

    /// The tag of a value's alternative.
    ghost tag_of: { Self → Tag };

    /// The tree of what a value's alternative holds.
    ghost child: { Self → Tree };

    /// What `from_tag` promises of its answers, beside the law.
    ghost AnsweredFor: { Tag → State → Result Self DecodeError → State → Type 0 };

    /// Reads the alternative with that tag.
    fn from_tag(alloc: Global, decoder: &mut Decoder<'_>, tag: Tag) -> Result<Self, DecodeError>
        ensures law { Decodes child (λ v. Self.IsValue v × (tag_of v ≡ tag)) decoder.old result decoder.new }
        ensures answered { AnsweredFor tag decoder.old result decoder.new };

    /// A value's tree is that of its alternative, under its tag.
    ghost is_choice: { (c : Constraints) (v : Self) → Self.tree c v ≡ Choice Self.root_tags Self.addition_tags (tag_of v) (child v) };

    /// The number of an alternative's tag is one of u32.
    ghost small: { (v : Self) → Self.IsValue v → (tag_of v).value < 2 ^ 32 };
}

impl<'input> Decoder<'input> {
    /// Reads a CHOICE (X.696, 20) by the type's own `from_tag`, as `decode_choice_with` does; an alternative is refused with
    /// the very error that `from_tag` answers.
    pub fn decode_choice<D: DecodeChoice>(
        &mut self,
        alloc: Global,
        constraints: Constraints,
    ) -> Result<D, DecodeError>
        requires { IsConsistent constraints }
        ensures law { Decodes (D.tree constraints) D.IsValue self.old result self.new }
        ensures answered { ChoiceAnswers (λ g s r t. Promised D.child (λ v. D.IsValue v × (D.tag_of v ≡ g)) (D.AnsweredFor g) s r t) D.root_tags D.addition_tags D.is_extensible self.old result self.new }
    {
        self.decode_choice_with::<D, _>(
            constraints,
            |inner: &mut Decoder<'_>, tag: Tag| -> Result<D, DecodeError>
                ensures { Promised D.child (λ v. D.IsValue v × (D.tag_of v ≡ tag)) (D.AnsweredFor tag) inner.old result inner.new }
            { D::from_tag(alloc, inner, tag) },
        )
    }
}
