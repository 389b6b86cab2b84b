//! The components of a sequence, written from references to them.
ghost use Rattle.std.specs.Prelude.{OnOk};
ghost use Rattle.oer_spec.specs.Tree.{NoRows};
ghost use Rattle.oer_write.specs.Rows.{InSequence};
ghost use Rattle.oer_rows.specs.Values.{both};

use crate::additions::{Additions, Extensible, OptionalAddition};
use crate::both::Both;
use crate::components::{Components, Defaulted, End, Optional, Required};
use crate::more_additions::{AdditionGroup, DefaultedAddition, RequiredAddition};
use crate::places::{DefaultValue, Place};
use crate::writing::{
    put_default, put_default_addition, put_group, put_optional_addition, put_required_addition,
};
use asn1_core::{Constructed, EncodeError};
use oer_spec::Spelled;
use oer_write::{Encode, Encoder};

/// A row whose components are written from references to their values.
pub trait Views<'v>: Components {
    /// References to the values, one behind another as these are.
    type View;

    ghost seen: { Self.View → Self.Values };

    /// Writes them, in the order of the row, inside the scope of a sequence (X.696, 16): `Ok` only for admitted values.
    ///
    /// Refused by what a component is refused by.
    fn write(view: &Self::View, encoder: &mut Encoder<'_>) -> Result<(), EncodeError>
        ensures written { InSequence (Self.schema.roots.rows (seen view.now)) (Self.schema.additions.rows (seen view.now)) encoder.old result encoder.new }
        ensures value { OnOk result (Self.schema.roots.IsValue (seen view.now) × Self.schema.additions.IsValue (seen view.now)) };
}

impl<'v> Views<'v> for End {
    type View = ();

    ghost seen = { λ v. v };

    #[inline(always)]
    fn write(_view: &(), _encoder: &mut Encoder<'_>) -> Result<(), EncodeError> {
        Ok(())
    }
}

impl<'v, G: Place, B: Encode + 'v, R: Views<'v>> Views<'v> for Required<G, B, R> {
    type View = Both<&'v B, R::View>;

    ghost seen = { λ v. both v.0.now (R.seen v.1) };

    #[inline(always)]
    fn write(view: &Both<&'v B, R::View>, encoder: &mut Encoder<'_>) -> Result<(), EncodeError> {
        view.0.encode_with_tag(encoder, G::tag())?;
        R::write(&view.1, encoder)
    }
}

impl<'v, G: Place, B: Encode + 'v, R: Views<'v>> Views<'v> for Optional<G, B, R> {
    type View = Both<&'v Option<B>, R::View>;

    ghost seen = { λ v. both v.0.now (R.seen v.1) };

    #[inline(always)]
    fn write(
        view: &Both<&'v Option<B>, R::View>,
        encoder: &mut Encoder<'_>,
    ) -> Result<(), EncodeError> {
        encoder.encode_optional_in_sequence(G::tag(), view.0.as_ref())?;
        R::write(&view.1, encoder)
    }
}

impl<'v, G: Place, B: Encode + PartialEq + 'v, D: DefaultValue<B>, R: Views<'v>> Views<'v>
    for Defaulted<G, B, D, R> {
    type View = Both<&'v B, R::View>;

    ghost seen = { λ v. both v.0.now (R.seen v.1) };

    #[inline(always)]
    fn write(view: &Both<&'v B, R::View>, encoder: &mut Encoder<'_>) -> Result<(), EncodeError> {
        put_default::<D, B>(encoder, G::tag(), view.0)?;
        R::write(&view.1, encoder)
    }
}

/// Additions that are written from references to their values.
pub trait AdditionViews<'v>: Additions {
    /// References to the values, one behind another as these are.
    type MoreView;

    ghost seen: { Self.MoreView → Self.More };

    /// Writes them, in the order of the row, inside the scope of a sequence behind its root components (X.696, 16.4):
    /// `Ok` only for admitted values.
    ///
    /// Refused by what an addition is refused by.
    fn write_additions(view: &Self::MoreView, encoder: &mut Encoder<'_>) -> Result<(), EncodeError>
        ensures written { InSequence NoRows (Self.table.rows (seen view.now)) encoder.old result encoder.new }
        ensures value { OnOk result (Self.table.IsValue (seen view.now)) };
}

impl<'v> AdditionViews<'v> for End {
    type MoreView = ();

    ghost seen = { λ v. v };

    #[inline(always)]
    fn write_additions(_view: &(), _encoder: &mut Encoder<'_>) -> Result<(), EncodeError> {
        Ok(())
    }
}

impl<'v, G: Place, B: Encode + 'v, R: AdditionViews<'v>> AdditionViews<'v>
    for OptionalAddition<G, B, R> {
    type MoreView = Both<&'v Option<B>, R::MoreView>;

    ghost seen = { λ v. both v.0.now (R.seen v.1) };

    #[inline(always)]
    fn write_additions(
        view: &Both<&'v Option<B>, R::MoreView>,
        encoder: &mut Encoder<'_>,
    ) -> Result<(), EncodeError> {
        put_optional_addition(encoder, G::tag(), view.0)?;
        R::write_additions(&view.1, encoder)
    }
}

impl<'v, G: Place, B: Encode + 'v, R: AdditionViews<'v>> AdditionViews<'v>
    for RequiredAddition<G, B, R> {
    type MoreView = Both<&'v B, R::MoreView>;

    ghost seen = { λ v. both v.0.now (R.seen v.1) };

    #[inline(always)]
    fn write_additions(
        view: &Both<&'v B, R::MoreView>,
        encoder: &mut Encoder<'_>,
    ) -> Result<(), EncodeError> {
        put_required_addition(encoder, G::tag(), view.0)?;
        R::write_additions(&view.1, encoder)
    }
}

impl<
    'v,
    G: Place,
    B: Encode + PartialEq + 'v,
    D: DefaultValue<B>,
    R: AdditionViews<'v>,
> AdditionViews<'v> for DefaultedAddition<G, B, D, R> {
    type MoreView = Both<&'v B, R::MoreView>;

    ghost seen = { λ v. both v.0.now (R.seen v.1) };

    #[inline(always)]
    fn write_additions(
        view: &Both<&'v B, R::MoreView>,
        encoder: &mut Encoder<'_>,
    ) -> Result<(), EncodeError> {
        put_default_addition::<D, B>(encoder, G::tag(), view.0)?;
        R::write_additions(&view.1, encoder)
    }
}

impl<
    'v,
    const RC: usize,
    const EC: usize,
    B: Encode + Constructed<RC, EC> + 'v,
    R: AdditionViews<'v>,
> AdditionViews<'v> for AdditionGroup<RC, EC, B, R> {
    type MoreView = Both<&'v Option<B>, R::MoreView>;

    ghost seen = { λ v. both v.0.now (R.seen v.1) };

    #[inline(always)]
    fn write_additions(
        view: &Both<&'v Option<B>, R::MoreView>,
        encoder: &mut Encoder<'_>,
    ) -> Result<(), EncodeError> {
        put_group(encoder, view.0)?;
        R::write_additions(&view.1, encoder)
    }
}

impl<'v, R: AdditionViews<'v>> Views<'v> for Extensible<R> {
    type View = R::MoreView;

    ghost seen = { λ v. R.seen v };

    #[inline(always)]
    fn write(view: &R::MoreView, encoder: &mut Encoder<'_>) -> Result<(), EncodeError> {
        R::write_additions(view, encoder)
    }
}
