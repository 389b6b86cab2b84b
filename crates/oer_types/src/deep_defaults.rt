//! A sequence whose default is as deep as what is read may be.
ghost use Rattle.std.specs.Prelude.{◌≡◌, IfOk, refl};
ghost use Rattle.std.specs.Option.{option_copied};
ghost use Rattle.rasn_oer.specs.Values.{both};
ghost use Rattle.oer_types.specs.DeepDefaults.{deep_nest, only_item};
ghost use Rattle.oer_types.specs.Nests.{nest_items};

use crate::components;
use crate::nests::Nest;
use rasn_oer::prelude::*;
use std::alloc::{AllocError, Global};

/// `SEQUENCE { n Nest DEFAULT 128 lists in one another }`
///
/// The default is as deep as octets that are read may nest. Spelled out within the sequence it is a level too deep.
pub type DeepDefault = Sequence<components::DeepDefault, 1, 0>;

type DeepDefaultRow = Defaulted<Context<0>, Nest, IsDeep, End>;

/// The default of `DeepDefault`: 128 lists, each but the innermost holding the next alone.
pub struct IsDeep;

impl components::DeepDefault {
    /// The default of `n`: 128 lists, each but the innermost holding the next alone.
    ///
    /// Refused for want of memory alone.
    #[tactic(auto, using(crate::proofs::DeepNests::deep_none, crate::proofs::DeepNests::deep_more))]
    pub fn default_n(alloc: Global) -> Result<Nest, AllocError>
        ensures { IfOk result (λ n. n ≡ deep_nest 127) }
    {
        let mut nest = Nest(ListOf(Vec::new(alloc)));
        for _ in 0..127_usize {
            let mut items = Vec::new(alloc);
            items.push(Bare(nest))?;
            nest = Nest(ListOf(items));
        }
        Ok(nest)
    }
}

/// The item of a nest that has one alone.
fn item_of(nest: &Nest) -> Option<&Nest>
    ensures { option_copied result ≡ only_item (nest_items nest.now) }
{
    let items = &nest.0;
    match items.0.as_slice() {
        [Bare(item)] => Some(item),
        _ => None,
    }
}

impl DefaultValue<Nest> for IsDeep {
    ghost use Rattle.oer_types.specs.Nests.{each_nest};
    ghost use Rattle.oer_types.specs.SameNests.{nests_same};

    ghost value = { deep_nest 127 };

    fn value(alloc: Global) -> Result<Nest, AllocError> {
        components::DeepDefault::default_n(alloc)
    }

    #[tactic(auto, using(crate::proofs::DeepNests::goes_on, crate::proofs::DeepNests::breaks_off))]
    fn is_value(other: &Nest) -> bool {
        let mut nest = other;
        for _ in 0..127_usize {
            match item_of(nest) {
                Some(item) => nest = item,
                None => return false,
            }
        }
        nest.0.is_empty()
    }

    ghost admitted = { each_nest (deep_nest 127) };

    ghost decides = { λ c k v i. nests_same v (deep_nest 127) };
}

impl Rowed for components::DeepDefault {
    type Values = <DeepDefaultRow as Components>::Values;

    ghost EXTENSIBLE = { ⟦<DeepDefaultRow as Components>⟧.EXTENSIBLE };

    const EXTENSIBLE: bool = false;

    ghost row_schema = { ⟦<DeepDefaultRow as Components>⟧.schema };

    ghost row_is_schema = { ⟦<DeepDefaultRow as Components>⟧.is_schema };

    ghost components = { λ v. both v.n tt };

    fn from_row(Both(n, ()): Self::Values) -> Self {
        components::DeepDefault { n }
    }
}

impl Takes for components::DeepDefault {
    ghost Refuses = { ⟦<DeepDefaultRow as Reads>⟧.Refuses };

    #[inline(always)]
    fn take(alloc: Global, decoder: &mut Decoder<'_>) -> Result<Self, DecodeError> {
        read_row::<Self, DeepDefaultRow>(alloc, decoder)
    }
}

impl Tabled<1, 0> for components::DeepDefault {
    const FIELDS: Fields<1> = table![0 Default Context 0 "n"];

    const EXTENDED_FIELDS: Option<Fields<0>> = None;

    fn root_fields() -> &'static [Field<'static>] {
        Self::FIELDS.fields
    }

    fn addition_fields() -> &'static [Field<'static>] {
        rows_of!(Self::EXTENDED_FIELDS)
    }

    #[inline(always)]
    fn put(&self, encoder: &mut Encoder<'_>) -> Result<(), EncodeError> {
        DeepDefaultRow::write(&Both(&self.n, ()), encoder)
    }

    ghost counts = { (refl, refl) };
}
