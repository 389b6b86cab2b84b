//! Tags and defaults, as types.
ghost use Rattle.std.specs.Prelude.{◌≡◌, IfOk};

use crate::limited::{Limited, Limits};
use asn1_core::{Class, Tag};
use asn1_ints::Integer;
use oer_spec::Spelled;
use std::alloc::{AllocError, Global};
use std::marker::PhantomData;

/// A component's tag, as a type.
pub trait Place {
    ghost use Rattle.asn1_core.specs.declared.tag.Tag.{Tag};

    ghost tag: { Tag };

    /// The tag.
    fn tag() -> Tag
        ensures { result ≡ tag };
}

/// The tag with the number `N` of the universal class.
pub struct Universal<const N: u32>;

/// The tag with the number `N` of the application class.
pub struct Application<const N: u32>;

/// The tag with the number `N` of the context-specific class.
pub struct Context<const N: u32>;

/// The tag with the number `N` of the private class.
pub struct Private<const N: u32>;

impl<const N: u32> Place for Universal<N> {
    ghost use Rattle.oer_rows.specs.Schema.{universal};

    ghost tag = { universal N };

    fn tag() -> Tag {
        Tag::new(Class::Universal, N)
    }
}

impl<const N: u32> Place for Application<N> {
    ghost use Rattle.oer_rows.specs.Schema.{application};

    ghost tag = { application N };

    fn tag() -> Tag {
        Tag::new(Class::Application, N)
    }
}

impl<const N: u32> Place for Context<N> {
    ghost use Rattle.oer_rows.specs.Schema.{context};

    ghost tag = { context N };

    fn tag() -> Tag {
        Tag::new(Class::Context, N)
    }
}

impl<const N: u32> Place for Private<N> {
    ghost use Rattle.oer_rows.specs.Schema.{private_tag};

    ghost tag = { private_tag N };

    fn tag() -> Tag {
        Tag::new(Class::Private, N)
    }
}

/// What a component's DEFAULT is, as a type: a value that the component's type admits.
pub trait DefaultValue<B: Spelled + PartialEq> {
    ghost use Rattle.std.specs.Bool.{Decides};
    ghost use Rattle.std.specs.Prelude.{◌≡◌, Bool, true, IfOk, IfErr};
    ghost use Rattle.asn1_core.specs.declared.constraints.Constraints.{Constraints};
    ghost use Rattle.oer_spec.specs.Same.{Same};
    ghost use Rattle.oer_spec.specs.Spelled.{IsConsistent};

    ghost value: { B };

    /// Whether making it may want memory.
    ghost wants_memory: { Bool } = { true };

    /// The default. Refused for want of memory alone; a boolean, NULL, a number of 64 bits and an empty list take none.
    fn value(alloc: Global) -> Result<B, AllocError>
        ensures is { IfOk result (λ v. v ≡ value) }
        ensures memory { IfErr result (λ e. wants_memory ≡ true) };

    /// Whether a value is equal to the default: so that who writes or compares makes none. Takes no memory.
    fn is_value(other: &B) -> bool
        ensures { result ≡ B.eq other.now value };

    ghost admitted: { B.IsValue value };

    /// The values that are equal to it are just those that have its abstract value.
    ghost decides: { (c : Constraints) → IsConsistent c → (v : B) → B.IsValue v → Decides (B.eq v value) (Same (B.tree c v) (B.tree c value)) };
}

/// The default FALSE.
pub struct IsFalse;

/// The default TRUE.
pub struct IsTrue;

/// The default NULL.
pub struct IsNull;

/// The default `N` of an INTEGER.
pub struct IsNumber<const N: i64>;

/// The default `D` of a type, for a component whose type is that one within limits.
pub struct Within<D>(PhantomData<D>);

impl DefaultValue<bool> for IsFalse {
    ghost use Rattle.std.specs.Prelude.{false};
    ghost use Rattle.oer_spec.specs.Spelled.{booleans_same};

    ghost value = { false };

    ghost wants_memory = { false };

    fn value(_alloc: Global) -> Result<bool, AllocError> {
        Ok(false)
    }

    fn is_value(other: &bool) -> bool {
        *other == false
    }

    ghost admitted = { tt };

    ghost decides = { λ c k v i. booleans_same v false };
}

impl DefaultValue<bool> for IsTrue {
    ghost use Rattle.std.specs.Prelude.{true, false};
    ghost use Rattle.oer_spec.specs.Spelled.{booleans_same};

    ghost value = { true };

    ghost wants_memory = { false };

    fn value(_alloc: Global) -> Result<bool, AllocError> {
        Ok(true)
    }

    fn is_value(other: &bool) -> bool {
        *other == true
    }

    ghost admitted = { tt };

    ghost decides = { λ c k v i. booleans_same v true };
}

impl DefaultValue<()> for IsNull {
    ghost use Rattle.std.specs.Prelude.{false, refl};
    ghost use Rattle.oer_spec.specs.Spelled.{nulls_same};

    ghost value = { tt };

    ghost wants_memory = { false };

    fn value(_alloc: Global) -> Result<(), AllocError> {
        Ok(())
    }

    fn is_value(other: &()) -> bool {
        *other == ()
    }

    ghost admitted = { tt };

    ghost decides = { λ c k v i. (λ e. nulls_same v tt, λ s. refl) };
}

impl<const N: i64> DefaultValue<Integer> for IsNumber<N> {
    ghost use Rattle.std.specs.Prelude.{false, refl};
    ghost use Rattle.oer_spec.specs.Spelled.{integers_same};

    ghost value = { N };

    ghost wants_memory = { false };

    fn value(_alloc: Global) -> Result<Integer, AllocError> {
        Ok(Integer::from_i128(N as i128))
    }

    fn is_value(other: &Integer) -> bool {
        *other == Integer::from_i128(N as i128)
    }

    ghost admitted = { refl };

    ghost decides = { λ c k v i. integers_same c v N };
}

impl<T: Spelled + PartialEq, L: Limits, D: DefaultValue<T>> DefaultValue<Limited<T, L>>
    for Within<D> {
    ghost use Rattle.oer_spec.specs.Spelled.{beside_nothing};

    ghost value = { record { 0 = D.value; 1 = record {} } };

    ghost wants_memory = { D.wants_memory };

    fn value(alloc: Global) -> Result<Limited<T, L>, AllocError> {
        Ok(Limited(D::value(alloc)?, PhantomData))
    }

    fn is_value(other: &Limited<T, L>) -> bool {
        D::is_value(&other.0)
    }

    ghost admitted = { D.admitted };

    ghost decides = { λ c k v i. beside_nothing (T.eq v.0 D.value) (D.decides L.LIMITS L.consistent v.0 i) };
}
