//! Tests of unused bits: whether one of them is set, and whether they are too many.
ghost use Rattle.std.specs.Prelude.{◌≡◌, ◌<◌};
ghost use Rattle.oer_spec.specs.Bits.{has_set_fill};
ghost use Rattle.oer_spec.specs.ReadingBits.{is_overfull};

/// Whether one of the unused bits is set.
#[inline(always)]
#[tactic(auto, unfolding(oer_spec::specs::Bits::has_set_fill))]
pub(crate) fn has_set_fill(unused: u8, octets: &[u8]) -> bool
    requires { unused < 8 }
    ensures { result ≡ has_set_fill unused octets.now }
{
    match octets {
        [] => false,
        [.., last] => *last % (1 << unused) > 0,
    }
}

/// Whether a count of unused bits is above 7, or above the bits of so many octets.
#[inline(always)]
pub(crate) fn is_overfull(unused: u8, count: usize) -> bool
    ensures { result ≡ is_overfull unused count }
{
    unused > 7 || count == 0 && unused > 0
}
