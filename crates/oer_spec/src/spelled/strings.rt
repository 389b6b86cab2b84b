//! The trees of bit strings, octet strings, open types and character strings.

use crate::spelled::{EqualAsSpelled, Spelled};
use asn1_core::Utf8String;
use asn1_strings::{Any, BitString, CharacterSet, NamedBits, OctetString, RestrictedString};

impl Spelled for BitString {
    ghost use Rattle.oer_spec.specs.Spelled.{IsAny, bit_string, bit_string_is, bit_strings_alike};

    ghost tree = { bit_string };

    ghost IsValue = { IsAny };

    ghost is_tree = { λ c k b i. bit_string_is c b };

    ghost alike = { λ c k a b i j. bit_strings_alike c a b };
}

impl Spelled for NamedBits {
    ghost use Rattle.asn1_strings.specs.NamedBits.{IsNamed};
    ghost use Rattle.oer_spec.specs.Spelled.{named_bit_string, named_bit_string_is, named_bit_strings_alike};

    ghost tree = { named_bit_string };

    ghost IsValue = { IsNamed };

    ghost is_tree = { λ c k b i. named_bit_string_is c b i };

    ghost alike = { λ c k a b i j. named_bit_strings_alike c a b };
}

impl Spelled for OctetString {
    ghost use Rattle.asn1_core.specs.Texts.{AnyOctets};
    ghost use Rattle.oer_spec.specs.Spelled.{IsTextOf, text, text_is, texts_alike};

    ghost tree = { text AnyOctets };

    ghost IsValue = { IsTextOf AnyOctets };

    ghost is_tree = { λ c k o i. text_is AnyOctets c o i };

    ghost alike = { λ c k o p i j. texts_alike AnyOctets c o p };
}

/// No constraint bounds an open type's content.
impl Spelled for Any {
    ghost use Rattle.asn1_core.specs.Texts.{AnyOctets};
    ghost use Rattle.oer_spec.specs.Spelled.{IsTextOf, unsized_text, unsized_text_is, unsized_texts_alike};

    ghost tree = { λ c o. unsized_text AnyOctets o };

    ghost IsValue = { IsTextOf AnyOctets };

    ghost is_tree = { λ c k o i. unsized_text_is AnyOctets o i };

    ghost alike = { λ c k o p i j. unsized_texts_alike AnyOctets o p };
}

impl Spelled for Utf8String {
    ghost use Rattle.std.specs.Prelude.{string_bytes};
    ghost use Rattle.asn1_core.specs.Texts.{Utf8};
    ghost use Rattle.oer_spec.specs.Spelled.{IsTextOf, text, text_is, texts_alike};

    ghost tree = { λ c s. text Utf8 c (string_bytes s) };

    ghost IsValue = { λ s. IsTextOf Utf8 (string_bytes s) };

    ghost is_tree = { λ c k s i. text_is Utf8 c (string_bytes s) i };

    ghost alike = { λ c k s t i j. texts_alike Utf8 c (string_bytes s) (string_bytes t) };
}

/// A restricted character string of any character set.
impl<C: CharacterSet> Spelled for RestrictedString<C> {
    ghost use Rattle.oer_spec.specs.Spelled.{IsTextOf, text, text_is, texts_alike};

    ghost tree = { text C.rule };

    ghost IsValue = { IsTextOf C.rule };

    ghost is_tree = { λ c k o i. text_is C.rule c o i };

    ghost alike = { λ c k o p i j. texts_alike C.rule c o p };
}

impl EqualAsSpelled for BitString {
    ghost use Rattle.oer_spec.specs.Spelled.{bit_strings_same};

    ghost eq_is_same = { λ c k a b i j. bit_strings_same c a b };
}

impl EqualAsSpelled for NamedBits {
    ghost use Rattle.oer_spec.specs.Spelled.{named_bit_strings_same};

    ghost eq_is_same = { λ c k a b i j. named_bit_strings_same c a b };
}

impl EqualAsSpelled for OctetString {
    ghost use Rattle.asn1_core.specs.Texts.{AnyOctets};
    ghost use Rattle.oer_spec.specs.Spelled.{texts_same};

    ghost eq_is_same = { λ c k o p i j. texts_same AnyOctets c o p };
}

impl EqualAsSpelled for Any {
    ghost use Rattle.asn1_core.specs.Texts.{AnyOctets};
    ghost use Rattle.oer_spec.specs.Spelled.{unsized_texts_same};

    ghost eq_is_same = { λ c k o p i j. unsized_texts_same AnyOctets o p };
}

impl EqualAsSpelled for Utf8String {
    ghost use Rattle.std.specs.Prelude.{string_bytes};
    ghost use Rattle.asn1_core.specs.Texts.{Utf8};
    ghost use Rattle.oer_spec.specs.Spelled.{texts_same};

    ghost eq_is_same = { λ c k s t i j. texts_same Utf8 c (string_bytes s) (string_bytes t) };
}

impl<C: CharacterSet> EqualAsSpelled for RestrictedString<C> {
    ghost use Rattle.oer_spec.specs.Spelled.{texts_same};

    ghost eq_is_same = { λ c k o p i j. texts_same C.rule c o p };
}
