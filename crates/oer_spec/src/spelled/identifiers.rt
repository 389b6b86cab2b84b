//! The tree of an object identifier: the octets of its arcs.

use crate::spelled::{EqualAsSpelled, Spelled};
use asn1_strings::ObjectIdentifier;

impl Spelled for ObjectIdentifier {
    ghost use Rattle.oer_spec.specs.Spelled.{IsIdentifier, identifier, identifier_is, identifiers_alike};

    ghost tree = { λ c arcs. identifier arcs };

    ghost IsValue = { IsIdentifier };

    ghost is_tree = { λ c k arcs i. identifier_is arcs i };

    ghost alike = { λ c k arcs others i j. identifiers_alike arcs others };
}

impl EqualAsSpelled for ObjectIdentifier {
    ghost use Rattle.oer_spec.specs.Spelled.{identifiers_same};

    ghost eq_is_same = { λ c k arcs others i j. identifiers_same arcs others i j };
}
