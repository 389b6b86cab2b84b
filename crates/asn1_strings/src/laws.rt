//! What the definitions mean, as contracts of functions that do nothing.
ghost use Rattle.std.specs.Prelude.{List, ℕ};
ghost use Rattle.asn1_strings.specs.Identifiers.{IdentifiersObey, SpellsOne};

/// An object identifier's octets obey the rule of identifiers, and octets that obey it are those of exactly one.
pub fn identifiers()
    ensures obey { (arcs : List ℕ) → IdentifiersObey arcs }
    ensures one { (octets : List ℕ) → SpellsOne octets }
{}
