//! Optional components: each is asked by the next presence bit, in the order of the table. Explicit prefixes.

ghost use Rattle.std.specs.Prelude.{◌≡◌, ◌∷◌, List, IfOk, IfErr, OnErr, Bool, true, map};
ghost use Rattle.std.specs.Fn.{FnOnceTakesAtMut, FnOnceReturnsAtMut};
ghost use Rattle.asn1_core.specs.Rows.{row};
ghost use Rattle.oer_leaf_read.specs.Views.{bits_left};
ghost use Rattle.oer_spec.specs.Spelled.{IsConsistent};
ghost use Rattle.oer_read.specs.Components.{asking, Asks};
ghost use Rattle.oer_read.specs.Law.{Decodes};
ghost use Rattle.oer_read.specs.Scopes.{missing};
ghost use Rattle.oer_read.specs.State.{Ask, State, asks_of};

use crate::decode::Decode;
use crate::decoder::Decoder;
use crate::scopes::{missing, next_bit, next_marked};
use asn1_core::{Constraints, DecodeError, Field, Tag};
use oer_leaf_read::BitSlice;
use oer_spec::Spelled;
use std::alloc::Global;

impl<'input> Decoder<'input> {
    /// The bit of the next row, which has to have that tag. The decoder goes on behind the row.
    #[inline(always)]
    fn next_row(&mut self, tag: Tag) -> Result<bool, DecodeError>
        ensures ok { IfOk result (λ b. (more : List Ask) × (self.old.frame.asks ≡ record { tag = tag; bit = b } ∷ more) × (self.new ≡ asking self.old more)) }
        ensures err { IfErr result (λ e. ((b : Bool) (more : List Ask) → ◌≡◌ {A = List Ask} self.old.frame.asks (record { tag = tag; bit = b } ∷ more) → ⊥) × (e ≡ record { kind = missing tag; codec = self.old.codec })) }
        ensures same { OnErr result (self.new ≡ self.old) }
    {
        match next_marked(self.scope.roots) {
            None => Err(self.refusal(missing(tag))),
            Some((field, roots)) => {
                if field.tag == tag {
                    let (bit, presence): (bool, BitSlice<'input>) = next_bit(self.scope.presence);
                    self.ask_from(roots, presence);
                    Ok(bit)
                } else {
                    Err(self.refusal(missing(tag)))
                }
            }
        }
    }

    /// Goes on with these root rows and presence bits.
    #[inline(always)]
    fn ask_from(&mut self, roots: &'input [Field<'input>], presence: BitSlice<'input>)
        ensures { self.new ≡ asking self.old (asks_of (map row roots.entry.now) (bits_left presence.entry)) }
    {
        self.scope.roots = roots;
        self.scope.presence = presence;
    }

    /// Reads an optional component under the handed-in tag and constraints: none where the next presence bit is 0.
    ///
    /// Refused, the first that applies: no root row is left to ask, or the next one has another tag, as
    /// `MissingTagClassOrValueInSequenceOrSet` with `tag`; what the type refuses of the value.
    #[inline(always)]
    pub fn decode_optional_with_tag_and_constraints<D: Decode>(
        &mut self,
        alloc: Global,
        tag: Tag,
        constraints: Constraints,
    ) -> Result<Option<D>, DecodeError>
        requires { IsConsistent constraints }
        ensures { Asks (D.tree constraints) D.IsValue (D.Answered constraints) self.old tag result self.new }
    {
        let roots = self.scope.roots;
        let presence = self.scope.presence;
        let is_there = self.next_row(tag)?;
        if is_there {
            match D::decode_with_tag_and_constraints(alloc, self, tag, constraints) {
                Err(e) => {
                    self.ask_from(roots, presence);
                    Err(e)
                }
                Ok(value) => Ok(Some(value)),
            }
        } else {
            Ok(None)
        }
    }

    /// Reads an optional component, by `f` where the next presence bit is 1: none where it is 0.
    ///
    /// Refused, the first that applies: no root row is left to ask, or the next one has another tag, as
    /// `MissingTagClassOrValueInSequenceOrSet` with `tag`; what `f` refuses.
    #[inline(always)]
    pub fn decode_optional_with<D, F>(&mut self, tag: Tag, f: F) -> Result<Option<D>, DecodeError>
    where
        D: Spelled,
        F: FnOnce(&mut Decoder<'_>) -> Result<D, DecodeError>,
        requires callable { (more : List Ask) → self.old.frame.asks ≡ record { tag = tag; bit = true } ∷ more → FnOnceTakesAtMut F.FnOnce f (asking self.old more) }
        requires law { (more : List Ask) (r : _) (t : State) → self.old.frame.asks ≡ record { tag = tag; bit = true } ∷ more → FnOnceReturnsAtMut F.FnOnce f (asking self.old more) r t → Decodes (D.tree D.CONSTRAINTS) D.IsValue (asking self.old more) r t }
        ensures { Asks (D.tree D.CONSTRAINTS) D.IsValue (λ s r t. FnOnceReturnsAtMut F.FnOnce f s r t) self.old tag result self.new }
    {
        let roots = self.scope.roots;
        let presence = self.scope.presence;
        let is_there = self.next_row(tag)?;
        if is_there {
            match f(self) {
                Err(refused) => {
                    self.ask_from(roots, presence);
                    Err(refused)
                }
                Ok(value) => Ok(Some(value)),
            }
        } else {
            Ok(None)
        }
    }

    /// Reads an optional component under its type's tag and constraints, as `decode_optional_with_tag_and_constraints` does.
    pub fn decode_optional<D: Decode>(&mut self, alloc: Global) -> Result<Option<D>, DecodeError>
        ensures { Asks (D.tree D.CONSTRAINTS) D.IsValue (D.Answered D.CONSTRAINTS) self.old D.TAG result self.new }
    {
        self.decode_optional_with_tag_and_constraints(alloc, D::TAG, D::CONSTRAINTS)
    }

    /// Reads an optional component under the handed-in tag and its type's constraints, as
    /// `decode_optional_with_tag_and_constraints` does.
    #[inline(always)]
    pub fn decode_optional_with_tag<D: Decode>(
        &mut self,
        alloc: Global,
        tag: Tag,
    ) -> Result<Option<D>, DecodeError>
        ensures { Asks (D.tree D.CONSTRAINTS) D.IsValue (D.Answered D.CONSTRAINTS) self.old tag result self.new }
    {
        self.decode_optional_with_tag_and_constraints(alloc, tag, D::CONSTRAINTS)
    }

    /// Reads an optional component under its type's tag and the handed-in constraints, as
    /// `decode_optional_with_tag_and_constraints` does.
    pub fn decode_optional_with_constraints<D: Decode>(
        &mut self,
        alloc: Global,
        constraints: Constraints,
    ) -> Result<Option<D>, DecodeError>
        requires { IsConsistent constraints }
        ensures { Asks (D.tree constraints) D.IsValue (D.Answered constraints) self.old D.TAG result self.new }
    {
        self.decode_optional_with_tag_and_constraints(alloc, D::TAG, constraints)
    }

    /// Reads an optional component with an explicit prefix, which adds no octets (X.696, 8.7), as
    /// `decode_optional_with_tag` does.
    pub fn decode_optional_with_explicit_prefix<D: Decode>(
        &mut self,
        alloc: Global,
        tag: Tag,
    ) -> Result<Option<D>, DecodeError>
        ensures { Asks (D.tree D.CONSTRAINTS) D.IsValue (D.Answered D.CONSTRAINTS) self.old tag result self.new }
    {
        self.decode_optional_with_tag(alloc, tag)
    }

    /// Reads a value with an explicit prefix, which adds no octets (X.696, 8.7): as without it.
    pub fn decode_explicit_prefix<D: Decode>(
        &mut self,
        alloc: Global,
        _tag: Tag,
    ) -> Result<D, DecodeError>
        ensures law { Decodes (D.tree D.CONSTRAINTS) D.IsValue self.old result self.new }
        ensures answered { D.Answered D.CONSTRAINTS self.old result self.new }
    {
        D::decode(alloc, self)
    }
}
