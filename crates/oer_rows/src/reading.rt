//! Sequences read by their row.
ghost use Rattle.std.specs.Prelude.{◌≡◌, IfOk, IfErr};
ghost use Rattle.oer_read.specs.Law.{Decodes, Reads, RefusedBy};
ghost use Rattle.oer_read.specs.State.{apart};
ghost use Rattle.oer_read.specs.Parts.{ReadsParts};
ghost use Rattle.oer_read.specs.Scopes.{SequenceRefused};
ghost use Rattle.oer_rows.specs.Refusals.{RowRan};
ghost use Rattle.oer_rows.specs.Schema.{IsOf, HasTables, tree_of};

use crate::components::Reads;
use crate::rowed::{Rowed, Takes};
use asn1_core::{Codec, Constraints, Constructed, DecodeError, Tag};
use oer_read::Decoder;
use oer_spec::Spelled;
use std::alloc::Global;

/// Reads the components of `T` in the order of its row `R`, inside the scope of a sequence (X.696, 16): what `Takes::take` calls.
///
/// Refused, the first that applies, as the calls of `Decoder` refuse that read each component.
#[inline(always)]
pub fn read_row<T: Rowed, R: Reads<Values = T::Values>>(
    alloc: Global,
    decoder: &mut Decoder<'_>,
) -> Result<T, DecodeError>
where
    R::Slots: Drop,
    ensures read { ReadsParts R.schema.roots.parts R.schema.additions.parts (λ v. R.schema.roots.rows (T.components v)) (λ v. R.schema.additions.rows (T.components v)) decoder.old result decoder.new }
    ensures value { IfOk result (λ v. IsOf R.schema (T.components v)) }
    ensures refused { IfErr result (λ e. R.Refuses decoder.old e) }
{
    let mut slots = R::empty();
    R::read(alloc, decoder, &mut slots)?;
    Ok(T::from_row(R::taken(slots)))
}

/// The same, with the scope's decoder lent by that one.
#[inline(always)]
fn read_scope<const RC: usize, const EC: usize, T: Constructed<RC, EC> + Spelled + Takes>(
    alloc: Global,
    decoder: &mut Decoder<'_>,
    tag: Tag,
    _constraints: Constraints,
) -> Result<T, DecodeError>
    requires tree { (v : _) → T.tree _constraints v ≡ tree_of T.row_schema T.IS_EXTENSIBLE (T.components v) }
    requires within { (v : _) → T.IsValue v → IsOf T.row_schema (T.components v) }
    requires back { (v : _) → IsOf T.row_schema (T.components v) → T.IsValue v }
    requires tables { HasTables T.row_schema T.EXTENSIBLE T.IS_EXTENSIBLE T.root_rows T.addition_rows }
    ensures law { Decodes (T.tree _constraints) T.IsValue decoder.old result decoder.new }
    ensures refused { IfErr result (λ e. SequenceRefused (RowRan T.row_schema T.Refuses) T.IS_EXTENSIBLE T.root_rows T.addition_rows decoder.old e) }
{
    decoder.decode_sequence::<RC, EC, T, _>(
        tag,
        |decoder: &mut Decoder<'_>| -> Result<T, DecodeError>
            ensures read { ReadsParts T.row_schema.roots.parts T.row_schema.additions.parts (λ v. T.row_schema.roots.rows (T.components v)) (λ v. T.row_schema.additions.rows (T.components v)) decoder.old result decoder.new }
            ensures value { IfOk result (λ v. IsOf T.row_schema (T.components v)) }
            ensures refused { IfErr result (λ e. T.Refuses decoder.old e) }
        { T::take(alloc, decoder) },
    )
}

/// The same from octets by values alone, so that no decoder is handed to a call: what reads the octets around has its own in
/// registers then.
fn read_apart<'a, const RC: usize, const EC: usize, T: Constructed<RC, EC> + Spelled + Takes>(
    alloc: Global,
    tag: Tag,
    _constraints: Constraints,
    codec: Codec,
    levels: usize,
    input: &'a [u8],
) -> Result<(T, &'a [u8]), DecodeError>
    requires tree { (v : _) → T.tree _constraints v ≡ tree_of T.row_schema T.IS_EXTENSIBLE (T.components v) }
    requires within { (v : _) → T.IsValue v → IsOf T.row_schema (T.components v) }
    requires back { (v : _) → IsOf T.row_schema (T.components v) → T.IsValue v }
    requires tables { HasTables T.row_schema T.EXTENSIBLE T.IS_EXTENSIBLE T.root_rows T.addition_rows }
    ensures read { IfOk result (λ p. Reads (T.tree _constraints) T.IsValue (apart codec levels input.entry.now) p.0 (apart codec levels p.1.now)) }
    ensures law { IfErr result (λ e. RefusedBy (T.tree _constraints) T.IsValue e (apart codec levels input.entry.now) (apart codec levels input.entry.now)) }
    ensures refused { IfErr result (λ e. SequenceRefused (RowRan T.row_schema T.Refuses) T.IS_EXTENSIBLE T.root_rows T.addition_rows (apart codec levels input.entry.now) e) }
{
    let mut decoder = Decoder::apart(input, codec, levels);
    match read_scope::<RC, EC, T>(alloc, &mut decoder, tag, _constraints) {
        Ok(value) => Ok((value, decoder.remaining())),
        Err(e) => Err(e),
    }
}

/// Reads a SEQUENCE (X.696, 16) whose tree, admitted values and tables are its row's: by the law of reading.
///
/// Refused, the first that applies, as `Decoder::decode_sequence` refuses, with what the components refuse.
#[inline(always)]
pub fn decode_row<const RC: usize, const EC: usize, T: Constructed<RC, EC> + Spelled + Takes>(
    alloc: Global,
    decoder: &mut Decoder<'_>,
    tag: Tag,
    _constraints: Constraints,
) -> Result<T, DecodeError>
    requires tree { (v : _) → T.tree _constraints v ≡ tree_of T.row_schema T.IS_EXTENSIBLE (T.components v) }
    requires within { (v : _) → T.IsValue v → IsOf T.row_schema (T.components v) }
    requires back { (v : _) → IsOf T.row_schema (T.components v) → T.IsValue v }
    requires tables { HasTables T.row_schema T.EXTENSIBLE T.IS_EXTENSIBLE T.root_rows T.addition_rows }
    ensures law { Decodes (T.tree _constraints) T.IsValue decoder.old result decoder.new }
    ensures refused { IfErr result (λ e. SequenceRefused (RowRan T.row_schema T.Refuses) T.IS_EXTENSIBLE T.root_rows T.addition_rows decoder.old e) }
{
    match read_apart::<RC, EC, T>(
        alloc,
        tag,
        _constraints,
        decoder.codec(),
        decoder.levels(),
        decoder.remaining(),
    ) {
        Ok((value, rest)) => {
            decoder.set_remaining(rest);
            Ok(value)
        }
        Err(e) => Err(e),
    }
}
