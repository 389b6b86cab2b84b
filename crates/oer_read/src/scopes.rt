//! The open scope, and what sequences, sets and the calls that ask rows share.

ghost use Rattle.std.specs.Prelude.{◌≡◌, false, get_or, drop, map, List, Bool, ◌∷◌, [], IfNone, IfSome};
ghost use Rattle.asn1_core.specs.Rows.{row};
ghost use Rattle.oer_spec.specs.Reading.{Gives};
ghost use Rattle.oer_leaf_read.specs.Views.{bits_left};
ghost use Rattle.oer_read.specs.Scopes.{level_at, bits_for, extension_in, presence_in, missing};
ghost use Rattle.oer_read.specs.State.{asks_of, closed};
ghost use Rattle.oer_read.specs.Seen.{frame_of};

use asn1_core::{DecodeErrorKind, Field, FieldPresence, Tag};
use oer_leaf_read::BitSlice;

/// The rows of the open scope that are still to be asked, and its presence bits.
#[derive(Clone, Copy)]
pub(crate) struct OpenScope<'input> {
    pub(crate) is_set: bool,
    pub(crate) roots: &'input [Field<'input>],
    pub(crate) presence: BitSlice<'input>,
    pub(crate) extensible: bool,
    pub(crate) extended: bool,
    pub(crate) additions: &'input [Field<'input>],
    pub(crate) bitmap: Option<BitSlice<'input>>,
}

impl<'input> OpenScope<'input> {
    /// No scope is open.
    #[inline(always)]
    pub(crate) fn closed() -> OpenScope<'input>
        ensures { frame_of result ≡ closed }
    {
        OpenScope {
            is_set: false,
            roots: &[],
            presence: BitSlice::new(&[], 0),
            extensible: false,
            extended: false,
            additions: &[],
            bitmap: None,
        }
    }

    /// No scope is open any more.
    #[inline(always)]
    pub(crate) fn close(&mut self)
        ensures { frame_of self.new ≡ closed }
    {
        self.is_set = false;
        self.roots = &[];
        self.extensible = false;
        self.extended = false;
        self.additions = &[];
        self.bitmap = None;
    }
}

/// The bit that is next, false past the end, and the bits after it.
#[inline(always)]
pub(crate) fn next_bit(bits: BitSlice<'_>) -> (bool, BitSlice<'_>)
    ensures bit { result.0 ≡ get_or (bits_left bits.entry) 0 false }
    ensures rest { bits_left result.1 ≡ drop 1 (bits_left bits.entry) }
{
    match bits.split_first() {
        Some((bit, rest)) => (bit, rest),
        None => (false, bits),
    }
}

/// The first row whose component may be absent, and the rows after it.
#[inline(always)]
pub(crate) fn next_marked<'a>(rows: &'a [Field<'a>]) -> Option<(&'a Field<'a>, &'a [Field<'a>])>
    ensures none { IfNone result ((b : List Bool) → asks_of (map row rows.now) b ≡ []) }
    ensures some { IfSome result (λ p. (b : List Bool) → asks_of (map row rows.now) b ≡ record { tag = p.0.now.tag; bit = get_or b 0 false } ∷ asks_of (map row p.1.now) (drop 1 b)) }
{
    let mut left = rows;
    while let [field, rest @ ..] = left {
        match field.presence {
            FieldPresence::Required => left = rest,
            FieldPresence::Optional | FieldPresence::Default => return Some((field, rest)),
        }
    }
    None
}

/// One level less, where one is left.
#[inline(always)]
pub(crate) fn one_level_less(levels: usize) -> Result<usize, DecodeErrorKind>
    ensures { Gives (λ n. n) result (level_at levels) }
{
    match levels {
        0 => Err(DecodeErrorKind::ExceedsMaxParseDepth),
        _ => Ok(levels - 1),
    }
}

/// How many bits a preamble has.
#[inline(always)]
pub(crate) fn bits_for(extensible: bool, roots: &[Field<'_>]) -> usize
    ensures { result ≡ bits_for extensible (map row roots.now) }
{
    let _size = roots.len();
    let mut count = 0;
    for row in roots {
        match row.presence {
            FieldPresence::Required => {}
            FieldPresence::Optional | FieldPresence::Default => count += 1,
        }
    }
    if extensible { count + 1 } else { count }
}

/// The extension bit of an extensible type, and the presence bits.
#[inline(always)]
pub(crate) fn split_extension(extensible: bool, bits: BitSlice<'_>) -> (bool, BitSlice<'_>)
    ensures extended { result.0 ≡ extension_in extensible (bits_left bits.entry) }
    ensures presence { bits_left result.1 ≡ presence_in extensible (bits_left bits.entry) }
{
    if extensible {
        next_bit(bits)
    } else {
        (false, bits)
    }
}

/// A row that is asked out of order or not at all.
#[inline(always)]
pub(crate) fn missing(tag: Tag) -> DecodeErrorKind
    ensures { result ≡ missing tag }
{
    DecodeErrorKind::MissingTagClassOrValueInSequenceOrSet {
        class: tag.class,
        value: tag.value,
    }
}
