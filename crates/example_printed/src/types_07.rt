//! Types of ASN.1 modules, as oergen printed them.

use rasn_oer::prelude::*;
use std::alloc::Global;

/// The limits of `NumbersLong`.
#[derive(Drop)]
pub enum NumbersLongLimits {}

impl Limits for NumbersLongLimits {
    ghost use Rattle.std.specs.Prelude.{None, Some, false, negsuc, pos, refl};
    ghost use Rattle.rasn_oer.specs.Bounded.{Range};

    ghost LIMITS = { record { value = Some (Range (Some (pos 0)) (Some (pos 18446744073709551616)), false); size = None } };

    const LIMITS: Constraints = Constraints {
        value: Some((
            Bounded::Range {
                start: Some(0),
                end: Some(18446744073709551616),
            },
            false,
        )),
        size: None,
    };

    ghost consistent = { refl };
}

/// `Numbers ::= SEQUENCE { none NULL, two INTEGER (0..256), wide INTEGER (-129..0), long INTEGER
/// (0..18446744073709551616), extensible INTEGER (0..7, ..., 9), down INTEGER (MIN..top),
/// named Named (0..MAX) }`
pub type Numbers = Sequence<NumbersComponents, 7, 0>;

pub use numbers_components::Numbers as NumbersComponents;

mod numbers_components {
    use super::*;

    /// The components of `Numbers`.
    #[derive(Debug, PartialEq, Eq, Drop)]
    pub struct Numbers {
        /// a comment within its line
        pub none: (),
        pub two: Limited<u16, Between<0, 256>>,
        pub wide: Limited<i16, Between<-129, 0>>,
        pub long: Limited<Integer, NumbersLongLimits>,
        pub extensible: Integer,
        pub down: Limited<Integer, AtMost<65535>>,
        pub named: Limited<u8, Between<0, 3>>,
    }
}

type NumbersRow = Required<
    Context<0>,
    (),
    Required<
        Context<1>,
        Limited<u16, Between<0, 256>>,
        Required<
            Context<2>,
            Limited<i16, Between<-129, 0>>,
            Required<
                Context<3>,
                Limited<Integer, NumbersLongLimits>,
                Required<Context<4>, Integer, NumbersFromDown>,
            >,
        >,
    >,
>;

/// The components of `Numbers` from `down` on.
pub struct NumbersFromDown;

type NumbersFromDownRow = Required<
    Context<5>,
    Limited<Integer, AtMost<65535>>,
    Required<Context<6>, Limited<u8, Between<0, 3>>, End>,
>;

impl Components for NumbersFromDown {
    type Values = <NumbersFromDownRow as Components>::Values;

    ghost EXTENSIBLE = { ⟦<NumbersFromDownRow as Components>⟧.EXTENSIBLE };

    const EXTENSIBLE: bool = false;

    ghost schema = { ⟦<NumbersFromDownRow as Components>⟧.schema };

    ghost is_schema = { ⟦<NumbersFromDownRow as Components>⟧.is_schema };
}

impl Slotted for NumbersFromDown {
    type Slots = <NumbersFromDownRow as Slotted>::Slots;

    ghost filled = { ⟦<NumbersFromDownRow as Slotted>⟧.filled };

    ghost filled_once = { ⟦<NumbersFromDownRow as Slotted>⟧.filled_once };

    #[inline(always)]
    fn empty() -> Self::Slots {
        NumbersFromDownRow::empty()
    }

    #[inline(always)]
    fn taken(slots: Self::Slots) -> Self::Values {
        NumbersFromDownRow::taken(slots)
    }
}

impl Reads for NumbersFromDown {
    ghost Refuses = { ⟦<NumbersFromDownRow as Reads>⟧.Refuses };

    #[inline(always)]
    fn read(
        alloc: Global,
        decoder: &mut Decoder<'_>,
        slots: &mut Self::Slots,
    ) -> Result<(), DecodeError> {
        <NumbersFromDownRow as Reads>::read(alloc, decoder, slots)
    }
}

impl<'v> Views<'v> for NumbersFromDown {
    type View = <NumbersFromDownRow as Views<'v>>::View;

    ghost seen = { ⟦<NumbersFromDownRow as Views<'v>>⟧.seen };

    #[inline(always)]
    fn write(view: &Self::View, encoder: &mut Encoder<'_>) -> Result<(), EncodeError> {
        NumbersFromDownRow::write(view, encoder)
    }
}

impl Rowed for NumbersComponents {
    ghost use Rattle.rasn_oer.specs.Values.{both};

    type Values = <NumbersRow as Components>::Values;

    ghost EXTENSIBLE = { ⟦<NumbersRow as Components>⟧.EXTENSIBLE };

    const EXTENSIBLE: bool = false;

    ghost row_schema = { ⟦<NumbersRow as Components>⟧.schema };

    ghost row_is_schema = { ⟦<NumbersRow as Components>⟧.is_schema };

    ghost components = { λ v. both v.none (both v.two (both v.wide (both v.long (both v.extensible (both v.down (both v.named tt)))))) };

    fn from_row(row: Self::Values) -> Self {
        built![NumbersComponents from row:
            none,
            two,
            wide,
            long,
            extensible,
            down,
            named
        ]
    }
}

impl Takes for NumbersComponents {
    ghost Refuses = { ⟦<NumbersRow as Reads>⟧.Refuses };

    #[inline(always)]
    fn take(alloc: Global, decoder: &mut Decoder<'_>) -> Result<Self, DecodeError> {
        read_row::<Self, NumbersRow>(alloc, decoder)
    }
}

impl Tabled<7, 0> for NumbersComponents {
    ghost use Rattle.std.specs.Prelude.{refl};

    const FIELDS: Fields<7> = Fields {
        fields: fields![
            0 Required Context 0 "none",
            1 Required Context 1 "two",
            2 Required Context 2 "wide",
            3 Required Context 3 "long",
            4 Required Context 4 "extensible",
            5 Required Context 5 "down",
            6 Required Context 6 "named"
        ],
    };

    const EXTENDED_FIELDS: Option<Fields<0>> = None;

    fn root_fields() -> &'static [Field<'static>] {
        Self::FIELDS.fields
    }

    fn addition_fields() -> &'static [Field<'static>] {
        rows_of!(Self::EXTENDED_FIELDS)
    }

    #[inline(always)]
    fn put(&self, encoder: &mut Encoder<'_>) -> Result<(), EncodeError> {
        let view = views![self:
            none,
            two,
            wide,
            long,
            extensible,
            down,
            named
        ];
        NumbersRow::write(&view, encoder)
    }

    ghost counts = { (refl, refl) };
}

/// `Ranges ::= SEQUENCE { single INTEGER (5), gaps INTEGER (1..3 | 200), common INTEGER (0..300)
/// (0..100 ^ 50..400), less INTEGER (0..9 EXCEPT 5) }`
pub type Ranges = Sequence<RangesComponents, 4, 0>;

pub use ranges_components::Ranges as RangesComponents;

mod ranges_components {
    use super::*;

    /// The components of `Ranges`.
    #[derive(Debug, PartialEq, Eq, Drop)]
    pub struct Ranges {
        pub single: Limited<u8, Between<5, 5>>,
        pub gaps: Limited<u8, Between<1, 200>>,
        pub common: Limited<u8, Between<50, 100>>,
        pub less: Limited<u8, Between<0, 9>>,
    }
}

type RangesRow = Required<
    Context<0>,
    Limited<u8, Between<5, 5>>,
    Required<
        Context<1>,
        Limited<u8, Between<1, 200>>,
        Required<
            Context<2>,
            Limited<u8, Between<50, 100>>,
            Required<Context<3>, Limited<u8, Between<0, 9>>, End>,
        >,
    >,
>;

impl Rowed for RangesComponents {
    ghost use Rattle.rasn_oer.specs.Values.{both};

    type Values = <RangesRow as Components>::Values;

    ghost EXTENSIBLE = { ⟦<RangesRow as Components>⟧.EXTENSIBLE };

    const EXTENSIBLE: bool = false;

    ghost row_schema = { ⟦<RangesRow as Components>⟧.schema };

    ghost row_is_schema = { ⟦<RangesRow as Components>⟧.is_schema };

    ghost components = { λ v. both v.single (both v.gaps (both v.common (both v.less tt))) };

    fn from_row(row: Self::Values) -> Self {
        built![RangesComponents from row:
            single,
            gaps,
            common,
            less
        ]
    }
}

impl Takes for RangesComponents {
    ghost Refuses = { ⟦<RangesRow as Reads>⟧.Refuses };

    #[inline(always)]
    fn take(alloc: Global, decoder: &mut Decoder<'_>) -> Result<Self, DecodeError> {
        read_row::<Self, RangesRow>(alloc, decoder)
    }
}

impl Tabled<4, 0> for RangesComponents {
    ghost use Rattle.std.specs.Prelude.{refl};

    const FIELDS: Fields<4> = Fields {
        fields: fields![
            0 Required Context 0 "single",
            1 Required Context 1 "gaps",
            2 Required Context 2 "common",
            3 Required Context 3 "less"
        ],
    };

    const EXTENDED_FIELDS: Option<Fields<0>> = None;

    fn root_fields() -> &'static [Field<'static>] {
        Self::FIELDS.fields
    }

    fn addition_fields() -> &'static [Field<'static>] {
        rows_of!(Self::EXTENDED_FIELDS)
    }

    #[inline(always)]
    fn put(&self, encoder: &mut Encoder<'_>) -> Result<(), EncodeError> {
        let view = views![self:
            single,
            gaps,
            common,
            less
        ];
        RangesRow::write(&view, encoder)
    }

    ghost counts = { (refl, refl) };
}

/// `Strings ::= SEQUENCE { blob OCTET STRING (SIZE(1..9, ...)), sizes OCTET STRING (SIZE(1 | 3)),
/// content OCTET STRING (CONTAINING Named), letters PrintableString (FROM("A".."Z") ^ SIZE(2))
/// }`
pub type Strings = Sequence<StringsComponents, 4, 0>;

pub use strings_components::Strings as StringsComponents;

mod strings_components {
    use super::*;

    /// The components of `Strings`.
    #[derive(Debug, PartialEq, Eq, Drop)]
    pub struct Strings {
        pub blob: Octets,
        pub sizes: Limited<Octets, SizeBetween<1, 3>>,
        pub content: Octets,
        pub letters: Limited<PrintableText, FixedSize<2>>,
    }
}

type StringsRow = Required<
    Context<0>,
    Octets,
    Required<
        Context<1>,
        Limited<Octets, SizeBetween<1, 3>>,
        Required<
            Context<2>,
            Octets,
            Required<Context<3>, Limited<PrintableText, FixedSize<2>>, End>,
        >,
    >,
>;

impl Rowed for StringsComponents {
    ghost use Rattle.rasn_oer.specs.Values.{both};

    type Values = <StringsRow as Components>::Values;

    ghost EXTENSIBLE = { ⟦<StringsRow as Components>⟧.EXTENSIBLE };

    const EXTENSIBLE: bool = false;

    ghost row_schema = { ⟦<StringsRow as Components>⟧.schema };

    ghost row_is_schema = { ⟦<StringsRow as Components>⟧.is_schema };

    ghost components = { λ v. both v.blob (both v.sizes (both v.content (both v.letters tt))) };

    fn from_row(row: Self::Values) -> Self {
        built![StringsComponents from row:
            blob,
            sizes,
            content,
            letters
        ]
    }
}

impl Takes for StringsComponents {
    ghost Refuses = { ⟦<StringsRow as Reads>⟧.Refuses };

    #[inline(always)]
    fn take(alloc: Global, decoder: &mut Decoder<'_>) -> Result<Self, DecodeError> {
        read_row::<Self, StringsRow>(alloc, decoder)
    }
}

impl Tabled<4, 0> for StringsComponents {
    ghost use Rattle.std.specs.Prelude.{refl};

    const FIELDS: Fields<4> = Fields {
        fields: fields![
            0 Required Context 0 "blob",
            1 Required Context 1 "sizes",
            2 Required Context 2 "content",
            3 Required Context 3 "letters"
        ],
    };

    const EXTENDED_FIELDS: Option<Fields<0>> = None;

    fn root_fields() -> &'static [Field<'static>] {
        Self::FIELDS.fields
    }

    fn addition_fields() -> &'static [Field<'static>] {
        rows_of!(Self::EXTENDED_FIELDS)
    }

    #[inline(always)]
    fn put(&self, encoder: &mut Encoder<'_>) -> Result<(), EncodeError> {
        let view = views![self:
            blob,
            sizes,
            content,
            letters
        ];
        StringsRow::write(&view, encoder)
    }

    ghost counts = { (refl, refl) };
}

/// no octet but those of its parts
///
/// `Leaves ::= SEQUENCE { numbers Numbers, ranges Ranges, strings Strings, text UTF8String (SIZE(0..5)),
/// texts SEQUENCE (SIZE(1..4)) OF IA5String, lists SET OF SEQUENCE OF VisibleString (SIZE(3)),
/// id OBJECT IDENTIFIER }`
pub type Leaves = Sequence<LeavesComponents, 7, 0>;

pub use leaves_components::Leaves as LeavesComponents;

mod leaves_components {
    use super::*;

    /// The components of `Leaves`.
    #[derive(Debug, PartialEq, Eq, Drop)]
    pub struct Leaves {
        pub numbers: Numbers,
        pub ranges: Ranges,
        pub strings: Strings,
        pub text: Utf8Text,
        pub texts: ListOf<Ia5Text>,
        pub lists: SetOf<ListOf<Limited<VisibleText, FixedSize<3>>>>,
        pub id: ObjectIdentifier,
    }
}

type LeavesRow = Required<
    Context<0>,
    Numbers,
    Required<
        Context<1>,
        Ranges,
        Required<
            Context<2>,
            Strings,
            Required<Context<3>, Utf8Text, Required<Context<4>, ListOf<Ia5Text>, LeavesFromLists>>,
        >,
    >,
>;

/// The components of `Leaves` from `lists` on.
pub struct LeavesFromLists;

type LeavesFromListsRow = Required<
    Context<5>,
    SetOf<ListOf<Limited<VisibleText, FixedSize<3>>>>,
    Required<Context<6>, ObjectIdentifier, End>,
>;

impl Components for LeavesFromLists {
    type Values = <LeavesFromListsRow as Components>::Values;

    ghost EXTENSIBLE = { ⟦<LeavesFromListsRow as Components>⟧.EXTENSIBLE };

    const EXTENSIBLE: bool = false;

    ghost schema = { ⟦<LeavesFromListsRow as Components>⟧.schema };

    ghost is_schema = { ⟦<LeavesFromListsRow as Components>⟧.is_schema };
}

impl Slotted for LeavesFromLists {
    type Slots = <LeavesFromListsRow as Slotted>::Slots;

    ghost filled = { ⟦<LeavesFromListsRow as Slotted>⟧.filled };

    ghost filled_once = { ⟦<LeavesFromListsRow as Slotted>⟧.filled_once };

    #[inline(always)]
    fn empty() -> Self::Slots {
        LeavesFromListsRow::empty()
    }

    #[inline(always)]
    fn taken(slots: Self::Slots) -> Self::Values {
        LeavesFromListsRow::taken(slots)
    }
}

impl Reads for LeavesFromLists {
    ghost Refuses = { ⟦<LeavesFromListsRow as Reads>⟧.Refuses };

    #[inline(always)]
    fn read(
        alloc: Global,
        decoder: &mut Decoder<'_>,
        slots: &mut Self::Slots,
    ) -> Result<(), DecodeError> {
        <LeavesFromListsRow as Reads>::read(alloc, decoder, slots)
    }
}

impl<'v> Views<'v> for LeavesFromLists {
    type View = <LeavesFromListsRow as Views<'v>>::View;

    ghost seen = { ⟦<LeavesFromListsRow as Views<'v>>⟧.seen };

    #[inline(always)]
    fn write(view: &Self::View, encoder: &mut Encoder<'_>) -> Result<(), EncodeError> {
        LeavesFromListsRow::write(view, encoder)
    }
}

impl Rowed for LeavesComponents {
    ghost use Rattle.rasn_oer.specs.Values.{both};

    type Values = <LeavesRow as Components>::Values;

    ghost EXTENSIBLE = { ⟦<LeavesRow as Components>⟧.EXTENSIBLE };

    const EXTENSIBLE: bool = false;

    ghost row_schema = { ⟦<LeavesRow as Components>⟧.schema };

    ghost row_is_schema = { ⟦<LeavesRow as Components>⟧.is_schema };

    ghost components = { λ v. both v.numbers (both v.ranges (both v.strings (both v.text (both v.texts (both v.lists (both v.id tt)))))) };

    fn from_row(row: Self::Values) -> Self {
        built![LeavesComponents from row:
            numbers,
            ranges,
            strings,
            text,
            texts,
            lists,
            id
        ]
    }
}

impl Takes for LeavesComponents {
    ghost Refuses = { ⟦<LeavesRow as Reads>⟧.Refuses };

    #[inline(always)]
    fn take(alloc: Global, decoder: &mut Decoder<'_>) -> Result<Self, DecodeError> {
        read_row::<Self, LeavesRow>(alloc, decoder)
    }
}

impl Tabled<7, 0> for LeavesComponents {
    ghost use Rattle.std.specs.Prelude.{refl};

    const FIELDS: Fields<7> = Fields {
        fields: fields![
            0 Required Context 0 "numbers",
            1 Required Context 1 "ranges",
            2 Required Context 2 "strings",
            3 Required Context 3 "text",
            4 Required Context 4 "texts",
            5 Required Context 5 "lists",
            6 Required Context 6 "id"
        ],
    };

    const EXTENDED_FIELDS: Option<Fields<0>> = None;

    fn root_fields() -> &'static [Field<'static>] {
        Self::FIELDS.fields
    }

    fn addition_fields() -> &'static [Field<'static>] {
        rows_of!(Self::EXTENDED_FIELDS)
    }

    #[inline(always)]
    fn put(&self, encoder: &mut Encoder<'_>) -> Result<(), EncodeError> {
        let view = views![self:
            numbers,
            ranges,
            strings,
            text,
            texts,
            lists,
            id
        ];
        LeavesRow::write(&view, encoder)
    }

    ghost counts = { (refl, refl) };
}
