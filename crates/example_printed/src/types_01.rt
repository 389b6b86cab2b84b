//! Types of ASN.1 modules, as oergen printed them.

use rasn_oer::prelude::*;
use std::alloc::{AllocError, Global};

/// `Percent ::= INTEGER (0..100)`
pub type Percent = Limited<u8, Between<0, 100>>;

/// `Below ::= INTEGER (-5..MAX)`
pub type Below = Limited<Integer, AtLeast<-5>>;

/// `Narrow ::= Percent (0..9)`
pub type Narrow = Limited<u8, Between<0, 9>>;

/// `Key ::= OCTET STRING (SIZE(4))`
pub type Key = Limited<Octets, FixedSize<4>>;

/// `Bits ::= BIT STRING { first(0), last(11) } (SIZE(12))`
pub type Bits = Limited<BitString, FixedSize<12>>;

/// `Name ::= IA5String (SIZE(1..8))`
pub type Name = Limited<Ia5Text, SizeBetween<1, 8>>;

/// `Names ::= SEQUENCE OF Name`
pub type Names = ListOf<Name>;

/// `Colour ::= ENUMERATED { red, green(5), blue, ..., dark-grey }`
pub type Colour = Enumeration<ColourValues>;

/// The values of `Colour`.
#[derive(Debug, Clone, Copy, PartialEq, Eq)]
pub enum ColourValues {
    Red = 0,
    Green = 5,
    Blue = 1,
    DarkGrey = 2,
}

impl Numbered for ColourValues {
    ghost use Rattle.std.specs.Prelude.{pos, negsuc, [], ◌∷◌, refl};
    ghost use Rattle.example_printed.specs.declared.types_01.ColourValues.TheVariants.{Red, Green, Blue, DarkGrey};

    ghost number = { elim [ Red ↦ (pos 0) | Green ↦ (pos 5) | Blue ↦ (pos 1) | DarkGrey ↦ (pos 2) ] };

    ghost values = { Red ∷ Green ∷ Blue ∷ DarkGrey ∷ [] };

    ghost listed = { elim [ Red ↦ (refl, refl) | Green ↦ (refl, refl) | Blue ↦ (refl, refl) | DarkGrey ↦ (refl, refl) ] };

    fn number(self) -> isize {
        self as isize
    }

    fn values() -> &'static [ColourValues] {
        &[
            ColourValues::Red,
            ColourValues::Green,
            ColourValues::Blue,
            ColourValues::DarkGrey,
        ]
    }
}

/// `SEQUENCE { x INTEGER (0..255), colour Colour OPTIONAL }`
pub type RowInner = Sequence<RowInnerComponents, 2, 0>;

pub use row_inner_components::RowInner as RowInnerComponents;

mod row_inner_components {
    use super::*;

    /// The components of `RowInner`.
    #[derive(Debug, PartialEq, Eq, Drop)]
    pub struct RowInner {
        pub x: u8,
        pub colour: Option<Colour>,
    }
}

type RowInnerRow = Required<Context<0>, u8, Optional<Context<1>, Colour, End>>;

impl Rowed for RowInnerComponents {
    ghost use Rattle.rasn_oer.specs.Values.{both};

    type Values = <RowInnerRow as Components>::Values;

    ghost EXTENSIBLE = { ⟦<RowInnerRow as Components>⟧.EXTENSIBLE };

    const EXTENSIBLE: bool = false;

    ghost row_schema = { ⟦<RowInnerRow as Components>⟧.schema };

    ghost row_is_schema = { ⟦<RowInnerRow as Components>⟧.is_schema };

    ghost components = { λ v. both v.x (both v.colour tt) };

    fn from_row(row: Self::Values) -> Self {
        built![RowInnerComponents from row:
            x,
            colour
        ]
    }
}

impl Takes for RowInnerComponents {
    ghost Refuses = { ⟦<RowInnerRow as Reads>⟧.Refuses };

    #[inline(always)]
    fn take(alloc: Global, decoder: &mut Decoder<'_>) -> Result<Self, DecodeError> {
        read_row::<Self, RowInnerRow>(alloc, decoder)
    }
}

impl Tabled<2, 0> for RowInnerComponents {
    ghost use Rattle.std.specs.Prelude.{refl};

    const FIELDS: Fields<2> = Fields {
        fields: fields![
            0 Required Context 0 "x",
            1 Optional Context 1 "colour"
        ],
    };

    const EXTENDED_FIELDS: Option<Fields<0>> = None;

    fn root_fields() -> &'static [Field<'static>] {
        Self::FIELDS.fields
    }

    fn addition_fields() -> &'static [Field<'static>] {
        rows_of!(Self::EXTENDED_FIELDS)
    }

    #[inline(always)]
    fn put(&self, encoder: &mut Encoder<'_>) -> Result<(), EncodeError> {
        let view = views![self:
            x,
            colour
        ];
        RowInnerRow::write(&view, encoder)
    }

    ghost counts = { (refl, refl) };
}

/// The default 3 of `RowPercent`.
pub struct RowPercentDefault;

impl DefaultValue<u8> for RowPercentDefault {
    ghost use Rattle.std.specs.Prelude.{negsuc, pos, refl};
    ghost use Rattle.rasn_oer.specs.Spelled.{naturals_same};

    ghost value = { 3 };

    fn value(_alloc: Global) -> Result<u8, AllocError> {
        Ok(3)
    }

    fn is_value(other: &u8) -> bool {
        *other == 3
    }

    ghost admitted = { refl };

    ghost decides = { λ c k v i. naturals_same c v _ };
}

/// The default -2 of `RowType`.
pub struct RowTypeDefault;

impl DefaultValue<Integer> for RowTypeDefault {
    ghost use Rattle.std.specs.Prelude.{negsuc, pos, refl};
    ghost use Rattle.rasn_oer.specs.Spelled.{integers_same};

    ghost value = { (negsuc 1) };

    fn value(_alloc: Global) -> Result<Integer, AllocError> {
        Ok(Integer::from_i128(-2))
    }

    fn is_value(other: &Integer) -> bool {
        *other == Integer::from_i128(-2)
    }

    ghost admitted = { refl };

    ghost decides = { λ c k v i. integers_same c v _ };
}

/// The addition group 1 of `Row`.
pub type RowGroup1 = Sequence<RowGroup1Components, 2, 0>;

pub use row_group1_components::RowGroup1 as RowGroup1Components;

mod row_group1_components {
    use super::*;

    /// The components of `RowGroup1`.
    #[derive(Debug, PartialEq, Eq, Drop)]
    pub struct RowGroup1 {
        pub bits: Bits,
        pub level: Option<u16>,
    }
}

type RowGroup1Row = Required<Context<7>, Bits, Optional<Context<8>, u16, End>>;

impl Rowed for RowGroup1Components {
    ghost use Rattle.rasn_oer.specs.Values.{both};

    type Values = <RowGroup1Row as Components>::Values;

    ghost EXTENSIBLE = { ⟦<RowGroup1Row as Components>⟧.EXTENSIBLE };

    const EXTENSIBLE: bool = false;

    ghost row_schema = { ⟦<RowGroup1Row as Components>⟧.schema };

    ghost row_is_schema = { ⟦<RowGroup1Row as Components>⟧.is_schema };

    ghost components = { λ v. both v.bits (both v.level tt) };

    fn from_row(row: Self::Values) -> Self {
        built![RowGroup1Components from row:
            bits,
            level
        ]
    }
}

impl Takes for RowGroup1Components {
    ghost Refuses = { ⟦<RowGroup1Row as Reads>⟧.Refuses };

    #[inline(always)]
    fn take(alloc: Global, decoder: &mut Decoder<'_>) -> Result<Self, DecodeError> {
        read_row::<Self, RowGroup1Row>(alloc, decoder)
    }
}

impl Tabled<2, 0> for RowGroup1Components {
    ghost use Rattle.std.specs.Prelude.{refl};

    const FIELDS: Fields<2> = Fields {
        fields: fields![
            0 Required Context 7 "bits",
            1 Optional Context 8 "level"
        ],
    };

    const EXTENDED_FIELDS: Option<Fields<0>> = None;

    fn root_fields() -> &'static [Field<'static>] {
        Self::FIELDS.fields
    }

    fn addition_fields() -> &'static [Field<'static>] {
        rows_of!(Self::EXTENDED_FIELDS)
    }

    #[inline(always)]
    fn put(&self, encoder: &mut Encoder<'_>) -> Result<(), EncodeError> {
        let view = views![self:
            bits,
            level
        ];
        RowGroup1Row::write(&view, encoder)
    }

    ghost counts = { (refl, refl) };
}

/// `Row ::= SEQUENCE { ok BOOLEAN DEFAULT TRUE, percent Percent DEFAULT 3, key Key OPTIONAL, names Names,
/// inner SEQUENCE { x INTEGER (0..255), colour Colour OPTIONAL }, type INTEGER DEFAULT -2, ...,
/// next Below OPTIONAL, [[ bits Bits, level INTEGER (0..65535) OPTIONAL ]], sure BOOLEAN }`
pub type Row = Sequence<RowComponents, 6, 3>;

pub use row_components::Row as RowComponents;

mod row_components {
    use super::*;

    /// The components of `Row`.
    #[derive(Debug, PartialEq, Eq, Drop)]
    pub struct Row {
        pub ok: bool,
        pub percent: Percent,
        pub key: Option<Key>,
        pub names: Names,
        pub inner: RowInner,
        pub r_type: Integer,
        pub next: Option<Below>,
        pub group_1: Option<RowGroup1>,
        pub sure: Option<bool>,
    }
}

type RowRow = Defaulted<
    Context<0>,
    bool,
    IsTrue,
    Defaulted<
        Context<1>,
        Percent,
        Within<RowPercentDefault>,
        Optional<
            Context<2>,
            Key,
            Required<Context<3>, Names, Required<Context<4>, RowInner, RowFromType>>,
        >,
    >,
>;

/// The components of `Row` from `r_type` on.
pub struct RowFromType;

type RowFromTypeRow = Defaulted<Context<5>, Integer, RowTypeDefault, Extensible<RowAdditions>>;

impl Components for RowFromType {
    type Values = <RowFromTypeRow as Components>::Values;

    ghost EXTENSIBLE = { ⟦<RowFromTypeRow as Components>⟧.EXTENSIBLE };

    const EXTENSIBLE: bool = true;

    ghost schema = { ⟦<RowFromTypeRow as Components>⟧.schema };

    ghost is_schema = { ⟦<RowFromTypeRow as Components>⟧.is_schema };
}

impl Slotted for RowFromType {
    type Slots = <RowFromTypeRow as Slotted>::Slots;

    ghost filled = { ⟦<RowFromTypeRow as Slotted>⟧.filled };

    ghost filled_once = { ⟦<RowFromTypeRow as Slotted>⟧.filled_once };

    #[inline(always)]
    fn empty() -> Self::Slots {
        RowFromTypeRow::empty()
    }

    #[inline(always)]
    fn taken(slots: Self::Slots) -> Self::Values {
        RowFromTypeRow::taken(slots)
    }
}

impl Reads for RowFromType {
    ghost Refuses = { ⟦<RowFromTypeRow as Reads>⟧.Refuses };

    #[inline(always)]
    fn read(
        alloc: Global,
        decoder: &mut Decoder<'_>,
        slots: &mut Self::Slots,
    ) -> Result<(), DecodeError> {
        <RowFromTypeRow as Reads>::read(alloc, decoder, slots)
    }
}

impl<'v> Views<'v> for RowFromType {
    type View = <RowFromTypeRow as Views<'v>>::View;

    ghost seen = { ⟦<RowFromTypeRow as Views<'v>>⟧.seen };

    #[inline(always)]
    fn write(view: &Self::View, encoder: &mut Encoder<'_>) -> Result<(), EncodeError> {
        RowFromTypeRow::write(view, encoder)
    }
}

type RowAdditions = OptionalAddition<
    Context<6>,
    Below,
    AdditionGroup<2, 0, RowGroup1, OptionalAddition<Context<9>, bool, End>>,
>;

impl Rowed for RowComponents {
    ghost use Rattle.rasn_oer.specs.Values.{both};

    type Values = <RowRow as Components>::Values;

    ghost EXTENSIBLE = { ⟦<RowRow as Components>⟧.EXTENSIBLE };

    const EXTENSIBLE: bool = true;

    ghost row_schema = { ⟦<RowRow as Components>⟧.schema };

    ghost row_is_schema = { ⟦<RowRow as Components>⟧.is_schema };

    ghost components = { λ v. both v.ok (both v.percent (both v.key (both v.names (both v.inner (both v.r_type (both v.next (both v.group_1 (both v.sure tt)))))))) };

    fn from_row(row: Self::Values) -> Self {
        built![RowComponents from row:
            ok,
            percent,
            key,
            names,
            inner,
            r_type,
            next,
            group_1,
            sure
        ]
    }
}

impl Takes for RowComponents {
    ghost Refuses = { ⟦<RowRow as Reads>⟧.Refuses };

    #[inline(always)]
    fn take(alloc: Global, decoder: &mut Decoder<'_>) -> Result<Self, DecodeError> {
        read_row::<Self, RowRow>(alloc, decoder)
    }
}

impl Tabled<6, 3> for RowComponents {
    ghost use Rattle.std.specs.Prelude.{refl};

    const FIELDS: Fields<6> = Fields {
        fields: fields![
            0 Default Context 0 "ok",
            1 Default Context 1 "percent",
            2 Optional Context 2 "key",
            3 Required Context 3 "names",
            4 Required Context 4 "inner",
            5 Default Context 5 "type"
        ],
    };

    const EXTENDED_FIELDS: Option<Fields<3>> = Some(Fields {
        fields: fields![
            0 Optional Context 6 "next",
            1 Optional Universal 16 "group 1",
            2 Optional Context 9 "sure"
        ],
    });

    fn root_fields() -> &'static [Field<'static>] {
        Self::FIELDS.fields
    }

    fn addition_fields() -> &'static [Field<'static>] {
        rows_of!(Self::EXTENDED_FIELDS)
    }

    #[inline(always)]
    fn put(&self, encoder: &mut Encoder<'_>) -> Result<(), EncodeError> {
        let view = views![self:
            ok,
            percent,
            key,
            names,
            inner,
            r_type,
            next,
            group_1,
            sure
        ];
        RowRow::write(&view, encoder)
    }

    ghost counts = { (refl, refl) };
}

/// `Bag ::= SET { b [1] INTEGER (-128..127), a [APPLICATION 2] BOOLEAN OPTIONAL, c [0] Name,
/// ..., more [3] NULL OPTIONAL }`
pub type Bag = Set<BagComponents, 3, 1>;

pub use bag_components::Bag as BagComponents;

mod bag_components {
    use super::*;

    /// The components of `Bag`.
    #[derive(Debug, PartialEq, Eq, Drop)]
    pub struct Bag {
        pub b: i8,
        pub a: Option<bool>,
        pub c: Name,
        pub more: Option<()>,
    }
}

type BagRow = Optional<
    Application<2>,
    bool,
    Required<Context<0>, Name, Required<Context<1>, i8, Extensible<BagAdditions>>>,
>;

type BagAdditions = OptionalAddition<Context<3>, (), End>;

impl Rowed for BagComponents {
    ghost use Rattle.rasn_oer.specs.Values.{both};

    type Values = <BagRow as Components>::Values;

    ghost EXTENSIBLE = { ⟦<BagRow as Components>⟧.EXTENSIBLE };

    const EXTENSIBLE: bool = true;

    ghost row_schema = { ⟦<BagRow as Components>⟧.schema };

    ghost row_is_schema = { ⟦<BagRow as Components>⟧.is_schema };

    ghost components = { λ v. both v.a (both v.c (both v.b (both v.more tt))) };

    fn from_row(row: Self::Values) -> Self {
        built![BagComponents from row:
            a,
            c,
            b,
            more
        ]
    }
}

impl Takes for BagComponents {
    ghost Refuses = { ⟦<BagRow as Reads>⟧.Refuses };

    #[inline(always)]
    fn take(alloc: Global, decoder: &mut Decoder<'_>) -> Result<Self, DecodeError> {
        read_row::<Self, BagRow>(alloc, decoder)
    }
}

impl Tabled<3, 1> for BagComponents {
    ghost use Rattle.std.specs.Prelude.{refl};

    const FIELDS: Fields<3> = Fields {
        fields: fields![
            0 Optional Application 2 "a",
            1 Required Context 0 "c",
            2 Required Context 1 "b"
        ],
    };

    const EXTENDED_FIELDS: Option<Fields<1>> = Some(Fields {
        fields: fields![
            0 Optional Context 3 "more"
        ],
    });

    fn root_fields() -> &'static [Field<'static>] {
        Self::FIELDS.fields
    }

    fn addition_fields() -> &'static [Field<'static>] {
        rows_of!(Self::EXTENDED_FIELDS)
    }

    #[inline(always)]
    fn put(&self, encoder: &mut Encoder<'_>) -> Result<(), EncodeError> {
        let view = views![self:
            a,
            c,
            b,
            more
        ];
        BagRow::write(&view, encoder)
    }

    ghost counts = { (refl, refl) };
}

const BAG_IN_TEXT_ORDER: &'static [Field<'static>] = fields![
    0 Required Context 1 "b",
    1 Optional Application 2 "a",
    2 Required Context 0 "c"
];

impl TextOrder for BagComponents {
    ghost use Rattle.std.specs.Prelude.{[], ◌∷◌};

    ghost places = { 1 ∷ 2 ∷ 0 ∷ [] };
}

impl InTagOrder<3, 1> for BagComponents {
    ghost use Rattle.std.specs.Prelude.{refl};

    ghost in_order = { refl };

    const SET_FIELDS: Fields<3> = Fields {
        fields: BAG_IN_TEXT_ORDER,
    };

    fn text_fields() -> &'static [Field<'static>] {
        Self::SET_FIELDS.fields
    }
}
