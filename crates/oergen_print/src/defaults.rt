//! The defaults of components, each printed as a type of its own but where the library has one.
ghost use Rattle.std.specs.Prelude.{◌≡◌, false, true, int_le, IfOk, IfSome};

use crate::default_parts::push_parts;
use crate::enumerations::value_name;
use crate::items::push_defined;
use crate::literals::{bits_of_names, octets_of_text, push_array, push_list, push_written};
use crate::shapes::{drops_zeros, number_of_octets, simple_type, sizes_of};
use crate::templates::DEFAULT;
use crate::text::{Text, Words};
use oergen_layouts::bits::{drop_zeros, fill_up, literal_bits, packed};
use oergen_layouts::definitions::Definition;
use oergen_layouts::layouts::unit_of;
use oergen_layouts::numbers::{Spot, names_of, number_of, settled};
use oergen_layouts::rows::Row;
use oergen_layouts::scope::Scope;
use oergen_layouts::values::enumerated_default;
use oergen_layouts::visible::Limits;
use oergen_parse::ast::{Body, Simple, Type, Value};
use oergen_parse::lexer::TokenId;
use oergen_parse::refusal::Refusal;
use std::alloc::Global;

/// What can be read where a default isn't printed.
const PRINTED: &str =
    "a default that is a boolean, NULL, a number, an enumerated value, bits, octets, characters, an empty list, or a SEQUENCE, a SET or a CHOICE of these: others aren't printed yet";

/// What can be read where a default is no value of its type.
const ALLOWED: &str = "a default that the type's constraints allow";

/// The number of a default. Refused where the limits don't allow it.
fn default_number<'m>(
    scope: Scope<'m, '_>,
    spot: Spot<'m>,
    first: TokenId,
    limits: Limits,
) -> Result<i128, Refusal>
    ensures low { limits.is_extensible ≡ false → IfOk result (λ n. IfSome limits.low (λ l. int_le l n ≡ true)) }
    ensures high { limits.is_extensible ≡ false → IfOk result (λ n. IfSome limits.high (λ h. int_le n h ≡ true)) }
{
    let number = number_of(scope, spot)?;
    if allows(limits, number) {
        Ok(number)
    } else {
        Err(scope.refused(first, ALLOWED))
    }
}

/// Whether limits allow a number.
fn allows(limits: Limits, number: i128) -> bool
    ensures low { limits.is_extensible ≡ false → result ≡ true → IfSome limits.low (λ l. int_le l number ≡ true) }
    ensures high { limits.is_extensible ≡ false → result ≡ true → IfSome limits.high (λ h. int_le number h ≡ true) }
{
    limits.is_extensible
        || limits.low.unwrap_or(number) <= number && number <= limits.high.unwrap_or(number)
}

/// The value of a default, in definitions.
const VALUE: &str = "⟦<@NAME@Default@ARGUMENT@ as DefaultValue<@TYPE@>>⟧.value";

/// What a default is printed as: its name, its Rust type, and how many defaults may stand in one another within it.
#[derive(Clone, Copy)]
pub struct Wish<'n, 'r> {
    pub name: &'n str,
    pub rust: &'r str,
    pub levels: u32,
}

/// A default: the type that stands for it, and what a default that it is a part of says of it.
#[derive(Drop)]
pub struct Default {
    /// The type that stands for it.
    pub name: Text,
    /// Its value in definitions.
    pub value: Text,
    /// What shows that its type admits it.
    pub admitted: Text,
    /// What shows which values are equal to it: a function.
    pub decides: Text,
    /// What definitions take from elsewhere for the two, but for what they take for any default.
    pub uses: Text,
}

impl Default {
    /// One of the library's, by its texts.
    pub fn of(alloc: Global, name: &str, value: &str, decides: &str) -> Default {
        Default {
            name: Text::of(alloc, &[name]),
            value: Text::of(alloc, &[value]),
            admitted: Text::of(alloc, &["tt"]),
            decides: Text::of(alloc, &["λ v i. ", decides]),
            uses: Text::new(alloc),
        }
    }
}

/// Prints a default by its words, and answers what is said of it: where the component's type stands within limits, of one within these.
pub fn push_words(alloc: Global, out: &mut Text, is_limited: bool, words: &Words) -> Default {
    let (name, value, decides) = if is_limited {
        (
            "Within<@NAME@Default>",
            "record { 0 = @VALUE@; 1 = record {} }",
            "λ v i. beside_nothing _ (let v = v.0 in @INSIDE@)",
        )
    } else if words.text_of("VALUES").is_empty() {
        ("@NAME@Default@ARGUMENT@", "@VALUE@", "@INSIDE@")
    } else {
        ("@NAME@Default", "@VALUE@", "λ v i. @INSIDE@")
    };
    out.fill(DEFAULT, words);
    let mut quoted = Words::new(alloc);
    quoted.begin("VALUE").push_text(&words.filled(VALUE));
    Default {
        name: words.filled(name),
        value: quoted.filled(value),
        admitted: words.filled("@ADMITTED@"),
        decides: words.filled(decides),
        uses: words.filled("@OTHERS@"),
    }
}

/// The words that each default has: its name, its Rust type without limits, and the name of the allocator, which is used or isn't.
pub fn words_of(alloc: Global, name: &str, rust: &str, takes_memory: bool) -> Words {
    let mut words = Words::new(alloc);
    words.put("VALUES", " v i");
    words.put("NAME", name);
    words.put("TYPE", rust);
    words.put("ALLOC", if takes_memory { "alloc" } else { "_alloc" });
    words
}

/// Says what shows which values are equal to it, by a template: of the default alone, and of that of a part, where other words stand at `AT`.
pub fn put_decides(words: &mut Words, template: &'static str, at: (&str, &str)) {
    words.put("AT", at.0);
    words.put_filled("DECIDES", template);
    words.put("AT", at.1);
    words.put_filled("INSIDE", template);
}

/// The words of a number.
fn number_words(alloc: Global, name: &str, number: i128, base: &str) -> Words {
    const USES: &str = "ghost use Rattle.std.specs.Prelude.{negsuc, pos, refl};
    ghost use Rattle.rasn_oer.specs.Spelled.{@SAME@};";
    const TEXTS: &[(&str, &str)] = &[
        ("USES", USES),
        ("CODE", "Ok(@LITERAL@)"),
        ("TEST", "*other == @LITERAL@"),
        ("ADMITTED", "refl"),
    ];
    let is_natural = base.starts_with('u');
    let mut words = words_of(alloc, name, base, false);
    words.begin("TEXT").push_number(number);
    push_defined(words.begin("GHOST"), number, !is_natural);
    let (same, literal) = (
        if is_natural {
            "naturals_same"
        } else {
            "integers_same"
        },
        if base == "Integer" {
            "Integer::from_i128(@TEXT@)"
        } else {
            "@TEXT@"
        },
    );
    words.put("SAME", same);
    words.put_filled("LITERAL", literal);
    words.fill_all(TEXTS);
    put_decides(&mut words, "@SAME@ @AT@ v _", ("c", "_"));
    words
}

/// Prints a number's default.
fn push_number<'m>(
    scope: Scope<'m, '_>,
    out: &mut Text,
    row: Row<'m>,
    spot: Spot<'m>,
    name: &str,
) -> Result<Default, Refusal> {
    let (base, is_limited, limits) = number_of_octets(scope, row.of)?;
    let number = default_number(scope, spot, row.name, limits)?;
    let words = number_words(scope.alloc, name, number, base);
    Ok(push_words(scope.alloc, out, is_limited, &words))
}

/// Says what stands for octets: the line of an array of the code, and a list of definitions.
fn put_octets(words: &mut Words, octets: &[u8]) {
    words.begin("SIZE").push_count(octets.len());
    push_array(words.begin("ARRAY"), octets);
    words.put_filled("OCTETS", "let octets: [u8; @SIZE@] = @ARRAY@;\n        ");
    push_list(words.begin("LIST"), octets);
}

/// How a default of bits is written: its Rust type, what its ghost members take from std, how it is made, what of a value is compared,
/// what shows that it is a value, and what says which values are equal to it.
#[derive(Clone, Copy)]
struct BitsText {
    rust: &'static str,
    uses: &'static str,
    made: &'static str,
    compared: &'static str,
    admitted: &'static str,
    same: &'static str,
}

const PLAIN_BITS: BitsText = BitsText {
    rust: "BitString",
    uses: "take",
    made: "bits_from(alloc, &octets, @COUNT@)",
    compared: "other",
    admitted: "tt",
    same: "bit_strings_same",
};

const NAMED_BITS: BitsText = BitsText {
    rust: "NamedBits",
    uses: "take, refl",
    made: "let bits = bits_from(alloc, &octets, @COUNT@)?;\n        Ok(NamedBits::new(bits))",
    compared: "other.as_bits()",
    admitted: "refl",
    same: "named_bit_strings_same",
};

/// The words of a bit string, but for its text.
fn bits_words(alloc: Global, name: &str, text: BitsText, octets: &[u8], count: usize) -> Words {
    const USES: &str =
        "ghost use Rattle.std.specs.Prelude.{◌∷◌, [], @STD@};\n    ghost use Rattle.rasn_oer.specs.Octets.{bits_of};\n    ghost use Rattle.rasn_oer.specs.Spelled.{@SAME@};";
    const TEXTS: &[(&str, &str)] = &[
        ("USES", USES),
        ("GHOST", "take @COUNT@ (bits_of @LIST@)"),
        ("CODE", "@OCTETS@@MADE@"),
        ("TEST", "@OCTETS@are_bits(@COMPARED@, &octets, @COUNT@)"),
    ];
    let mut words = words_of(alloc, name, text.rust, true);
    put_octets(&mut words, octets);
    words.begin("COUNT").push_count(count);
    words.put("STD", text.uses);
    words.put("SAME", text.same);
    words.put_filled("MADE", text.made);
    words.put("COMPARED", text.compared);
    words.put("ADMITTED", text.admitted);
    words.fill_all(TEXTS);
    put_decides(&mut words, "@SAME@ @AT@ v _", ("c", "_"));
    words
}

/// The bits of a default of a BIT STRING, as far as they are written.
fn written_bits<'m>(
    scope: Scope<'m, '_>,
    row: Row<'m>,
    spot: Spot<'m>,
) -> Result<Vec<bool>, Refusal> {
    match spot.value {
        Value::Literal(id) => Ok(literal_bits(scope.alloc, scope.token(*id))?),
        Value::Names(_, bits) => bits_of_names(scope, spot.names, bits.as_slice()),
        Value::Negative(_) | Value::Reference(_) | Value::Braces(_) => {
            Err(scope.refused(row.name, PRINTED))
        }
    }
}

/// The bits of a default of a BIT STRING: with named bits and zero bits behind them up to a fixed size, and none of another (X.680, 22.7).
/// Refused where the limits don't allow so many.
fn default_bits<'m>(
    scope: Scope<'m, '_>,
    row: Row<'m>,
    spot: Spot<'m>,
    limits: Limits,
) -> Result<Vec<bool>, Refusal> {
    const MAX_BITS: i128 = 65536;
    let mut bits = written_bits(scope, row, spot)?;
    let least = limits.low.unwrap_or(0);
    let is_named = drops_zeros(spot.names, limits);
    if is_named {
        drop_zeros(&mut bits);
    } else if !spot.names.is_empty() && least <= MAX_BITS {
        fill_up(&mut bits, usize::try_from(least).unwrap_or(0))?;
    }
    let count = i128::try_from(bits.len()).unwrap_or(i128::MAX);
    if allows(limits, if is_named { count.max(least) } else { count }) {
        Ok(bits)
    } else {
        Err(scope.refused(row.name, ALLOWED))
    }
}

/// Prints the default of a BIT STRING.
fn push_bits<'m>(
    scope: Scope<'m, '_>,
    out: &mut Text,
    row: Row<'m>,
    spot: Spot<'m>,
    name: &str,
) -> Result<Default, Refusal> {
    let (is_limited, limits) = sizes_of(scope, row.of)?;
    let bits = default_bits(scope, row, spot, limits)?;
    let octets = packed(scope.alloc, bits.as_slice())?;
    let text = if drops_zeros(spot.names, limits) {
        NAMED_BITS
    } else {
        PLAIN_BITS
    };
    let mut words = bits_words(scope.alloc, name, text, octets.as_slice(), bits.len());
    push_written(scope, words.begin("TEXT"), spot.value);
    Ok(push_words(scope.alloc, out, is_limited, &words))
}

/// What shows that octets obey a type's rule.
#[derive(Clone, Copy)]
enum Evidence {
    /// All do.
    Any,
    /// Each of them is tested.
    Each,
    /// They are units of so many.
    Units(usize),
    /// They are UTF-8.
    Utf8,
}

/// A type of octets or characters: the struct that holds it, its rule, what makes one of octets, and what shows that these obey the rule.
#[derive(Clone, Copy)]
struct Held {
    holder: &'static str,
    rule: &'static str,
    from: &'static str,
    evidence: Evidence,
}

/// The type of octets or characters; nothing of another type.
fn held_of(simple: Simple) -> Option<Held> {
    const TEXT: &str = "@RULE@String::from_text";
    let (rule, from, evidence) = match simple {
        Simple::OctetString => ("AnyOctets", "OctetString::from_slice", Evidence::Any),
        Simple::Utf8String => ("Utf8", "utf8_from", Evidence::Utf8),
        Simple::NumericString => ("Numeric", TEXT, Evidence::Each),
        Simple::PrintableString => ("Printable", TEXT, Evidence::Each),
        Simple::VisibleString => ("Visible", TEXT, Evidence::Each),
        Simple::Ia5String => ("Ia5", TEXT, Evidence::Each),
        Simple::GeneralString => ("General", TEXT, Evidence::Any),
        Simple::GraphicString => ("Graphic", TEXT, Evidence::Any),
        Simple::TeletexString => ("Teletex", TEXT, Evidence::Any),
        Simple::BmpString => ("Bmp", "bmp_from", Evidence::Units(2)),
        Simple::UniversalString => ("Universal", "universal_from", Evidence::Units(4)),
        Simple::Boolean | Simple::Null | Simple::ObjectIdentifier | Simple::Any => return None,
        Simple::UtcTime | Simple::GeneralizedTime | Simple::Date => return None,
    };
    let holder = simple_type(simple);
    Some(Held {
        holder,
        rule,
        from,
        evidence,
    })
}

/// The words of octets or characters, but for their text.
fn held_words(alloc: Global, name: &str, held: Held, octets: &[u8]) -> Words {
    const USES: &str = "ghost use Rattle.std.specs.Prelude.{◌∷◌, [], refl};
    ghost use Rattle.rasn_oer.specs.Literals.{written@SPELLED@};
    ghost use Rattle.rasn_oer.specs.Spelled.{texts_same};
    ghost use Rattle.rasn_oer.specs.Texts as texts;";
    const MADE: &str = "let content = @FROM@(alloc, &octets)?;\n        Ok(@TYPE@(content))";
    const BARE: &str = "@FROM@(alloc, &octets)";
    const RECORD: &str = "record { 0 = @LIST@ }";
    const TEXTS: &[(&str, &str)] = &[
        ("USES", USES),
        ("CODE", "@OCTETS@@MADE@"),
        ("TEST", "@OCTETS@other.0.as_bytes() == octets.as_slice()"),
        ("ADMITTED", "written texts.@RULE@ @LIST@ refl @OBEYS@"),
    ];
    let mut words = words_of(alloc, name, held.holder, true);
    put_octets(&mut words, octets);
    let unit = match held.evidence {
        Evidence::Units(unit) => unit,
        _ => 1,
    };
    words
        .begin("COUNT")
        .push_count(octets.len().checked_div(unit).unwrap_or(0));
    let (spelled, value, made, obeys) = match held.evidence {
        Evidence::Any => ("", RECORD, MADE, "tt"),
        Evidence::Each => ("", RECORD, MADE, "refl"),
        Evidence::Units(_) => ("", RECORD, BARE, "(@COUNT@, refl)"),
        Evidence::Utf8 => (", spelled", "@LIST@", BARE, "(spelled @LIST@ refl)"),
    };
    words.put("RULE", held.rule);
    words.put_filled("FROM", held.from);
    words.put("SPELLED", spelled);
    words.put_filled("GHOST", value);
    words.put_filled("MADE", made);
    words.put_filled("OBEYS", obeys);
    words.put("OWN", if spelled.is_empty() { "v.0" } else { "v" });
    words.fill_all(TEXTS);
    put_decides(
        &mut words,
        "texts_same texts.@RULE@ @AT@ @OWN@ _",
        ("c", "_"),
    );
    words
}

/// The octets of a default of an OCTET STRING or a character string.
fn default_octets<'m>(
    scope: Scope<'m, '_>,
    row: Row<'m>,
    spot: Spot<'m>,
    simple: Simple,
) -> Result<Vec<u8>, Refusal> {
    let Value::Literal(id) = spot.value else {
        return Err(scope.refused(row.name, PRINTED));
    };
    if simple != Simple::OctetString {
        return octets_of_text(scope, simple, *id);
    }
    let bits = literal_bits(scope.alloc, scope.token(*id))?;
    Ok(packed(scope.alloc, bits.as_slice())?)
}

/// Whether limits allow a string of so many octets.
fn allows_octets(limits: Limits, simple: Simple, octets: usize) -> bool {
    let octets = i128::try_from(octets).unwrap_or(i128::MAX);
    let unit = unit_of(simple).unwrap_or(1);
    allows(limits, octets.checked_div(unit).unwrap_or(0))
}

/// Prints the default of an OCTET STRING or a character string.
fn push_held<'m>(
    scope: Scope<'m, '_>,
    out: &mut Text,
    row: Row<'m>,
    spot: Spot<'m>,
    of: (Simple, Held),
    name: &str,
) -> Result<Default, Refusal> {
    let (simple, held) = of;
    let octets = default_octets(scope, row, spot, simple)?;
    let (is_limited, limits) = sizes_of(scope, row.of)?;
    if !allows_octets(limits, simple, octets.len()) {
        return Err(scope.refused(row.name, ALLOWED));
    }
    let mut words = held_words(scope.alloc, name, held, octets.as_slice());
    push_written(scope, words.begin("TEXT"), spot.value);
    Ok(push_words(scope.alloc, out, is_limited, &words))
}

/// The Rust name of the definition of a type, and whether that keeps unknown values; no name where it has none.
fn definition_of<'d>(all: &'d [Definition<'_>], base: &Type) -> (&'d str, bool) {
    for definition in all.iter() {
        if definition.of.first.index == base.first.index {
            return (definition.rust_name.as_str(), definition.keeps_unknown);
        }
    }
    ("", false)
}

/// Says how definitions and code write an enumerated value.
fn put_enumerated(words: &mut Words, owner: &str, variant: &str, keeps_unknown: bool) {
    const KEPT: &str = "
    ghost use Rattle.std.specs.Prelude.{refl};
    ghost use Rattle.oer_kept.specs.KeptNumbers.{kept_same};
    ghost use Rattle.oer_kept.specs.declared.enumerations.KeptEnumeration.TheVariants.{Known};";
    const KNOWN: &str = "
    ghost use Rattle.rasn_oer.specs.Numbered.{numbers_same};";
    const KEPT_USES: &str = "
    ghost use Rattle.oer_kept.specs.KeptNumbers.{kept_same};";
    const KEPT_CODE: &str = "KeptEnumeration::Known(@OWNER@Values::@VARIANT@)";
    const KNOWN_CODE: &str = "Enumeration(@OWNER@Values::@VARIANT@)";
    const KEPT_SAME: &str =
        "kept_same ⟦<@OWNER@Values as Numbered>⟧.number ⟦<@OWNER@Values as Numbered>⟧.values v @AT@ i (refl, refl)";
    let (uses, others, value, code, admitted, decides) = if keeps_unknown {
        (
            KEPT,
            KEPT_USES,
            "Known @VARIANT@",
            KEPT_CODE,
            "(refl, refl)",
            KEPT_SAME,
        )
    } else {
        (
            KNOWN,
            "",
            "record { 0 = @VARIANT@ }",
            KNOWN_CODE,
            "tt",
            "numbers_same _ _",
        )
    };
    words.put("OWNER", owner);
    words.put("VARIANT", variant);
    words.put("OTHERS", others);
    let text = words.begin("USES");
    text.push_all(&["ghost use Rattle.@HOME:", owner, "Values@.", owner]);
    text.push_all(&["Values.TheVariants.{", variant, "};", uses]);
    words.put_filled("GHOST", value);
    words.put_filled("VALUE", code);
    words.put("ADMITTED", admitted);
    let known = words.filled("(Known @VARIANT@)");
    let value = words.filled(VALUE);
    put_decides(words, decides, (known.as_str(), value.as_str()));
}

/// The words of an enumerated value, by the names of the value, of its enum's owner, with whether that keeps unknown values, and of its
/// variant.
fn enumerated_words(
    alloc: Global,
    named: (&str, &str),
    text: &str,
    owner: (&str, bool),
    variant: &str,
) -> Words {
    let (name, rust) = named;
    let mut words = words_of(alloc, name, rust, false);
    words.put("TEXT", text);
    put_enumerated(&mut words, owner.0, variant, owner.1);
    words.put_filled("CODE", "Ok(@VALUE@)");
    words.put_filled("TEST", "*other == @VALUE@");
    words
}

/// Prints the default of an ENUMERATED, by its name.
fn push_enumerated<'m>(
    scope: Scope<'m, '_>,
    all: &[Definition<'m>],
    out: &mut Text,
    base: &'m Type,
    spot: Spot<'m>,
    named: (&str, &str),
) -> Result<Default, Refusal> {
    let text = scope.text(enumerated_default(scope, spot)?);
    let variant = value_name(scope, spot.names, text)?;
    let owner = definition_of(all, base);
    let words = enumerated_words(scope.alloc, named, text, owner, variant.as_str());
    Ok(push_words(scope.alloc, out, false, &words))
}

/// The default of a list, which is empty. As everywhere, no size of a list is looked at.
fn list_default<'m>(
    scope: Scope<'m, '_>,
    row: Row<'m>,
    spot: Spot<'m>,
) -> Result<Default, Refusal> {
    let is_empty = matches!(spot.value, Value::Names(_, names) if names.is_empty());
    if !is_empty {
        return Err(scope.refused(row.name, PRINTED));
    }
    Ok(Default::of(scope.alloc, "IsEmptyList", "[]", "empty_listed _ _ v"))
}

/// The default of a type without parts: printed, but where the library has a type for it.
fn push_simple<'m>(
    scope: Scope<'m, '_>,
    out: &mut Text,
    row: Row<'m>,
    spot: Spot<'m>,
    simple: Simple,
    name: &str,
) -> Result<Default, Refusal> {
    if let Some(held) = held_of(simple) {
        return push_held(scope, out, row, settled(scope, spot)?, (simple, held), name);
    }
    if !matches!(simple, Simple::Boolean | Simple::Null) {
        return Err(scope.refused(row.name, PRINTED));
    }
    Ok(constant_of(scope, settled(scope, spot)?))
}

/// The type that stands for a default: printed, but where the library has one. Refused where its type's defaults aren't printed, or its
/// constraints don't allow it.
#[cycle(defaults)]
pub fn push_default<'m>(
    scope: Scope<'m, '_>,
    all: &[Definition<'m>],
    out: &mut Text,
    row: Row<'m>,
    value: &'m Value,
    wish: Wish<'_, '_>,
) -> Result<Default, Refusal> {
    let base = scope.base_of(row.of)?;
    let spot = Spot {
        value,
        names: names_of(base),
    };
    let name = wish.name;
    match &base.body {
        Body::Integer(_) => push_number(scope, out, row, spot, name),
        Body::Enumerated(_, _) => {
            push_enumerated(scope, all, out, base, spot, (name, wish.rust))
        }
        Body::BitString(_) => push_bits(scope, out, row, settled(scope, spot)?, name),
        Body::Simple(simple) => push_simple(scope, out, row, spot, *simple, name),
        Body::SequenceOf(_) | Body::SetOf(_) => list_default(scope, row, settled(scope, spot)?),
        Body::Sequence(_) | Body::Set(_) | Body::Choice(_) => {
            push_parts(scope, all, out, row, settled(scope, spot)?.value, wish)
        }
        Body::Reference(_) => Err(scope.refused(row.name, PRINTED)),
    }
}

/// The library's default for TRUE, FALSE or NULL.
fn constant_of(scope: Scope<'_, '_>, spot: Spot<'_>) -> Default {
    let text = match spot.value {
        Value::Literal(id) => scope.text(*id),
        _ => "",
    };
    let (name, value, decides) = match text {
        "TRUE" => ("IsTrue", "true", "booleans_same v true"),
        "NULL" => ("IsNull", "tt", "(λ e. nulls_same v tt, λ s. refl)"),
        _ => ("IsFalse", "false", "booleans_same v false"),
    };
    Default::of(scope.alloc, name, value, decides)
}
