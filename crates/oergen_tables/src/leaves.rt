//! The forms of types without parts.
ghost use Rattle.std.specs.Prelude.{◌≡◌, ◌<◌, ◌-◌, ◌^◌, ◌*ℤ◌, ℤ, pos, List, [], ◌∷◌, map, IfErr, IfOk, IfSome, OnErr, OnOk};
ghost use Rattle.std.specs.List.{All, AllZip, filter_map};
ghost use Rattle.oergen_layouts.specs.Enumerations.{AreAllowed, AreNumbersOf, IsDigits, number_behind};
ghost use Rattle.oergen_parse.specs.declared.ast.Body.{Body};
ghost use Rattle.oergen_parse.specs.declared.refusal.Refusal.TheVariants.{OutOfMemory};
ghost use Rattle.oergen_tables.specs.Forms.{AreLeafWords, IsWord, bits_words, fixed_size, integer_words, sizeless_words, string_kind, string_words};
ghost use Rattle.oer_walk.specs.Kinds.{kind_number};
ghost use Rattle.oer_walk.specs.StringKinds.{string_kind_number};
ghost use Rattle.oergen_tables.specs.Names.{IsNamed, IsReadable, shown, value_of};
ghost use Rattle.oer_walk.specs.declared.kinds.Kind.TheVariants.{Enumerated};

use crate::forms::{Form, ValueName};
use oer_walk::{Kind, StringKind};
use oergen_layouts::layouts::unit_of;
use oergen_layouts::numbers::{Spot, enumerated_numbers, names_of, number_of};
use oergen_layouts::scope::Scope;
use oergen_layouts::visible::{Limits, Purpose, UNLIMITED, limits_of};
use oergen_parse::ast::{Body, Numbered, Simple, Type};
use oergen_parse::refusal::Refusal;
use std::alloc::{AllocError, Global};

/// What stands in a table for a number that isn't there: numbers are below it.
const NO_NUMBER: i128 = 4294967295;

/// What a type is called that has no name.
pub fn plain_name(body: &Body) -> &'static str {
    match body {
        Body::Simple(simple) => simple_name(*simple),
        Body::Integer(_) => "INTEGER",
        Body::BitString(_) => "BIT STRING",
        Body::Enumerated(_, _) => "ENUMERATED",
        Body::Sequence(_) => "SEQUENCE",
        Body::Set(_) => "SET",
        Body::Choice(_) => "CHOICE",
        Body::SequenceOf(_) => "SEQUENCE OF",
        Body::SetOf(_) => "SET OF",
        Body::Reference(_) => "",
    }
}

fn simple_name(simple: Simple) -> &'static str {
    match simple {
        Simple::Boolean => "BOOLEAN",
        Simple::Null => "NULL",
        Simple::OctetString => "OCTET STRING",
        Simple::ObjectIdentifier => "OBJECT IDENTIFIER",
        Simple::Utf8String => "UTF8String",
        Simple::NumericString => "NumericString",
        Simple::PrintableString => "PrintableString",
        Simple::VisibleString => "VisibleString",
        Simple::Ia5String => "IA5String",
        Simple::GeneralString => "GeneralString",
        Simple::GraphicString => "GraphicString",
        Simple::TeletexString => "TeletexString",
        Simple::BmpString => "BMPString",
        Simple::UniversalString => "UniversalString",
        Simple::UtcTime => "UTCTime",
        Simple::GeneralizedTime => "GeneralizedTime",
        Simple::Date => "DATE",
        Simple::Any => "open",
    }
}

/// What octets behind a length are, or as many as a type always has; octets of other types.
fn string_kind(simple: Simple) -> StringKind
    ensures { result ≡ string_kind simple }
{
    match simple {
        Simple::Boolean | Simple::Null | Simple::OctetString => StringKind::OctetString,
        Simple::Utf8String => StringKind::Utf8String,
        Simple::NumericString => StringKind::NumericString,
        Simple::PrintableString => StringKind::PrintableString,
        Simple::VisibleString => StringKind::VisibleString,
        Simple::Ia5String => StringKind::Ia5String,
        Simple::GeneralString => StringKind::GeneralString,
        Simple::GraphicString => StringKind::GraphicString,
        Simple::TeletexString => StringKind::TeletexString,
        Simple::BmpString => StringKind::BmpString,
        Simple::UniversalString => StringKind::UniversalString,
        Simple::ObjectIdentifier => StringKind::ObjectIdentifier,
        Simple::UtcTime => StringKind::UtcTime,
        Simple::GeneralizedTime => StringKind::GeneralizedTime,
        Simple::Date => StringKind::Date,
        Simple::Any => StringKind::Any,
    }
}

/// A size as a word of a table. Refused where it is none.
fn size_word(scope: Scope<'_, '_>, of: &Type, size: i128) -> Result<usize, Refusal>
    ensures size { IfOk result (λ word. pos word ≡ size) }
    ensures word { IfOk result (λ word. word < 2 ^ 32 - 1) }
    ensures refused { IsWord size → OnErr result ⊥ }
{
    match usize::try_from(size) {
        Ok(word) if size < NO_NUMBER => Ok(word),
        _ => Err(scope.refused(of.first, "a size of fewer than 4294967295 octets or bits")),
    }
}

/// The one size that limits leave, without an extension mark.
fn fixed_size(limits: Limits) -> Option<i128>
    ensures { result ≡ fixed_size limits }
{
    match (limits.low, limits.high) {
        (Some(low), Some(high)) if low == high && !limits.is_extensible => Some(low),
        _ => None,
    }
}

/// The form of an INTEGER.
fn integer_form(alloc: Global, limits: Limits) -> Result<Form, AllocError>
    ensures words { IfOk result (λ form. form.words.items ≡ integer_words limits) }
    ensures limits { IfOk result (λ form. (form.range ≡ limits) × (form.size ≡ UNLIMITED)) }
{
    let (octets, is_signed) = limits.width();
    let words = match octets {
        Some(octets) => vec![in alloc;
            Kind::FixedInteger.number() as usize,
            usize::from(octets),
            usize::from(is_signed),
        ]?,
        None => vec![in alloc; Kind::Integer.number() as usize, usize::from(is_signed)]?,
    };
    Ok(Form {
        range: limits,
        ..Form::of(alloc, words)
    })
}

/// The form of a BIT STRING, with names for its bits or without.
fn bits_form(
    scope: Scope<'_, '_>,
    of: &Type,
    limits: Limits,
    is_named: bool,
) -> Result<Form, Refusal>
    ensures words { IfOk result (λ form. form.words.items ≡ bits_words is_named (fixed_size limits)) }
    ensures limits { IfOk result (λ form. (form.range ≡ UNLIMITED) × (form.size ≡ limits)) }
    ensures fits { OnOk result (IfSome (fixed_size limits) IsWord) }
    ensures refused { IfSome (fixed_size limits) IsWord → IfErr result (λ e. e ≡ OutOfMemory) }
{
    let words = match fixed_size(limits) {
        Some(bits) => vec![in scope.alloc;
            Kind::FixedBitString.number() as usize,
            size_word(scope, of, bits)?,
        ]?,
        None if is_named => vec![in scope.alloc; Kind::NamedBitString.number() as usize]?,
        None => vec![in scope.alloc; Kind::BitString.number() as usize]?,
    };
    Ok(Form {
        size: limits,
        ..Form::of(scope.alloc, words)
    })
}

/// The form of a string whose sizes count units of so many octets.
fn string_form(
    scope: Scope<'_, '_>,
    of: &Type,
    kind: StringKind,
    unit: i128,
    limits: Limits,
) -> Result<Form, Refusal>
    ensures words { IfOk result (λ form. form.words.items ≡ string_words (string_kind_number kind) unit (fixed_size limits)) }
    ensures limits { IfOk result (λ form. (form.range ≡ UNLIMITED) × (form.size ≡ limits)) }
    ensures fits { OnOk result (IfSome (fixed_size limits) (λ size. IsWord (size *ℤ unit))) }
    ensures refused { IfSome (fixed_size limits) (λ size. IsWord (size *ℤ unit)) → IfErr result (λ e. e ≡ OutOfMemory) }
{
    let text = kind.number() as usize;
    let words = match fixed_size(limits) {
        Some(size) => {
            let octets = size_word(scope, of, size.saturating_mul(unit))?;
            vec![in scope.alloc; Kind::FixedString.number() as usize, octets, text]?
        }
        None => vec![in scope.alloc; Kind::String.number() as usize, text]?,
    };
    Ok(Form {
        size: limits,
        ..Form::of(scope.alloc, words)
    })
}

/// The form of a type whose size isn't seen.
fn sizeless_form(alloc: Global, simple: Simple) -> Result<Form, AllocError>
    ensures { IfOk result (λ form. form.words.items ≡ sizeless_words simple) }
{
    let words = match simple {
        Simple::Boolean => vec![in alloc; Kind::Boolean.number() as usize]?,
        Simple::Null => vec![in alloc; Kind::Null.number() as usize]?,
        other => vec![in alloc;
            Kind::String.number() as usize,
            string_kind(other).number() as usize,
        ]?,
    };
    Ok(Form::of(alloc, words))
}

/// The names that a type has for numbers or bits, without those whose number isn't found.
fn named_values<'m>(
    scope: Scope<'m, '_>,
    names: &'m [Numbered],
) -> Result<Vec<ValueName>, AllocError>
    ensures { All (IsReadable scope.entry.tokens.now) names.now → IfOk result (λ values. map shown values.items ≡ filter_map (value_of scope.entry.tokens.now) names.now) }
{
    let mut values = Vec::new(scope.alloc);
    for item in names.iter() {
        if let Some(number) = named_number(scope, item)? {
            let name = String::from_str(scope.alloc, scope.text(item.name))?;
            values.push(ValueName { number, name })?;
        }
    }
    Ok(values)
}

/// The number that a name stands for; nothing where it isn't found.
pub fn named_number<'m>(
    scope: Scope<'m, '_>,
    item: &'m Numbered,
) -> Result<Option<i128>, AllocError>
    ensures { IsDigits scope.entry.tokens.now item.now → IfOk result (λ number. number ≡ number_behind scope.entry.tokens.now item.now) }
{
    let Some(value) = &item.number else {
        return Ok(None);
    };
    match number_of(scope, Spot { value, names: &[] }) {
        Ok(number) => Ok(Some(number)),
        Err(Refusal::OutOfMemory) => Err(AllocError),
        Err(Refusal::At { .. }) => Ok(None),
    }
}

/// The form of an ENUMERATED of these values, so many of them in the root.
pub fn enumerated_form<'m>(
    scope: Scope<'m, '_>,
    items: &'m [Numbered],
    root: usize,
) -> Result<Form, Refusal>
    ensures words { IfOk result (λ form. form.words.items ≡ kind_number Enumerated ∷ []) }
    ensures names { IfOk result (λ form. AllZip (IsNamed scope.entry.tokens.now) (map (λ item. item.name) items.now) form.values.items) }
    ensures numbers { IfOk result (λ form. AreNumbersOf scope.entry.tokens.now items.now root (map (λ value. value.number) form.values.items)) }
    ensures refused { (numbers : List ℤ) → AreAllowed scope.entry.tokens.now items.now root numbers → IfErr result (λ e. e ≡ OutOfMemory) }
{
    let mut form = Form::of(
        scope.alloc,
        vec![in scope.alloc; Kind::Enumerated.number() as usize]?,
    );
    for (name, number) in enumerated_numbers(scope, items, root)?.iter() {
        let number = *number;
        let name = String::from_str(scope.alloc, scope.text(*name))?;
        form.values.push(ValueName { number, name })?;
    }
    Ok(form)
}

/// The form of a type without parts. Refused where it is none, or has a size that no word of a table is.
pub fn leaf_form<'m>(scope: Scope<'m, '_>, of: &'m Type) -> Result<Form, Refusal>
    ensures { IfOk result (λ form. (body : Body) × AreLeafWords body form.range form.size form.words.items) }
{
    let chain = scope.chain_of(of)?;
    let base = chain.last().copied().unwrap_or(of);
    let mut form = base_form(scope, of, chain.as_slice(), base)?;
    form.values = named_values(scope, names_of(base))?;
    Ok(form)
}

/// The form of a type by the one that it stands for, at the end of a chain of names.
fn base_form<'m>(
    scope: Scope<'m, '_>,
    of: &'m Type,
    chain: &[&'m Type],
    base: &'m Type,
) -> Result<Form, Refusal>
    ensures { IfOk result (λ form. AreLeafWords base.now.body form.range form.size form.words.items) }
{
    match &base.body {
        Body::Integer(_) => {
            let limits = limits_of(scope, chain, names_of(base), Purpose::Value)?;
            Ok(integer_form(scope.alloc, limits)?)
        }
        Body::BitString(names) => {
            let limits = limits_of(scope, chain, &[], Purpose::Size)?;
            bits_form(scope, of, limits, !names.is_empty())
        }
        Body::Simple(simple) => match unit_of(*simple) {
            Some(unit) => {
                let limits = limits_of(scope, chain, &[], Purpose::Size)?;
                string_form(scope, of, string_kind(*simple), unit, limits)
            }
            None => Ok(sizeless_form(scope.alloc, *simple)?),
        },
        Body::Enumerated(_, _) | Body::Reference(_) | Body::Choice(_) | Body::Sequence(_) => {
            Err(scope.refused(of.first, NO_PARTS))
        }
        Body::Set(_) | Body::SequenceOf(_) | Body::SetOf(_) => {
            Err(scope.refused(of.first, NO_PARTS))
        }
    }
}

/// What can be read where a type has parts.
const NO_PARTS: &str = "a type without parts, or of at most 64 lists inside one another";
