//! The values of defaults in JSON (X.697).
ghost use Rattle.std.specs.Prelude.{◌≡◌, IfOk, string_bytes};
ghost use Rattle.asn1_core.specs.Octets.{pack};
ghost use Rattle.hex.specs.Hex.{encode_upper};

use crate::leaves::named_number;
use oergen_layouts::bits::{drop_zeros, fill_up, literal_bits, packed};
use oergen_layouts::definitions::{free_name, rows_in};
use oergen_layouts::names::component_name;
use oergen_layouts::numbers::{Spot, first_of, named, names_of, settled};
use oergen_layouts::parts::{alternative_of, components_of, require_components, row_named};
use oergen_layouts::rows::Row;
use oergen_layouts::scope::Scope;
use oergen_layouts::values::{default_of, has_parts};
use oergen_layouts::visible::{Limits, Purpose, limits_of};
use oergen_parse::ast::{Body, NamedValue, Need, Numbered, Simple, Type, Value};
use oergen_parse::lexer::TokenId;
use oergen_parse::refusal::Refusal;
use std::alloc::{AllocError, Global};
use std::collections::BTreeMap;

/// How many values may stand in one another.
const MAX_LEVELS: u32 = 64;

/// What can be read where a part isn't.
const PART: &str =
    "a default that is no OBJECT IDENTIFIER, of no open type and no choice without a tag, and whose lists are empty: of others there is no table yet";

/// The most bits of a default that is filled up.
const MAX_BITS: i128 = 65536;

/// A text between quotation marks, as JSON has it.
fn quoted(alloc: Global, text: &str) -> Result<String, AllocError> {
    let mut out = String::from_str(alloc, "\"")?;
    for character in text.chars() {
        match character {
            '"' => out.push_str("\\\"")?,
            '\\' => out.push_str("\\\\")?,
            _ if u32::from(character) < 32 => {
                let code = u32::from(character);
                out.push_str(format!(in alloc; "\\u{code:04x}")?.as_str())?;
            }
            _ => out.push(character)?,
        }
    }
    out.push('"')?;
    Ok(out)
}

/// A text as it stands in a module, with its quotation marks, of which two within stand for one (X.680, 12.14): in JSON. Nothing of a text
/// of several lines.
fn json_of_text(alloc: Global, text: &str) -> Result<Option<String>, AllocError> {
    if text.contains('\n') {
        return Ok(None);
    }
    let inside = text.strip_prefix('"').unwrap_or(text);
    let inside = inside.strip_suffix('"').unwrap_or(inside);
    let mut own = String::new(alloc);
    let mut is_second = false;
    for character in inside.chars() {
        is_second = character == '"' && !is_second;
        if !is_second {
            own.push(character)?;
        }
    }
    Ok(Some(quoted(alloc, own.as_str())?))
}

/// A word in small letters.
fn small(alloc: Global, text: &str) -> Result<String, AllocError> {
    text.chars().map(|c| c.to_ascii_lowercase()).collect(alloc)
}

/// The numbers of named bits.
fn bit_numbers<'m>(
    scope: Scope<'m, '_>,
    names: &'m [Numbered],
    bits: &[TokenId],
) -> Result<Vec<i128>, AllocError> {
    let mut numbers = Vec::new(scope.alloc);
    for bit in bits.iter() {
        if let Some(item) = named(scope, names, *bit) {
            numbers.push(named_number(scope, item)?.unwrap_or(MAX_BITS))?;
        }
    }
    Ok(numbers)
}

/// How many bits there are up to the last with one of these numbers.
fn count_of(numbers: &[i128]) -> i128 {
    let mut count = 0i128;
    for number in numbers.iter() {
        count = count.max(number.saturating_add(1));
    }
    count
}

/// The bits up to the last with one of these numbers, of which those are set; nothing past the most bits.
fn numbered_bits(alloc: Global, numbers: &[i128]) -> Result<Option<Vec<bool>>, AllocError> {
    let count = count_of(numbers);
    if count > MAX_BITS {
        return Ok(None);
    }
    let mut bits = Vec::new(alloc);
    for number in 0..count {
        bits.push(numbers.contains(&number))?;
    }
    Ok(Some(bits))
}

/// Bits in whole octets, filled up with zero bits, in hexadecimal.
fn digits_of(alloc: Global, bits: &[bool]) -> Result<String, AllocError>
    ensures { IfOk result (λ digits. string_bytes digits ≡ encode_upper (pack bits.now)) }
{
    hex::encode_upper(alloc, packed(alloc, bits)?)
}

/// The bits of a BIT STRING's default as they are written, of named ones up to the last; nothing of more than a default has.
fn written_bits<'m>(
    scope: Scope<'m, '_>,
    names: &'m [Numbered],
    value: &'m Value,
) -> Result<Option<Vec<bool>>, Refusal> {
    match settled(scope, Spot { value, names })?.value {
        Value::Literal(id) => Ok(Some(literal_bits(scope.alloc, scope.token(*id))?)),
        Value::Names(_, named) => {
            let numbers = bit_numbers(scope, names, named.as_slice())?;
            Ok(numbered_bits(scope.alloc, numbers.as_slice())?)
        }
        Value::Negative(_) | Value::Reference(_) | Value::Braces(_) => Ok(None),
    }
}

/// The least size that a default is filled up to: none of a constraint with an extension mark.
fn least_size(limits: Limits) -> i128 {
    if limits.is_extensible {
        0
    } else {
        limits.low.unwrap_or(0)
    }
}

/// The bits of a BIT STRING's default. Where they have names, the zero bits at the end are those that its size wants (X.680, 22.7, and
/// X.696, 13.3). Nothing of a size that no default is filled up to.
fn bits_of<'m>(
    scope: Scope<'m, '_>,
    names: &'m [Numbered],
    value: &'m Value,
    limits: Limits,
) -> Result<Option<Vec<bool>>, Refusal> {
    let Some(mut bits) = written_bits(scope, names, value)? else {
        return Ok(None);
    };
    if names.is_empty() {
        return Ok(Some(bits));
    }
    if limits.fixed().is_none() {
        drop_zeros(&mut bits);
    }
    let least = least_size(limits);
    if least > MAX_BITS {
        return Ok(None);
    }
    fill_up(&mut bits, usize::try_from(least).unwrap_or(0))?;
    Ok(Some(bits))
}

/// A BIT STRING's default in JSON: with its length where the type has no fixed size.
fn json_of_bits<'m>(
    scope: Scope<'m, '_>,
    of: &'m Type,
    names: &'m [Numbered],
    value: &'m Value,
) -> Result<Option<String>, Refusal> {
    let alloc = scope.alloc;
    let chain = scope.chain_of(of)?;
    let limits = limits_of(scope, chain.as_slice(), &[], Purpose::Size)?;
    let Some(bits) = bits_of(scope, names, value, limits)? else {
        return Ok(None);
    };
    let digits = digits_of(alloc, bits.as_slice())?;
    let digits = digits.as_str();
    if limits.fixed().is_some() {
        return Ok(Some(quoted(alloc, digits)?));
    }
    let count = bits.len();
    Ok(Some(format!(in alloc; "{{\"value\": \"{digits}\", \"length\": {count}}}")?))
}

/// The octets of an OCTET STRING's default in JSON.
fn json_of_octets<'m>(scope: Scope<'m, '_>, value: &'m Value) -> Result<Option<String>, Refusal> {
    match settled(scope, Spot { value, names: &[] })?.value {
        Value::Literal(id) => {
            let bits = literal_bits(scope.alloc, scope.token(*id))?;
            let digits = digits_of(scope.alloc, bits.as_slice())?;
            Ok(Some(quoted(scope.alloc, digits.as_str())?))
        }
        Value::Negative(_) | Value::Reference(_) => Ok(None),
        Value::Names(_, _) | Value::Braces(_) => Ok(None),
    }
}

/// The name in the table of a component or an alternative among others, which `Builder` gives their fields too.
fn name_in(scope: Scope<'_, '_>, rows: &[Row<'_>], row: Row<'_>) -> Result<String, AllocError> {
    let alloc = scope.alloc;
    let mut names = BTreeMap::new(alloc);
    let mut name = String::new(alloc);
    for one in rows.iter() {
        let wanted = component_name(alloc, scope.text(one.name))?;
        name = free_name(alloc, &mut names, wanted.as_str())?;
        if one.name.index == row.name.index {
            break;
        }
    }
    Ok(name)
}

/// The values of named parts in JSON, by the components or the alternatives that they are of; nothing where one has no such text.
#[cycle(values)]
fn json_of_parts<'m>(
    scope: Scope<'m, '_>,
    rows: &[Row<'m>],
    values: &[&'m NamedValue],
    levels: u32,
) -> Result<Option<String>, Refusal> {
    let alloc = scope.alloc;
    let mut text = String::from_str(alloc, "{")?;
    for (at, it) in values.iter().enumerate() {
        let row = match row_named(scope, rows, it.name) {
            Some(row) if row.tag.is_some() => row,
            _ => return Err(scope.refused(it.name, PART)),
        };
        let Some(value) = json_of(scope, row, &it.value, levels)? else {
            return Ok(None);
        };
        let between = if at == 0 { "" } else { ", " };
        let name = name_in(scope, rows, row)?;
        text.push_str(format!(in alloc; "{between}\"{name}\": {value}")?.as_str())?;
    }
    text.push('}')?;
    Ok(Some(text))
}

/// A value of a SEQUENCE, a SET or a CHOICE in JSON; nothing where a part has no such text.
#[cycle(values)]
fn json_of_structure<'m>(
    scope: Scope<'m, '_>,
    base: &'m Type,
    value: &'m Value,
    levels: u32,
) -> Result<Option<String>, Refusal> {
    let first = first_of(value);
    let Some(levels) = levels.checked_sub(1) else {
        return Err(scope.refused(first, PART));
    };
    let rows = rows_in(scope, base)?;
    let rows = rows.as_slice();
    if matches!(base.body, Body::Choice(_)) {
        let alternative = alternative_of(scope, value)?;
        return json_of_parts(scope, rows, &[alternative], levels);
    }
    let values = components_of(scope, value)?;
    let values = values.as_slice();
    require_components(scope, rows, values, first)?;
    json_of_parts(scope, rows, values, levels)
}

/// A value of a component in JSON; nothing where it is a text of several lines. Refused where it has parts that aren't read.
#[cycle(values)]
fn json_of<'m>(
    scope: Scope<'m, '_>,
    row: Row<'m>,
    value: &'m Value,
    levels: u32,
) -> Result<Option<String>, Refusal> {
    let text = default_of(scope, row, value)?;
    let base = scope.base_of(row.of)?;
    if matches!(
        base.body,
        Body::Sequence(_) | Body::Set(_) | Body::Choice(_)
    ) {
        let spot = settled(scope, Spot { value, names: &[] })?;
        return json_of_structure(scope, base, spot.value, levels);
    }
    if has_parts(scope, row, value)? {
        return Err(scope.refused(first_of(value), PART));
    }
    json_of_leaf(scope, row, base, value, text.as_str())
}

/// A value without parts in JSON, by its text in a module; nothing where it is a text of several lines.
fn json_of_leaf<'m>(
    scope: Scope<'m, '_>,
    row: Row<'m>,
    base: &'m Type,
    value: &'m Value,
    text: &str,
) -> Result<Option<String>, Refusal> {
    let alloc = scope.alloc;
    match &base.body {
        Body::Integer(_) => Ok(Some(String::from_str(alloc, text)?)),
        Body::Enumerated(_, _) => Ok(Some(quoted(alloc, text)?)),
        Body::BitString(names) => json_of_bits(scope, row.of, names.as_slice(), value),
        Body::Simple(Simple::Boolean | Simple::Null) => Ok(Some(small(alloc, text)?)),
        Body::Simple(Simple::OctetString) => json_of_octets(scope, value),
        Body::Simple(_) => Ok(json_of_text(alloc, text)?),
        Body::SequenceOf(_) | Body::SetOf(_) => Ok(Some(String::from_str(alloc, "[]")?)),
        Body::Sequence(_) | Body::Set(_) | Body::Choice(_) | Body::Reference(_) => Ok(None),
    }
}

/// A component's default in JSON; nothing where it has none, or a text of several lines. Refused where it has parts that aren't read.
pub fn default_text<'m>(scope: Scope<'m, '_>, row: Row<'m>) -> Result<Option<String>, Refusal> {
    match row.need {
        Need::Default(value) => json_of(scope, row, value, MAX_LEVELS),
        Need::Required | Need::Optional => Ok(None),
    }
}
