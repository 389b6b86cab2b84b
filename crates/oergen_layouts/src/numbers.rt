//! The values that names and literals stand for.
ghost use Rattle.std.specs.Prelude.{◌≡◌, ◌≢◌, ℤ, List, true, false, IfErr, IfOk, IfSome, IsNone, OnErr, is_some, length, map, take};
ghost use Rattle.std.specs.List.{All, AllPairs, AllZip, filter_map};
ghost use Rattle.std.specs.Option.{SomeIff};
ghost use Rattle.std.specs.Result.{OkIff};
ghost use Rattle.oergen_parse.specs.declared.refusal.Refusal.TheVariants.{OutOfMemory};
ghost use Rattle.oergen_layouts.specs.Enumerations.{AreAllowed, AreNumbered, AreNumbersOf, AreTakenFrom, IsAsWritten, IsDigits, IsGiven, IsLeastFree, IsSetOf, bound_of, next_behind, number_behind};
ghost use Rattle.oergen_layouts.specs.Numbers.{IsI128, are_digits, is_name, number_of_digits, own_number};

use crate::scope::Scope;
use oergen_parse::ast::{Body, Numbered, Reference, Type, Value};
use oergen_parse::lexer::{Kind, TokenId};
use oergen_parse::refusal::Refusal;
use std::alloc::{AllocError, Global};
use std::collections::{BTreeMap, BTreeSet};

/// How many names may stand for one another in a row.
const MAX_CHAIN: usize = 64;

/// What can be read where names lead back to themselves.
const NAMED: &str = "a value that isn't a name of itself, or behind 64 names";

/// What can be read where a number is past i128.
const NUMBER: &str = "a number of at most 128 bits, with its sign";

/// A value, and the names that its type gives to numbers: none where it has no such names.
#[derive(Clone, Copy)]
pub struct Spot<'m> {
    pub value: &'m Value,
    pub names: &'m [Numbered],
}

/// The names that the type at the end of a chain gives to numbers.
pub fn names_of<'m>(base: &'m Type) -> &'m [Numbered] {
    match &base.body {
        Body::Integer(names) | Body::Enumerated(names, _) | Body::BitString(names) => {
            names.as_slice()
        }
        Body::Simple(_) | Body::Reference(_) | Body::Choice(_) => &[],
        Body::Sequence(_) | Body::Set(_) | Body::SequenceOf(_) | Body::SetOf(_) => &[],
    }
}

/// The one among a type's names for numbers that has the text of a name.
pub fn named<'m>(
    scope: Scope<'m, '_>,
    names: &'m [Numbered],
    name: TokenId,
) -> Option<&'m Numbered> {
    let text = scope.text(name);
    for item in names.iter() {
        if scope.text(item.name) == text {
            return Some(item);
        }
    }
    None
}

/// The value that a type's name for a number is written with.
fn named_value<'m>(
    scope: Scope<'m, '_>,
    names: &'m [Numbered],
    name: TokenId,
) -> Option<&'m Value> {
    named(scope, names, name)?.number.as_ref()
}

/// What a name stands for: a number of its type, or a value that is assigned; nothing where the value isn't a name.
fn next_spot<'m>(scope: Scope<'m, '_>, spot: Spot<'m>) -> Result<Option<Spot<'m>>, Refusal>
    ensures { is_name spot.entry.value.now ≡ false → result ≡ Ok None }
{
    let Value::Reference(reference) = spot.value else {
        return Ok(None);
    };
    if let Some(value) = named_value(scope, spot.names, reference.name) {
        return Ok(Some(Spot { value, names: &[] }));
    }
    Ok(Some(assigned_spot(scope, *reference)?))
}

/// The enumerated value that a value is, by the name that its type gives it; nothing where it is none of that type, whose names are
/// those of `start`.
pub fn enumerated_of<'m>(
    scope: Scope<'m, '_>,
    start: Spot<'m>,
) -> Result<Option<TokenId>, Refusal> {
    let mut spot = start;
    for _ in 0..MAX_CHAIN {
        let Value::Reference(reference) = spot.value else {
            return Ok(None);
        };
        if let Some(item) = named(scope, spot.names, reference.name) {
            return Ok(if are_same(spot.names, start.names) {
                Some(item.name)
            } else {
                None
            });
        }
        spot = assigned_spot(scope, *reference)?;
    }
    Err(scope.refused(first_of(start.value), NAMED))
}

/// Whether names are those of one type: whether they begin with one token.
fn are_same(names: &[Numbered], others: &[Numbered]) -> bool {
    match (names.first(), others.first()) {
        (Some(name), Some(other)) => name.name.index == other.name.index,
        (None, None) => true,
        (Some(_), None) | (None, Some(_)) => false,
    }
}

/// The value that is assigned to a name, with the names of its type.
fn assigned_spot<'m>(scope: Scope<'m, '_>, reference: Reference) -> Result<Spot<'m>, Refusal> {
    let assigned = scope.find_value(reference)?;
    let base = scope.base_of(&assigned.of)?;
    Ok(Spot {
        value: &assigned.value,
        names: names_of(base),
    })
}

/// The value that is no name, at the end of the names.
pub fn settled<'m>(scope: Scope<'m, '_>, start: Spot<'m>) -> Result<Spot<'m>, Refusal>
    ensures { is_name start.entry.value.now ≡ false → result ≡ Ok start.entry }
{
    let mut spot = start;
    for _ in 0..MAX_CHAIN {
        match next_spot(scope, spot)? {
            Some(next) => spot = next,
            None => return Ok(spot),
        }
    }
    Err(scope.refused(first_of(start.value), NAMED))
}

/// The first token of a value; of names between braces the first of them.
pub fn first_of(value: &Value) -> TokenId {
    match value {
        Value::Literal(token) | Value::Negative(token) | Value::Braces(token) => *token,
        Value::Reference(reference) => reference.name,
        Value::Names(open, _) => *open,
    }
}

/// The number of digits; nothing past i128.
fn digits(text: &str, is_negative: bool) -> Option<i128>
    ensures { are_digits text.now ≡ true → SomeIff result (IsI128 (number_of_digits is_negative text.now)) (number_of_digits is_negative text.now) }
{
    let number = text.parse::<u128>().ok()?;
    match number.checked_sub(1) {
        Some(less) if is_negative => Some(-1 - i128::try_from(less).ok()?),
        _ => i128::try_from(number).ok(),
    }
}

/// The number that a value is.
pub fn number_of<'m>(scope: Scope<'m, '_>, spot: Spot<'m>) -> Result<i128, Refusal>
    ensures { IfSome (own_number scope.entry.tokens.now spot.entry.value.now) (λ number. OkIff result (IsI128 number) number) }
{
    let end = settled(scope, spot)?;
    let number = match end.value {
        Value::Literal(id) if scope.token(*id).kind == Kind::Number => {
            digits(scope.text(*id), false)
        }
        Value::Negative(id) => digits(scope.text(*id), true),
        other => return Err(scope.refused(first_of(other), "a number")),
    };
    match number {
        Some(number) => Ok(number),
        None => Err(scope.refused(first_of(end.value), NUMBER)),
    }
}

/// The numbers that are written behind the names of an ENUMERATED, as they are read; none where none is written.
fn written_numbers<'m>(
    scope: Scope<'m, '_>,
    items: &'m [Numbered],
) -> Result<Vec<Option<i128>>, Refusal>
    ensures named { IfOk result (λ all. map is_some all.items ≡ map (λ item. is_some item.number) items.now) }
    ensures as_written { IfOk result (λ all. AllZip (IsAsWritten scope.entry.tokens.now) items.now all.items) }
    ensures digits { All (IsDigits scope.entry.tokens.now) items.now → IfErr result (λ e. e ≡ OutOfMemory) }
    ensures numbers { All (IsDigits scope.entry.tokens.now) items.now → IfOk result (λ all. all.items ≡ map (number_behind scope.entry.tokens.now) items.now) }
{
    let mut all = Vec::new(scope.alloc);
    for item in items.iter() {
        all.push(written_number(scope, item)?)?;
    }
    Ok(all)
}

/// The numbers that are written in the root of an ENUMERATED.
fn taken_numbers(
    alloc: Global,
    written: &[Option<i128>],
    root: usize,
) -> Result<BTreeSet<i128>, AllocError>
    ensures { IfOk result (IsSetOf (filter_map (λ own. own) (take root written.now))) }
{
    written
        .iter()
        .take(root)
        .filter_map(|own| *own)
        .collect(alloc)
}

/// The number of a value: the one that is written, else the least from `next` on that isn't taken; nothing past i128.
fn given_number(own: Option<i128>, taken: &BTreeSet<i128>, next: Option<i128>) -> Option<i128>
    ensures given { (numbers : List ℤ) → IsSetOf numbers taken.now → IfSome result (IsGiven numbers (bound_of next) own) }
    ensures none { (numbers : List ℤ) → IsSetOf numbers taken.now → IsNone result → (own ≡ None) × AreTakenFrom numbers (bound_of next) }
{
    match own {
        Some(number) => Some(number),
        None => free_number(taken, next?),
    }
}

/// From which one on the next number is given, nothing past i128: behind a value of the root whose number is written that stays as it
/// was. So many values of the root are left.
fn next_behind(left: usize, next: Option<i128>, own: Option<i128>, number: i128) -> Option<i128>
    ensures { bound_of result ≡ next_behind left (bound_of next) own number }
{
    if own.is_some() && left > 0 {
        next
    } else {
        number.checked_add(1)
    }
}

/// The numbers of an ENUMERATED's values by those that are written: where none is, the least that the root leaves free, behind those
/// that were given before (X.680, 20.3 to 20.6).
fn given_numbers<'m>(
    scope: Scope<'m, '_>,
    items: &'m [Numbered],
    written: &[Option<i128>],
    root: usize,
) -> Result<Vec<i128>, Refusal>
    requires { length items.now ≡ length written.now }
    ensures numbers { IfOk result (λ all. AreNumbered root written.now all.items) }
    ensures each { IfOk result (λ all. length all.items ≡ length written.now) }
    ensures refused { (numbers : List ℤ) → AreNumbered root written.now numbers → All IsI128 numbers → IfErr result (λ e. e ≡ OutOfMemory) }
    ensures only { (numbers : List ℤ) → AreNumbered root written.now numbers → All IsI128 numbers → IfOk result (λ all. all.items ≡ numbers) }
{
    let taken = taken_numbers(scope.alloc, written, root)?;
    let mut all = Vec::new(scope.alloc);
    let mut next = Some(0i128);
    for (at, own) in written.iter().enumerate() {
        let Some(number) = given_number(*own, &taken, next) else {
            return Err(scope.refused(items[at].name, NUMBER));
        };
        next = next_behind(root.saturating_sub(at), next, *own, number);
        all.push(number)?;
    }
    Ok(all)
}

/// Names with their numbers. Refused where two numbers are the same.
fn named_numbers<'m>(
    scope: Scope<'m, '_>,
    items: &'m [Numbered],
    numbers: &[i128],
) -> Result<Vec<(TokenId, i128)>, Refusal>
    requires { length items.now ≡ length numbers.now }
    ensures names { IfOk result (λ all. map (λ one. one.0) all.items ≡ map (λ item. item.name) items.now) }
    ensures numbers { IfOk result (λ all. map (λ one. one.1) all.items ≡ numbers.now) }
    ensures distinct { IfOk result (λ all. AllPairs (λ a b. a ≢ b) (map (λ one. one.1) all.items)) }
    ensures fits { IfOk result (λ all. All IsI128 (map (λ one. one.1) all.items)) }
    ensures refused { AllPairs (λ a b. a ≢ b) numbers.now → IfErr result (λ e. e ≡ OutOfMemory) }
{
    let mut seen: BTreeMap<i128, TokenId> = BTreeMap::new(scope.alloc);
    let mut all = Vec::new(scope.alloc);
    for (at, number) in numbers.iter().enumerate() {
        let name = items[at].name;
        if let Some(other) = seen.insert(*number, name)? {
            return Err(same_number(scope, name, other, *number));
        }
        all.push((name, *number))?;
    }
    Ok(all)
}

/// The numbers of an ENUMERATED's values, each with its name: where none is written, the least that the root leaves free, behind
/// those that were given before (X.680, 20.3 to 20.6). Refused where two are the same, or one is past i128.
pub fn enumerated_numbers<'m>(
    scope: Scope<'m, '_>,
    items: &'m [Numbered],
    root: usize,
) -> Result<Vec<(TokenId, i128)>, Refusal>
    ensures names { IfOk result (λ all. map (λ one. one.0) all.items ≡ map (λ item. item.name) items.now) }
    ensures numbers { IfOk result (λ all. AreNumbersOf scope.entry.tokens.now items.now root (map (λ one. one.1) all.items)) }
    ensures distinct { IfOk result (λ all. AllPairs (λ a b. a ≢ b) (map (λ one. one.1) all.items)) }
    ensures fits { IfOk result (λ all. All IsI128 (map (λ one. one.1) all.items)) }
    ensures refused { (numbers : List ℤ) → AreAllowed scope.entry.tokens.now items.now root numbers → IfErr result (λ e. e ≡ OutOfMemory) }
{
    let written = written_numbers(scope, items)?;
    let numbers = given_numbers(scope, items, written.as_slice(), root)?;
    named_numbers(scope, items, numbers.as_slice())
}

/// The refusal of a name of an ENUMERATED that has another's number.
fn same_number(scope: Scope<'_, '_>, own: TokenId, other: TokenId, number: i128) -> Refusal {
    const READS: &str = "a name whose number no other name has";
    let names = (scope.text(own), scope.text(other));
    match format!(in scope.alloc; "{number}") {
        Ok(number) => scope.refused_beside(own, READS, names, number.as_str()),
        Err(_) => Refusal::OutOfMemory,
    }
}

/// The number that is written behind a name of an ENUMERATED.
fn written_number<'m>(scope: Scope<'m, '_>, item: &'m Numbered) -> Result<Option<i128>, Refusal>
    ensures named { IfOk result (λ own. is_some own ≡ is_some item.now.number) }
    ensures as_written { IfOk result (IsAsWritten scope.entry.tokens.now item.now) }
    ensures digits { IsDigits scope.entry.tokens.now item.now → OnErr result ⊥ }
{
    match &item.number {
        Some(value) => Ok(Some(number_of(scope, Spot { value, names: &[] })?)),
        None => Ok(None),
    }
}

/// The least number from `next` on that isn't taken; nothing where all of them are.
fn free_number(taken: &BTreeSet<i128>, next: i128) -> Option<i128>
    ensures free { (numbers : List ℤ) → IsSetOf numbers taken.now → IfSome result (IsLeastFree numbers next) }
    ensures none { (numbers : List ℤ) → IsSetOf numbers taken.now → IsNone result → AreTakenFrom numbers next }
{
    for number in next..=i128::MAX {
        if !taken.contains(&number) {
            return Some(number);
        }
    }
    None
}
