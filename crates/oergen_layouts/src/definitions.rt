//! The Rust types that modules give: one for each assignment, and one for each type with parts that is written inside another.
ghost use Rattle.std.specs.Prelude.{◌≡◌, ◌++◌, ◌<◌, ◌≤◌, ◌^◌, ◌&&◌, ◌||◌, ◌⊎◌, IfErr, IfOk, List, MatchResult, None, OnOk, [], false, true, is_some, length, map, nat_lt, take};
ghost use Rattle.std.specs.List.{flat_map};
ghost use Rattle.oergen_parse.specs.declared.ast.Member.{Member};
ghost use Rattle.oergen_parse.specs.declared.refusal.Refusal.TheVariants.{OutOfMemory};
ghost use Rattle.oergen_layouts.specs.Rows.{AreRowsOf};
ghost use Rattle.oergen_layouts.specs.Tags.{AreMembers, has_members};
ghost use Rattle.oergen_layouts.specs.Definitions.{AreDefined, AreParts, HasMany, IsDefined, LeadsTo, assigned, assigned_by, defined, has_parts, inside, inside_by, peeled, waits};

use crate::names::{component_name, push_type_name, type_name};
use crate::rows::{Row, rows_of, untagged_rows};
use crate::scope::Scope;
use oergen_parse::ast::{Body, Reference, Type, TypeAssignment};
use oergen_parse::lexer::TokenId;
use oergen_parse::refusal::Refusal;
use std::alloc::{AllocError, Global};
use std::collections::BTreeMap;

/// How many lists may stand inside one another.
const MAX_LISTS: usize = 64;

/// How many types there may be.
const MAX_DEFINITIONS: usize = 1000000;

/// A cycle of types that contain one another.
#[derive(Clone, Copy)]
pub struct Cycle {
    /// No other cycle has it.
    pub number: usize,
    /// The place of its knot, the type that it is cut at: without it none of the others contains itself. Nothing where there is none.
    pub knot: Option<usize>,
}

/// How a part leads back into the cycle of the type that has it.
#[derive(Clone, Copy, PartialEq, Eq)]
pub enum Tie {
    /// It doesn't.
    Plain,
    /// To the knot.
    Knot,
    /// To another type, by its place, past names.
    Member(usize),
}

/// What a type has: a component, an alternative, an element, or what it is a name of.
#[derive(Drop)]
pub struct Part<'m> {
    /// Its row, where it is a component or an alternative.
    pub row: Option<Row<'m>>,
    /// Its name in ASN.1: behind those of the choices without a tag that it stands in.
    pub name: String,
    pub rust_name: String,
    /// How many lists are around the type below.
    pub lists: usize,
    /// The type, without lists.
    pub inner: &'m Type,
    /// The place of its definition, where it has one.
    pub target: Option<usize>,
    /// `Plain` until cycles are found.
    pub tie: Tie,
    /// Whether its Rust type is held in a box, so that the type that has it reaches fewer fields.
    pub is_held: bool,
}

/// A Rust type.
#[derive(Drop)]
pub struct Definition<'m> {
    pub rust_name: String,
    /// The module of the assignment that it is, or stands in, by its number.
    pub module: usize,
    pub of: &'m Type,
    pub parts: Vec<Part<'m>>,
    /// Whether it has an extension mark: false until `untagged` says it.
    pub is_extensible: bool,
    /// The cycle that it is of: nothing where it isn't, and until cycles are found.
    pub cycle: Option<Cycle>,
    /// Whether its Rust type keeps what newer versions of it have.
    pub keeps_unknown: bool,
    /// Why it can't be resolved: then it has no parts. Nothing where it can.
    pub fault: Option<Refusal>,
}

/// A type that waits to be defined.
#[derive(Drop)]
struct Pending<'m> {
    rust_name: String,
    /// Its name in the module, where it is an assignment.
    named: Option<TokenId>,
    module: usize,
    of: &'m Type,
}

impl<'m> Pending<'m> {
    fn copied(&self) -> Result<Pending<'m>, AllocError>
        ensures { IfOk result (λ one. waits one ≡ waits self.now) }
    {
        Ok(Pending {
            rust_name: self.rust_name.clone()?,
            named: self.named,
            module: self.module,
            of: self.of,
        })
    }
}

/// A type without the lists around it, and how many these are.
fn peeled<'m>(start: &'m Type) -> (usize, &'m Type)
    ensures { peeled 64 start.now ≡ (result.0, result.1.now) }
{
    let mut of = start;
    let mut lists = 0usize;
    for _ in 0..MAX_LISTS {
        let Some((element, _)) = of.body.list() else {
            break;
        };
        of = element;
        lists = lists.saturating_add(1);
    }
    (lists, of)
}

/// Whether a type needs a Rust type of its own.
fn has_parts(of: &Type) -> bool
    ensures { result ≡ has_parts of.now.body }
{
    match &of.body {
        Body::Sequence(_) | Body::Set(_) | Body::Choice(_) | Body::Enumerated(_, _) => true,
        Body::Simple(_) | Body::Integer(_) | Body::BitString(_) | Body::Reference(_) => false,
        Body::SequenceOf(_) | Body::SetOf(_) => false,
    }
}

/// Whether a part's type is written inside the type that has the part, and needs a Rust type of its own.
fn is_inside(inner: &Type, lists: usize, row: Option<Row<'_>>) -> bool
    ensures { result ≡ (has_parts inner.now.body && (nat_lt 0 lists || is_some row.entry)) }
{
    has_parts(inner) && (lists != 0 || row.is_some())
}

/// A part, by the type where it is written. A type with parts inside it gets the name of the type around it and its own.
fn make_part<'m>(
    scope: Scope<'m, '_>,
    pending: &mut Vec<Pending<'m>>,
    parent: (&str, usize),
    row: Option<Row<'m>>,
    whole: &'m Type,
) -> Result<Part<'m>, Refusal>
    ensures keeps { take (length pending.old.items) pending.new.items ≡ pending.old.items }
    ensures row { IfOk result (λ part. part.row ≡ row.entry) }
    ensures waits { IfOk result (λ part. map waits pending.new.items ≡ map waits pending.old.items ++ inside_by parent.entry.1 part) }
    ensures peeled { IfOk result (λ part. peeled 64 whole.now ≡ (part.lists, part.inner.now)) }
    ensures leads { length (assigned scope.entry.modules.now) < 2 ^ 64 → IfOk result (λ part. LeadsTo (length (assigned scope.entry.modules.now)) (map waits pending.new.items) parent.entry.1 part) }
{
    let (lists, inner) = peeled(whole);
    let name = match row {
        Some(row) => scope.text(row.name),
        None => "item",
    };
    let rust_name = component_name(scope.alloc, name)?;
    let mut target = None;
    if let Body::Reference(reference) = &inner.body {
        target = Some(scope.find_type(*reference)?.index);
    } else if is_inside(inner, lists, row) {
        let (parent, module) = parent;
        let mut own = String::from_str(scope.alloc, parent)?;
        push_type_name(&mut own, name)?;
        target = Some(pending.len());
        pending.push(Pending {
            rust_name: own,
            named: None,
            module,
            of: inner,
        })?;
    }
    Ok(Part {
        row,
        name: String::from_str(scope.alloc, name)?,
        rust_name,
        lists,
        inner,
        target,
        tie: Tie::Plain,
        is_held: false,
    })
}

/// The components or alternatives of a type, a CHOICE without a tag among them without one; none of another.
pub fn rows_in<'m>(scope: Scope<'m, '_>, of: &'m Type) -> Result<Vec<Row<'m>>, Refusal>
    ensures rows { IfOk result (λ rows. (members : List Member) → AreMembers of.now.body members → AreRowsOf members rows.items) }
    ensures others { has_members of.now.body ≡ false → IfOk result (λ rows. rows.items ≡ []) }
{
    match untagged_rows(scope, of)? {
        Some(rows) => Ok(rows),
        None => rows_of(scope, of),
    }
}

/// What a type has: its components or alternatives, or the type itself.
fn parts_of<'m>(
    scope: Scope<'m, '_>,
    pending: &mut Vec<Pending<'m>>,
    parent: (&str, usize),
    of: &'m Type,
) -> Result<Vec<Part<'m>>, Refusal>
    ensures keeps { take (length pending.old.items) pending.new.items ≡ pending.old.items }
    ensures waits { IfOk result (λ parts. map waits pending.new.items ≡ map waits pending.old.items ++ flat_map (inside_by parent.entry.1) parts.items) }
    ensures parts { length (assigned scope.entry.modules.now) < 2 ^ 64 → IfOk result (λ parts. AreParts (length (assigned scope.entry.modules.now)) (map waits pending.new.items) parent.entry.1 of.now parts.items) }
{
    let mut parts = Vec::new(scope.alloc);
    if !has_parts(of) {
        parts.push(make_part(scope, pending, parent, None, of)?)?;
        return Ok(parts);
    }
    let rows = rows_in(scope, of)?;
    for row in rows.iter() {
        parts.push(make_part(scope, pending, parent, Some(*row), row.of)?)?;
    }
    Ok(parts)
}

/// The assignments of all modules, in the order of their text.
fn assignments<'m>(scope: Scope<'m, '_>) -> Result<Vec<Pending<'m>>, Refusal>
    ensures { MatchResult result (λ all. map waits all.items ≡ assigned scope.entry.modules.now) (λ e. e ≡ OutOfMemory) }
{
    let mut all = Vec::new(scope.alloc);
    for (module, one) in scope.modules.iter().enumerate() {
        push_assignments(scope, module, one.types.as_slice(), &mut all)?;
    }
    Ok(all)
}

/// The assignments of a module.
fn push_assignments<'m>(
    scope: Scope<'m, '_>,
    module: usize,
    types: &'m [TypeAssignment],
    all: &mut Vec<Pending<'m>>,
) -> Result<(), Refusal>
    ensures { MatchResult result (λ _. map waits all.new.items ≡ map waits all.old.items ++ assigned_by «module» types.now) (λ e. e ≡ OutOfMemory) }
{
    for one in types.iter() {
        all.push(Pending {
            rust_name: type_name(scope.alloc, scope.text(one.name))?,
            named: Some(one.name),
            module,
            of: &one.of,
        })?;
    }
    Ok(())
}

/// The Rust names of assignments, each with its module: nothing where several modules have it.
fn homes_of(
    alloc: Global,
    all: &[Pending<'_>],
) -> Result<BTreeMap<String, Option<usize>>, AllocError> {
    let mut homes: BTreeMap<String, Option<usize>> = BTreeMap::new(alloc);
    for one in all.iter() {
        let home = match homes.get(one.rust_name.as_str()) {
            Some(home) if *home != Some(one.module) => None,
            _ => Some(one.module),
        };
        homes.insert(one.rust_name.clone()?, home)?;
    }
    Ok(homes)
}

/// Puts the module's name and `_` in front of the names that several modules have: ASN.1 has no such names.
fn part_names(scope: Scope<'_, '_>, all: &mut Vec<Pending<'_>>) -> Result<(), AllocError>
    ensures { OnOk result (map waits all.new.items ≡ map waits all.old.items) }
{
    let homes = homes_of(scope.alloc, all.as_slice())?;
    for one in all.iter_mut() {
        if homes.get(one.rust_name.as_str()).copied() == Some(None) {
            let module = type_name(scope.alloc, scope.module_name(one.module))?;
            let name = one.rust_name.as_str();
            one.rust_name = format!(in scope.alloc; "{module}_{name}")?;
        }
    }
    Ok(())
}

/// A name that isn't among others: the one given, or with `_` behind it, and puts it to these.
pub fn free_name(
    alloc: Global,
    names: &mut BTreeMap<String, usize>,
    wanted: &str,
) -> Result<String, AllocError> {
    let mut name = String::from_str(alloc, wanted)?;
    for _ in 0..names.len() {
        if names.get(name.as_str()).is_none() {
            break;
        }
        name.push('_')?;
    }
    names.insert(name.clone()?, names.len())?;
    Ok(name)
}

/// Refuses a name that stands for another type in its module: one that is assigned there twice, or imported too.
fn require_one(scope: Scope<'_, '_>, at: usize, name: TokenId) -> Result<(), Refusal> {
    let reference = Reference { module: None, name };
    if scope.find_type(reference)?.index == at {
        return Ok(());
    }
    Err(scope.refused(
        name,
        "a name that its module assigns once, and doesn't import",
    ))
}

/// The parts of the type at a place, which `named` is the name of where it is an assignment.
fn resolved<'m>(
    scope: Scope<'m, '_>,
    pending: &mut Vec<Pending<'m>>,
    parent: (&str, usize),
    of: &'m Type,
    named: (usize, Option<TokenId>),
) -> Result<Vec<Part<'m>>, Refusal>
    ensures waits { IfOk result (λ parts. map waits pending.new.items ≡ map waits pending.old.items ++ flat_map (inside_by parent.entry.1) parts.items) }
    ensures parts { length (assigned scope.entry.modules.now) < 2 ^ 64 → IfOk result (λ parts. AreParts (length (assigned scope.entry.modules.now)) (map waits pending.new.items) parent.entry.1 of.now parts.items) }
    ensures keeps { take (length pending.old.items) pending.new.items ≡ pending.old.items }
{
    if let (at, Some(name)) = named {
        require_one(scope, at, name)?;
    }
    parts_of(scope, pending, parent, of)
}

/// The definition of a type at its place among those that wait, and puts the types inside it behind these. Refused where it can't be
/// resolved; with `keeps_faults` it says why.
fn define<'m>(
    scope: Scope<'m, '_>,
    pending: &mut Vec<Pending<'m>>,
    names: &mut BTreeMap<String, usize>,
    at: usize,
    next: Pending<'m>,
    keeps_faults: bool,
) -> Result<Definition<'m>, Refusal>
    ensures keeps { take (length pending.old.items) pending.new.items ≡ pending.old.items }
    ensures same { IfOk result (λ one. defined one ≡ waits next.entry) }
    ensures waits { IfOk result (λ one. map waits pending.new.items ≡ map waits pending.old.items ++ inside one) }
    ensures parts { length (assigned scope.entry.modules.now) < 2 ^ 64 → IfOk result (λ one. IsDefined (length (assigned scope.entry.modules.now)) (map waits pending.new.items) one) }
    ensures none { keeps_faults ≡ false → IfOk result (λ one. one.fault ≡ None) }
    ensures refused { keeps_faults ≡ true → IfErr result (λ e. e ≡ OutOfMemory) }
{
    let (module, of) = (next.module, next.of);
    let wanted = next.rust_name;
    let free = free_name(scope.alloc, names, wanted.as_str())?;
    let count = pending.len();
    let parent = (free.as_str(), module);
    let made = resolved(scope, pending, parent, of, (at, next.named));
    let (rust_name, parts, fault) = match made {
        Ok(parts) => (free, parts, None),
        Err(why) if keeps_faults && !matches!(why, Refusal::OutOfMemory) => {
            pending.truncate(count);
            (wanted, Vec::new(scope.alloc), Some(why))
        }
        Err(why) => return Err(why),
    };
    Ok(Definition {
        rust_name,
        module,
        of,
        parts,
        is_extensible: false,
        cycle: None,
        keeps_unknown: false,
        fault,
    })
}

/// Refuses types behind the first so many.
fn require_all(scope: Scope<'_, '_>, pending: &[Pending<'_>], count: usize) -> Result<(), Refusal>
    ensures { MatchResult result (λ _. length pending.now ≤ count) (λ _. count < length pending.now) }
{
    match pending.get(count) {
        Some(next) => Err(scope.refused(next.of.first, "at most a million types")),
        None => Ok(()),
    }
}

/// All definitions as they are written: first the assignments, then the types inside them. Refused at the first that can't be resolved;
/// with `keeps_faults` that one says why. Refused too where there are more than a million types.
pub fn definitions<'m>(
    scope: Scope<'m, '_>,
    keeps_faults: bool,
) -> Result<Vec<Definition<'m>>, Refusal>
    ensures are { IfOk result (λ all. AreDefined keeps_faults scope.entry.modules.now all.items) }
    ensures refused { keeps_faults ≡ true → IfErr result (λ e. (e ≡ OutOfMemory) ⊎ HasMany scope.entry.modules.now) }
{
    let mut pending = assignments(scope)?;
    part_names(scope, &mut pending)?;
    let mut names = BTreeMap::new(scope.alloc);
    let mut all = Vec::new(scope.alloc);
    for at in 0..MAX_DEFINITIONS {
        let Some(next) = pending.get(at) else {
            break;
        };
        let next = next.copied()?;
        all.push(define(scope, &mut pending, &mut names, at, next, keeps_faults)?)?;
    }
    require_all(scope, pending.as_slice(), all.len())?;
    Ok(all)
}
