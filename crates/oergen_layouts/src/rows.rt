//! The components of a SEQUENCE or a SET, and the alternatives of a CHOICE: each with its place and its tag.
ghost use Rattle.std.specs.Prelude.{◌≡◌, ◌≢◌, ◌<◌, ◌-◌, ◌^◌, ◌⊎◌, List, [], Ok, None, true, false, cond, is_some, IfErr, IfOk, IfSome, IsOkAnd, MatchOption, MatchResult, OnErr, OnOk, map, length};
ghost use Rattle.std.specs.List.{All, filter};
ghost use Rattle.std.specs.Option.{option_map};
ghost use Rattle.oergen_parse.specs.declared.ast.Member.{Member};
ghost use Rattle.oergen_parse.specs.declared.refusal.Refusal.TheVariants.{OutOfMemory};
ghost use Rattle.oergen_layouts.specs.Rows.{AreRowsOf, HaveComponents, HaveOwnTags, HaveTagsFor, components_of, is_choice, is_own, is_required, is_set, passed, placed, position_in};
ghost use Rattle.oergen_layouts.specs.Tags.{AreAutomatic, AreMembers, HasUntagged, IsAutomatic, IsUntagged, automatic_tags, has_members, is_root, members_in, with_tag};
ghost use Rattle.oergen_layouts.specs.Untagged.{FindsTag};

use crate::numbers::{Spot, number_of};
use crate::scope::Scope;
use asn1_core::{Class, Tag};
use oergen_parse::ast::{Body, Member, Need, Simple, Tagging, Type, WrittenTag};
use oergen_parse::lexer::TokenId;
use oergen_parse::refusal::Refusal;
use std::alloc::{AllocError, Global};

/// How deep COMPONENTS OF may lead.
const MAX_COMPONENTS_OF: u32 = 64;

/// What marks and groups may stand in a type.
const MARKS: &str =
    "at most two marks, and between them groups that end and don't stand inside one another";

/// Where a component stands.
#[derive(Clone, Copy, PartialEq, Eq)]
pub enum Position {
    Root,
    Addition,
    /// In an addition group, by its number from 1.
    Group(usize),
}

/// A component or an alternative.
#[derive(Clone, Copy)]
pub struct Row<'m> {
    pub name: TokenId,
    pub of: &'m Type,
    pub need: &'m Need,
    pub position: Position,
    /// None for a choice without a tag in front, and for an open type.
    pub tag: Option<Tag>,
}

/// How many marks and groups have been passed.
#[derive(Clone, Copy)]
struct Walk {
    marks: u8,
    groups: usize,
    in_group: bool,
}

impl Walk {
    fn position(&self) -> Position
        ensures { result ≡ position_in self.now }
    {
        if self.in_group {
            Position::Group(self.groups)
        } else if self.marks == 1 {
            Position::Addition
        } else {
            Position::Root
        }
    }

    /// Passes a mark or a bracket of a group; false where none may stand.
    fn passes(&mut self, member: &Member) -> bool
        ensures { self.old.groups < 2 ^ 64 - 1 → passed self.old member.now ≡ cond result (Some self.new) None }
    {
        match member {
            Member::Mark(_) if self.marks < 2 && !self.in_group => {
                self.marks = self.marks.saturating_add(1);
                true
            }
            Member::Opens(_) if self.marks == 1 && !self.in_group => {
                self.groups = self.groups.saturating_add(1);
                self.in_group = true;
                true
            }
            Member::Closes(_) if self.in_group => {
                self.in_group = false;
                true
            }
            _ => false,
        }
    }
}

/// The members of a SEQUENCE, a SET or a CHOICE.
pub fn members_of<'m>(of: &'m Type) -> Option<&'m [Member]>
    ensures are { MatchOption result ((members : List Member) → ¬ AreMembers of.now.body members) (λ members. AreMembers of.now.body members.now) }
    ensures all { members_in of.now.body ≡ option_map (λ members. members.now) result }
{
    match &of.body {
        Body::Choice(members) | Body::Sequence(members) | Body::Set(members) => {
            Some(members.as_slice())
        }
        Body::Simple(_) | Body::Integer(_) | Body::BitString(_) | Body::Enumerated(_, _) => None,
        Body::SequenceOf(_) | Body::SetOf(_) | Body::Reference(_) => None,
    }
}

/// The first token of a member.
fn first_of(member: &Member) -> TokenId {
    match member {
        Member::Mark(token) | Member::Opens(token) | Member::Closes(token) => *token,
        Member::ComponentsOf(of) => of.first,
        Member::Component(component) => component.name,
    }
}

/// The components of a SET, or of another type, as they are written, with those that COMPONENTS OF takes over, and with the tags that are in
/// front of their types.
#[cycle(rows)]
fn written_rows<'m>(
    scope: Scope<'m, '_>,
    members: &'m [Member],
    is_set: bool,
    levels: u32,
) -> Result<Vec<Row<'m>>, Refusal>
    ensures rows { IfOk result (λ rows. AreRowsOf members.now rows.items) }
    ensures refused { All (λ one. is_own one ≡ true) members.now → IfErr result (λ e. (e ≡ OutOfMemory) ⊎ (components_of members.now ≡ None)) }
{
    let mut rows = Vec::new(scope.alloc);
    let mut walk = Walk {
        marks: 0,
        groups: 0,
        in_group: false,
    };
    for member in members.iter() {
        match member {
            Member::Component(component) => rows.push(Row {
                name: component.name,
                of: &component.of,
                need: &component.need,
                position: walk.position(),
                tag: None,
            })?,
            Member::ComponentsOf(of) => {
                let taken = taken_rows(scope, of, is_set, levels)?;
                push_roots(&mut rows, taken.as_slice(), walk.position())?;
            }
            other => {
                if !walk.passes(other) {
                    return Err(scope.refused(first_of(other), MARKS));
                }
            }
        }
    }
    match members.last() {
        Some(last) if walk.in_group => Err(scope.refused(first_of(last), MARKS)),
        _ => Ok(rows),
    }
}

/// Puts the root components of one list behind another (X.680, 25.5).
fn push_roots<'m>(
    rows: &mut Vec<Row<'m>>,
    taken: &[Row<'m>],
    position: Position,
) -> Result<(), Refusal> {
    for row in taken.iter() {
        if row.position == Position::Root {
            rows.push(Row { position, ..*row })?;
        }
    }
    Ok(())
}

/// The components of the type behind COMPONENTS OF: of a SET in a SET, else of a SEQUENCE (X.680, 25.5 and 27.2).
#[cycle(rows)]
fn taken_rows<'m>(
    scope: Scope<'m, '_>,
    of: &'m Type,
    is_set: bool,
    levels: u32,
) -> Result<Vec<Row<'m>>, Refusal> {
    const READS: &str =
        "a SEQUENCE in a SEQUENCE, or a SET in a SET, that doesn't take over its own components";
    let base = scope.base_of(of)?;
    let Some(levels) = levels.checked_sub(1) else {
        return Err(scope.refused(of.first, READS));
    };
    match &base.body {
        Body::Sequence(members) if !is_set => written_rows(scope, members, is_set, levels),
        Body::Set(members) if is_set => written_rows(scope, members, is_set, levels),
        Body::Sequence(_)
        | Body::Set(_)
        | Body::Choice(_)
        | Body::SequenceOf(_)
        | Body::SetOf(_)
        | Body::Simple(_)
        | Body::Integer(_)
        | Body::BitString(_)
        | Body::Enumerated(_, _)
        | Body::Reference(_) => Err(scope.refused(of.first, READS)),
    }
}

/// Whether a member is a component with a tag in front of its type, and written with it: no tag of what a parameter or the name of a
/// type with parameters stands for (X.680, 25.3).
fn is_tagged(scope: Scope<'_, '_>, member: &Member) -> bool
    ensures { IsUntagged member.now → result ≡ false }
{
    match member {
        Member::Component(component) => {
            let (name, first) = (scope.token(component.name), scope.token(component.of.first));
            !component.of.tags.is_empty() && name.copy == first.copy
        }
        Member::Mark(_) | Member::Opens(_) | Member::Closes(_) | Member::ComponentsOf(_) => false,
    }
}

/// Whether one of a type's members is written with a tag.
fn has_tagged(scope: Scope<'_, '_>, members: &[Member]) -> bool
    ensures { All IsUntagged members.now → result ≡ false }
{
    for member in members.iter() {
        if is_tagged(scope, member) {
            return true;
        }
    }
    false
}

/// The number of a tag, which is a u32.
fn tag_of<'m>(
    scope: Scope<'m, '_>,
    written: &'m WrittenTag,
    first: TokenId,
) -> Result<Tag, Refusal> {
    let value = &written.number;
    let number = number_of(scope, Spot { value, names: &[] })?;
    match u32::try_from(number) {
        Ok(value) => Ok(Tag {
            class: written.class,
            value,
        }),
        Err(_) => Err(scope.refused(first, "a tag's number from 0 to 4294967295")),
    }
}

/// The tag that a type has by itself: the outermost that is written, or its universal one.
fn own_tag<'m>(scope: Scope<'m, '_>, of: &'m Type) -> Result<Option<Tag>, Refusal> {
    let chain = scope.chain_of(of)?;
    for one in chain.iter() {
        if let Some(written) = one.tags.first() {
            return Ok(Some(tag_of(scope, written, one.first)?));
        }
    }
    Ok(chain.last().and_then(|base| universal_tag(&base.body)))
}

/// The universal tag of a type (X.680, table 1).
fn universal_tag(body: &Body) -> Option<Tag> {
    match body {
        Body::Simple(simple) => simple_tag(*simple),
        Body::Integer(_) => Some(Tag::INTEGER),
        Body::BitString(_) => Some(Tag::BIT_STRING),
        Body::Enumerated(_, _) => Some(Tag::ENUMERATED),
        Body::Sequence(_) | Body::SequenceOf(_) => Some(Tag::SEQUENCE),
        Body::Set(_) | Body::SetOf(_) => Some(Tag::SET),
        Body::Choice(_) | Body::Reference(_) => None,
    }
}

/// The universal tag of a type without parts; an open type has none.
fn simple_tag(simple: Simple) -> Option<Tag> {
    Some(match simple {
        Simple::Boolean => Tag::BOOL,
        Simple::Null => Tag::NULL,
        Simple::OctetString => Tag::OCTET_STRING,
        Simple::ObjectIdentifier => Tag::OBJECT_IDENTIFIER,
        Simple::Utf8String => Tag::UTF8_STRING,
        Simple::NumericString => Tag::NUMERIC_STRING,
        Simple::PrintableString => Tag::PRINTABLE_STRING,
        Simple::VisibleString => Tag::VISIBLE_STRING,
        Simple::Ia5String => Tag::IA5_STRING,
        Simple::GeneralString => Tag::GENERAL_STRING,
        Simple::GraphicString => Tag::GRAPHIC_STRING,
        Simple::TeletexString => Tag::TELETEX_STRING,
        Simple::BmpString => Tag::BMP_STRING,
        Simple::UniversalString => Tag::UNIVERSAL_STRING,
        Simple::UtcTime => Tag::UTC_TIME,
        Simple::GeneralizedTime => Tag::GENERALIZED_TIME,
        Simple::Date => Tag::DATE,
        Simple::Any => return None,
    })
}

impl<'m> Row<'m> {
    /// Whether it is of the root.
    pub fn is_root(&self) -> bool
        ensures { result ≡ is_root self.now }
    {
        match self.position {
            Position::Root => true,
            Position::Addition | Position::Group(_) => false,
        }
    }

    /// The row with a context-specific tag.
    fn numbered(self, value: u32) -> Row<'m>
        ensures { result ≡ with_tag self.entry value }
    {
        let class = Class::Context;
        Row {
            tag: Some(Tag { class, value }),
            ..self
        }
    }
}

/// The rows with tags from 0: the root components first, then the additions (X.680, 25.7 to 25.9 and 29.5).
fn numbered_rows<'m>(alloc: Global, rows: &[Row<'m>]) -> Result<Vec<Row<'m>>, AllocError>
    ensures tags { length rows.now < 2 ^ 31 → IfOk result (λ all. all.items ≡ automatic_tags rows.now) }
    ensures each { IfOk result (λ all. map placed all.items ≡ map placed rows.now) }
{
    let mut all = Vec::new(alloc);
    let roots = rows.iter().filter(|row| row.is_root()).count();
    let mut root = 0u32;
    let mut addition = u32::try_from(roots).unwrap_or(u32::MAX);
    for row in rows.iter() {
        if row.is_root() {
            all.push(row.numbered(root))?;
            root = root.saturating_add(1);
        } else {
            all.push(row.numbered(addition))?;
            addition = addition.saturating_add(1);
        }
    }
    Ok(all)
}

/// The rows with the tags that their types have by themselves.
fn tagged_rows<'m>(scope: Scope<'m, '_>, rows: &[Row<'m>]) -> Result<Vec<Row<'m>>, Refusal>
    ensures { IfOk result (λ all. map placed all.items ≡ map placed rows.now) }
{
    let mut all = Vec::new(scope.alloc);
    for row in rows.iter() {
        let tag = own_tag(scope, row.of)?;
        all.push(Row { tag, ..*row })?;
    }
    Ok(all)
}

/// The rows with their tags: numbers where the module's tags are automatic and none is written, else those of their types.
fn with_tags<'m>(
    scope: Scope<'m, '_>,
    of: &'m Type,
    members: &'m [Member],
    rows: &[Row<'m>],
) -> Result<Vec<Row<'m>>, Refusal>
    ensures tags { AreAutomatic scope.entry.modules.now → All IsUntagged members.now → IfOk result (λ all. IsAutomatic all.items) }
    ensures each { IfOk result (λ all. map placed all.items ≡ map placed rows.now) }
    ensures refused { AreAutomatic scope.entry.modules.now → All IsUntagged members.now → IfErr result (λ e. e ≡ OutOfMemory) }
{
    if scope.tagging_of(of.first) == Tagging::Automatic && !has_tagged(scope, members) {
        return Ok(numbered_rows(scope.alloc, rows)?);
    }
    tagged_rows(scope, rows)
}

/// The rows of the root.
fn roots_of<'m>(alloc: Global, rows: &[Row<'m>]) -> Result<Vec<Row<'m>>, AllocError>
    ensures { IfOk result (λ roots. roots.items ≡ filter is_root rows.now) }
{
    rows.iter()
        .filter(|row| row.is_root())
        .copied()
        .collect(alloc)
}

/// Refuses what can't be tagged as it is, by what the type is.
fn require_rows<'m>(
    scope: Scope<'m, '_>,
    of: &'m Type,
    members: &'m [Member],
    rows: &[Row<'m>],
) -> Result<(), Refusal>
    ensures tags { OnOk result (HaveTagsFor of.now.body rows.now) }
    ensures refused { HaveTagsFor of.now.body rows.now → All (λ one. is_own one ≡ true) members.now → (is_choice of.now.body ≡ true → All (λ row. is_required row.need.now ≡ true) rows.now) → IfErr result (λ e. e ≡ OutOfMemory) }
{
    match &of.body {
        Body::Choice(_) => {
            require_alternatives(scope, rows, members)?;
            require_tags(scope, rows)
        }
        Body::Set(_) => require_tags(scope, roots_of(scope.alloc, rows)?.as_slice()),
        Body::Simple(_) | Body::Integer(_) | Body::BitString(_) | Body::Enumerated(_, _) => Ok(()),
        Body::Sequence(_) | Body::SequenceOf(_) | Body::SetOf(_) | Body::Reference(_) => Ok(()),
    }
}

/// The row that has a tag.
fn same_tag<'m>(rows: &[Row<'m>], tag: Option<Tag>) -> Option<Row<'m>>
    ensures { FindsTag (λ row. row.tag) rows.now tag result }
{
    for row in rows.iter() {
        if row.tag == tag {
            return Some(*row);
        }
    }
    None
}

/// The refusal of a component that has another's tag.
fn same_tag_refused(
    scope: Scope<'_, '_>,
    own: TokenId,
    other: TokenId,
    tag: Option<Tag>,
) -> Refusal {
    match tag_text(scope.alloc, tag) {
        Ok(tag) => scope.refused_beside(
            own,
            "a component with a tag of its own",
            (scope.text(own), scope.text(other)),
            tag.as_str(),
        ),
        Err(_) => Refusal::OutOfMemory,
    }
}

/// A tag as ASN.1 writes it.
pub fn tag_text(alloc: Global, tag: Option<Tag>) -> Result<String, AllocError> {
    let Some(tag) = tag else {
        return String::from_str(alloc, "no tag");
    };
    let class = match tag.class {
        Class::Universal => "UNIVERSAL ",
        Class::Application => "APPLICATION ",
        Class::Context => "",
        Class::Private => "PRIVATE ",
    };
    let number = tag.value;
    format!(in alloc; "[{class}{number}]")
}

/// Refuses tags that stand twice, or that lack, where octets depend on them: in a CHOICE, and among the root components of a SET.
fn require_tags<'m>(scope: Scope<'m, '_>, rows: &[Row<'m>]) -> Result<(), Refusal>
    ensures { MatchResult result (λ _. HaveOwnTags rows.now) (λ _. ¬ HaveOwnTags rows.now) }
{
    for (at, row) in rows.iter().enumerate() {
        if row.tag.is_none() {
            return Err(scope.refused(
                row.name,
                "a component with a tag: an untagged open type isn't read here",
            ));
        }
        if let Some(other) = same_tag(&rows[..at], row.tag) {
            return Err(same_tag_refused(scope, row.name, other.name, row.tag));
        }
    }
    Ok(())
}

/// Refuses what a CHOICE can't have: alternatives that may be left out, or behind a second mark.
fn require_alternatives<'m>(
    scope: Scope<'m, '_>,
    rows: &[Row<'m>],
    members: &[Member],
) -> Result<(), Refusal>
    ensures { All (λ one. is_own one ≡ true) members.now → All (λ row. is_required row.need.now ≡ true) rows.now → OnErr result ⊥ }
{
    for row in rows.iter() {
        if !matches!(row.need, Need::Required) {
            return Err(scope.refused(row.name, "an alternative without OPTIONAL or DEFAULT"));
        }
    }
    for member in members.iter() {
        if matches!(member, Member::ComponentsOf(_)) {
            return Err(scope.refused(first_of(member), "an alternative"));
        }
    }
    Ok(())
}

/// Whether an alternative of a CHOICE, or a root component of a SET, is a CHOICE without a tag.
fn is_untagged_choice<'m>(
    scope: Scope<'m, '_>,
    row: Row<'m>,
    is_choice: bool,
) -> Result<bool, Refusal>
    ensures { is_some row.entry.tag ≡ true → result ≡ Ok false }
{
    if row.tag.is_some() || !(is_choice || row.is_root()) {
        return Ok(false);
    }
    Ok(matches!(scope.base_of(row.of)?.body, Body::Choice(_)))
}

/// Whether one of these is.
fn have_untagged_choice<'m>(
    scope: Scope<'m, '_>,
    rows: &[Row<'m>],
    is_choice: bool,
) -> Result<bool, Refusal>
    ensures { All (λ row. is_some row.tag ≡ true) rows.now → result ≡ Ok false }
{
    for row in rows.iter() {
        if is_untagged_choice(scope, *row, is_choice)? {
            return Ok(true);
        }
    }
    Ok(false)
}

/// Whether a type is a CHOICE.
fn is_choice(of: &Type) -> bool
    ensures { result ≡ is_choice of.now.body }
{
    matches!(of.body, Body::Choice(_))
}

/// Whether a type is a SET.
fn is_set(of: &Type) -> bool
    ensures { result ≡ is_set of.now.body }
{
    matches!(of.body, Body::Set(_))
}

/// The members of a CHOICE or a SET; nothing of another type.
fn choice_or_set<'m>(of: &'m Type) -> Option<&'m [Member]>
    ensures members { IfSome result (λ members. AreMembers of.now.body members.now) }
    ensures others { is_choice of.now.body ≡ false → is_set of.now.body ≡ false → result ≡ None }
{
    match &of.body {
        Body::Choice(members) | Body::Set(members) => Some(members.as_slice()),
        Body::Sequence(_) | Body::SequenceOf(_) | Body::SetOf(_) | Body::Reference(_) => None,
        Body::Simple(_) | Body::Integer(_) | Body::BitString(_) | Body::Enumerated(_, _) => None,
    }
}

/// The alternatives of a CHOICE, or the components of a SET, of which one is a CHOICE without a tag: that one has none. Nothing where none
/// is, and of another type.
pub fn untagged_rows<'m>(
    scope: Scope<'m, '_>,
    of: &'m Type,
) -> Result<Option<Vec<Row<'m>>>, Refusal>
    ensures rows { IfOk result (λ found. IfSome found (λ rows. (members : List Member) → AreMembers of.now.body members → AreRowsOf members rows.items)) }
    ensures some { IfOk result (λ found. IfSome found (λ rows. ¬ All (λ row. is_some row.tag ≡ true) rows.items)) }
    ensures automatic { AreAutomatic scope.entry.modules.now → HasUntagged of.now.body → HaveComponents of.now.body → MatchResult result (λ found. found ≡ None) (λ e. e ≡ OutOfMemory) }
    ensures others { is_choice of.now.body ≡ false → is_set of.now.body ≡ false → result ≡ Ok None }
{
    let Some(members) = choice_or_set(of) else {
        return Ok(None);
    };
    let found = written_rows(scope, members, is_set(of), MAX_COMPONENTS_OF)?;
    let rows = with_tags(scope, of, members, found.as_slice())?;
    let is_choice = is_choice(of);
    if !have_untagged_choice(scope, rows.as_slice(), is_choice)? {
        return Ok(None);
    }
    if is_choice {
        require_alternatives(scope, rows.as_slice(), members)?;
    }
    Ok(Some(rows))
}

/// The components or alternatives of a type with members; none of another.
pub fn rows_of<'m>(scope: Scope<'m, '_>, of: &'m Type) -> Result<Vec<Row<'m>>, Refusal>
    ensures rows { IfOk result (λ rows. (members : List Member) → AreMembers of.now.body members → AreRowsOf members rows.items) }
    ensures automatic { AreAutomatic scope.entry.modules.now → HasUntagged of.now.body → IfOk result (λ rows. IsAutomatic rows.items) }
    ensures tags { IfOk result (λ rows. HaveTagsFor of.now.body rows.items) }
    ensures refused { AreAutomatic scope.entry.modules.now → HasUntagged of.now.body → HaveComponents of.now.body → IfErr result (λ e. e ≡ OutOfMemory) }
    ensures others { has_members of.now.body ≡ false → IsOkAnd result (λ rows. rows.items ≡ []) }
{
    let Some(members) = members_of(of) else {
        return Ok(Vec::new(scope.alloc));
    };
    let written = written_rows(scope, members, is_set(of), MAX_COMPONENTS_OF)?;
    let rows = with_tags(scope, of, members, written.as_slice())?;
    require_rows(scope, of, members, rows.as_slice())?;
    Ok(rows)
}
