//! What a module says, as it is written (X.680). A tree names its tokens by their numbers, and borrows nothing: what is said of a
//! reference to it stays short, however large the tree's types are.
ghost use Rattle.std.specs.Prelude.{◌≡◌, MatchOption, None, Some};
ghost use Rattle.oergen_parse.specs.Lists.{list_in};

use crate::lexer::TokenId;
use crate::refusal::Refusal;
use asn1_core::Class;

/// How a module's types are tagged where they say nothing (X.680, 13.2).
#[derive(Clone, Copy, PartialEq, Eq)]
pub enum Tagging {
    Explicit,
    Implicit,
    Automatic,
}

/// A module.
#[derive(Drop)]
pub struct Module {
    pub name: TokenId,
    pub tagging: Tagging,
    /// The names that others may import; all, where there is no list.
    pub exports: Option<Vec<TokenId>>,
    pub imports: Vec<Import>,
    /// The first token of its assignments.
    pub first: TokenId,
    pub types: Vec<TypeAssignment>,
    pub values: Vec<ValueAssignment>,
    /// The components and the alternatives of the values that are assigned or defaults, and of those within them.
    pub parts: Vec<NamedValue>,
    /// The assignments that can't be read and were left out; none unless that was asked for.
    pub unread: Vec<Unread>,
}

/// An assignment that was left out: the name that it begins with, and why it isn't read.
#[derive(Drop)]
pub struct Unread {
    pub name: TokenId,
    pub why: Refusal,
}

/// The names that are imported from one module.
#[derive(Drop)]
pub struct Import {
    pub names: Vec<TokenId>,
    pub from: TokenId,
}

/// `Name ::= Type`
#[derive(Drop)]
pub struct TypeAssignment {
    pub name: TokenId,
    pub of: Type,
}

/// `name Type ::= Value`
#[derive(Drop)]
pub struct ValueAssignment {
    pub name: TokenId,
    pub of: Type,
    pub value: Value,
}

/// A name, in another module where one is named.
#[derive(Clone, Copy)]
pub struct Reference {
    pub module: Option<TokenId>,
    pub name: TokenId,
}

/// A tag that is written in front of a type. What is said behind it, `IMPLICIT` or `EXPLICIT`, changes no octet (X.696, 8.7).
#[derive(Drop)]
pub struct WrittenTag {
    pub class: Class,
    pub number: Value,
}

/// A type where it is written: its first token, its tags, what it is, and its constraints.
#[cycle(ast)]
#[derive(Drop)]
pub struct Type {
    pub first: TokenId,
    pub tags: Vec<WrittenTag>,
    pub body: Body,
    pub constraints: Vec<Constraint>,
}

/// What a type is, less tags and constraints.
#[cycle(ast)]
#[derive(Drop)]
pub enum Body {
    Simple(Simple),
    Integer(Vec<Numbered>),
    BitString(Vec<Numbered>),
    /// The values, and how many of them stand before the extension mark, where there is one.
    Enumerated(Vec<Numbered>, Option<usize>),
    Sequence(Vec<Member>),
    Set(Vec<Member>),
    Choice(Vec<Member>),
    SequenceOf(Box<Type>),
    SetOf(Box<Type>),
    Reference(Reference),
}

impl Body {
    /// The type of a list's elements, and whether it is a SET OF; nothing of another type.
    pub fn list(&self) -> Option<(&Type, bool)>
        ensures { MatchOption result (list_in self.now ≡ None) (λ it. list_in self.now ≡ Some (it.0.now, it.1)) }
    {
        match self {
            Body::SequenceOf(element) => Some((&**element, false)),
            Body::SetOf(element) => Some((&**element, true)),
            Body::Simple(_) | Body::Integer(_) | Body::BitString(_) | Body::Enumerated(_, _) =>
                None,
            Body::Sequence(_) | Body::Set(_) | Body::Choice(_) | Body::Reference(_) => None,
        }
    }
}

/// Types without parts.
#[derive(Clone, Copy, PartialEq, Eq)]
pub enum Simple {
    Boolean,
    Null,
    OctetString,
    ObjectIdentifier,
    Utf8String,
    NumericString,
    PrintableString,
    VisibleString,
    Ia5String,
    GeneralString,
    GraphicString,
    TeletexString,
    BmpString,
    UniversalString,
    UtcTime,
    GeneralizedTime,
    Date,
    /// An open type, `ANY`: octets.
    Any,
}

/// A name with its number, as `red(3)`; in an ENUMERATED the number may be left out.
#[derive(Drop)]
pub struct Numbered {
    pub name: TokenId,
    pub number: Option<Value>,
}

/// What stands between two commas of a SEQUENCE, a SET or a CHOICE.
#[cycle(ast)]
#[derive(Drop)]
pub enum Member {
    /// `...`
    Mark(TokenId),
    /// `[[`
    Opens(TokenId),
    /// `]]`
    Closes(TokenId),
    ComponentsOf(Type),
    Component(Component),
}

/// A component of a SEQUENCE or a SET, or an alternative of a CHOICE.
#[cycle(ast)]
#[derive(Drop)]
pub struct Component {
    pub name: TokenId,
    pub of: Type,
    pub need: Need,
}

/// Whether a component may be left out.
#[derive(Drop)]
pub enum Need {
    Required,
    Optional,
    Default(Value),
}

/// A value where it is written.
#[derive(Drop)]
pub enum Value {
    /// A number, bits, hexadecimal digits, a text, TRUE, FALSE or NULL: one token.
    Literal(TokenId),
    /// A number below zero, by its digits.
    Negative(TokenId),
    Reference(Reference),
    /// `{a, b}`, or `{}`: its brace, and named bits, or no elements.
    Names(TokenId, Vec<TokenId>),
    /// Another value between braces, or one of a CHOICE or an open type, by its first token.
    Braces(TokenId),
}

/// A component of a value between braces, or the alternative of one: the first token of that value, its own name, and its own value.
#[derive(Drop)]
pub struct NamedValue {
    pub of: TokenId,
    pub name: TokenId,
    pub value: Value,
}

/// A constraint between parentheses.
#[cycle(sets)]
#[derive(Drop)]
pub struct Constraint {
    pub first: TokenId,
    pub set: ElementSet,
    pub is_extensible: bool,
}

/// A union of intersections; what `EXCEPT` takes away is left out (X.696, 8.2).
#[cycle(sets)]
#[derive(Drop)]
pub struct ElementSet {
    pub unions: Vec<Vec<Element>>,
}

/// An end of a range.
#[derive(Drop)]
pub enum End {
    /// `MIN` or `MAX`.
    Open,
    /// A value that is in the range.
    At(Value),
    /// A value that isn't, with `<` between it and the range.
    Past(Value),
}

/// An element of a constraint.
#[cycle(sets)]
#[derive(Drop)]
pub enum Element {
    Single(Value),
    /// From, to.
    Range(End, End),
    Size(Box<Constraint>),
    Type(Reference),
    Set(ElementSet),
    /// What the octet encoding rules don't see (X.696, 8.2).
    Unseen,
}
