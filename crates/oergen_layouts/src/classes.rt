//! Classes of information objects (X.681): the types of their fields. And types that stand for others.

use crate::cuts::{is_at, name_length, parts_of, range};
use crate::unrestricted::{CHARACTERS, EMBEDDED, IDENTIFICATION};
use oergen_parse::lexer::{Kind, Token, tokens};
use oergen_parse::refusal::Refusal;
use std::alloc::{AllocError, Global};

/// The file that tokens are of which stand in none: no file that is handed in has that number.
const NO_FILE: usize = usize::MAX;

/// A class that needs no assignment (X.681, annex A).
const TYPE_IDENTIFIER: &str = "CLASS { &id OBJECT IDENTIFIER UNIQUE, &Type }";

/// Another (X.681, annex B).
const ABSTRACT_SYNTAX: &str =
    "CLASS { &id OBJECT IDENTIFIER UNIQUE, &Type, &property BIT STRING { handles-invalid-encodings(0) } DEFAULT {} }";

/// What `INSTANCE OF` a class stands for, `CLASS` being that (X.681, annex C).
const INSTANCE: &str =
    "[UNIVERSAL 8] IMPLICIT SEQUENCE { type-id CLASS.&id, value [0] EXPLICIT CLASS.&Type }";

/// What `EXTERNAL` stands for, wherever tags are explicit (X.696 and X.691, 28): here one component is written with a tag, so no others are
/// given.
const EXTERNAL: &str =
    "[UNIVERSAL 8] IMPLICIT SEQUENCE { direct-reference OBJECT IDENTIFIER OPTIONAL, indirect-reference INTEGER OPTIONAL, \
data-value-descriptor [UNIVERSAL 7] IMPLICIT GraphicString OPTIONAL, encoding CHOICE { single-ASN1-type [0] EXPLICIT ANY, \
octet-aligned [1] IMPLICIT OCTET STRING, arbitrary [2] IMPLICIT BIT STRING } }";

/// What `ObjectDescriptor` stands for (X.680, 48).
const DESCRIPTOR: &str = "[UNIVERSAL 7] IMPLICIT GraphicString";

/// What stands for EMBEDDED PDV or CHARACTER STRING: in front of the identification, and behind it.
#[derive(Drop)]
struct Around<'a> {
    front: Vec<Token<'a>>,
    back: Vec<Token<'a>>,
}

impl<'a> Around<'a> {
    /// The tokens of both texts.
    fn new(alloc: Global, texts: (&'static str, &'static str)) -> Result<Around<'a>, Refusal> {
        Ok(Around {
            front: tokens(alloc, NO_FILE, texts.0)?,
            back: tokens(alloc, NO_FILE, texts.1)?,
        })
    }
}

/// What needs no assignment. Each has the end of its text behind it.
#[derive(Drop)]
pub struct BuiltIn<'a> {
    type_identifier: Vec<Token<'a>>,
    abstract_syntax: Vec<Token<'a>>,
    instance: Vec<Token<'a>>,
    external: Vec<Token<'a>>,
    descriptor: Vec<Token<'a>>,
    identification: Vec<Token<'a>>,
    embedded: Around<'a>,
    characters: Around<'a>,
}

impl<'a> BuiltIn<'a> {
    /// What needs no assignment.
    pub fn new(alloc: Global) -> Result<BuiltIn<'a>, Refusal> {
        Ok(BuiltIn {
            type_identifier: tokens(alloc, NO_FILE, TYPE_IDENTIFIER)?,
            abstract_syntax: tokens(alloc, NO_FILE, ABSTRACT_SYNTAX)?,
            instance: tokens(alloc, NO_FILE, INSTANCE)?,
            external: tokens(alloc, NO_FILE, EXTERNAL)?,
            descriptor: tokens(alloc, NO_FILE, DESCRIPTOR)?,
            identification: tokens(alloc, NO_FILE, IDENTIFICATION)?,
            embedded: Around::new(alloc, EMBEDDED)?,
            characters: Around::new(alloc, CHARACTERS)?,
        })
    }

    /// The class of that name, where it needs no assignment.
    pub fn class(&self, name: &str) -> Option<&[Token<'a>]> {
        match name {
            "TYPE-IDENTIFIER" => Some(self.type_identifier.as_slice()),
            "ABSTRACT-SYNTAX" => Some(self.abstract_syntax.as_slice()),
            _ => None,
        }
    }

    /// Puts what a type that X.680 has stands for behind others, at the place of its name. False where that stands for itself.
    pub fn push_type(&self, out: &mut Vec<Token<'a>>, at: Token<'a>) -> Result<bool, AllocError> {
        let meant = match at.text {
            "EXTERNAL" => self.external.as_slice(),
            "ObjectDescriptor" => self.descriptor.as_slice(),
            _ => return Ok(false),
        };
        push_at(out, meant, at)?;
        Ok(true)
    }

    /// Puts what EMBEDDED PDV or CHARACTER STRING stands for behind others, at the place of its first word; without the identification
    /// where that is fixed.
    pub fn push_unrestricted(
        &self,
        out: &mut Vec<Token<'a>>,
        at: Token<'a>,
        is_fixed: bool,
    ) -> Result<(), AllocError> {
        let around = if at.text == "EMBEDDED" {
            &self.embedded
        } else {
            &self.characters
        };
        push_at(out, around.front.as_slice(), at)?;
        if !is_fixed {
            push_at(out, self.identification.as_slice(), at)?;
        }
        push_at(out, around.back.as_slice(), at)
    }

    /// Puts what `INSTANCE OF` a class stands for behind others, at the place of a token. The class's name stands in front of `class`.
    pub fn push_instance(
        &self,
        out: &mut Vec<Token<'a>>,
        class: &[Token<'a>],
        at: Token<'a>,
    ) -> Result<(), AllocError> {
        let name = range(class, 0, name_length(class));
        for token in self.instance.iter() {
            match token.kind {
                Kind::End => {}
                Kind::Name if token.text == "CLASS" => out.extend_from_slice(name)?,
                _ => out.push(Token {
                    kind: token.kind,
                    text: token.text,
                    ..at
                })?,
            }
        }
        Ok(())
    }
}

/// Puts tokens without the end of their text behind others, at the place of one.
fn push_at<'a>(
    out: &mut Vec<Token<'a>>,
    tokens: &[Token<'a>],
    at: Token<'a>,
) -> Result<(), AllocError> {
    for token in tokens.iter() {
        if token.kind != Kind::End {
            out.push(Token {
                kind: token.kind,
                text: token.text,
                note: "",
                ..at
            })?;
        }
    }
    Ok(())
}

/// Puts what a field is declared with behind others, as a copying of a token's number; where it stands in no file, at that one's place.
pub fn push_declared<'a>(
    out: &mut Vec<Token<'a>>,
    declared: &[Token<'a>],
    at: Token<'a>,
) -> Result<(), AllocError> {
    for token in declared.iter() {
        let place = if token.place.file == NO_FILE {
            at.place
        } else {
            token.place
        };
        out.push(Token {
            place,
            copy: at.copy,
            ..*token
        })?;
    }
    Ok(())
}

/// What the type `CLASS.&field` is (X.681, 14).
#[derive(Clone, Copy)]
pub enum FieldType<'t, 'a> {
    /// An open type: the field is a type, or a value or values of the type that another field is.
    Open,
    /// The type that the field is declared with, of which it is a value, or values.
    Declared(&'t [Token<'a>]),
}

/// What stands behind the name of a field among those of a class; nothing where it has no such field.
fn field_of<'t, 'a>(
    alloc: Global,
    fields: &'t [Token<'a>],
    name: &str,
) -> Result<Option<&'t [Token<'a>]>, AllocError> {
    for field in parts_of(alloc, fields)? {
        if is_at(field, 0, "&") && is_at(field, 1, name) {
            return Ok(Some(range(field, 2, field.len())));
        }
    }
    Ok(None)
}

/// What stands behind the `DEFAULT` of the field of that name; nothing where it has none.
pub fn default_of<'t, 'a>(
    alloc: Global,
    fields: &'t [Token<'a>],
    name: &str,
) -> Result<Option<&'t [Token<'a>]>, AllocError> {
    let Some(field) = field_of(alloc, fields, name)? else {
        return Ok(None);
    };
    let rest = range(field, declared(field).len(), field.len());
    Ok(if is_at(rest, 0, "DEFAULT") {
        Some(range(rest, 1, rest.len()))
    } else {
        None
    })
}

/// What a field is declared with: all in front of whether it is unique or may be left out.
fn declared<'t, 'a>(field: &'t [Token<'a>]) -> &'t [Token<'a>] {
    let mut depth = 0usize;
    for (at, token) in field.iter().enumerate() {
        if depth == 0 && matches!(token.text, "UNIQUE" | "OPTIONAL" | "DEFAULT") {
            return range(field, 0, at);
        }
        depth = token.depth_behind(depth);
    }
    field
}

/// The type of the field of that name, where the class has one.
pub fn field_type<'t, 'a>(
    alloc: Global,
    fields: &'t [Token<'a>],
    name: Token<'a>,
) -> Result<Option<FieldType<'t, 'a>>, AllocError> {
    let Some(field) = field_of(alloc, fields, name.text)? else {
        return Ok(None);
    };
    let of = declared(field);
    Ok(if is_at(of, 0, "&") {
        Some(FieldType::Open)
    } else if !of.is_empty() {
        Some(FieldType::Declared(of))
    } else if name.kind == Kind::Name {
        Some(FieldType::Open)
    } else {
        None
    })
}

/// The names of a class's fields by which an open type is known: the one of its id, and those of types.
#[derive(Drop)]
pub struct Keys<'a> {
    pub id: &'a str,
    pub types: Vec<&'a str>,
}

/// Whether a field has a value of its own for each object.
fn is_unique(field: &[Token<'_>]) -> bool {
    let behind = range(field, declared(field).len(), field.len());
    is_at(behind, 0, "UNIQUE")
}

/// The fields by which an open type of a class is known: the id is the first of a value that is unique or, where none is, the first of a
/// value. Nothing where no field is of a value.
pub fn keys_of<'a>(alloc: Global, fields: &[Token<'a>]) -> Result<Option<Keys<'a>>, AllocError> {
    let mut types = Vec::new(alloc);
    let mut first = None;
    let mut unique = None;
    for field in parts_of(alloc, fields)? {
        let behind = range(field, 2, field.len());
        match field.get(1) {
            Some(name) if name.kind == Kind::Name && declared(behind).is_empty() => {
                types.push(name.text)?;
            }
            Some(name) if name.kind == Kind::Word => {
                first = first.or(Some(name.text));
                unique = unique.or(if is_unique(behind) {
                    Some(name.text)
                } else {
                    None
                });
            }
            Some(_) | None => {}
        }
    }
    Ok(match unique.or(first) {
        Some(id) => Some(Keys { id, types }),
        None => None,
    })
}
