//! Constants: numbers and booleans that modules assign to names, and the numbers and bits that types have names for.

use crate::lines::laid_out;
use crate::notes::push_noted;
use crate::shapes::constant_type;
use crate::text::Text;
use oergen_layouts::definitions::{Definition, Part, free_name};
use oergen_layouts::names::snake;
use oergen_layouts::numbers::{Spot, names_of, number_of, settled};
use oergen_layouts::scope::Scope;
use oergen_parse::ast::{Body, Module, Numbered, Simple, Type, Value};
use oergen_parse::lexer::TokenId;
use oergen_parse::refusal::Refusal;
use std::alloc::AllocError;
use std::collections::BTreeMap;

/// A constant's Rust type, and its value.
type Literal = (&'static str, Text);

/// Constants as they are printed, and the names that they have.
#[derive(Drop)]
struct Constants {
    text: Text,
    names: BTreeMap<String, usize>,
}

impl Constants {
    /// The name of a constant in capitals, behind that of its owner where it has one, and with `_` behind it as often as others have it.
    fn name_of(&mut self, owner: &str, name: &str) -> Result<String, AllocError> {
        let alloc = self.text.alloc();
        let own = Text::of(
            alloc,
            &[owner, if owner.is_empty() { "" } else { "-" }, name],
        );
        let own = own.end()?;
        let small = snake(alloc, own.as_str())?;
        let mut wanted = Text::new(alloc);
        wanted.push_upper(small.as_str());
        let wanted = wanted.end()?;
        free_name(alloc, &mut self.names, wanted.as_str())
    }

    /// Prints the constant of a name, with the comments in front of that, where it has a value; `origin` has its owner, what it is, and of
    /// what.
    fn push(
        &mut self,
        scope: Scope<'_, '_>,
        name: TokenId,
        origin: (&str, &str, &str),
        value: Option<Literal>,
    ) -> Result<(), AllocError> {
        let Some((rust, value)) = value else {
            return Ok(());
        };
        let (owner, what, of) = origin;
        let token = scope.token(name);
        let name = self.name_of(owner, token.text)?;
        let mut doc = Text::new(scope.alloc);
        push_noted(&mut doc, token.note);
        doc.push_all(&["/// ", what, " `", token.text, "` of `", of, "`.\n"]);
        self.text.push_text(&doc);
        self.text
            .push_all(&["pub const ", name.as_str(), ": ", rust, " = "]);
        self.text.push_text(&value);
        self.text.push(";\n\n");
        Ok(())
    }
}

/// What was found; nothing where it can't be resolved.
fn resolved(found: Result<Option<Literal>, Refusal>) -> Result<Option<Literal>, AllocError> {
    match found {
        Ok(value) => Ok(value),
        Err(Refusal::OutOfMemory) => Err(AllocError),
        Err(Refusal::At { .. }) => Ok(None),
    }
}

/// A number as a constant has it: its Rust type, and its text.
fn number_of_type<'m>(
    scope: Scope<'m, '_>,
    of: &'m Type,
    number: i128,
) -> Result<Literal, Refusal> {
    let mut text = Text::new(scope.alloc);
    text.push_number(number);
    Ok((constant_type(scope, of, number)?, text))
}

/// The value of a number or a boolean; nothing of another type.
fn value_of<'m>(
    scope: Scope<'m, '_>,
    of: &'m Type,
    value: &'m Value,
) -> Result<Option<Literal>, Refusal> {
    let base = scope.base_of(of)?;
    let names = names_of(base);
    let spot = Spot { value, names };
    match &base.body {
        Body::Integer(_) => Ok(Some(number_of_type(scope, of, number_of(scope, spot)?)?)),
        Body::Simple(Simple::Boolean) => Ok(boolean_of(scope, settled(scope, spot)?.value)),
        Body::Simple(_) | Body::BitString(_) | Body::Enumerated(_, _) => Ok(None),
        Body::Sequence(_) | Body::Set(_) | Body::Choice(_) | Body::Reference(_) => Ok(None),
        Body::SequenceOf(_) | Body::SetOf(_) => Ok(None),
    }
}

/// TRUE or FALSE as a constant has it.
fn boolean_of(scope: Scope<'_, '_>, value: &Value) -> Option<Literal> {
    let Value::Literal(id) = value else {
        return None;
    };
    let mut text = Text::new(scope.alloc);
    text.push_lower(scope.text(*id));
    Some(("bool", text))
}

/// The number that a type has a name for, or the place of a bit.
fn named_value<'m>(
    scope: Scope<'m, '_>,
    of: &'m Type,
    item: &'m Numbered,
    is_bit: bool,
) -> Result<Option<Literal>, Refusal> {
    let Some(value) = &item.number else {
        return Ok(None);
    };
    let number = number_of(scope, Spot { value, names: &[] })?;
    if !is_bit {
        return Ok(Some(number_of_type(scope, of, number)?));
    }
    if usize::try_from(number).is_err() {
        return Ok(None);
    }
    let mut text = Text::new(scope.alloc);
    text.push_number(number);
    Ok(Some(("usize", text)))
}

/// Prints the constants of the names that a part's type has for numbers or bits.
fn push_named<'m>(
    scope: Scope<'m, '_>,
    out: &mut Constants,
    owner: &str,
    part: &Part<'m>,
) -> Result<(), AllocError> {
    let mut own = Text::of(scope.alloc, &[owner]);
    if part.row.is_some() {
        own.push_type_name(part.name.as_str());
    }
    let own = own.end()?;
    let (items, is_bit) = match &part.inner.body {
        Body::Integer(items) => (items.as_slice(), false),
        Body::BitString(items) => (items.as_slice(), true),
        Body::Simple(_) | Body::Enumerated(_, _) | Body::Reference(_) => return Ok(()),
        Body::Sequence(_) | Body::Set(_) | Body::Choice(_) => return Ok(()),
        Body::SequenceOf(_) | Body::SetOf(_) => return Ok(()),
    };
    let what = if is_bit {
        "The place of the bit"
    } else {
        "The number"
    };
    for item in items.iter() {
        let value = resolved(named_value(scope, part.inner, item, is_bit))?;
        out.push(scope, item.name, (own.as_str(), what, own.as_str()), value)?;
    }
    Ok(())
}

/// Prints the constants of a module's assignments.
fn push_assigned<'m>(
    scope: Scope<'m, '_>,
    out: &mut Constants,
    module: &'m Module,
) -> Result<(), AllocError> {
    for one in module.values.iter() {
        let value = resolved(value_of(scope, &one.of, &one.value))?;
        let origin = ("", "The value", scope.text(module.name));
        out.push(scope, one.name, origin, value)?;
    }
    Ok(())
}

/// The values that all modules assign.
fn push_all_assigned<'m>(scope: Scope<'m, '_>, out: &mut Constants) -> Result<(), AllocError> {
    for module in scope.modules.iter() {
        push_assigned(scope, out, module)?;
    }
    Ok(())
}

/// The named numbers of a type's parts.
fn push_numbers<'m>(
    scope: Scope<'m, '_>,
    out: &mut Constants,
    definition: &Definition<'m>,
) -> Result<(), AllocError> {
    for part in definition.parts.iter() {
        push_named(scope, out, definition.rust_name.as_str(), part)?;
    }
    Ok(())
}

/// The constants of the modules, one behind another, each with an empty line behind it.
pub fn constants_of<'m>(
    scope: Scope<'m, '_>,
    all: &[Definition<'m>],
) -> Result<String, AllocError> {
    let mut out = Constants {
        text: Text::new(scope.alloc),
        names: BTreeMap::new(scope.alloc),
    };
    push_all_assigned(scope, &mut out)?;
    for definition in all.iter() {
        push_numbers(scope, &mut out, definition)?;
    }
    laid_out(scope.alloc, &out.text)
}
