//! Puts the text that they stand for in the place of types with parameters (X.683), of fields of classes of information objects (X.681),
//! of value sets (X.680, 16.6), of EXTERNAL, ObjectDescriptor, EMBEDDED PDV and CHARACTER STRING, and of macros (X.208). Classes, objects
//! and assignments with parameters are left out: no octet depends on them. So are sets of objects, unless they are asked for as types.

use crate::classes::{BuiltIn, FieldType, field_type, push_declared};
use crate::cuts::{
    bracketed, inside, is_at, is_name, name_length, parts_of, push_copied, push_word, range,
};
use crate::macros::{is_type_behind, type_of_values};
use crate::objects::value_of;
use crate::parameters::{Given, Parameter, dummy_at, governor_of, push_elements, push_given};
use crate::scope::{Scope, all_tokens};
use crate::sets::push_object_set;
use crate::unrestricted::{Identification, behind_tags, identification_of, is_unrestricted};
use oergen_parse::lexer::{Kind, Token};
use oergen_parse::modules::read_tree;
use oergen_parse::reader::Reader;
use oergen_parse::refusal::Refusal;
use oergen_parse::skips::skip_assignment;
use std::alloc::{AllocError, Global};

/// How many types with parameters may stand inside one another.
const MAX_PARAMETERIZED: usize = 64;

/// How many tokens there may be before one more type with parameters is put in its place.
const MAX_TOKENS: usize = 1000000;

/// An assignment: its module, and the numbers of its first token, of the one behind its `::=`, and of the one behind it.
#[derive(Clone, Copy)]
pub(crate) struct Assignment {
    module: usize,
    start: usize,
    body: usize,
    end: usize,
}

/// What becomes of sets of objects.
#[derive(Clone, Copy, PartialEq, Eq)]
enum ObjectSets {
    /// They are left out.
    LeftOut,
    /// Each is a type of what the open types that name it hold.
    Types,
}

/// The modules as they were handed in.
#[derive(Clone, Copy)]
pub(crate) struct Source<'m, 'a> {
    pub(crate) scope: Scope<'m, 'a>,
    assignments: &'m [Assignment],
    built_in: &'m BuiltIn<'a>,
    /// The names of macros.
    macros: &'m [&'a str],
    sets: ObjectSets,
    /// Whether EMBEDDED PDV and CHARACTER STRING are replaced: once all else is, since constraints on their names say what they stand for.
    is_last: bool,
}

/// Where what is assigned begins: behind the `::=`.
fn body_of(tokens: &[Token<'_>], start: usize, end: usize) -> usize {
    for (at, token) in range(tokens, start, end).iter().enumerate() {
        if token.text == "::=" {
            return start.saturating_add(at).saturating_add(1);
        }
    }
    end
}

/// The assignments of a module.
fn push_assignments(
    scope: Scope<'_, '_>,
    module: usize,
    first: usize,
    all: &mut Vec<Assignment>,
) -> Result<(), AllocError> {
    let Some(end) = scope.tokens.last() else {
        return Ok(());
    };
    let mut reader = Reader::new(scope.alloc, scope.tokens, *end);
    reader.skip(first);
    for _ in 0..reader.left() {
        if reader.is("END") || reader.peek().kind == Kind::End {
            break;
        }
        let start = reader.id().index;
        skip_assignment(&mut reader);
        let end = reader.id().index;
        let body = body_of(scope.tokens, start, end);
        all.push(Assignment {
            module,
            start,
            body,
            end,
        })?;
    }
    Ok(())
}

/// The assignments of all modules.
fn assignments_of(scope: Scope<'_, '_>) -> Result<Vec<Assignment>, AllocError> {
    let mut all = Vec::new(scope.alloc);
    for (module, one) in scope.modules.iter().enumerate() {
        push_assignments(scope, module, one.first.index, &mut all)?;
    }
    Ok(all)
}

/// The names of the macros among assignments.
fn macros_of<'a>(
    scope: Scope<'_, 'a>,
    assignments: &[Assignment],
) -> Result<Vec<&'a str>, AllocError> {
    let mut names = Vec::new(scope.alloc);
    for one in assignments.iter() {
        if let Some(name) = scope.tokens.get(one.start) {
            if is_at(scope.tokens, one.start.saturating_add(1), "MACRO") {
                names.push(name.text)?;
            }
        }
    }
    Ok(names)
}

/// Whether EMBEDDED PDV or CHARACTER STRING is written somewhere.
fn has_unrestricted(tokens: &[Token<'_>]) -> bool {
    (0..tokens.len()).any(|at| is_unrestricted(range(tokens, at, tokens.len())))
}

impl<'m, 'a> Source<'m, 'a> {
    /// The tokens from one number up to another.
    fn range(&self, start: usize, end: usize) -> &'m [Token<'a>] {
        range(self.scope.tokens, start, end)
    }

    /// The tokens from a number on.
    fn rest(&self, start: usize) -> &'m [Token<'a>] {
        range(self.scope.tokens, start, self.scope.tokens.len())
    }

    /// The module in which a name is assigned that stands in a module: that one, or the one that it is imported from, past those that
    /// import it themselves.
    fn home_of(&self, module: usize, name: &str) -> usize {
        let mut home = module;
        for _ in 0..MAX_PARAMETERIZED {
            match self.scope.home_behind(home, name) {
                Some(next) => home = next,
                None => break,
            }
        }
        home
    }

    /// What is assigned.
    pub(crate) fn body(&self, of: Assignment) -> &'m [Token<'a>] {
        self.range(of.body, of.end)
    }

    /// The assignment of a name that stands in a module.
    fn find_in(&self, module: usize, name: &str) -> Option<Assignment> {
        let home = self.home_of(module, name);
        for one in self.assignments.iter() {
            if one.module == home && is_at(self.scope.tokens, one.start, name) {
                return Some(*one);
            }
        }
        None
    }

    /// The assignment of an object or a value that tokens name, where they are no more than that.
    pub(crate) fn find_value(&self, tokens: &[Token<'a>]) -> Option<Assignment> {
        match tokens {
            [name] => self.find_in(self.scope.module_at(name.place), name.text),
            [module, dot, name] if dot.text == "." => {
                self.find_in(self.scope.module_by_name(module.text)?, name.text)
            }
            _ => None,
        }
    }

    /// The assignment of the name in front.
    pub(crate) fn find(&self, tokens: &[Token<'a>]) -> Option<Assignment> {
        let last = name_length(tokens).checked_sub(1)?;
        let (first, name) = (tokens.first()?, tokens.get(last)?);
        let module = if last == 0 {
            self.scope.module_at(name.place)
        } else {
            self.scope.module_by_name(first.text)?
        };
        self.find_in(module, name.text)
    }

    /// What is assigned to the name in front, or what it is without that.
    fn assigned(&self, tokens: &[Token<'a>]) -> Option<&'m [Token<'a>]> {
        if let Some(class) = self.built_in.class(tokens.first()?.text) {
            return Some(class);
        }
        let of = self.find(tokens)?;
        Some(self.range(of.body, of.end))
    }

    /// The class whose name stands in front, past other names of it, from its `CLASS` on; nothing where none does.
    fn class_of(&self, tokens: &[Token<'a>]) -> Option<&'m [Token<'a>]> {
        let mut body = self.assigned(tokens)?;
        for _ in 0..MAX_PARAMETERIZED {
            if is_at(body, 0, "CLASS") {
                return Some(body);
            }
            if name_length(body) != body.len() {
                return None;
            }
            body = self.assigned(body)?;
        }
        None
    }

    /// Whether an assignment is one of a class: with its fields, or as another's name.
    fn is_class(&self, of: Assignment) -> bool {
        let body = self.range(of.body, of.end);
        is_at(body, 0, "CLASS")
            || (name_length(body) == body.len() && self.class_of(body).is_some())
    }

    /// Whether an assignment has parameters.
    fn has_parameters(&self, of: Assignment) -> bool {
        is_at(self.scope.tokens, of.start.saturating_add(1), "{")
    }

    /// Whether an assignment is one of a set of values or objects.
    fn is_set(&self, of: Assignment) -> bool {
        let second = of.start.saturating_add(1);
        is_name(self.scope.tokens, of.start)
            && second < of.body.saturating_sub(1)
            && is_at(self.scope.tokens, of.body, "{")
    }

    /// Puts a value set behind others, as its type with a constraint.
    fn push_set(&self, out: &mut Vec<Token<'a>>, of: Assignment) -> Result<(), AllocError> {
        let second = of.start.saturating_add(1);
        let assigns = of.body.saturating_sub(1);
        out.extend_from_slice(self.range(of.start, second))?;
        out.extend_from_slice(self.range(assigns, of.body))?;
        out.extend_from_slice(self.range(second, assigns))?;
        push_elements(out, self.range(of.body, of.end))
    }

    /// Puts an assignment behind others, where an octet can depend on it.
    fn push_assignment(&self, out: &mut Vec<Token<'a>>, of: Assignment) -> Result<(), AllocError> {
        let second = self.range(of.start.saturating_add(1), of.body);
        let is_field = second.iter().any(|token| token.text == "&");
        if self.is_class(of) || self.has_parameters(of) {
            return Ok(());
        }
        match self.class_of(second) {
            Some(class) if !is_field => self.push_objects(out, of, class),
            Some(_) | None if self.is_set(of) => self.push_set(out, of),
            Some(_) | None => out.extend_from_slice(self.range(of.start, of.end)),
        }
    }

    /// Puts a set of objects behind others as a type, where that is asked for; nothing of an object.
    fn push_objects(
        &self,
        out: &mut Vec<Token<'a>>,
        of: Assignment,
        class: &'m [Token<'a>],
    ) -> Result<(), AllocError> {
        match self.scope.tokens.get(of.start) {
            Some(name) if self.sets == ObjectSets::Types && self.is_set(of) => {
                push_object_set(*self, out, *name, class, self.body(of))
            }
            Some(_) | None => Ok(()),
        }
    }

    /// The tokens without what no octet depends on, and with value sets as types with a constraint.
    fn plain_tokens(&self) -> Result<Vec<Token<'a>>, AllocError> {
        let mut out = Vec::new(self.scope.alloc);
        let mut at = 0usize;
        for one in self.assignments.iter() {
            out.extend_from_slice(self.range(at, one.start))?;
            self.push_assignment(&mut out, *one)?;
            at = one.end;
        }
        out.extend_from_slice(self.rest(at))?;
        Ok(out)
    }

    /// Puts the type of a field of a class behind others, of which the tokens are the class's name and `.&field`, as a copying of that
    /// number. Answers how many tokens that is, with the set of objects behind it; 0 where there is none.
    fn push_field(
        &self,
        out: &mut Vec<Token<'a>>,
        tokens: &[Token<'a>],
        copy: usize,
    ) -> Result<usize, AllocError> {
        let field = name_length(tokens).saturating_add(2);
        let (Some(first), Some(name)) = (tokens.first(), tokens.get(field)) else {
            return Ok(0);
        };
        let Some(class) = self.class_of(tokens) else {
            return Ok(0);
        };
        let fields = inside(range(class, 1, class.len()));
        let at = Token { copy, ..*first };
        match field_type(self.scope.alloc, fields, *name)? {
            Some(FieldType::Open) => push_word(out, at, Kind::Name, "ANY")?,
            Some(FieldType::Declared(of)) => push_declared(out, of, at)?,
            None => return Ok(0),
        }
        let end = field.saturating_add(1);
        Ok(end.saturating_add(table_length(range(tokens, end, tokens.len()))))
    }

    /// Puts the value of an object's field behind others, of which the tokens are the object's name and `.&field`, as a copying of that
    /// number. Answers how many tokens that is; 0 where there is none.
    fn push_value(
        &self,
        out: &mut Vec<Token<'a>>,
        tokens: &[Token<'a>],
        copy: usize,
    ) -> Result<usize, AllocError> {
        let (Some(name), Some(field)) = (tokens.first(), tokens.get(3)) else {
            return Ok(0);
        };
        let module = self.scope.module_at(name.place);
        let Some(of) = self.find_in(module, name.text) else {
            return Ok(0);
        };
        let Some(class) = self.class_of(self.range(of.start.saturating_add(1), of.body)) else {
            return Ok(0);
        };
        let object = inside(self.range(of.body, of.end));
        match value_of(self.scope.alloc, object, class, field.text)? {
            Some(value) if field.kind == Kind::Word => push_copied(out, value, copy)?,
            _ => return Ok(0),
        }
        Ok(4)
    }

    /// Puts what `INSTANCE OF` a class stands for behind others, of which the tokens are that, as a copying of that number. Answers how many
    /// tokens that is, with the set of objects behind it; 0 where it is no class.
    fn push_instance_of(
        &self,
        out: &mut Vec<Token<'a>>,
        tokens: &[Token<'a>],
        copy: usize,
    ) -> Result<usize, AllocError> {
        let class = range(tokens, 2, tokens.len());
        let (Some(first), Some(_)) = (tokens.first(), self.class_of(class)) else {
            return Ok(0);
        };
        self.built_in
            .push_instance(out, class, Token { copy, ..*first })?;
        let end = name_length(class).saturating_add(2);
        Ok(end.saturating_add(table_length(range(tokens, end, tokens.len()))))
    }

    /// The parameters of a type, by their declarations and what is given for each.
    fn parameters_of<'t>(
        &self,
        dummies: &[&'t [Token<'a>]],
        given: &[&'t [Token<'a>]],
    ) -> Result<Vec<Parameter<'t, 'a>>, AllocError> {
        let mut all = Vec::new(self.scope.alloc);
        for (at, declared) in dummies.iter().enumerate() {
            if let (Some(dummy), Some(own)) = (declared.last(), given.get(at)) {
                let governor = governor_of(*declared);
                let governor = given_for(dummies, given, governor).unwrap_or(governor);
                all.push(Parameter {
                    governor,
                    dummy: *dummy,
                    given: *own,
                    is: self.sort_of(*dummy, governor, *own),
                })?;
            }
        }
        Ok(all)
    }

    /// What is given for a dummy: values between braces, where that is no set of objects.
    fn sort_of(&self, dummy: Token<'a>, governor: &[Token<'a>], given: &[Token<'a>]) -> Given {
        let is_set = dummy.kind == Kind::Name && !governor.is_empty() && is_at(given, 0, "{");
        if is_set && self.class_of(governor).is_none() {
            Given::Values
        } else {
            Given::Text
        }
    }

    /// Puts the text of a type with parameters behind others, with what is given for its dummies.
    fn push_body(
        &self,
        out: &mut Vec<Token<'a>>,
        of: Assignment,
        parameters: &[Parameter<'_, 'a>],
        copy: usize,
    ) -> Result<(), AllocError> {
        let body = self.range(of.body, of.end);
        for (at, token) in body.iter().enumerate() {
            match dummy_at(parameters, body, at) {
                Some(parameter) => push_given(out, parameter, range(body, 0, at), copy)?,
                None => out.push(Token { copy, ..*token })?,
            }
        }
        Ok(())
    }

    /// Puts what a type with parameters stands for behind others, of which the tokens are its name and the actual ones, as a copying of
    /// that number. Answers how many tokens that is; 0 where they aren't as many as its parameters.
    fn push_instance(
        &self,
        out: &mut Vec<Token<'a>>,
        tokens: &[Token<'a>],
        copy: usize,
    ) -> Result<usize, AllocError> {
        let Some(of) = self.find(tokens) else {
            return Ok(0);
        };
        let named = name_length(tokens);
        let actual = range(tokens, named, tokens.len());
        let given = parts_of(self.scope.alloc, inside(actual))?;
        let dummies = inside(self.range(of.start.saturating_add(1), of.body));
        let dummies = parts_of(self.scope.alloc, dummies)?;
        if !self.has_parameters(of) || given.len() != dummies.len() {
            return Ok(0);
        }
        let parameters = self.parameters_of(dummies.as_slice(), given.as_slice())?;
        self.push_body(out, of, parameters.as_slice(), copy)?;
        Ok(bracketed(actual).saturating_add(named))
    }

    /// Whether the name in front is one of EMBEDDED PDV or CHARACTER STRING, past other names and tags.
    fn names_unrestricted(&self, tokens: &[Token<'a>]) -> bool {
        let Some(assigned) = self.assigned(tokens) else {
            return false;
        };
        let mut body = behind_tags(assigned);
        for _ in 0..MAX_PARAMETERIZED {
            if is_unrestricted(body) {
                return true;
            }
            match self.assigned(body) {
                Some(next) if name_length(body) != 0 => body = behind_tags(next),
                Some(_) | None => break,
            }
        }
        false
    }

    /// What the name in front stands for: a macro's type of values where it is a type behind `front`, or one of EMBEDDED PDV or CHARACTER
    /// STRING whose identification constraints behind the name limit.
    fn named(&self, front: &[Token<'a>], tokens: &[Token<'a>]) -> Option<&'m [Token<'a>]> {
        let length = name_length(tokens);
        let name = tokens.get(length.checked_sub(1)?)?.text;
        let constraints = range(tokens, length, tokens.len());
        let is_limited = self.is_last && identification_of(constraints) != Identification::Any;
        let is_macro = self.macros.iter().any(|other| *other == name) && is_type_behind(front);
        if !is_limited && !is_macro {
            return None;
        }
        let assigned = self.assigned(tokens)?;
        if is_macro && is_at(assigned, 0, "BEGIN") {
            type_of_values(assigned)
        } else if is_limited && self.names_unrestricted(tokens) {
            Some(assigned)
        } else {
            None
        }
    }

    /// Puts what an EMBEDDED PDV or a CHARACTER STRING in front stands for behind others, at the place of its first word, or else what `named`
    /// says of the name in front. Answers how many tokens that is; 0 where it is none of these.
    fn push_named(
        &self,
        out: &mut Vec<Token<'a>>,
        tokens: &[Token<'a>],
        first: Token<'a>,
    ) -> Result<usize, AllocError> {
        if !is_unrestricted(tokens) {
            let Some(meant) = self.named(out.as_slice(), tokens) else {
                return Ok(0);
            };
            push_copied(out, meant, first.copy)?;
            return Ok(name_length(tokens));
        }
        let is_fixed = match identification_of(range(tokens, 2, tokens.len())) {
            _ if !self.is_last => return Ok(0),
            Identification::Any => false,
            Identification::Fixed => true,
            Identification::Other => return Ok(0),
        };
        self.built_in.push_unrestricted(out, first, is_fixed)?;
        Ok(2)
    }

    /// Puts what the first of the tokens stand for behind others, as a copying of that number. Answers how many they are; 0 where they stand
    /// for themselves.
    fn push_meant(
        &self,
        out: &mut Vec<Token<'a>>,
        tokens: &[Token<'a>],
        copy: usize,
    ) -> Result<usize, AllocError> {
        let Some(first) = tokens.first() else {
            return Ok(0);
        };
        let named = name_length(tokens).max(1);
        let is_field = is_at(tokens, named, ".") && is_at(tokens, named.saturating_add(1), "&");
        if out.len() > MAX_TOKENS {
            Ok(0)
        } else if first.kind == Kind::Word && is_field {
            self.push_value(out, tokens, copy)
        } else if first.kind != Kind::Name {
            Ok(0)
        } else if is_at(tokens, named, "{") {
            self.push_instance(out, tokens, copy)
        } else if is_field {
            self.push_field(out, tokens, copy)
        } else if first.text == "INSTANCE" && is_at(tokens, 1, "OF") {
            self.push_instance_of(out, tokens, copy)
        } else if is_at(tokens, 1, "::=") {
            Ok(0)
        } else {
            let first = Token { copy, ..*first };
            if self.built_in.push_type(out, first)? {
                return Ok(1);
            }
            self.push_named(out, tokens, first)
        }
    }

    /// The tokens with what each stands for; in that more may stand for others. `copies` counts how often that was so.
    fn replaced(
        &self,
        tokens: &[Token<'a>],
        copies: &mut usize,
    ) -> Result<Vec<Token<'a>>, AllocError> {
        let mut out = Vec::new(self.scope.alloc);
        let mut at = 0usize;
        for _ in 0..tokens.len() {
            let Some(first) = tokens.get(at) else {
                break;
            };
            let copy = copies.saturating_add(1);
            let rest = range(tokens, at, tokens.len());
            let taken = self.push_meant(&mut out, rest, copy)?;
            if taken == 0 {
                out.push(*first)?;
            } else {
                *copies = copy;
            }
            at = at.saturating_add(taken.max(1));
        }
        Ok(out)
    }
}

/// How many tokens a constraint by a set of objects has, where one stands in front.
fn table_length(tokens: &[Token<'_>]) -> usize {
    if is_at(tokens, 0, "(") && is_at(tokens, 1, "{") {
        bracketed(tokens)
    } else {
        0
    }
}

/// Whether a governor is the dummy of a parameter.
fn is_dummy(governor: &[Token<'_>], declared: &[Token<'_>]) -> bool {
    match (governor.first(), declared.last()) {
        (Some(first), Some(last)) => governor.len() == 1 && first.text == last.text,
        _ => false,
    }
}

/// What is given for the dummy that a governor is; nothing where it is none.
fn given_for<'t, 'a>(
    dummies: &[&'t [Token<'a>]],
    given: &[&'t [Token<'a>]],
    governor: &[Token<'a>],
) -> Option<&'t [Token<'a>]> {
    for (at, declared) in dummies.iter().enumerate() {
        if is_dummy(governor, *declared) {
            return given.get(at).copied();
        }
    }
    None
}

/// The tokens of modules, with what they stand for. `copies` counts how often one does; `sets` and `is_last` are what `Source` says of
/// them.
fn expanded<'a>(
    scope: Scope<'_, 'a>,
    sets: ObjectSets,
    is_last: bool,
    copies: &mut usize,
) -> Result<Vec<Token<'a>>, Refusal> {
    let assignments = assignments_of(scope)?;
    let built_in = BuiltIn::new(scope.alloc)?;
    let macros = macros_of(scope, assignments.as_slice())?;
    let source = Source {
        scope,
        assignments: assignments.as_slice(),
        built_in: &built_in,
        macros: macros.as_slice(),
        sets,
        is_last,
    };
    let mut tokens = source.plain_tokens()?;
    for _ in 0..MAX_PARAMETERIZED {
        let before = *copies;
        tokens = source.replaced(tokens.as_slice(), copies)?;
        if *copies == before {
            break;
        }
    }
    Ok(tokens)
}

/// The tokens of files with what they stand for, as far as they can be read as modules.
fn expand<'a>(
    alloc: Global,
    tokens: Vec<Token<'a>>,
    sets: ObjectSets,
    is_last: bool,
    copies: &mut usize,
) -> Result<Vec<Token<'a>>, Refusal> {
    match read_tree(alloc, tokens.as_slice(), true) {
        Ok(tree) => {
            let scope = Scope {
                alloc,
                modules: tree.modules(),
                tokens: tokens.as_slice(),
            };
            expanded(scope, sets, is_last, copies)
        }
        Err(Refusal::OutOfMemory) => Err(Refusal::OutOfMemory),
        Err(Refusal::At { .. }) => Ok(tokens),
    }
}

/// The tokens of the files' texts, with what types with parameters, fields of classes and value sets stand for, and sets of objects as it is
/// said.
fn tokens_by<'a>(
    alloc: Global,
    texts: &[&'a str],
    sets: ObjectSets,
) -> Result<Vec<Token<'a>>, Refusal> {
    let mut copies = 0usize;
    let tokens = expand(alloc, all_tokens(alloc, texts)?, sets, false, &mut copies)?;
    if has_unrestricted(tokens.as_slice()) {
        return expand(alloc, tokens, sets, true, &mut copies);
    }
    Ok(tokens)
}

/// The tokens of the files' texts, with what types with parameters, fields of classes and value sets stand for. What can't be put in its
/// place is left, and refused where it is read.
pub fn tokens_of<'a>(alloc: Global, texts: &[&'a str]) -> Result<Vec<Token<'a>>, Refusal> {
    tokens_by(alloc, texts, ObjectSets::LeftOut)
}

/// The same, with each set of objects as a type of what the open types that name it hold.
pub fn tokens_with_sets<'a>(alloc: Global, texts: &[&'a str]) -> Result<Vec<Token<'a>>, Refusal> {
    tokens_by(alloc, texts, ObjectSets::Types)
}
