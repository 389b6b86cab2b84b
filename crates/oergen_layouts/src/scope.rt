//! Finds what a name stands for: in its module, and in the modules that this one imports from (X.680, clause 13).
ghost use Rattle.std.specs.Prelude.{◌≡◌, ◌<◌, ◌^◌, IfOk, IfSome, MatchOption, length, take};
ghost use Rattle.std.specs.List.{slice_get};
ghost use Rattle.oergen_layouts.specs.Definitions.{assigned};
ghost use Rattle.oergen_layouts.specs.Tags.{AreAutomatic};

use oergen_parse::ast::{Body, Module, Reference, Tagging, Type, ValueAssignment};
use oergen_parse::lexer::{Kind, Token, TokenId, tokens};
use oergen_parse::marks::with_marks;
use oergen_parse::refusal::{Place, Refusal};
use std::alloc::Global;

/// How many types may stand for one another in a row, and how many modules may import a name from one another.
const MAX_CHAIN: usize = 64;

/// What stands for a token that isn't there.
const NO_TOKEN: Token<'static> = Token {
    kind: Kind::End,
    text: "",
    note: "",
    place: Place {
        file: 0,
        line: 0,
        column: 0,
    },
    copy: 0,
};

/// The modules that were handed in, and their tokens.
#[derive(Clone, Copy)]
pub struct Scope<'m, 'a> {
    pub alloc: Global,
    pub modules: &'m [Module],
    pub tokens: &'m [Token<'a>],
}

/// A type that was assigned to a name: its place among all assignments of types, and the type.
#[derive(Clone, Copy)]
pub struct Found<'m> {
    pub index: usize,
    pub of: &'m Type,
}

/// The tokens of the files' texts, in turn, with the extension marks that are implied.
pub fn all_tokens<'a>(alloc: Global, texts: &[&'a str]) -> Result<Vec<Token<'a>>, Refusal> {
    let mut all = Vec::new(alloc);
    for (file, text) in texts.iter().enumerate() {
        let own = tokens(alloc, file, *text)?;
        all.extend_from_slice(with_marks(alloc, own.as_slice())?.as_slice())?;
    }
    Ok(all)
}

impl<'m, 'a> Scope<'m, 'a> {
    /// A token by its number.
    pub fn token(&self, id: TokenId) -> Token<'a>
        ensures { IfSome (slice_get self.now.tokens.now id.index) (λ token. result ≡ token) }
    {
        self.tokens.get(id.index).copied().unwrap_or(NO_TOKEN)
    }

    /// A token's text.
    pub fn text(&self, id: TokenId) -> &'a str
        ensures { IfSome (slice_get self.now.tokens.now id.index) (λ token. result ≡ token.text) }
    {
        self.token(id).text
    }

    /// The refusal of a token, where `reads` can be read.
    pub fn refused(&self, id: TokenId, reads: &str) -> Refusal {
        Refusal::of(self.alloc, self.token(id), reads)
    }

    /// The refusal of a token for what another has too: both names, and what they share.
    pub fn refused_beside(
        &self,
        id: TokenId,
        reads: &str,
        names: (&str, &str),
        shared: &str,
    ) -> Refusal {
        let (own, other) = names;
        match format!(in self.alloc; "{reads}: '{own}' and '{other}' are both {shared}") {
            Ok(reads) => self.refused(id, reads.as_str()),
            Err(_) => Refusal::OutOfMemory,
        }
    }

    /// The name of the module at a place.
    pub fn module_name(&self, module: usize) -> &'a str {
        match self.modules.get(module) {
            Some(module) => self.text(module.name),
            None => "",
        }
    }

    /// The module that a token is written in, by its number: what a name stands for is looked up there.
    pub fn module_of(&self, id: TokenId) -> usize
        ensures { 0 < length self.now.modules.now → result < length self.now.modules.now }
    {
        self.module_at(self.token(id).place)
    }

    /// The module that a place is in: the last that begins there or in front of it.
    pub fn module_at(&self, place: Place) -> usize
        ensures { 0 < length self.now.modules.now → result < length self.now.modules.now }
    {
        let mut home = 0usize;
        for (at, module) in self.modules.iter().enumerate() {
            if !place.is_before(self.token(module.name).place) {
                home = at;
            }
        }
        home
    }

    /// How the types of the module that a token is written in are tagged.
    pub fn tagging_of(&self, id: TokenId) -> Tagging
        ensures { AreAutomatic self.now.modules.now → result ≡ Tagging.Automatic }
    {
        match self.modules.get(self.module_of(id)) {
            Some(module) => module.tagging,
            None => Tagging::Explicit,
        }
    }

    /// Whether a name stands among others.
    fn has(&self, names: &[TokenId], name: &str) -> bool {
        names.iter().any(|id| self.text(*id) == name)
    }

    /// The place of the module of that name, where one was handed in.
    pub fn module_by_name(&self, name: &str) -> Option<usize> {
        for (at, module) in self.modules.iter().enumerate() {
            if self.text(module.name) == name {
                return Some(at);
            }
        }
        None
    }

    /// The place of the module of that name.
    fn module_named(&self, name: TokenId) -> Result<usize, Refusal> {
        match self.module_by_name(self.text(name)) {
            Some(at) => Ok(at),
            None => Err(self.refused(name, "the name of a module that was handed in")),
        }
    }

    /// The module that a name is imported from.
    fn import_of(&self, at: usize, name: &str) -> Option<TokenId> {
        let module = self.modules.get(at)?;
        for import in module.imports.iter() {
            if self.has(import.names.as_slice(), name) {
                return Some(import.from);
            }
        }
        None
    }

    /// The module that a name is imported from, where it is one that was handed in.
    pub fn home_behind(&self, at: usize, name: &str) -> Option<usize> {
        self.module_by_name(self.text(self.import_of(at, name)?))
    }

    /// Whether a module lets others import a name.
    fn exports(&self, home: usize, name: &str) -> bool {
        match self.modules.get(home) {
            Some(module) => match &module.exports {
                Some(names) => self.has(names.as_slice(), name),
                None => true,
            },
            None => false,
        }
    }

    /// The module in which the name is assigned, past those that import it themselves. Refused where a module wasn't handed in, or doesn't
    /// export the name.
    fn home_of(&self, reference: Reference) -> Result<usize, Refusal> {
        let (name, text) = (reference.name, self.text(reference.name));
        let mut home = self.module_of(name);
        let mut from = match reference.module {
            Some(module) => Some(module),
            None => self.import_of(home, text),
        };
        for _ in 0..MAX_CHAIN {
            let Some(module) = from else {
                break;
            };
            let next = self.module_named(module)?;
            if next != home && !self.exports(next, text) {
                return Err(self.refused(name, "a name that its module exports"));
            }
            home = next;
            from = self.import_of(home, text);
        }
        Ok(home)
    }

    /// How many types are assigned in the modules in front of one.
    fn types_before(&self, module: usize) -> usize
        ensures { length (assigned self.now.modules.now) < 2 ^ 64 → result ≡ length (assigned (take «module» self.now.modules.now)) }
    {
        let mut count = 0usize;
        for one in self.modules.get(..module).unwrap_or(self.modules).iter() {
            count = count.saturating_add(one.types.len());
        }
        count
    }

    /// Whether a module's assignment of a name was left out.
    fn is_left_out(&self, home: usize, name: &str) -> bool {
        match self.modules.get(home) {
            Some(module) => module.unread.iter().any(|one| self.text(one.name) == name),
            None => false,
        }
    }

    /// The refusal of a name that no type has in the module where it should be assigned.
    fn no_type(&self, name: TokenId, home: usize) -> Refusal {
        if self.is_left_out(home, self.text(name)) {
            return self.refused(name, "the name of a type that isn't left out");
        }
        if home == self.module_of(name) {
            let reads = "the name of a type that is assigned or imported, without parameters";
            return self.refused(name, reads);
        }
        let module = self.module_name(home);
        match format!(in self.alloc;
            "the name of a type that {module} assigns, without parameters"
        ) {
            Ok(reads) => self.refused(name, reads.as_str()),
            Err(_) => Refusal::OutOfMemory,
        }
    }

    /// The type of a name.
    pub fn find_type(&self, reference: Reference) -> Result<Found<'m>, Refusal>
        ensures { length (assigned self.now.modules.now) < 2 ^ 64 → IfOk result (λ found. MatchOption (slice_get (assigned self.now.modules.now) found.index) ⊥ (λ one. one.1 ≡ found.of.now)) }
    {
        let home = self.home_of(reference)?;
        let name = self.text(reference.name);
        let mut index = self.types_before(home);
        if let Some(module) = self.modules.get(home) {
            for one in module.types.iter() {
                if self.text(one.name) == name {
                    return Ok(Found { index, of: &one.of });
                }
                index = index.saturating_add(1);
            }
        }
        Err(self.no_type(reference.name, home))
    }

    /// The assignment of a value's name.
    pub fn find_value(&self, reference: Reference) -> Result<&'m ValueAssignment, Refusal> {
        let home = self.home_of(reference)?;
        let name = self.text(reference.name);
        if let Some(module) = self.modules.get(home) {
            for one in module.values.iter() {
                if self.text(one.name) == name {
                    return Ok(one);
                }
            }
        }
        Err(self.refused(
            reference.name,
            "the name of a value that is assigned or imported",
        ))
    }

    /// A type and the types that it stands for, in turn; the last one is no name.
    pub fn chain_of(&self, start: &'m Type) -> Result<Vec<&'m Type>, Refusal> {
        let mut chain = Vec::new(self.alloc);
        let mut of = start;
        for _ in 0..MAX_CHAIN {
            chain.push(of)?;
            let Body::Reference(name) = &of.body else {
                return Ok(chain);
            };
            of = self.find_type(*name)?.of;
        }
        Err(self.refused(
            start.first,
            "a type that isn't a name of itself, or behind 64 names",
        ))
    }

    /// What a type stands for: no name.
    pub fn base_of(&self, start: &'m Type) -> Result<&'m Type, Refusal> {
        let chain = self.chain_of(start)?;
        Ok(chain.last().copied().unwrap_or(start))
    }
}
