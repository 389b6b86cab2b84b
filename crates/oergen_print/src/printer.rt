//! All types in order of use, each printed or left out.
ghost use Rattle.std.specs.Prelude.{◌≡◌, ◌+◌, [], Err, false, IfOk, length};

use crate::answers::{Answers, answers_of, push_held_answers};
use crate::choices::push_choice;
use crate::cycles::{again, require_cycle, run_of};
use crate::depths::{Depth, depths_of, require_depth};
use crate::derives::with_clone;
use crate::enumerations::push_enumerated;
use crate::items::push_limits;
use crate::knots::{knot_name, owner_words, push_knot};
use crate::lines::laid_out;
use crate::notation::push_notation;
use crate::notes::push_noted;
use crate::objects::{Objects, objects_of, push_objects};
use crate::sequences::push_sequence;
use crate::shapes::shape_of;
use crate::templates::ALIAS;
use crate::text::Text;
use crate::uses::{KNOWN, declared_names};
use crate::weights::{Knot, Weights, knot_of, weights_of};
use oergen_layouts::definitions::{Cycle, Definition, Tie};
use oergen_layouts::listing::require_listed;
use oergen_layouts::scope::Scope;
use oergen_parse::ast::Body;
use oergen_parse::lexer::Token;
use oergen_parse::refusal::Refusal;
use std::alloc::{AllocError, Global};
use std::collections::BTreeMap;

/// Names, in small letters, that printed text has of the language and of the library's prelude.
const TAKEN: &str =
    "option some none result ok err vec string box drop debug partialeq eq copy clone self bool str any asntype \
bitstring bmpstring bounded choice class codec constraints constructed date decodeerror decodeerrorkind encodeerror \
encodeerrorkind enumerated field fieldpresence fields generalstring generalizedtime graphicstring ia5string \
numericstring objectidentifier octetstring printablestring sequenceof setof tag teletexstring universalstring utctime \
utf8string visiblestring constrainedinteger integer integerrange alternating alternative alternatives alternativeviews either \
enumeration numbered oneof decode decodechoice decodeinside decodeknot decoder decoderoptions additiongroup additions \
additionviews alternativeknot application compared components context defaulted defaultedaddition defaultvalue end \
extensible held holdsknot intagorder isfalse isnull isnumber istrue knot knotalternating knotadditions knotalternatives knotrow \
knotrowed layered limited limits listof optional optionaladdition optionaladditionknot optionalknot place private \
reads readsadditions readsalternatives readsknot readsknotadditions readsknotalternatives required requiredaddition requiredknot rowed \
schemed sequence set slotted slottedadditions tabled takes takesalternative takesknot takesknotalternative textorder universal views writes \
octets openoctets bmptext generaltext graphictext ia5text numerictext printabletext teletextext universaltext utf8text visibletext \
within equalasspelled spelled encode encoder bare isemptylist utf8_from are_bits bits_from bmp_from universal_from built fields \
part choicepart putspart readspart holdstags from_parts from_row pairs rows_of table tags namedbits between atleast atmost fixedsize sizebetween sizeatleast decode_open_type other_octets";

/// How often names may be put right.
const MAX_RENAMES: usize = 16;

/// A type that was printed: its name, its text, and the names that others may use.
#[derive(Drop)]
pub struct Printed {
    pub name: String,
    pub text: String,
    pub names: Vec<String>,
    /// The number of its cycle, if it is of one.
    pub cycle: Option<usize>,
    /// What the definitions of its cycle have of it.
    pub weights: Weights,
    /// What they have of it as their knot, which is the last of its cycle.
    pub knot: Option<Knot>,
    /// The answers that the prover asks for.
    pub answers: Vec<Answers>,
    /// Whether values of it have octets: it is no set of objects.
    pub is_coded: bool,
}

/// A type that was left out, and why.
#[derive(Drop)]
pub struct LeftOut {
    pub name: String,
    pub why: Refusal,
}

/// What came of the types.
#[derive(Drop)]
pub struct Outcome {
    pub printed: Vec<Printed>,
    pub left_out: Vec<LeftOut>,
}

/// What became of a type so far.
#[derive(Clone, Copy, PartialEq, Eq)]
enum State {
    New,
    Printed,
    LeftOut,
}

/// What is known so far: what became of each type, how deep each is, and what came of a cycle's other types, which are printed with its
/// first one, the next one last; and whether types derive `Clone`.
#[derive(Drop)]
struct Progress {
    states: Vec<State>,
    depths: Vec<Depth>,
    waiting: Vec<Result<Printed, Refusal>>,
    clones: bool,
}

impl Progress {
    /// Says what became of a type.
    fn set(&mut self, at: usize, state: State) {
        if let Some(place) = self.states.get_mut(at) {
            *place = state;
        }
    }
}

/// Refuses a type that stands on one that isn't printed, but for those of its own cycle; none where it isn't known yet what is printed.
fn require_targets<'m>(
    scope: Scope<'m, '_>,
    definition: &Definition<'m>,
    states: Option<&[State]>,
) -> Result<(), Refusal> {
    let Some(states) = states else {
        return Ok(());
    };
    for part in definition.parts.iter() {
        if let (Some(target), Tie::Plain) = (part.target, part.tie) {
            if states.get(target).copied() != Some(State::Printed) {
                return Err(scope.refused(part.inner.first, "a type that is printed"));
            }
        }
    }
    Ok(())
}

/// Prints a name for a type, by its Rust type; with the parameter of a knot where there is one.
fn push_name(out: &mut Text, name: &str, doc: &str, rust: &Text, knot: Option<&str>) {
    let mut words = owner_words(out.alloc(), doc, name, knot);
    words.begin("TYPE").push_text(rust);
    out.fill(ALIAS, &words);
}

/// A name for a type, or for a list or a type without parts.
fn push_alias<'m>(
    scope: Scope<'m, '_>,
    all: &[Definition<'m>],
    out: &mut Text,
    definition: &Definition<'m>,
    doc: &str,
) -> Result<(), Refusal> {
    let Some(part) = definition.parts.first() else {
        return Ok(());
    };
    let name = definition.rust_name.as_str();
    let shape = shape_of(scope, all, part, definition.of, name)?;
    push_name(out, name, doc, &shape.text, knot_name(all, definition));
    match shape.limits {
        Some(limits) => push_limits(scope, out, name, limits, definition.of.first),
        None => Ok(()),
    }
}

/// A name of a type of its cycle.
fn push_cycle_name(all: &[Definition<'_>], out: &mut Text, definition: &Definition<'_>, doc: &str) {
    let target = definition.parts.first().and_then(|part| part.target);
    if let Some(target) = target.and_then(|at| all.get(at)) {
        let rust = Text::of(out.alloc(), &[target.rust_name.as_str()]);
        push_name(out, definition.rust_name.as_str(), doc, &rust, None);
    }
}

/// The name in front of a type that is assigned; nothing in front of another.
fn name_before<'a>(scope: Scope<'_, 'a>, start: usize) -> Option<Token<'a>> {
    match scope.tokens.get(start.checked_sub(2)?..start)? {
        [name, assigns] if assigns.text == "::=" => Some(*name),
        _ => None,
    }
}

/// The comments in front of a type, and its ASN.1, as a doc comment.
fn doc_of(scope: Scope<'_, '_>, definition: &Definition<'_>) -> Result<String, AllocError> {
    let start = definition.of.first.index;
    let mut doc = Text::new(scope.alloc);
    let mut notation = Text::of(scope.alloc, &["/// `"]);
    if let Some(name) = name_before(scope, start) {
        push_noted(&mut doc, name.note);
        notation.push_all(&[name.text, " ::= "]);
    }
    push_notation(&mut notation, scope.tokens, start);
    doc.push_text(&notation);
    doc.end()
}

/// The comments in front of a set of objects, and what it is, as a doc comment.
fn set_doc_of(scope: Scope<'_, '_>, definition: &Definition<'_>) -> Result<String, AllocError> {
    let mut doc = Text::new(scope.alloc);
    if let Some(name) = name_before(scope, definition.of.first.index) {
        push_noted(&mut doc, name.note);
    }
    let name = definition.rust_name.as_str();
    doc.push_all(&[
        "/// What an open type of the objects `",
        name,
        "` holds, by the id beside it.\n",
    ]);
    doc.end()
}

/// The text of a set of objects: nothing where it is one of sets for several fields, which are printed by themselves.
fn set_text_of<'m>(
    scope: Scope<'m, '_>,
    all: &[Definition<'m>],
    definition: &Definition<'m>,
    set: Objects,
) -> Result<String, Refusal> {
    let mut out = Text::new(scope.alloc);
    if set == Objects::Held {
        let doc = set_doc_of(scope, definition)?;
        push_objects(scope, all, &mut out, definition, doc.as_str())?;
    }
    Ok(laid_out(scope.alloc, &out)?)
}

/// The text of one type.
fn text_of<'m>(
    scope: Scope<'m, '_>,
    all: &[Definition<'m>],
    definition: &Definition<'m>,
    states: Option<&[State]>,
) -> Result<String, Refusal> {
    require_targets(scope, definition, states)?;
    if let Some(set) = objects_of(scope, definition) {
        return set_text_of(scope, all, definition, set);
    }
    let doc = doc_of(scope, definition)?;
    let doc = doc.as_str();
    let mut out = Text::new(scope.alloc);
    match &definition.of.body {
        Body::Sequence(_) | Body::Set(_) => push_sequence(scope, all, &mut out, definition, doc)?,
        Body::Choice(_) => push_choice(scope, all, &mut out, definition, doc)?,
        Body::Enumerated(items, root) => {
            let items = (items.as_slice(), root.unwrap_or(items.len()));
            push_enumerated(scope, &mut out, definition, items, doc)?;
        }
        Body::Reference(_) if definition.cycle.is_some() => {
            push_cycle_name(all, &mut out, definition, doc);
        }
        Body::Simple(_) | Body::Integer(_) | Body::BitString(_) | Body::Reference(_) => {
            push_alias(scope, all, &mut out, definition, doc)?
        }
        Body::SequenceOf(_) | Body::SetOf(_) => push_alias(scope, all, &mut out, definition, doc)?,
    }
    if knot_name(all, definition) == Some(definition.rust_name.as_str()) {
        push_knot(scope.alloc, &mut out, definition);
    }
    Ok(laid_out(scope.alloc, &out)?)
}

/// A name in small letters.
fn lower(alloc: Global, name: &str) -> Result<String, AllocError> {
    let mut out = Text::new(alloc);
    out.push_lower(name);
    out.end()
}

/// Whether a name, in small letters, is one that printed text has of the language or of a library.
fn is_taken(name: &str) -> bool {
    let is_known = KNOWN.split(' ').any(|path| match path.rsplit_once("::") {
        Some((_, known)) => known.eq_ignore_ascii_case(name),
        None => false,
    });
    is_known || TAKEN.split(' ').any(|taken| taken == name)
}

/// The names that the type at a place is printed with, each in small letters and whether it is the type's own: none of a type that isn't
/// printed.
fn names_at<'m>(
    scope: Scope<'m, '_>,
    all: &[Definition<'m>],
    at: usize,
) -> Result<Vec<(String, bool)>, AllocError> {
    let alloc = scope.alloc;
    let mut names = Vec::new(alloc);
    let Some(definition) = all.get(at) else {
        return Ok(names);
    };
    match text_of(scope, all, definition, None) {
        Ok(text) => {
            for (name, _) in declared_names(alloc, text.as_str())? {
                let is_own = name.as_str() == definition.rust_name.as_str();
                names.push((lower(alloc, name.as_str())?, is_own))?;
            }
            Ok(names)
        }
        Err(Refusal::OutOfMemory) => Err(AllocError),
        Err(Refusal::At { .. }) => Ok(names),
    }
}

/// Printed names in small letters, each with the place of its type and whether it is the type's own.
type Places = BTreeMap<String, (usize, bool)>;

/// The place of the type that has to be named otherwise, where a name of the one at a place is taken: of two types the one that takes the
/// other's name for something that is printed of it, else the later.
fn renamed(places: &Places, name: &str, is_own: bool, at: usize) -> Option<usize> {
    if is_taken(name) {
        return Some(at);
    }
    match places.get(name) {
        Some((other, false)) if is_own => Some(*other),
        Some(_) => Some(at),
        None => None,
    }
}

/// Puts the names of the type at a place to those of others. Answers the place of a type that has to be named otherwise.
fn clash_at<'m>(
    scope: Scope<'m, '_>,
    all: &[Definition<'m>],
    at: usize,
    places: &mut Places,
) -> Result<Option<usize>, AllocError> {
    for (name, is_own) in names_at(scope, all, at)? {
        let found = renamed(places, name.as_str(), is_own, at);
        if found.is_some() {
            return Ok(found);
        }
        places.insert(name, (at, is_own))?;
    }
    Ok(None)
}

/// The places of types that have to be named otherwise; one may be there twice.
fn clashes<'m>(scope: Scope<'m, '_>, all: &[Definition<'m>]) -> Result<Vec<usize>, AllocError> {
    let mut places = BTreeMap::new(scope.alloc);
    let mut found = Vec::new(scope.alloc);
    if all.iter().any(|one| one.cycle.is_some()) {
        places.insert(String::from_str(scope.alloc, "k")?, (all.len(), true))?;
    }
    for at in 0..all.len() {
        if let Some(clash) = clash_at(scope, all, at, &mut places)? {
            found.push(clash)?;
        }
    }
    Ok(found)
}

/// Puts `_` behind the names of the types at some places.
fn rename(all: &mut Vec<Definition<'_>>, places: &[usize]) -> Result<(), AllocError> {
    for at in places.iter() {
        if let Some(definition) = all.get_mut(*at) {
            definition.rust_name.push('_')?;
        }
    }
    Ok(())
}

/// Puts `_` behind names of types, which no name of ASN.1 has, until what is printed of each has names that neither another type nor the
/// library has, in letters of either size. Refused where so many names are one that this doesn't come to an end.
pub fn free_names<'m>(scope: Scope<'m, '_>, all: &mut Vec<Definition<'m>>) -> Result<(), Refusal> {
    const READS: &str =
        "a type none of whose printed names, in letters of either size, is another's";
    let mut left = None;
    for _ in 0..all.len().saturating_add(MAX_RENAMES) {
        let found = clashes(scope, all.as_slice())?;
        left = found
            .first()
            .and_then(|at| all.get(*at))
            .map(|one| one.of.first);
        if left.is_none() {
            break;
        }
        rename(all, found.as_slice())?;
    }
    match left {
        Some(first) => Err(scope.refused(first, READS)),
        None => Ok(()),
    }
}

/// The names of a text that others may use.
fn shown_names(alloc: Global, text: &str) -> Result<Vec<String>, AllocError> {
    let mut names = Vec::new(alloc);
    for (name, is_shown) in declared_names(alloc, text)? {
        if is_shown {
            names.push(name)?;
        }
    }
    Ok(names)
}

/// Prints the type at a place, with its names.
fn print_one<'m>(
    scope: Scope<'m, '_>,
    all: &[Definition<'m>],
    at: usize,
    definition: &Definition<'m>,
    progress: &mut Progress,
) -> Result<Printed, Refusal> {
    require_depth(scope, all, definition, progress.depths.get(at))?;
    let mut text = text_of(scope, all, definition, Some(progress.states.as_slice()))?;
    if progress.clones {
        text = with_clone(scope.alloc, text.as_str())?;
    }
    let names = shown_names(scope.alloc, text.as_str())?;
    let mut answers = answers_of(scope, all, definition)?;
    push_held_answers(scope.alloc, text.as_str(), &mut answers)?;
    Ok(Printed {
        name: definition.rust_name.clone()?,
        text,
        names,
        cycle: definition.cycle.map(|cycle| cycle.number),
        weights: weights_of(scope, all, definition)?,
        knot: knot_of(scope.alloc, all, definition)?,
        answers,
        is_coded: objects_of(scope, definition).is_none(),
    })
}

/// Prints the types of a cycle, the last one first.
fn print_members<'m>(
    scope: Scope<'m, '_>,
    all: &[Definition<'m>],
    run: &[usize],
    progress: &mut Progress,
) -> Result<Vec<Result<Printed, Refusal>>, Refusal> {
    let mut made = Vec::new(scope.alloc);
    for at in run.iter().rev() {
        if let Some(definition) = all.get(*at) {
            made.push(Ok(print_one(scope, all, *at, definition, progress)?))?;
        }
    }
    Ok(made)
}

/// A refusal for each of so many types.
fn refuse_all(
    alloc: Global,
    why: &Refusal,
    count: usize,
) -> Result<Vec<Result<Printed, Refusal>>, Refusal> {
    let mut made = Vec::new(alloc);
    for _ in 0..count {
        made.push(Err(again(alloc, why)))?;
    }
    Ok(made)
}

/// Refuses types of which one can't be listed.
fn require_all<'m>(
    scope: Scope<'m, '_>,
    all: &[Definition<'m>],
    run: &[usize],
) -> Result<(), Refusal> {
    for at in run.iter() {
        if let Some(definition) = all.get(*at) {
            require_listed(scope, all, definition)?;
        }
    }
    Ok(())
}

/// Prints the types of a cycle. Refused where one of them can't be listed, or isn't printed.
fn print_run<'m>(
    scope: Scope<'m, '_>,
    all: &[Definition<'m>],
    run: &[usize],
    cycle: Cycle,
    progress: &mut Progress,
) -> Result<Vec<Result<Printed, Refusal>>, Refusal> {
    require_all(scope, all, run)?;
    require_cycle(scope, all, cycle, run)?;
    print_members(scope, all, run, progress)
}

/// Prints a type that is of no cycle. Refused where it can't be resolved, listed or printed.
fn print_alone<'m>(
    scope: Scope<'m, '_>,
    all: &[Definition<'m>],
    at: usize,
    definition: &Definition<'m>,
    progress: &mut Progress,
) -> Result<Printed, Refusal> {
    if let Some(why) = &definition.fault {
        return Err(again(scope.alloc, why));
    }
    require_listed(scope, all, definition)?;
    print_one(scope, all, at, definition, progress)
}

/// Prints the type whose turn it is. At the turn of the first type of a cycle all of them are printed, or each is refused as the first of
/// them is that can't be printed.
fn print_at<'m>(
    scope: Scope<'m, '_>,
    all: &[Definition<'m>],
    order: &[usize],
    turn: usize,
    definition: &Definition<'m>,
    progress: &mut Progress,
) -> Result<Printed, Refusal> {
    let Some(cycle) = definition.cycle else {
        let at = order.get(turn).copied().unwrap_or(turn);
        return print_alone(scope, all, at, definition, progress);
    };
    if progress.waiting.is_empty() {
        let run = run_of(all, order, turn, cycle);
        progress.waiting = match print_run(scope, all, run, cycle, progress) {
            Ok(made) => made,
            Err(why) => refuse_all(scope.alloc, &why, run.len())?,
        };
    }
    match progress.waiting.pop() {
        Some(made) => made,
        None => Err(scope.refused(definition.of.first, "a type that is printed")),
    }
}

/// A type that is left out; the refusal itself, where types aren't left out or memory was refused.
fn left_out_by(
    definition: &Definition<'_>,
    why: Refusal,
    leaves_out: bool,
) -> Result<LeftOut, Refusal>
    ensures refused { leaves_out ≡ false → result ≡ Err why }
    ensures reason { IfOk result (λ one. one.why ≡ why) }
{
    if !leaves_out || matches!(why, Refusal::OutOfMemory) {
        return Err(why);
    }
    let name = definition.rust_name.clone()?;
    Ok(LeftOut { name, why })
}

/// Prints types in an order of use that has the types of a cycle together: as many are printed and left out together as are handed
/// in. Refused at the first that can't be printed; with `leaves_out` that one, its cycle, and all that stand on them, are left out. With
/// `clones` they derive `Clone`.
pub fn print_types<'m>(
    scope: Scope<'m, '_>,
    all: &[Definition<'m>],
    order: &[usize],
    leaves_out: bool,
    clones: bool,
) -> Result<Outcome, Refusal>
    ensures unasked { leaves_out ≡ false → IfOk result (λ it. it.left_out.items ≡ []) }
    ensures each { IfOk result (λ it. length it.printed.items + length it.left_out.items ≡ length all.now) }
{
    let alloc = scope.alloc;
    let mut progress = Progress {
        states: vec![in alloc; State::New; all.len()]?,
        depths: depths_of(scope, all, order)?,
        waiting: Vec::new(alloc),
        clones,
    };
    let mut printed = Vec::new(alloc);
    let mut left_out = Vec::new(alloc);
    for turn in 0..all.len() {
        let at = order.get(turn).copied().unwrap_or(turn);
        let definition = all.get(at).unwrap_or(&all[turn]);
        let state = match print_at(scope, all, order, turn, definition, &mut progress) {
            Ok(one) => {
                printed.push(one)?;
                State::Printed
            }
            Err(why) => {
                left_out.push(left_out_by(definition, why, leaves_out)?)?;
                State::LeftOut
            }
        };
        progress.set(at, state);
    }
    Ok(Outcome { printed, left_out })
}
