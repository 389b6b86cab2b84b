//! Which types stand in which crate and file.
ghost use Rattle.std.specs.Prelude.{◌≡◌, ◌+◌, IfOk, cond, map};
ghost use Rattle.std.specs.List.{All, flat_map};
ghost use Rattle.oergen_print.specs.Sections.{AreNumbered, HasNext, IsCutOf, IsNamed, IsSectionOf, crate_count, cuts_of, cycle_at, is_joined, numbers, of_cut, of_section};

use crate::printer::Printed;
use std::alloc::{AllocError, Global};

/// How many types a crate has, but for the rest of a cycle: so that its check stays within a few minutes.
const TYPES_A_CRATE: usize = 40;

/// How many lines a crate has, at least, that ends where a cycle begins: the cycle's own check takes as long as theirs.
const LINES_BEFORE_A_CYCLE: usize = 1000;

/// How many lines the types of a file have at most, where one type or cycle alone doesn't have more.
const LINES_A_FILE: usize = 600;

/// Where a file's types stand: the crate, the file's module, and the places.
#[derive(Drop)]
pub struct Section {
    pub library: String,
    pub module: String,
    cut: Cut,
}

/// The places of a file's types, the first and the one behind the last, and the numbers of its crate and its module, from 1.
#[derive(Clone, Copy)]
struct Cut {
    library: usize,
    module: usize,
    from: usize,
    to: usize,
}

impl Cut {
    /// Where the next file begins, in the same crate or in another.
    fn next(self, ends_crate: bool) -> Cut
        ensures from { result.from ≡ self.to }
        ensures to { result.to ≡ self.to }
        ensures numbers { HasNext self → numbers result ≡ cond ends_crate (self.library + 1, 1) (self.library, self.«module» + 1) }
    {
        let (library, module) = if ends_crate {
            (self.library.saturating_add(1), 1)
        } else {
            (self.library, self.module.saturating_add(1))
        };
        Cut {
            library,
            module,
            from: self.to,
            to: self.to,
        }
    }
}

/// The number of the cycle of the type at a place, if it is of one.
fn cycle_at(types: &[Printed], at: usize) -> Option<usize>
    ensures { result ≡ cycle_at types.now at }
{
    types.get(at)?.cycle
}

/// Whether a type is of the cycle of the one before.
fn is_joined(types: &[Printed], at: usize) -> bool
    ensures { result ≡ is_joined types.now at }
{
    match (cycle_at(types, at.saturating_sub(1)), cycle_at(types, at)) {
        (Some(before), Some(own)) => before == own,
        _ => false,
    }
}

/// Whether a cycle of several types begins there.
fn begins_cycle(types: &[Printed], at: usize) -> bool {
    !is_joined(types, at) && is_joined(types, at.saturating_add(1))
}

/// Whether a crate of so many types and lines ends before the type.
fn is_full(types: &[Printed], count: usize, lines: usize, at: usize) -> bool {
    count >= TYPES_A_CRATE || lines >= LINES_BEFORE_A_CYCLE && begins_cycle(types, at)
}

/// How many lines a type's text has.
fn lines_of(one: &Printed) -> usize {
    one.text.as_str().lines().count()
}

/// How many lines the type at a place has, with the rest of its cycle.
fn lines_from(types: &[Printed], at: usize) -> usize {
    let mut lines = 0usize;
    for (next, one) in types.iter().enumerate().skip(at) {
        if next > at && !is_joined(types, next) {
            break;
        }
        lines = lines.saturating_add(lines_of(one));
    }
    lines
}

/// Whether a file of so many lines has room for the type at a place, with its cycle.
fn has_room(types: &[Printed], lines: usize, at: usize) -> bool {
    lines.saturating_add(lines_from(types, at)) <= LINES_A_FILE
}

/// Cuts the types into crates and files: each is in one, in their order, and a cycle is in one.
fn cuts(alloc: Global, types: &[Printed]) -> Result<Vec<Cut>, AllocError>
    ensures each { IfOk result (λ all. flat_map (of_cut types.now) all.items ≡ types.now) }
    ensures within { IfOk result (λ all. All (IsCutOf types.now) all.items) }
    ensures numbered { IfOk result (λ all. AreNumbered (map numbers all.items)) }
{
    let mut all: Vec<Cut> = Vec::new(alloc);
    let mut cut = Cut {
        library: 1,
        module: 1,
        from: 0,
        to: 0,
    };
    let mut crate_from = 0usize;
    let mut crate_lines = 0usize;
    let mut lines = 0usize;
    for (at, one) in types.iter().enumerate() {
        let own = lines_of(one);
        lines = lines.saturating_add(own);
        crate_lines = crate_lines.saturating_add(own);
        cut.to = at.saturating_add(1);
        let count = cut.to.saturating_sub(crate_from);
        let ends_crate = is_full(types, count, crate_lines, cut.to) || cut.to == types.len();
        if is_joined(types, cut.to) || !ends_crate && has_room(types, lines, cut.to) {
            continue;
        }
        all.push(cut)?;
        cut = cut.next(ends_crate);
        if ends_crate {
            crate_from = cut.from;
            crate_lines = 0;
        }
        lines = 0;
    }
    Ok(all)
}

/// How many crates there are.
fn count_of(cuts: &[Cut]) -> usize
    ensures { result ≡ crate_count cuts.now }
{
    match cuts.last() {
        Some(last) => last.library,
        None => 0,
    }
}

/// The section of a cut, in one of so many crates: by their numbers from 1.
fn section_of(alloc: Global, name: &str, cut: Cut, count: usize) -> Result<Section, AllocError>
    ensures cut { IfOk result (λ one. one.cut ≡ cut) }
    ensures named { IfOk result (λ one. IsNamed name.now count one) }
{
    let Cut {
        library,
        module,
        ..
    } = cut;
    let zero = if module < 10 { "0" } else { "" };
    Ok(Section {
        library: if count > 1 {
            format!(in alloc; "{name}_{library}")?
        } else {
            String::from_str(alloc, name)?
        },
        module: format!(in alloc; "types_{zero}{module}")?,
        cut,
    })
}

/// The types by crates and files: each is in one, in their order, a cycle in one, and no two files have one name.
pub fn sections(alloc: Global, name: &str, types: &[Printed]) -> Result<Vec<Section>, AllocError>
    ensures each { IfOk result (λ all. flat_map (of_section types.now) all.items ≡ types.now) }
    ensures within { IfOk result (λ all. All (IsSectionOf types.now) all.items) }
    ensures numbered { IfOk result (λ all. AreNumbered (map numbers (cuts_of all.items))) }
    ensures named { IfOk result (λ all. All (IsNamed name.now (crate_count (cuts_of all.items))) all.items) }
{
    let cuts = cuts(alloc, types)?;
    let count = count_of(cuts.as_slice());
    let mut all = Vec::new(alloc);
    for cut in cuts.iter() {
        all.push(section_of(alloc, name, *cut, count)?)?;
    }
    Ok(all)
}

/// The types of a section.
pub fn types_of<'t>(types: &'t [Printed], section: &Section) -> &'t [Printed]
    ensures { IsSectionOf types.now section.now → result.now ≡ of_section types.now section.now }
{
    types.get(section.cut.from..section.cut.to).unwrap_or(&[])
}
