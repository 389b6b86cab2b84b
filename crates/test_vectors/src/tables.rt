//! What types say of themselves by constants that no clause sees: whether they are choices, and the tables of their components and
//! alternatives.
use anyhow::{Error, Result};
use asn1_core::{AsnType, Choice, Constraints, Constructed, Field, Tag};
use oer_types::{
    AddDef, Adding, Addition7, AllDefault, AllOptional, Bare, BoolChoice, BushContent,
    ChainContent, ConstrainedOptions, DeepDefault, DefaultAndOptional, DefaultInteger, Empty,
    EmptyExtensible, ExtendedOptional, Foo, Group6, Held, Holder1, Holder2, Holding,
    LinkChoiceContent, LinkContent, ListOf, ManyOptional, Mixed, MixedSet, MixedSet2, Nested,
    NodeContent, Omitted, OneToEight, OnlyChoice, Outer, Pair, PriorityChoice, Sequence1,
    Sequence2, Sequence3, Sequence4, Sequence5, Sequence6, Sequence7, SequenceDuplicatesExtended,
    Sure, TestChoiceContent, TopLevelContent, WideChoice,
};
use oer_write::Encode;
use oertool_words::constrained::{UnderConstraints, with_word};
use rasn_oer::Decode;
use std::alloc::Global;
use std::fmt::Debug;

/// A type's own tag, and whether it is a choice.
fn kind_of<T: AsnType>(alloc: Global) -> Result<String> {
    let Tag { class, value } = T::TAG;
    Ok(format!(in alloc; "{:?}:{} choice={}", class, value, T::IS_CHOICE)?)
}

/// What is asked of the type of a word.
#[derive(Clone, Copy)]
struct OfWord {
    alloc: Global,
}

impl UnderConstraints for OfWord {
    type Output = Result<String>;

    fn under<T: Decode + Encode + Debug + PartialEq>(
        self,
        _constraints: Constraints,
    ) -> Result<String> {
        kind_of::<T>(self.alloc)
    }
}

/// The kind of a type by its word, or of one around another.
pub fn kind(alloc: Global, word: &str) -> Result<String> {
    match word {
        "OneToEight" => kind_of::<OneToEight>(alloc),
        "ListOf<bool>" => kind_of::<ListOf<bool>>(alloc),
        "Held<bool>" => kind_of::<Held<bool>>(alloc),
        "Held<choice>" => kind_of::<Held<PriorityChoice>>(alloc),
        "Bare<bool>" => kind_of::<Bare<bool>>(alloc),
        "Bare<choice>" => kind_of::<Bare<PriorityChoice>>(alloc),
        _ => match with_word(word, OfWord { alloc }) {
            Some(answer) => answer,
            None => Err(Error::msg("no such type")),
        },
    }
}

/// Of each row its index, the component's name, whether it has to be there, and its tag.
fn rows_of(alloc: Global, rows: &[Field<'_>]) -> Result<String> {
    let mut text = String::new(alloc);
    for row in rows {
        let Tag { class, value } = row.tag;
        let cell = format!(in alloc;
            " {}:{}:{:?}:{:?}:{}",
            row.index, row.name, row.presence, class, value
        )?;
        text.push_str(cell.as_str())?;
    }
    Ok(text)
}

/// The tables of a sequence or set, as its constants have them; a fault where its functions answer others.
fn table_of<const RC: usize, const EC: usize, T: Constructed<RC, EC>>(
    alloc: Global,
) -> Result<String> {
    let roots = T::FIELDS;
    let (is_same, additions) = match T::EXTENDED_FIELDS {
        Some(table) => {
            let is_same = table.fields == T::addition_fields() && table.len() == EC;
            (is_same, rows_of(alloc, table.fields)?)
        }
        None => {
            (
                T::addition_fields().is_empty(),
                String::from_str(alloc, " none")?,
            )
        }
    };
    if !is_same || roots.fields != T::root_fields() || roots.len() != RC {
        return Err(Error::msg("the functions answer other rows"));
    }
    let roots = rows_of(alloc, roots.fields)?;
    let extensible = T::IS_EXTENSIBLE;
    Ok(format!(in alloc;
        "extensible={} roots{} additions{}",
        extensible, roots, additions
    )?)
}

/// The tables of the sequence or set of that word. The words' own table can't hand these on: a method of a trait with a const
/// parameter can't be stated. A few types a function: what the check looks at in one grows with the square of
/// how many it names.
pub fn table(alloc: Global, word: &str) -> Result<String> {
    match word {
        "empty" => table_of::<0, 0, Empty>(alloc),
        "emptyext" => table_of::<0, 0, EmptyExtensible>(alloc),
        "seq1" => table_of::<1, 0, Sequence1>(alloc),
        "seq2" => table_of::<1, 2, Sequence2>(alloc),
        "seq5" => table_of::<1, 1, Sequence5>(alloc),
        _ => group_table(alloc, word),
    }
}

fn group_table(alloc: Global, word: &str) -> Result<String> {
    match word {
        "seq3" => table_of::<1, 1, Sequence3>(alloc),
        "Sequence4" => table_of::<1, 0, Sequence4>(alloc),
        "seq6" => table_of::<1, 1, Sequence6>(alloc),
        "Group6" => table_of::<1, 0, Group6>(alloc),
        _ => later_table(alloc, word),
    }
}

fn later_table(alloc: Global, word: &str) -> Result<String> {
    match word {
        "seq7" => table_of::<1, 4, Sequence7>(alloc),
        "Addition7" => table_of::<2, 0, Addition7>(alloc),
        "outer" => table_of::<1, 1, Outer>(alloc),
        "omitted" => table_of::<1, 1, Omitted>(alloc),
        _ => long_table(alloc, word),
    }
}

fn long_table(alloc: Global, word: &str) -> Result<String> {
    match word {
        "dup" => table_of::<3, 1, SequenceDuplicatesExtended>(alloc),
        "extopt" => table_of::<7, 4, ExtendedOptional>(alloc),
        "manyopt" => table_of::<13, 0, ManyOptional>(alloc),
        _ => default_table(alloc, word),
    }
}

fn default_table(alloc: Global, word: &str) -> Result<String> {
    match word {
        "defint" => table_of::<1, 0, DefaultInteger>(alloc),
        "defopt" => table_of::<2, 0, DefaultAndOptional>(alloc),
        "deepdef" => table_of::<1, 0, DeepDefault>(alloc),
        "AllDefault" => table_of::<2, 0, AllDefault>(alloc),
        _ => added_default_table(alloc, word),
    }
}

fn added_default_table(alloc: Global, word: &str) -> Result<String> {
    match word {
        "AddDef" => table_of::<1, 1, AddDef>(alloc),
        "holder1" => table_of::<1, 0, Holder1>(alloc),
        "holder2" => table_of::<1, 0, Holder2>(alloc),
        "AllOptional" => table_of::<2, 0, AllOptional>(alloc),
        _ => other_table(alloc, word),
    }
}

fn other_table(alloc: Global, word: &str) -> Result<String> {
    match word {
        "Pair" => table_of::<2, 0, Pair>(alloc),
        "Nested" => table_of::<2, 0, Nested>(alloc),
        "ConstrainedOptions" => table_of::<1, 0, ConstrainedOptions>(alloc),
        "Sure" => table_of::<1, 1, Sure>(alloc),
        _ => set_table(alloc, word),
    }
}

fn set_table(alloc: Global, word: &str) -> Result<String> {
    match word {
        "foo" => table_of::<3, 0, Foo>(alloc),
        "mixset" => table_of::<3, 1, MixedSet>(alloc),
        "mixset2" => table_of::<3, 2, MixedSet2>(alloc),
        _ => holding_table(alloc, word),
    }
}

fn holding_table(alloc: Global, word: &str) -> Result<String> {
    match word {
        "Mixed" => table_of::<2, 0, Mixed>(alloc),
        "Holding<bool>" => table_of::<1, 0, Holding<bool>>(alloc),
        "Adding<bool>" => table_of::<1, 1, Adding<bool>>(alloc),
        _ => recursive_table(alloc, word),
    }
}

/// Of what a type that contains itself holds.
fn recursive_table(alloc: Global, word: &str) -> Result<String> {
    match word {
        "Link" => table_of::<2, 0, LinkContent<bool>>(alloc),
        "toplevel" => table_of::<2, 0, TopLevelContent<bool>>(alloc),
        "Bush" => table_of::<2, 0, BushContent<bool>>(alloc),
        _ => own_table(alloc, word),
    }
}

fn own_table(alloc: Global, word: &str) -> Result<String> {
    match word {
        "Chain" => table_of::<1, 1, ChainContent<bool>>(alloc),
        "Node" => table_of::<3, 0, NodeContent<bool>>(alloc),
        _ => Err(Error::msg("no such table")),
    }
}

/// Of each tag its class and its number.
fn cells_of(alloc: Global, tags: &[Tag]) -> Result<String> {
    let mut text = String::new(alloc);
    for tag in tags {
        let cell = format!(in alloc; " {:?}:{}", tag.class, tag.value)?;
        text.push_str(cell.as_str())?;
    }
    Ok(text)
}

/// The tables of a choice, as its constants have them; a fault where its functions answer others.
fn tags_of<T: Choice>(alloc: Global) -> Result<String> {
    if T::VARIANTS != T::root_tags() || T::EXTENDED_VARIANTS != T::addition_tags() {
        return Err(Error::msg("the functions answer other tags"));
    }
    let roots = cells_of(alloc, T::VARIANTS)?;
    let additions = match T::EXTENDED_VARIANTS {
        Some(tags) => cells_of(alloc, tags)?,
        None => String::from_str(alloc, " none")?,
    };
    let kind = kind_of::<T>(alloc)?;
    Ok(format!(in alloc; "{} roots{} additions{}", kind, roots, additions)?)
}

/// The tables of the choice of that word.
pub fn tags(alloc: Global, word: &str) -> Result<String> {
    match word {
        "choice" => tags_of::<PriorityChoice>(alloc),
        "tagmax" => tags_of::<WideChoice>(alloc),
        "tag130" => tags_of::<OnlyChoice>(alloc),
        "BoolChoice" => tags_of::<BoolChoice>(alloc),
        _ => recursive_tags(alloc, word),
    }
}

fn recursive_tags(alloc: Global, word: &str) -> Result<String> {
    match word {
        "LinkChoice" => tags_of::<LinkChoiceContent<bool>>(alloc),
        "TestChoice" => tags_of::<TestChoiceContent<bool>>(alloc),
        _ => Err(Error::msg("no such choice")),
    }
}
