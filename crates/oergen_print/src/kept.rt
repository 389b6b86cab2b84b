//! Types that keep what newer versions of them have: alternatives by tag and octets, enumerated values by number.

use crate::printer::Printed;
use oergen_layouts::definitions::Definition;
use oergen_parse::ast::Body;

/// The library that has them.
pub const KEPT_LIBRARY: &str = "oer_kept";

/// Its CHOICE.
const KEPT_CHOICE: &str = "KeptChoice";

/// Its ENUMERATED.
const KEPT_ENUMERATION: &str = "KeptEnumeration";

/// The library's type for a CHOICE.
pub fn choice_holder(keeps_unknown: bool) -> &'static str {
    if keeps_unknown { KEPT_CHOICE } else { "OneOf" }
}

/// The library's type for an ENUMERATED.
pub fn enumeration_holder(keeps_unknown: bool) -> &'static str {
    if keeps_unknown {
        KEPT_ENUMERATION
    } else {
        "Enumeration"
    }
}

/// Whether a newer version of a type may have alternatives or values that this one hasn't.
fn may_grow(definition: &Definition<'_>) -> bool {
    match &definition.of.body {
        Body::Choice(_) => definition.is_extensible,
        Body::Enumerated(_, mark) => mark.is_some(),
        Body::Simple(_) | Body::Integer(_) | Body::BitString(_) | Body::Reference(_) => false,
        Body::Sequence(_) | Body::Set(_) | Body::SequenceOf(_) | Body::SetOf(_) => false,
    }
}

/// Says of each type whether it keeps what newer versions have: all that may grow.
pub fn keep_unknown(all: &mut Vec<Definition<'_>>) {
    for definition in all.iter_mut() {
        definition.keeps_unknown = may_grow(definition);
    }
}

/// Whether types use the library that keeps what newer versions have.
pub fn use_kept(types: &[Printed]) -> bool {
    types.iter().any(|one| one.text.contains(KEPT_CHOICE) || one.text.contains(KEPT_ENUMERATION))
}
