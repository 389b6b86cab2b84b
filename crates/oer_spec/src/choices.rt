//! The tables of alternatives of a choice.
ghost use Rattle.std.specs.Prelude.{◌≡◌};
ghost use Rattle.asn1_core.specs.Tags.{holds};

use asn1_core::Tag;

/// Whether the tag is one of a table of alternatives.
pub fn is_among(tags: &[Tag], tag: Tag) -> bool
    ensures { result ≡ holds tags.now tag }
{
    for known in tags {
        if *known == tag {
            return true;
        }
    }
    false
}
