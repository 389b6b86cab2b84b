//! Tests of tags, narrowed constraints, tables in tag order, and sets without an order.
use asn1_base::{Bounded, Class, Constraints, Field, FieldPresence, Fields, SetOf, Tag};
use std::test::Fail;

/// Universal tags and the numbers of X.680, 8.4.
#[test]
fn universal_tags(rt: HostRuntime) {
    let rows = [
        (Tag::BOOL, 1),
        (Tag::INTEGER, 2),
        (Tag::OBJECT_IDENTIFIER, 6),
        (Tag::ENUMERATED, 10),
        (Tag::SET, 17),
        (Tag::GENERAL_STRING, 27),
        (Tag::DATE, 31),
    ];
    for (tag, number) in rows {
        assert_eq!(rt; tag, Tag::new(Class::Universal, number), "at {number}");
    }
}

/// What is left of the values 1 to 8 under further constraints.
const NARROWED: &str = "\
Some((Range { start: Some(5), end: Some(8) }, false)) None\n\
Some((Range { start: Some(1), end: Some(8) }, false)) None\n\
Some((Range { start: Some(1), end: Some(8) }, false)) None\n\
Some((Range { start: Some(1), end: Some(8) }, false)) Some((Single(3), false))\n\
";

#[test]
fn narrows_to_the_common_part(rt: HostRuntime) -> Result<(), Fail> {
    let own = Constraints::default().with_value(Bounded::Range {
        start: Some(1),
        end: Some(8),
    });
    let from_five = Bounded::Range {
        start: Some(5),
        end: None,
    };
    let mut told = String::new(rt.alloc());
    for other in [
        Constraints::NONE.with_value(from_five),
        Constraints::NONE.with_value(Bounded::Single(9)),
        Constraints::NONE.with_extensible_value(Bounded::Single(5)),
        Constraints::NONE.with_size(Bounded::Single(3)),
    ] {
        let narrowed = own.narrowed(other);
        let line = format!(in rt.alloc(); "{:?} {:?}\n", narrowed.value(), narrowed.size())?;
        told.push_str(line.as_str())?;
    }
    assert_eq!(rt; told.as_str(), NARROWED);
    Ok(())
}

static SET_ROWS: [Field<'static>; 3] = [
    Field {
        index: 0,
        tag: Tag {
            class: Class::Context,
            value: 444,
        },
        presence: FieldPresence::Optional,
        name: "a",
    },
    Field {
        index: 1,
        tag: Tag {
            class: Class::Context,
            value: 5,
        },
        presence: FieldPresence::Required,
        name: "b",
    },
    Field {
        index: 2,
        tag: Tag {
            class: Class::Application,
            value: 9,
        },
        presence: FieldPresence::Default,
        name: "c",
    },
];

#[test]
fn walks_in_tag_order(rt: HostRuntime) -> Result<(), Fail> {
    let table: Fields<3> = Fields::from_static(&SET_ROWS);
    let mut names = Vec::new(rt.alloc());
    for row in table.canonised() {
        names.push(row.index)?;
    }
    assert_eq!(rt; names.as_slice(), [2, 1, 0].as_slice());
    assert_eq!(rt; table.optional_and_default_fields().count(), 2);
    assert_eq!(rt; table.number_of_optional_and_default_fields(), 2);
    Ok(())
}

#[test]
fn sets_have_no_order(rt: HostRuntime) -> Result<(), Fail> {
    let mut own = SetOf::from_vec(vec![in rt.alloc(); 1, 2, 1]?);
    let other = SetOf::from_vec(vec![in rt.alloc(); 1, 1, 2]?);
    assert!(rt; own == other);
    own.insert(2)?;
    assert!(rt; own != other);
    assert_eq!(rt; own.to_vec()?.len(), 4);
    assert_eq!(rt; own.iter().count(), own.len());
    Ok(())
}
