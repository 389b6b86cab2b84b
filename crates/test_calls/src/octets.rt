//! Calls over octets that the caller owns: what stands in them, and the answers in numbers.
use asn1_core::{Codec, DecodeErrorKind};
use oer_calls::answer::{Answer, NO_OPTIONS, NO_ROOM, UNREAD, UNREAD_AS_OTHER};
use oer_calls::calls::{Checked, Outcome, canonicalise, check, convert};
use oer_calls::names::{kind_name, told};
use oer_calls::numbers::{canonicalise_by_numbers, check_by_numbers, convert_by_numbers};
use rasn_oer::DecoderOptions;
use rasn_oer::oer::CodecError;
use std::process::Abort;
use std::test::Fail;

// TRUE, FALSE: the first by an octet that is not canonical, and an octet behind it
const LENIENT: &[u8] = &[1, 2, 7, 0, 9];

#[test]
fn canonical_octets_stand_at_the_front(rt: HostRuntime) -> Result<(), Fail> {
    let alloc = rt.alloc();
    let mut out = [5u8; 6];
    let outcome = canonicalise::<Vec<bool>>(alloc, DecoderOptions::oer(), LENIENT, &mut out);
    assert_eq!(rt;
        outcome,
        Outcome::Done {
            consumed: 4,
            written: 4
        }
    );
    assert_eq!(rt; out.as_slice(), [1, 2, 0xff, 0, 5, 5].as_slice());
    let mut few = [5u8; 3];
    let outcome = canonicalise::<Vec<bool>>(alloc, DecoderOptions::oer(), LENIENT, &mut few);
    assert_eq!(rt;
        outcome,
        Outcome::NoRoom {
            consumed: 4,
            needed: 4
        }
    );
    assert_eq!(rt; few.as_slice(), [5, 5, 5].as_slice());
    let refused = canonicalise::<Vec<bool>>(alloc, DecoderOptions::coer(), LENIENT, &mut out);
    let kind = DecodeErrorKind::InvalidBool { value: 7 };
    assert_eq!(rt;
        refused,
        Outcome::Refused(CodecError::Decode(kind.with_codec(Codec::Coer)))
    );
    Ok(())
}

#[test]
fn octets_are_canonical_or_not(rt: HostRuntime) -> Result<(), Fail> {
    let alloc = rt.alloc();
    let lenient = check::<Vec<bool>>(alloc, DecoderOptions::oer(), LENIENT);
    assert_eq!(rt;
        lenient,
        Ok(Checked {
            consumed: 4,
            canonical: 4,
            is_canonical: false
        })
    );
    let canonical = check::<Vec<bool>>(alloc, DecoderOptions::oer(), &[1, 1, 0xff]);
    assert_eq!(rt;
        canonical,
        Ok(Checked {
            consumed: 3,
            canonical: 3,
            is_canonical: true
        })
    );
    Ok(())
}

#[test]
fn octets_of_one_type_become_those_of_another(rt: HostRuntime) -> Result<(), Fail> {
    let alloc = rt.alloc();
    let mut out = [5u8; 3];
    let outcome = convert::<Vec<bool>, bool>(alloc, DecoderOptions::oer(), LENIENT, &mut out);
    assert_eq!(rt;
        outcome,
        Outcome::Done {
            consumed: 4,
            written: 1
        }
    );
    assert_eq!(rt; out.as_slice(), [0xff, 5, 5].as_slice());
    Ok(())
}

#[test]
fn answers_are_numbers(rt: HostRuntime) -> Result<(), Fail> {
    let alloc = rt.alloc();
    let mut out = [5u8; 2];
    let none = canonicalise_by_numbers::<bool>(alloc, 2, 128, &[1], &mut out);
    assert_eq!(rt; none, Answer::no_options());
    assert_eq!(rt; none.status, NO_OPTIONS);
    let deep = check_by_numbers::<bool>(alloc, 0, 1025, &[1]);
    assert_eq!(rt; deep.status, NO_OPTIONS);
    let checked = check_by_numbers::<bool>(alloc, 0, 1, &[1, 1]);
    assert_eq!(rt;
        (
            checked.status,
            checked.consumed,
            checked.written,
            checked.flag
        ),
        (0, 1, 1, 0)
    );
    let refused = check_by_numbers::<bool>(alloc, 1, 1, &[1]);
    assert_eq!(rt;
        (refused.status, refused.kind, refused.number),
        (UNREAD, 4, 1)
    );
    let room = canonicalise_by_numbers::<Vec<bool>>(alloc, 0, 128, LENIENT, &mut out);
    assert_eq!(rt; (room.status, room.consumed, room.written), (NO_ROOM, 4, 4));
    let other = convert_by_numbers::<Vec<bool>, bool>(alloc, 1, 128, &[1, 1, 0xff], &mut out);
    assert_eq!(rt;
        (other.status, other.kind, other.number),
        (UNREAD_AS_OTHER, 4, 1)
    );
    assert_eq!(rt; out.as_slice(), [5, 5].as_slice());
    Ok(())
}

#[test]
fn kinds_have_names(rt: HostRuntime) -> Result<(), Fail> {
    assert_eq!(rt; kind_name(UNREAD, 4), "InvalidBool");
    assert_eq!(rt; kind_name(2, 4), "TimeNotRepresentable");
    assert_eq!(rt; kind_name(0, 4), "");
    let mut out = [5u8; 3];
    assert_eq!(rt; told("InvalidBool", &mut out), 11);
    assert_eq!(rt; out.as_slice(), "Inv".as_bytes());
    Ok(())
}
