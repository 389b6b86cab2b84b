//! Octets by hand from X.696, of each type of docs/OWN_TYPE.md.

use example_types::{
    ClosingComponents, Message, MessageComponents, Notice, NoticeComponents, Report,
    ReportComponents, Signal, SignalAlternatives,
};
use rasn_oer::coer;
use rasn_oer::prelude::*;
use std::alloc::Global;
use std::test::Fail;

/// Whether the value is written as these octets, and they are read as the value.
pub(crate) fn agrees<T: Encode + Decode + PartialEq>(
    alloc: Global,
    value: &T,
    octets: &[u8],
) -> Result<bool, Fail> {
    let written = coer::encode(alloc, value)?;
    let read: T = coer::decode(alloc, octets)?;
    Ok(written.as_slice() == octets && read == *value)
}

#[test]
fn reports_are_written_and_read(rt: HostRuntime) -> Result<(), Fail> {
    let alloc = rt.alloc();
    let report: Report = Sequence(ReportComponents {
        urgent: true,
        number: Some(Integer::from_i128(5)),
    });
    assert!(rt; agrees(alloc, &report, b"\xC0\xFF\x01\x05")?);
    Ok(())
}

#[test]
fn signals_are_written_and_read(rt: HostRuntime) -> Result<(), Fail> {
    let alloc = rt.alloc();
    let level: Signal = OneOf(SignalAlternatives::Level(Integer::from_i128(5)));
    assert!(rt; agrees(alloc, &level, b"\x81\x01\x05")?);
    let count: Signal = OneOf(SignalAlternatives::Count(258));
    assert!(rt; agrees(alloc, &count, b"\x82\x02\x01\x02")?);
    Ok(())
}

#[test]
fn messages_are_written_and_read(rt: HostRuntime) -> Result<(), Fail> {
    let alloc = rt.alloc();
    let message: Message = Sequence(MessageComponents {
        version: 1,
        sent: Some(2),
        level: Integer::from_i128(5),
        key: Limited::new(OctetString::from_slice(alloc, b"\xAA\xBB\xCC")?),
        path: ListOf(Vec::from_array(alloc, [Octets(OctetString::from_slice(alloc, b"\xDD")?)])?),
    });
    let octets = [
        0x80, 0x01, 0, 0, 0, 0, 0, 0, 0, 2, 0xAA, 0xBB, 0xCC, 0x01, 0x01, 0x01, 0xDD,
    ];
    assert!(rt; agrees(alloc, &message, &octets)?);
    Ok(())
}

#[test]
fn notices_are_written_and_read(rt: HostRuntime) -> Result<(), Fail> {
    let alloc = rt.alloc();
    let notice: Notice = Sequence(NoticeComponents {
        ok: true,
        level: Some(Integer::from_i128(5)),
        closing: Some(Sequence(ClosingComponents {
            last: false,
            count: Some(258),
        })),
    });
    let octets = [
        0x80, 0xFF, 0x02, 0x06, 0xC0, 0x02, 0x01, 0x05, 0x04, 0x80, 0x00, 0x01, 0x02,
    ];
    assert!(rt; agrees(alloc, &notice, &octets)?);
    Ok(())
}
