//! Octets by hand from X.696, of each type of example_closures.

use crate::own_types::agrees;
use example_closures::{Command, Report, Status};
use rasn_oer::prelude::*;
use std::test::Fail;

#[test]
fn reports_are_written_and_read(rt: HostRuntime) -> Result<(), Fail> {
    let alloc = rt.alloc();
    let report = Report {
        urgent: true,
        number: Some(Integer::from_i128(5)),
    };
    assert!(rt; agrees(alloc, &report, b"\xC0\xFF\x01\x05")?);
    let none = Report {
        urgent: false,
        number: None,
    };
    assert!(rt; agrees(alloc, &none, b"\x00")?);
    Ok(())
}

#[test]
fn statuses_are_written_and_read(rt: HostRuntime) -> Result<(), Fail> {
    let alloc = rt.alloc();
    let status = Status {
        ready: true,
        code: Some(Integer::from_i128(5)),
    };
    assert!(rt; agrees(alloc, &status, b"\x80\x01\x05\xFF")?);
    let none = Status {
        ready: true,
        code: None,
    };
    assert!(rt; agrees(alloc, &none, b"\x00\xFF")?);
    Ok(())
}

#[test]
fn commands_are_written_and_read(rt: HostRuntime) -> Result<(), Fail> {
    let alloc = rt.alloc();
    let level = Command::Level(Integer::from_i128(5));
    assert!(rt; agrees(alloc, &level, b"\x80\x01\x05")?);
    assert!(rt; agrees(alloc, &Command::Reset(()), b"\x81\x00")?);
    Ok(())
}
