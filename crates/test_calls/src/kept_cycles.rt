//! Octets by hand from X.696, of types that contain themselves and keep what newer versions have.

use crate::kept::{agree, only_lenient, other, why_unwritten};
use asn1_core::{DecodeErrorKind, EncodeErrorKind};
use example_recursive::{
    BodyAlternatives, Envelope, EnvelopeComponents, Query, QueryAlternatives, QueryContent,
};
use oer_kept::KeptChoice;
use rasn_oer::prelude::*;
use std::alloc::Global;
use std::test::Fail;

/// An envelope of a newer version, whose body has the tag [5] and two octets.
fn newer(alloc: Global) -> Result<Envelope, Fail> {
    let id = OctetString::from_slice(alloc, b"\xAA\xBB")?;
    Ok(Envelope(Sequence(EnvelopeComponents {
        id: Limited::new(Octets(id)),
        body: other(alloc, Class::Context, 5, b"\x09\x08")?,
        urgent: None,
    })))
}

#[test]
fn bodies_are_kept(rt: HostRuntime) -> Result<(), Fail> {
    let alloc = rt.alloc();
    assert!(rt; agree(alloc, &newer(alloc)?, b"\x00\xAA\xBB\x85\x02\x09\x08")?);
    Ok(())
}

#[test]
fn bodies_are_kept_within_an_envelope(rt: HostRuntime) -> Result<(), Fail> {
    let alloc = rt.alloc();
    let id = OctetString::from_slice(alloc, b"\x00\x01")?;
    let inner = BodyAlternatives::Inner(Held(Box::new(alloc, newer(alloc)?)?));
    let whole = Envelope(Sequence(EnvelopeComponents {
        id: Limited::new(Octets(id)),
        body: KeptChoice::Known(inner),
        urgent: None,
    }));
    assert!(rt;
        agree(
            alloc,
            &whole,
            b"\x00\x00\x01\x81\x00\xAA\xBB\x85\x02\x09\x08"
        )?
    );
    Ok(())
}

#[test]
fn bodies_are_read_leniently(rt: HostRuntime) -> Result<(), Fail> {
    let alloc = rt.alloc();
    assert!(rt;
        only_lenient(
            alloc,
            &newer(alloc)?,
            b"\x00\xAA\xBB\x85\x81\x02\x09\x08",
            b"\x00\xAA\xBB\x85\x02\x09\x08",
            DecodeErrorKind::NotValidCanonicalEncoding
        )?
    );
    Ok(())
}

/// A query of a newer version, of one octet.
fn seventh(alloc: Global) -> Result<Query, Fail> {
    Ok(Query(other(alloc, Class::Context, 7, b"\x05")?))
}

fn query(of: QueryAlternatives<Query>) -> Query {
    Query(KeptChoice::Known(of))
}

#[test]
fn queries_are_kept(rt: HostRuntime) -> Result<(), Fail> {
    let alloc = rt.alloc();
    let name = Utf8Text(String::from_str(alloc, "a")?);
    let mut parts = Vec::new(alloc);
    parts.push(Bare(query(QueryAlternatives::Name(name))))?;
    parts.push(Bare(seventh(alloc)?))?;
    let all = query(QueryAlternatives::All(ListOf(parts)));
    assert!(rt; agree(alloc, &all, b"\x80\x01\x02\x82\x01\x61\x87\x01\x05")?);
    Ok(())
}

#[test]
fn queries_are_kept_below_others(rt: HostRuntime) -> Result<(), Fail> {
    let alloc = rt.alloc();
    assert!(rt; agree(alloc, &seventh(alloc)?, b"\x87\x01\x05")?);
    let except = Held(Box::new(alloc, seventh(alloc)?)?);
    let whole = query(QueryAlternatives::Except(except));
    assert!(rt; agree(alloc, &whole, b"\x81\x87\x01\x05")?);
    Ok(())
}

#[test]
fn a_known_tag_is_no_other_query(rt: HostRuntime) -> Result<(), Fail> {
    let alloc = rt.alloc();
    let content: QueryContent<Query> = other(alloc, Class::Context, 2, b"\x01\x61")?;
    let query = Query(content);
    assert!(rt; why_unwritten(alloc, &query) == Some(EncodeErrorKind::ValueConstraintNotSatisfied));
    Ok(())
}
