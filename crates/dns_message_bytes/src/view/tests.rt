//! Requests of `dig` and a response, read in place.

use crate::view::{MessageView, NameView, RecordView, RequestView};
use dns_wire::{BinDecoder, DNSClass, RecordType};
use std::test::Fail;

/// What `dig +dnssec +bufsize=1400 www.Example.com AAAA` sends, with a cookie (RFC 7873 section 4).
const REQUEST: &[u8] = b"\x12\x34\x01\x20\x00\x01\x00\x00\x00\x00\x00\x01\
\x03www\x07Example\x03com\x00\x00\x1c\x00\x01\
\x00\x00\x29\x05\x78\x00\x00\x80\x00\x00\x0c\x00\x0a\x00\x08\x01\x02\x03\x04\x05\x06\x07\x08";

#[test]
fn a_request_with_an_opt_record_is_read(rt: HostRuntime) -> Result<(), Fail> {
    let view = RequestView::of(REQUEST).expect(&rt, "it is a request");
    assert_eq!(rt; view.metadata.id, 0x1234);
    assert!(rt; view.metadata.recursion_desired);
    assert!(rt; view.question.query_type == RecordType::AAAA);
    assert!(rt; view.question.query_class == DNSClass::IN);
    let edns = view.edns.expect(&rt, "it has an OPT record");
    assert_eq!(rt; edns.max_payload, 1400);
    assert!(rt; edns.flags.dnssec_ok);
    assert_eq!(rt; edns.options.len(), 12);
    let query = view.question.to_query(rt.alloc())?;
    assert!(rt; query.query_type == RecordType::AAAA);
    let name = view.question.name.to_name(rt.alloc())?;
    assert!(rt; view.question.name.is_name(&name));
    Ok(())
}

#[test]
fn a_name_is_compared_without_case(rt: HostRuntime) -> Result<(), Fail> {
    let lower =
        b"\x00\x00\x00\x00\x00\x01\x00\x00\x00\x00\x00\x00\x03www\x07example\x03com\x00\x00\x01\x00\x01";
    let view = RequestView::of(REQUEST).expect(&rt, "it is a request");
    let other = RequestView::of(lower).expect(&rt, "it is a request");
    assert!(rt; view.question.name == other.question.name);
    assert_eq!(rt; view.question.name.labels().count(), 3);
    Ok(())
}

/// A response to `www.a. A`, whose record has a compression pointer as its owner (RFC 1035 section 4.1.4).
const RESPONSE: &[u8] = b"\x12\x34\x81\x80\x00\x01\x00\x01\x00\x00\x00\x00\
\x03www\x01a\x00\x00\x01\x00\x01\
\xc0\x0c\x00\x01\x00\x01\x00\x00\x00\x3c\x00\x04\x0a\x00\x00\x01";

#[test]
fn a_response_is_read_in_place(rt: HostRuntime) -> Result<(), Fail> {
    let view = MessageView::of(RESPONSE).expect(&rt, "it is a message");
    let question = view.queries().next().expect(&rt, "it has a question");
    let record = view.answers().next().expect(&rt, "it has a record");
    assert!(rt; record.record_type == RecordType::A);
    assert_eq!(rt; record.ttl, 60);
    assert_eq!(rt; record.data, b"\x0a\x00\x00\x01".as_slice());
    let owner = record.name.to_name(rt.alloc())?;
    assert!(rt; owner == question.name.to_name(rt.alloc())?);
    assert!(rt; view.additionals().next().is_none());
    Ok(())
}

#[test]
fn a_record_ends_after_its_data(rt: HostRuntime) -> Result<(), Fail> {
    let mut decoder = BinDecoder::new(RESPONSE);
    let _question = decoder.read_slice(23).expect(&rt, "it is longer");
    let mut copy = decoder.clone(decoder.index());
    let _record = RecordView::read(&mut decoder).expect(&rt, "it is a record");
    assert!(rt; decoder.is_empty());
    let _owner = NameView::read(&mut copy).expect(&rt, "it is a name");
    assert_eq!(rt; copy.index(), 25);
    Ok(())
}
