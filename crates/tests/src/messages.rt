// Messages at the edges of the rules.
use codes::*;
use nas::*;
use std::alloc::{AllocError, Global};
use std::test::Fail;

// 0 where the message is accepted, else the refusal's number.
fn refusal_of(octets: &[u8]) -> u8 {
    match read_uplink(octets) {
        Ok(_) => 0,
        Err(refusal) => u8::from(refusal),
    }
}

// A message with a payload of `length` octets, and these elements.
fn message(heap: Global, length: u16, elements: &[u8]) -> Result<Vec<u8>, AllocError> {
    let mut octets = b"\x7E\x00\x67\x01".to_vec(heap)?;
    octets.extend_from_slice(&length.to_be_bytes())?;
    for _ in 0..length {
        octets.push(0x2E)?;
    }
    octets.extend_from_slice(elements)?;
    Ok(octets)
}

// Session 1, and an element with `length` octets of contents.
fn with_element(heap: Global, kind: u8, length: u8) -> Result<Vec<u8>, AllocError> {
    let mut octets = message(heap, 1, &[0x12, 1, kind, length])?;
    for _ in 0..length {
        octets.push(0x0A)?;
    }
    Ok(octets)
}

#[test]
fn reads_the_sample(rt: HostRuntime) -> Result<(), Fail> {
    let octets = sample_message();
    let uplink = read_uplink(&octets)?;
    assert_eq!(rt; uplink.payload, b"\x2E\x01\x01\xC1".as_slice());
    assert_eq!(rt; uplink.session, 1);
    assert_eq!(rt; uplink.request_type, Some(RequestType::Initial));
    assert!(rt; uplink.old_session.is_none() && uplink.slice.is_none() && uplink.dnn.is_none());
    Ok(())
}

#[test]
fn ignores_spare_halves(rt: HostRuntime) {
    assert_eq!(rt; refusal_of(b"\x7E\xF0\x67\xA1\x00\x01\x00\x12\x01"), 0);
}

#[test]
fn first_of_each_kind_counts(rt: HostRuntime) -> Result<(), Fail> {
    // the second S-NSSAI has three octets, the second DNN none, and the second session is 99
    let elements = b"\x88\x12\x02\x22\x01\x07\x8F\x22\x03\x01\x02\x03\x25\x01\x09\x25\x00\x12\x63";
    let octets = message(rt.alloc(), 1, elements)?;
    let uplink = read_uplink(octets.as_slice())?;
    assert_eq!(rt; uplink.session, 2);
    assert_eq!(rt; uplink.request_type, Some(RequestType::Initial));
    assert_eq!(rt; uplink.slice, Some(0x07FFFFFF));
    assert!(rt; uplink.dnn == Some(b"\x09"));
    Ok(())
}

#[test]
fn request_types(rt: HostRuntime) -> Result<(), Fail> {
    let cases = [(0x80, 0), (0x85, 0), (0x86, 10), (0x8D, 0), (0x8F, 10)];
    for (octet, refusal) in cases {
        let octets = message(rt.alloc(), 1, &[0x12, 1, octet])?;
        assert_eq!(rt; refusal_of(octets.as_slice()), refusal);
    }
    Ok(())
}

#[test]
fn element_lengths(rt: HostRuntime) -> Result<(), Fail> {
    let heap = rt.alloc();
    for (i, refusal) in [7, 0, 0, 7, 0, 0, 7, 7, 0, 7].iter().enumerate() {
        let octets = with_element(heap, 0x22, i as u8)?;
        assert_eq!(rt; refusal_of(octets.as_slice()), *refusal);
    }
    for (length, refusal) in [(0, 7), (1, 0), (100, 0), (101, 7)] {
        let octets = with_element(heap, 0x25, length)?;
        assert_eq!(rt; refusal_of(octets.as_slice()), refusal);
    }
    Ok(())
}

#[test]
fn payload_lengths(rt: HostRuntime) -> Result<(), Fail> {
    let heap = rt.alloc();
    for (length, refusal) in [(0, 6), (1, 0), (2048, 0), (2049, 6)] {
        let octets = message(heap, length, &[0x12, 1])?;
        assert_eq!(rt; refusal_of(octets.as_slice()), refusal);
    }
    let seven = message(heap, 1, b"")?;
    assert_eq!(rt; refusal_of(seven.as_slice()), 9);
    assert_eq!(rt; refusal_of(b""), 3);
    Ok(())
}

#[test]
fn writes_returns(rt: HostRuntime) {
    let mut output = [0xEE; 17];
    let written = write_return(&mut output, b"\x2E\x01", 1, Cause::Congestion(0x21));
    assert!(rt; written == Ok(15));
    let expected = b"\x7E\x00\x68\x01\x00\x02\x2E\x01\x12\x01\x58\x16\x37\x01\x21\xEE\xEE";
    assert_eq!(rt; &output, expected);
    let mut short = [0xEE; 14];
    let refused = write_return(&mut short, b"\x2E\x01", 1, Cause::NotForwarded);
    assert!(rt; refused == Err(Refusal::OutputLength));
    assert_eq!(rt; short, [0xEE; 14]);
}

#[test]
fn session_numbers(rt: HostRuntime) {
    assert!(rt; !codes::is_session(0));
    assert!(rt; codes::is_session(1));
    assert!(rt; codes::is_session(15));
    assert!(rt; !codes::is_session(16));
}
