// Words of a scenario, read.
use scenario::*;
use std::test::Fail;

#[test]
fn reads_numbers(rt: HostRuntime) {
    let cases = [
        (b"0".as_slice(), Some(0)),
        (b"007", Some(7)),
        (b"18446744073709551615", Some(u64::MAX)),
        (b"18446744073709551616", None),
        (b"", None),
        (b"+1", None),
        (b"1a", None),
    ];
    for (word, number) in cases {
        assert_eq!(rt; parse_number(word), number);
    }
}

#[test]
fn reads_octets(rt: HostRuntime) -> Result<(), Fail> {
    let cases = [
        (b"-".as_slice(), Some(b"".as_slice())),
        (b"00ff", Some(b"\x00\xFF")),
        (b"aB", Some(b"\xAB")),
        (b"abc", None),
        (b"0g", None),
        (b"", None),
    ];
    for (word, octets) in cases {
        let read = parse_octets(rt.alloc(), word)?;
        assert_eq!(rt; read.as_deref(), octets);
    }
    Ok(())
}

#[test]
fn reads_one_octet(rt: HostRuntime) {
    let cases = [
        (b"2a".as_slice(), Some(0x2A)),
        (b"F0", Some(0xF0)),
        (b"2", None),
        (b"2A2", None),
        (b"2G", None),
        (b"-", None),
    ];
    for (word, octet) in cases {
        assert_eq!(rt; parse_octet(word), octet);
    }
}

#[test]
fn splits_words(rt: HostRuntime) -> Result<(), Fail> {
    let words = split_words(rt.alloc(), b"  a  bc ")?;
    assert!(rt; words.len() == 2);
    assert!(rt; words[0] == b"a".as_slice() && words[1] == b"bc".as_slice());
    Ok(())
}

#[test]
fn reads_slices(rt: HostRuntime) {
    let cases = [
        (b"01000aFF".as_slice(), Some(0x01_00_0A_FF)),
        (b"FFFFFFFF", Some(u32::MAX)),
        (b"01000AF", None),
        (b"01000AFF0", None),
        (b"01000AFG", None),
        (b"-", None),
    ];
    for (word, slice) in cases {
        assert_eq!(rt; parse_slice(word), slice);
    }
}
