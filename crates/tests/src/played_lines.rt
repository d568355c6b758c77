// The lines of a scenario, as every program takes them.
use nas::{read_uplink, sample_message};
use playing::*;
use std::test::Fail;

#[test]
fn takes_words(rt: HostRuntime) -> Result<(), Fail> {
    let heap = rt.alloc();
    assert!(rt; line_words(heap, b"# read 00")?.is_none());
    assert!(rt; line_words(heap, b"  ")?.is_none());
    let Some(words) = line_words(heap, b"read 00 #")? else {
        return Err(Fail::new("no words"));
    };
    assert!(rt; words.len() == 3);
    assert!(rt; without_feed(b"read 00\n") == b"read 00".as_slice());
    assert!(rt; without_feed(b"read 00") == b"read 00".as_slice());
    Ok(())
}

#[test]
fn takes_one_operand(rt: HostRuntime) -> Result<(), Fail> {
    let heap = rt.alloc();
    assert_eq!(rt;
        read_operand(heap, &[b"2E01"])?,
        Some([0x2E, 0x01].to_vec(heap)?)
    );
    assert_eq!(rt; read_operand(heap, &[b"2E01", b"00"])?, None);
    assert_eq!(rt; read_operand(heap, &[])?, None);
    Ok(())
}

#[test]
fn writes_replies(rt: HostRuntime) -> Result<(), Fail> {
    let heap = rt.alloc();
    let message = sample_message();
    let said = ReadReply(read_uplink(&message)).to_string(heap)?;
    assert_eq!(rt;
        said.as_str(),
        "read payload 2E0101C1 session 1 old - request 1 slice - dnn -"
    );
    let refused = ReadReply(read_uplink(&message[..6])).to_string(heap)?;
    assert_eq!(rt; refused.as_str(), "read refused 3");
    Ok(())
}

#[test]
fn writes_lines(rt: HostRuntime) -> Result<(), Fail> {
    let heap = rt.alloc();
    let said = read_line(heap, &sample_message())?;
    assert_eq!(rt;
        said.as_str(),
        "read payload 2E0101C1 session 1 old - request 1 slice - dnn -"
    );
    let refused = read_line(heap, &[])?;
    assert_eq!(rt; refused.as_str(), "read refused 3");
    let error = error_line(heap, 12)?;
    assert_eq!(rt; error.as_str(), "error 12");
    Ok(())
}
