// Values in print.
use printing::*;
use std::test::Fail;

#[test]
fn writes_words(rt: HostRuntime) -> Result<(), Fail> {
    let octets = Octets(&[0x2E, 0x01, 0xC1]).to_string(rt.alloc())?;
    assert_eq!(rt; octets.as_str(), "2E01C1");
    let slice = Slice(0x01_00_AB_0F).to_string(rt.alloc())?;
    assert_eq!(rt; slice.as_str(), "0100AB0F");
    let absent = OrAbsent::<u64>(None).to_string(rt.alloc())?;
    assert_eq!(rt; absent.as_str(), "-");
    Ok(())
}
