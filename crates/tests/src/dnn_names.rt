// A book of names.
use codes::*;
use names::*;
use std::test::Fail;

#[test]
fn numbers_names(rt: HostRuntime) -> Result<(), Fail> {
    let heap = rt.alloc();
    let book = Book::new(heap, &[b"\x04loom", b"\x03sos"])?;
    assert_eq!(rt; book.number_of(b"\x03sos"), 2);
    assert_eq!(rt; book.number_of(b"\x03so"), 0);
    assert!(rt; Book::new(heap, &[b"a", b"b", b"a"]).is_err());
    assert!(rt; Book::new(heap, &[]).is_err());
    Ok(())
}

#[test]
fn counts_names(rt: HostRuntime) -> Result<(), Fail> {
    let book = Book::new(rt.alloc(), &[b"\x04loom", b"\x03sos"])?;
    assert_eq!(rt; book.len(), 2);
    Ok(())
}
