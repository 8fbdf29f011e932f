//! Shelves in memory, and the calls of them that are to fail.
use bm_base::{Call, CalmShelf, Fault, MemShelf, Shelf};
use std::test::Fail;

// What `len` and a `read_at` in the middle answer, after the name was made and two pieces were added.
fn write_and_read<S: Shelf>(shelf: &mut S, buf: &mut [u8]) -> Result<(u64, usize), Fault> {
    shelf.create("a.txt")?;
    shelf.append("a.txt", b"one, two")?;
    shelf.append("a.txt", b", three")?;
    let len = shelf.len("a.txt")?;
    let count = shelf.read_at("a.txt", 5, buf)?;
    Ok((len, count))
}

#[test]
fn a_shelf_gives_back_what_it_is_given(rt: HostRuntime) -> Result<(), Fail> {
    let mut shelf = MemShelf::new(rt.alloc());
    let mut buf = [0u8; 3];
    let answers = write_and_read(&mut shelf, &mut buf)?;
    assert_eq!(rt; answers, (15, 3));
    assert_eq!(rt; buf, *b"two");
    Ok(())
}

#[test]
fn a_calm_shelf_gives_back_what_it_is_given(rt: HostRuntime) -> Result<(), Fail> {
    let mut shelf = CalmShelf::new(rt.alloc());
    let mut buf = [0u8; 12];
    let answers = write_and_read(&mut shelf, &mut buf)?;
    assert_eq!(rt; answers, (15, 10));
    assert_eq!(rt; buf, *b"two, three\0\0");
    Ok(())
}

#[test]
fn a_calm_shelf_takes_an_absent_name_as_empty(rt: HostRuntime) -> Result<(), Fail> {
    let mut shelf = CalmShelf::new(rt.alloc());
    shelf.add("a.txt", b"one")?;
    let len = shelf.len("b.txt")?;
    assert_eq!(rt; len, 0);
    assert_eq!(rt; shelf.bytes("b.txt"), None);
    Ok(())
}

#[test]
fn an_append_that_fails_keeps_its_first_bytes(rt: HostRuntime) -> Result<(), Fail> {
    let mut shelf = MemShelf::new(rt.alloc());
    shelf.fail(Call::Append, 0, 10)?;
    let first = shelf.append("a.txt", b"one and two");
    assert_eq!(rt; first, Err(Fault::Failed));
    assert_eq!(rt; shelf.bytes("a.txt"), Some(b"one and tw".as_slice()));
    Ok(())
}

#[test]
fn a_create_that_fails_leaves_the_name(rt: HostRuntime) -> Result<(), Fail> {
    let mut shelf = MemShelf::new(rt.alloc());
    shelf.add("a.txt", b"one")?;
    shelf.fail(Call::Create, 0, 0)?;
    let first = shelf.create("a.txt");
    assert_eq!(rt; first, Err(Fault::Failed));
    assert_eq!(rt; shelf.bytes("a.txt"), Some(b"one".as_slice()));
    Ok(())
}

#[test]
fn only_the_planned_read_fails(rt: HostRuntime) -> Result<(), Fail> {
    let mut shelf = MemShelf::new(rt.alloc());
    shelf.add("a.txt", b"one")?;
    shelf.fail(Call::Read, 0, 0)?;
    let mut buf = [0u8; 3];
    let first = shelf.read_at("a.txt", 0, &mut buf);
    let second = shelf.read_at("a.txt", 0, &mut buf);
    assert_eq!(rt; (first, second), (Err(Fault::Failed), Ok(3)));
    Ok(())
}

#[test]
fn an_absent_name_has_no_length(rt: HostRuntime) -> Result<(), Fail> {
    let mut shelf = MemShelf::new(rt.alloc());
    let len = shelf.len("b.txt");
    assert_eq!(rt; len, Err(Fault::Failed));
    assert_eq!(rt; shelf.bytes("b.txt"), None);
    Ok(())
}
