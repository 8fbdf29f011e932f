//! Sinks in memory, and the calls of them that are to fail.
use bm_base::{CalmSink, Fault, MemSink, Sink};
use std::test::Fail;

fn print_twice<S: Sink>(sink: &mut S) -> Result<(), Fault> {
    sink.put(b"one\n")?;
    sink.put(b"two\n")
}

#[test]
fn a_put_that_fails_keeps_its_first_bytes(rt: HostRuntime) -> Result<(), Fail> {
    let mut sink = MemSink::new(rt.alloc());
    sink.fail(1, 2)?;
    let printed = print_twice(&mut sink);
    assert_eq!(rt; printed, Err(Fault::Failed));
    assert_eq!(rt; sink.bytes(), b"one\ntw".as_slice());
    Ok(())
}

#[test]
fn a_calm_sink_takes_all(rt: HostRuntime) -> Result<(), Fail> {
    let mut sink = CalmSink::new(rt.alloc());
    print_twice(&mut sink)?;
    assert_eq!(rt; sink.bytes(), b"one\ntwo\n".as_slice());
    Ok(())
}
