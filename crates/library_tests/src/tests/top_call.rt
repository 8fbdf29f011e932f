//! The top call over a shelf and a sink that never fail.
use bm_base::{CalmShelf, CalmSink, Status};
use bm_cli::run_calmly;
use std::alloc::{AllocError, Global};
use std::test::Fail;

const TWICE: &str =
    "module top(input clk, input a, output bad); reg q; always @(posedge clk) q <= a; and (bad, q, a); endmodule";

const MINIMAL: &str = "$version butramin 1 $end
$timescale 1ns $end
$scope module top $end
$var wire 1 ! clk $end
$var wire 1 # a $end
$upscope $end
$enddefinitions $end
#0
$dumpvars
0!
1#
$end
#5
1!
#10
0!
";

fn words(alloc: Global, line: &str) -> Result<Vec<String>, AllocError> {
    let mut words = Vec::new(alloc);
    for word in line.split_whitespace() {
        words.push(String::from_str(alloc, word)?)?;
    }
    Ok(words)
}

// The status of a check of the trace, and what it prints.
fn check(alloc: Global) -> Result<(Status, Vec<u8>), Fail> {
    let words = words(
        alloc,
        "butramin check n.v t.vcd --top top --clock clk --check bad",
    )?;
    let mut shelf = CalmShelf::new(alloc);
    shelf.add("n.v", TWICE.as_bytes())?;
    shelf.add("t.vcd", MINIMAL.as_bytes())?;
    let mut sink = CalmSink::new(alloc);
    let status = run_calmly(alloc, &words, &mut shelf, &mut sink);
    Ok((status, Vec::from_slice(alloc, sink.bytes())?))
}

#[test]
fn a_calm_check_accepts_a_minimal_trace(rt: HostRuntime) -> Result<(), Fail> {
    let (status, line) = check(rt.alloc())?;
    assert_eq!(rt; status, Status::Done);
    assert_eq!(rt;
        line.as_slice(),
        b"yes: cycles 2, events 1, windows 0 certified, 0 open\n".as_slice()
    );
    Ok(())
}
