//! Waveforms of inputs with ranges and escaped names, which no netlist that `run` accepts has.
use bm_base::{Name, NoMemory, Range};
use sqlite_items::Items;
use std::alloc::Global;
use std::test::Fail;
use trace_rows::{Labels, PortLabel};
use vcd_reader::read_bytes;

// The labels of the inputs `data [7:0]` and `a-b` of a module `module`.
fn labels(alloc: Global) -> Result<Labels, NoMemory> {
    let mut ports = Vec::new(alloc);
    ports.push(PortLabel {
        name: Name::new(alloc, b"data")?,
        width: 8,
        range: Some(Range { left: 7, right: 0 }),
    })?;
    ports.push(PortLabel {
        name: Name::new(alloc, b"a-b")?,
        width: 1,
        range: None,
    })?;
    Ok(Labels {
        top: Name::new(alloc, b"module")?,
        clock: Name::new(alloc, b"clk")?,
        check: Name::new(alloc, b"bad")?,
        ports: Items::from_vec(ports),
    })
}

// The bits of all rows, as digits, each port from its right end. Nothing where the text is refused.
fn digits(alloc: Global, text: &str) -> Result<Vec<u8>, NoMemory> {
    let labels = labels(alloc)?;
    let mut digits = Vec::new(alloc);
    if let Ok((trace, _)) = read_bytes(alloc, text.as_bytes(), &labels, None, 0) {
        for t in 0..trace.len() {
            for b in 0..trace.width() {
                digits.push(if trace.bit(t, b) { b'1' } else { b'0' })?;
            }
        }
    }
    Ok(digits)
}

// A value that is shorter than its variable is extended by 0. The variable beside it is declared, and gives no bit.
#[test]
fn a_vector_gives_bits_from_its_right_end(rt: HostRuntime) -> Result<(), Fail> {
    for name in ["data [7:0]", "data[7:0]"] {
        let text = format!(in rt.alloc();
            "$scope module m $end $var wire 1 ! clk $end $var wire 8 $ {name} $end $var wire 8 % mem [1][7:0] $end \
             $var wire 1 & \\a-b $end $enddefinitions $end #0 0! b1 $ 1&"
        )?;
        let digits = digits(rt.alloc(), text.as_str())?;
        assert_eq!(rt; digits.as_slice(), b"100000001".as_slice(), "{name}");
    }
    Ok(())
}

// The text that is written of these rows, in `waveforms`.
#[test]
fn what_is_written_is_read_back(rt: HostRuntime) -> Result<(), Fail> {
    let text = "$version butramin 1 $end
$timescale 1ns $end
$scope module \\module $end
$var wire 1 ! clk $end
$var wire 1 \" bad $end
$var wire 8 # data [7:0] $end
$var wire 1 $ \\a-b $end
$upscope $end
$enddefinitions $end
#0
$dumpvars
0!
1\"
b00000101 #
0$
$end
#5
1!
#10
0!
1$
#15
1!
#20
0!
0\"
b10000100 #
";
    let digits = digits(rt.alloc(), text)?;
    assert_eq!(rt;
        digits.as_slice(),
        b"101000000101000001001000011".as_slice()
    );
    Ok(())
}
