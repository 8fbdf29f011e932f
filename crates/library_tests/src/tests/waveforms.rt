//! Whole waveforms that are written out by hand, with ranges, escaped names and long codes.
ghost use Rattle.std.specs.Prelude.{◌≡◌, IfOk, length};
ghost use Rattle.vcd_writer.specs.Value.{row_width};

use bm_base::{Bits, Name, NoMemory, Range};
use sqlite_items::Items;
use std::alloc::Global;
use std::str;
use std::test::Fail;
use trace_rows::{Labels, PortLabel, Trace};
use vcd_writer::vcd_text;

fn port(alloc: Global, name: &[u8], width: u32, range: Option<Range>) -> Result<PortLabel, NoMemory>
    ensures { IfOk result (λ port. port.width ≡ width) }
{
    let name = Name::new(alloc, name)?;
    Ok(PortLabel { name, width, range })
}

fn labels(alloc: Global, top: &[u8], ports: Vec<PortLabel>) -> Result<Labels, NoMemory>
    ensures { IfOk result (λ labels. labels.ports ≡ ports.items) }
{
    Ok(Labels {
        top: Name::new(alloc, top)?,
        clock: Name::new(alloc, b"clk")?,
        check: Name::new(alloc, b"bad")?,
        ports: Items::from_vec(ports),
    })
}

fn bits(alloc: Global, values: &[bool]) -> Result<Bits, NoMemory>
    ensures { IfOk result (λ bits. length bits ≡ length values.now) }
{
    let mut bits = Bits::zeros(alloc, values.len())?;
    for (i, value) in values.iter().enumerate() {
        bits.set(i, *value);
    }
    Ok(bits)
}

// So many ports of one bit.
#[tactic(auto, using(std::proofs::lemmas::List::Sums::sum_by_push))]
fn single_bits(alloc: Global, count: usize) -> Result<Vec<PortLabel>, NoMemory>
    ensures { IfOk result (λ ports. row_width ports.items ≡ count) }
{
    let mut ports = Vec::new(alloc);
    for i in 0..count {
        ports.push(port(alloc, b"p", 1, None)?)?;
    }
    Ok(ports)
}

// One row of so many ports, whose bits are all 0.
fn wide(alloc: Global, count: usize) -> Result<Vec<u8>, NoMemory> {
    let labels = labels(alloc, b"top", single_bits(alloc, count)?)?;
    let row = Bits::zeros(alloc, count)?;
    let mut trace = Trace::new(alloc, count);
    trace.push(&row)?;
    vcd_text(alloc, &trace, &labels, None)
}

// The codes go on from `!` to `~`, then to two characters and to three, of which the first counts least. The clock has
// the number 0, the checker 1, and the ports the numbers from 2 on.
#[test]
fn writes_codes(rt: HostRuntime) -> Result<(), Fail> {
    let text = wide(rt.alloc(), 8_835)?;
    let text = str::from_utf8(&text)?;
    for code in ["#", "~", "!\"", "\"\"", "~~", "!!\""] {
        let line = format!(in rt.alloc(); "$var wire 1 {code} p $end\n")?;
        assert_eq!(rt; text.matches(line.as_str()).count(), 1, "{code}");
    }
    Ok(())
}

#[test]
fn writes_only_what_changed(rt: HostRuntime) -> Result<(), Fail> {
    let alloc = rt.alloc();
    let ports = vec![in alloc; port(alloc, b"rst", 1, None)?, port(alloc, b"a", 1, None)?]?;
    let labels = labels(alloc, b"top", ports)?;
    let row = bits(alloc, &[false, true])?;
    let mut t = Trace::new(alloc, 2);
    t.push(&row)?;
    t.push(&row)?;
    t.push(&row)?;
    t.push(&row)?;
    let bad = bits(alloc, &[false, false, false, true])?;
    let text = vcd_text(alloc, &t, &labels, Some(&bad))?;
    let want = "$version butramin 1 $end
$timescale 1ns $end
$scope module top $end
$var wire 1 ! clk $end
$var wire 1 \" bad $end
$var wire 1 # rst $end
$var wire 1 $ a $end
$upscope $end
$enddefinitions $end
#0
$dumpvars
0!
0\"
0#
1$
$end
#5
1!
#10
0!
#15
1!
#20
0!
#25
1!
#30
0!
1\"
";
    assert_eq!(rt; text.as_slice(), want.as_bytes());
    Ok(())
}

#[test]
fn writes_ranges_and_names(rt: HostRuntime) -> Result<(), Fail> {
    let alloc = rt.alloc();
    let range = Range { left: 7, right: 0 };
    let data = port(alloc, b"data", 8, Some(range))?;
    let ports = vec![in alloc; data, port(alloc, b"a-b", 1, None)?]?;
    let labels = labels(alloc, b"module", ports)?;
    let mut row = bits(
        alloc,
        &[true, false, true, false, false, false, false, false, false],
    )?;
    let mut t = Trace::new(alloc, 9);
    t.push(&row)?;
    row.set(8, true);
    t.push(&row)?;
    row.set(0, false);
    row.set(7, true);
    t.push(&row)?;
    let bad = bits(alloc, &[true, true, false])?;
    let text = vcd_text(alloc, &t, &labels, Some(&bad))?;
    let want = "$version butramin 1 $end
$timescale 1ns $end
$scope module \\module $end
$var wire 1 ! clk $end
$var wire 1 \" bad $end
$var wire 8 # data [7:0] $end
$var wire 1 $ \\a-b $end
$upscope $end
$enddefinitions $end
#0
$dumpvars
0!
1\"
b00000101 #
0$
$end
#5
1!
#10
0!
1$
#15
1!
#20
0!
0\"
b10000100 #
";
    assert_eq!(rt; text.as_slice(), want.as_bytes());
    Ok(())
}

#[test]
fn leaves_the_checker_out(rt: HostRuntime) -> Result<(), Fail> {
    let alloc = rt.alloc();
    let ports = vec![in alloc; port(alloc, b"rst", 1, None)?, port(alloc, b"a", 1, None)?]?;
    let labels = labels(alloc, b"top", ports)?;
    let mut row = bits(alloc, &[true, true])?;
    let mut t = Trace::new(alloc, 2);
    t.push(&row)?;
    row.set(0, false);
    t.push(&row)?;
    let text = vcd_text(alloc, &t, &labels, None)?;
    let want = "$version butramin 1 $end
$timescale 1ns $end
$scope module top $end
$var wire 1 ! clk $end
$var wire 1 # rst $end
$var wire 1 $ a $end
$upscope $end
$enddefinitions $end
#0
$dumpvars
0!
1#
1$
$end
#5
1!
#10
0!
0#
";
    assert_eq!(rt; text.as_slice(), want.as_bytes());
    Ok(())
}
