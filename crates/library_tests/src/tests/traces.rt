//! Traces, their events over any base row, and copies that lack a row.
ghost use Rattle.std.specs.Prelude.{◌≡◌, ◌≤◌, length, IfOk};

use bm_base::{Bits, NoMemory};
use std::alloc::Global;
use std::test::Fail;
use trace_rows::Trace;

// The bits of a number, the lowest of which is bit 0.
fn row(alloc: Global, width: usize, number: u8) -> Result<Bits, NoMemory>
    requires { width ≤ 8 }
    ensures { IfOk result (λ row. length row ≡ width) }
{
    let mut row = Bits::zeros(alloc, width)?;
    for b in 0..width {
        row.set(b, number >> b & 1 == 1);
    }
    Ok(row)
}

fn trace(alloc: Global, width: usize, rows: &[u8]) -> Result<Trace, NoMemory>
    requires { width ≤ 8 }
    ensures { IfOk result (λ trace. trace.width ≡ width) }
{
    let mut trace = Trace::new(alloc, width);
    for number in rows {
        trace.push(&row(alloc, width, *number)?)?;
    }
    Ok(trace)
}

#[test]
fn counts_the_changes_from_row_to_row(rt: HostRuntime) -> Result<(), Fail> {
    let alloc = rt.alloc();
    for (width, base, rows, events, events_of_four) in [
        (1, 0b0, [0b1, 0b0, 0b1, 0b1, 0b0], 4, 3),
        (2, 0b01, [0b11, 0b10, 0b01, 0b01, 0b00], 5, 4),
    ] {
        assert!(rt; width <= 8);
        let base = row(alloc, width, base)?;
        let mut trace = trace(alloc, width, &rows)?;
        assert_eq!(rt; trace.width(), width);
        assert_eq!(rt; trace.len(), 5);
        for (t, number) in rows.iter().enumerate() {
            assert!(rt; trace.row(t).same(&row(alloc, width, *number)?), "row {t}");
            assert_eq!(rt; trace.bit(t, 0), number & 1 == 1, "row {t}");
        }
        assert_eq!(rt; trace.events(&base), events);
        trace.keep(4);
        assert_eq!(rt; trace.len(), 4);
        assert_eq!(rt; trace.events(&base), events_of_four);
    }
    Ok(())
}

#[test]
fn a_cut_copy_lacks_one_row(rt: HostRuntime) -> Result<(), Fail> {
    let alloc = rt.alloc();
    let trace = trace(alloc, 2, &[0b00, 0b01, 0b10])?;
    for (i, left) in [(0, [0b01, 0b10]), (1, [0b00, 0b10]), (2, [0b00, 0b01])] {
        assert!(rt; i < trace.len());
        let copy = trace.cut_copy(alloc, i)?;
        assert_eq!(rt; copy.width(), 2);
        assert_eq!(rt; copy.len(), 2);
        for (t, number) in left.iter().enumerate() {
            assert!(rt;
                copy.row(t).same(&row(alloc, 2, *number)?),
                "without {i}, row {t}"
            );
        }
    }
    Ok(())
}
