//! Rows of truth values at lengths around a word's end.
use bm_base::Bits;
use std::test::Fail;

// The values that are set, at lengths around a word's end.
const CASES: [(usize, &[usize]); 6] = [
    (0, &[]),
    (1, &[0]),
    (63, &[0, 62]),
    (64, &[1, 63]),
    (65, &[0, 63, 64]),
    (130, &[5, 63, 64, 69, 127, 129]),
];

#[test]
fn rows_hold_what_was_set(rt: HostRuntime) -> Result<(), Fail> {
    for (len, places) in CASES {
        let zeros = Bits::zeros(rt.alloc(), len)?;
        let row = replaced(zeros.clone()?, places, true);
        assert!(rt; zeros.len() == len && row.len() == len, "{len}");
        assert!(rt; holds(&zeros, &[]) && holds(&row, places), "{len}");

        let copy = row.clone()?;
        assert!(rt; copy.same(&row), "{len}");
        assert!(rt; replaced(copy, places, false).same(&zeros), "{len}");
        assert_eq!(rt; row.same(&zeros), places.is_empty(), "{len}");

        let longer = Bits::zeros(rt.alloc(), len + 1)?;
        assert!(rt; !zeros.same(&longer) && !longer.same(&zeros), "{len}");
    }
    Ok(())
}

fn replaced(mut row: Bits, places: &[usize], v: bool) -> Bits {
    for place in places {
        if *place < row.len() {
            row.set(*place, v);
        }
    }
    row
}

// Whether these values and no others are true.
fn holds(row: &Bits, places: &[usize]) -> bool {
    (0..row.len()).all(|i| row.get(i) == places.contains(&i))
}
