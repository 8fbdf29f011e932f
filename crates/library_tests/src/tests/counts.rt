//! Counts of faults by name.
use bm_base::Counts;
use std::test::Fail;

#[test]
fn counts_rise_by_one(rt: HostRuntime) -> Result<(), Fail> {
    let mut counts = Counts::new(rt.alloc());
    counts.rise("a.txt")?;
    counts.enter("a.txt")?;
    counts.raise("a.txt");
    assert_eq!(rt; (counts.count("a.txt"), counts.count("b.txt")), (2, 0));
    Ok(())
}
