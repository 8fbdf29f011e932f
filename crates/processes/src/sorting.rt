//! Numbers in their order, each once.
ghost use Rattle.std.specs.Prelude.{ℕ, ◌≡◌, ◌==◌, IfOk};
ghost use Rattle.std.specs.List.{filter_map, list_any};
ghost use Rattle.std.specs.List.Sorted.{IsStrictlyIncreasing};
ghost use Rattle.processes.specs.Numbers.{holds};

use std::alloc::{AllocError, Global};

/// The numbers among these, in their order.
pub(crate) fn sorted(alloc: Global, numbers: &[Option<usize>]) -> Result<Vec<usize>, AllocError>
    ensures rises { IfOk result (λ sorted. IsStrictlyIncreasing sorted.items) }
    ensures same { IfOk result (λ sorted. (number : ℕ) → list_any (λ other. number == other) sorted.items
        ≡ holds number numbers.now) }
{
    let mut sorted = present(alloc, numbers)?;
    sort(&mut sorted);
    Ok(sorted)
}

fn present(alloc: Global, numbers: &[Option<usize>]) -> Result<Vec<usize>, AllocError>
    ensures { IfOk result (λ present. present.items ≡ filter_map (λ number. number) numbers.now) }
{
    numbers.iter().filter_map(|number| *number).collect(alloc)
}

fn sort(numbers: &mut Vec<usize>)
    ensures rises { IsStrictlyIncreasing numbers.new.items }
    ensures same { (number : ℕ) → list_any (λ other. number == other) numbers.new.items
        ≡ list_any (λ other. number == other) numbers.old.items }
{
    numbers.sort_unstable();
    numbers.dedup();
}
