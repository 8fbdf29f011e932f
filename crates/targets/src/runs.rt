//! The numbers of neighbouring bits of a name.
ghost use Rattle.std.specs.Prelude.{◌≡◌, ◌++◌, ◌+◌, ◌-◌, ◌≤◌, ◌<◌, IfSome, OnOk, Some, map, reverse};
ghost use Rattle.std.specs.List.{range_with_len};
ghost use Rattle.std.specs.Option.{option_map};
ghost use Rattle.bm_base.specs.declared.size.Size.TheVariants.{Nodes};
ghost use Rattle.bm_base.specs.Size.{limit_of};
ghost use Rattle.targets.specs.Numbers.{bits_of_run, number_at, numbers_down};
ghost use Rattle.vlog_tree.specs.Meaning.Keys.{bit_count};
ghost use Rattle.vlog_tree.specs.Meaning.Lefts.{some_bits};

use crate::Numbers;
use crate::run::Run;
use bm_base::Name;
use sqlite_items::Items;
use std::alloc::AllocError;

/// Adds the numbers of the bits of a run, the highest bit first.
pub(crate) fn add_run<N: Numbers>(
    list: &mut Items<Option<usize>>,
    numbers: &N,
    name: &Name,
    run: Option<Run>,
) -> Result<(), AllocError>
    requires { IfSome run (λ run. run.low + run.width ≤ bit_count (N.module_of numbers.now) name.now) }
    ensures { OnOk result (list.new ≡ list.old
        ++ numbers_down (N.number_of numbers.now) (some_bits (option_map (bits_of_run name.now) run))) }
{
    match run {
        Some(run) => add_bits(list, numbers, name, run),
        None => Ok(()),
    }
}

fn add_bits<N: Numbers>(
    list: &mut Items<Option<usize>>,
    numbers: &N,
    name: &Name,
    run: Run,
) -> Result<(), AllocError>
    requires { run.low + run.width ≤ bit_count (N.module_of numbers.now) name.now }
    ensures { OnOk result (list.new ≡ list.old
        ++ numbers_down (N.number_of numbers.now) (some_bits (Some (bits_of_run name.now run)))) }
{
    add_down(list, numbers.first_of(name.bytes()), run.low, run.width)
}

// Adds the numbers of so many bits, from the highest to the lowest.
fn add_down(
    list: &mut Items<Option<usize>>,
    first: Option<usize>,
    low: usize,
    width: usize,
) -> Result<(), AllocError>
    requires { IfSome first (λ first. first + (low + width) ≤ limit_of Nodes) }
    ensures { OnOk result (list.new ≡ list.old ++ reverse (map (number_at first) (range_with_len low width))) }
{
    for i in 0..width {
        list.push(last_of(first, low, width - i))?;
    }
    Ok(())
}

// The number of the last of so many bits from one on.
fn last_of(first: Option<usize>, low: usize, width: usize) -> Option<usize>
    requires within { IfSome first (λ first. first + (low + width) ≤ limit_of Nodes) }
    requires some { 0 < width }
    ensures { result ≡ number_at first (low + (width - 1)) }
{
    match first {
        Some(first) => Some(first + (low + (width - 1))),
        None => None,
    }
}
