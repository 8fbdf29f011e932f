//! The bits of whole names, by their numbers.
ghost use Rattle.std.specs.Prelude.{◌≡◌, ◌+◌, ◌≤◌, IfOk, IfSome, map};
ghost use Rattle.std.specs.List.{range_with_len};
ghost use Rattle.bm_base.specs.declared.size.Size.TheVariants.{Nodes};
ghost use Rattle.bm_base.specs.Size.{limit_of};
ghost use Rattle.targets.specs.Numbers.{number_at};
ghost use Rattle.vlog_tree.specs.Meaning.Keys.{bit_count};
ghost use Rattle.vlog_tree.specs.Meaning.Lefts.{bit_of};

use crate::Numbers;
use nets::Nets;
use sqlite_items::Items;
use std::alloc::{AllocError, Global};

/// The numbers of the bits of a name, the right end first. What has no number has None.
pub fn name_numbers<N: Numbers>(
    alloc: Global,
    numbers: &N,
    name: &[u8],
) -> Result<Items<Option<usize>>, AllocError>
    ensures { IfOk result (λ list. list ≡ map (N.number_of numbers.now)
        (map (bit_of name.now) (range_with_len 0 (bit_count (N.module_of numbers.now) name.now)))) }
{
    let width = width_of(numbers.nets(), name);
    numbers_up(alloc, numbers.first_of(name), width)
}

// How many bits a name has.
fn width_of(nets: &Nets<'_>, name: &[u8]) -> usize
    ensures { result ≡ bit_count nets.now name.now }
{
    match nets.find(name) {
        Some(net) => net.width(),
        None => 0,
    }
}

// So many numbers from one on.
fn numbers_up(
    alloc: Global,
    first: Option<usize>,
    width: usize,
) -> Result<Items<Option<usize>>, AllocError>
    requires { IfSome first (λ first. first + width ≤ limit_of Nodes) }
    ensures { IfOk result (λ list. list ≡ map (number_at first) (range_with_len 0 width)) }
{
    let mut list = Items::new(alloc);
    for bit in 0..width {
        list.push(number_of(first, bit))?;
    }
    Ok(list)
}

fn number_of(first: Option<usize>, bit: usize) -> Option<usize>
    requires { IfSome first (λ first. first + bit ≤ limit_of Nodes) }
    ensures { result ≡ number_at first bit }
{
    match first {
        Some(first) => Some(first + bit),
        None => None,
    }
}
