//! The bits of left sides, by their numbers.
ghost use Rattle.std.specs.Prelude.{◌≡◌, ◌++◌, IfOk, OnOk, flat_map};
ghost use Rattle.targets.specs.Numbers.{numbers_down};
ghost use Rattle.vlog_tree.specs.Meaning.Lefts.{left_bits};

use crate::Numbers;
use crate::run::{bit, part, whole};
use crate::runs::add_run;
use sqlite_items::Items;
use std::alloc::{AllocError, Global};
use vlog_tree::Left;

/// The numbers of the bits of a left side, the highest bit first. What has no number has None.
pub fn left_numbers<N: Numbers>(
    alloc: Global,
    numbers: &N,
    left: &Left,
) -> Result<Items<Option<usize>>, AllocError>
    ensures { IfOk result (λ list. list
        ≡ numbers_down (N.number_of numbers.now) (left_bits (N.module_of numbers.now) left.now)) }
{
    let mut list = Items::new(alloc);
    add_left(&mut list, numbers, left)?;
    Ok(list)
}

/// Adds the numbers of the bits of a left side.
#[cycle(lefts)]
pub fn add_left<N: Numbers>(
    list: &mut Items<Option<usize>>,
    numbers: &N,
    left: &Left,
) -> Result<(), AllocError>
    ensures { OnOk result (list.new ≡ list.old
        ++ numbers_down (N.number_of numbers.now) (left_bits (N.module_of numbers.now) left.now)) }
{
    match left {
        Left::Whole { name, .. } => { add_run(list, numbers, name, whole(numbers.nets(), name)) }
        Left::Bit { name, index, .. } => {
            add_run(list, numbers, name, bit(numbers.nets(), name, *index))
        }
        Left::Part { name, range, .. } => {
            add_run(list, numbers, name, part(numbers.nets(), name, *range))
        }
        Left::Join(parts) => add_lefts(list, numbers, parts.as_slice()),
    }
}

#[cycle(lefts)]
fn add_lefts<N: Numbers>(
    list: &mut Items<Option<usize>>,
    numbers: &N,
    parts: &[Left],
) -> Result<(), AllocError>
    ensures { OnOk result (list.new ≡ list.old ++ flat_map
        (λ part. numbers_down (N.number_of numbers.now) (left_bits (N.module_of numbers.now) part)) parts.now) }
{
    for part in parts {
        add_left(list, numbers, part)?;
    }
    Ok(())
}
