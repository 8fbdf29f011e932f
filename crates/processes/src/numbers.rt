//! The bits of left sides, by their numbers among the register bits.
ghost use Rattle.std.specs.Prelude.{◌≡◌, ◌++◌, IfOk, OnOk};
ghost use Rattle.processes.specs.Numbers.{in_registers, numbers_down};
ghost use Rattle.vlog_tree.specs.Meaning.Lefts.{left_bits};

use nets::Nets;
use numbering::{ModulePlaces, Place};
use sqlite_items::Items;
use std::alloc::{AllocError, Global};
use targets::Numbers;
use vlog_tree::Left;

/// The registers of a module, whose bits have numbers.
#[derive(Drop)]
struct Registers<'p> {
    places: &'p ModulePlaces<'p>,
}

impl<'p> Numbers for Registers<'p> {
    ghost use Rattle.processes.specs.Numbers.{number_among};

    ghost module_of = { λ it. it.places.now.definition };

    ghost number_of = { λ it bit. number_among it.places.now.definition bit };

    fn nets(&self) -> &Nets<'_> {
        self.places.nets()
    }

    fn first_of(&self, name: &[u8]) -> Option<usize> {
        match self.places.place(name) {
            Some(place) => in_registers(place),
            None => None,
        }
    }
}

/// The numbers of the bits of a left side, the highest bit first. A bit that is no register has none.
pub(crate) fn left_numbers(
    alloc: Global,
    places: &ModulePlaces<'_>,
    left: &Left,
) -> Result<Items<Option<usize>>, AllocError>
    ensures { IfOk result (λ numbers. numbers
        ≡ numbers_down places.now.definition (left_bits places.now.definition left.now)) }
{
    targets::left_numbers(alloc, &Registers { places }, left)
}

/// Adds the numbers of the bits of a left side.
pub(crate) fn add_left(
    numbers: &mut Items<Option<usize>>,
    places: &ModulePlaces<'_>,
    left: &Left,
) -> Result<(), AllocError>
    ensures { OnOk result (numbers.new
        ≡ numbers.old ++ numbers_down places.now.definition (left_bits places.now.definition left.now)) }
{
    targets::add_left(numbers, &Registers { places }, left)
}

// The number, if the place is that of a register.
fn in_registers(place: Place) -> Option<usize>
    ensures { result ≡ in_registers place }
{
    match place {
        Place::Register(first) => Some(first),
        Place::Clock => None,
        Place::Input(_) => None,
        Place::Driven(_) => None,
    }
}
