//! The registers of one instance.
ghost use Rattle.std.specs.Prelude.{◌≡◌, ◌+◌, ◌≤◌, length, true};
ghost use Rattle.std.specs.List.{list_all};
ghost use Rattle.design_laws.specs.Grammar.{is_by_grammar, module_is_by_grammar};
ghost use Rattle.numbering.specs.Places.{placed_registers};
ghost use Rattle.power_up.specs.Changes.{Changes, after_items};
ghost use Rattle.power_up.specs.PowerUp.{AddsPowerUp};

use crate::initial::set_initial;
use bm_base::Bits;
use numbering::ModulePlaces;
use vlog_tree::Item;

/// Sets the bits of one instance's registers at power-up in `bits`, of which those from `first` on are false so far. A
/// register that no `initial` gives a value has zeros. Of several that give one the first counts. Takes no memory.
pub fn add_power_up(bits: &mut Bits, places: &ModulePlaces<'_>, first: usize)
    requires by_grammar { module_is_by_grammar places.now.definition ≡ true }
    requires room { first + length (placed_registers places.now) ≤ length bits.old }
    ensures added { AddsPowerUp places.now.definition first bits.old bits.new }
    ensures count { length bits.new ≡ length bits.old }
{
    set_all(bits, places, first, places.nets().module().items.as_slice());
}

// What items give the registers, where the first that gives a bit counts: from the last item to the first one each sets
// what it gives.
fn set_all(bits: &mut Bits, places: &ModulePlaces<'_>, first: usize, items: &[Item])
    requires by_grammar { list_all is_by_grammar items.now ≡ true }
    requires room { first + length (placed_registers places.now) ≤ length bits.old }
    ensures values { Changes places.now.definition first (after_items places.now.definition items.now) bits.old bits.new }
    ensures count { length bits.new ≡ length bits.old }
{
    for i in 0..items.len() {
        let place = items.len() - (i + 1);
        set_initial(bits, places, first, &items[place]);
    }
}
