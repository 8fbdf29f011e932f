//! What one item gives to registers.
ghost use Rattle.std.specs.Prelude.{◌≡◌, ◌+◌, ◌<◌, ◌≤◌, ◌^◌, IfSome, None, false, length, slice_index_or, true};
ghost use Rattle.std.specs.List.{list_any};
ghost use Rattle.design_laws.specs.Grammar.{is_by_grammar, is_number};
ghost use Rattle.numbering.specs.Places.{StandFrom, placed_registers};
ghost use Rattle.vlog_tree.specs.Meaning.Keys.{bit_count};
ghost use Rattle.power_up.specs.Changes.{Changes, SetsBits, after_item, after_number, after_value, is_of};

use bm_base::Bits;
use nets::Nets;
use numbering::{ModulePlaces, Place};
use vlog_tree::{Expr, Item, width_by};

/// Sets the bits that the item gives to registers.
pub(crate) fn set_initial(bits: &mut Bits, places: &ModulePlaces<'_>, first: usize, item: &Item)
    requires by_grammar { is_by_grammar item.now ≡ true }
    requires room { first + length (placed_registers places.now) ≤ length bits.old }
    ensures values { Changes places.now.definition first (after_item places.now.definition item.now) bits.old bits.new }
    ensures count { length bits.new ≡ length bits.old }
{
    match item {
        Item::Initial { name, value, .. } => set_value(bits, places, first, name.bytes(), value),
        Item::Decl { .. }
        | Item::Assign { .. }
        | Item::Gate { .. }
        | Item::Instance { .. }
        | Item::Always { .. } => {}
    }
}

// A value that is too wide is none.
fn set_value(bits: &mut Bits, places: &ModulePlaces<'_>, first: usize, name: &[u8], value: &Expr)
    requires number { is_number value.now ≡ true }
    requires room { first + length (placed_registers places.now) ≤ length bits.old }
    ensures values { Changes places.now.definition first (after_value places.now.definition name.now value.now) bits.old bits.new }
    ensures count { length bits.new ≡ length bits.old }
{
    if width_by(places.nets(), value).is_none() {
        return;
    }
    match value {
        Expr::Number { bits: number, .. } => set_number(bits, places, first, name, number),
        _ => unreachable!(),
    }
}

// A name that is no register is not set.
fn set_number(bits: &mut Bits, places: &ModulePlaces<'_>, first: usize, name: &[u8], number: &Bits)
    requires room { first + length (placed_registers places.now) ≤ length bits.old }
    ensures values { Changes places.now.definition first (after_number name.now number.now) bits.old bits.new }
    ensures count { length bits.new ≡ length bits.old }
{
    // Its length fits a `usize`, and so does each place in it.
    let _length = bits.len();
    if let Some(start) = register_of(places, name) {
        set_bits(bits, first + start, width_of(places.nets(), name), number);
    }
}

// Sets so many bits to those of the number, above which there are zeros.
fn set_bits(bits: &mut Bits, start: usize, count: usize, number: &Bits)
    requires room { start + count ≤ length bits.old }
    requires small { length bits.old < 2 ^ 64 }
    ensures values { SetsBits start count number.now bits.old bits.new }
    ensures count { length bits.new ≡ length bits.old }
{
    for i in 0..count {
        bits.set(start + i, bit_of(number, i));
    }
}

fn bit_of(number: &Bits, place: usize) -> bool
    ensures { result ≡ slice_index_or number.now place false }
{
    if place < number.len() {
        number.get(place)
    } else {
        false
    }
}

// Where the bits of a register stand among those of the module. Nothing of another name.
fn register_of(places: &ModulePlaces<'_>, name: &[u8]) -> Option<usize>
    ensures stands { IfSome result (StandFrom (placed_registers places.now) places.now.definition name.now) }
    ensures some { IfSome result (λ first. 0 < bit_count places.now.definition name.now) }
    ensures none { result ≡ None → list_any (is_of name.now) (placed_registers places.now) ≡ false }
{
    match places.place(name) {
        Some(Place::Register(first)) => Some(first),
        Some(Place::Clock) => None,
        Some(Place::Input(_)) => None,
        Some(Place::Driven(_)) => None,
        None => None,
    }
}

// How many bits a name has.
fn width_of(nets: &Nets<'_>, name: &[u8]) -> usize
    ensures { result ≡ bit_count nets.now name.now }
{
    match nets.find(name) {
        Some(net) => net.width(),
        None => 0,
    }
}
