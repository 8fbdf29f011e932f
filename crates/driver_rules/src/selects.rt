//! The bits of names and of their selects.
ghost use Rattle.std.specs.Prelude.{◌≡◌, ◌≤◌, ◌++◌, IfSome, OnOk};
ghost use Rattle.std.specs.Option.{option_map};
ghost use Rattle.vlog_tree.specs.Meaning.Ranges.{bit_with, bits_between, bits_from, part_bits, part_of, place_of, range_of, span, whole_bits};
ghost use Rattle.vlog_tree.specs.Meaning.Uses.{Text};
ghost use Rattle.driver_rules.specs.Doubles.{assigned_at};
ghost use Rattle.driver_rules.specs.Selects.{AreNumbered, IsRunOf, bits_of, number_of, shown};

use crate::run::Run;
use crate::select::Select;
use bm_base::{Name, NoMemory, Range};
use nets::{Nets, place_of};
use sqlite_items::Items;

/// Adds the bits of a name.
pub(crate) fn add_whole<'a>(
    selects: &mut Items<Select<'a>>,
    nets: &Nets<'a>,
    at: u64,
    name: &'a Name,
) -> Result<(), NoMemory>
    ensures shown { OnOk result (shown selects.new ≡ shown selects.old ++ assigned_at at (whole_bits nets.now name.now)) }
    ensures numbered { OnOk result (AreNumbered nets.now selects.old → AreNumbered nets.now selects.new) }
{
    let run = whole_run(nets, name);
    add_run(selects, nets, at, name, run)
}

/// Adds the bit with an index, if the name has it.
pub(crate) fn add_bit<'a>(
    selects: &mut Items<Select<'a>>,
    nets: &Nets<'a>,
    at: u64,
    name: &'a Name,
    index: u32,
) -> Result<(), NoMemory>
    ensures shown { OnOk result (shown selects.new ≡ shown selects.old ++ assigned_at at (bit_with nets.now name.now index)) }
    ensures numbered { OnOk result (AreNumbered nets.now selects.old → AreNumbered nets.now selects.new) }
{
    let run = bit_run(nets, name, index);
    add_run(selects, nets, at, name, run)
}

/// Adds the bits of a part, if the name has them.
pub(crate) fn add_part<'a>(
    selects: &mut Items<Select<'a>>,
    nets: &Nets<'a>,
    at: u64,
    name: &'a Name,
    part: Range,
) -> Result<(), NoMemory>
    ensures shown { OnOk result (shown selects.new ≡ shown selects.old ++ assigned_at at (part_bits nets.now name.now part)) }
    ensures numbered { OnOk result (AreNumbered nets.now selects.old → AreNumbered nets.now selects.new) }
{
    let run = part_run(nets, name, part);
    add_run(selects, nets, at, name, run)
}

fn add_run<'a>(
    selects: &mut Items<Select<'a>>,
    nets: &Nets<'a>,
    at: u64,
    name: &'a Name,
    run: Option<Run>,
) -> Result<(), NoMemory>
    requires { IfSome run (IsRunOf nets.now name.now) }
    ensures shown { OnOk result (shown selects.new ≡ shown selects.old ++ assigned_at at (option_map (bits_of name.now) run)) }
    ensures numbered { OnOk result (AreNumbered nets.now selects.old → AreNumbered nets.now selects.new) }
{
    if let Some(bits) = run {
        selects.push(Select {
            at,
            name: name.bytes(),
            bits,
        })?;
    }
    Ok(())
}

fn whole_run(nets: &Nets<'_>, name: &Name) -> Option<Run>
    ensures bits { option_map (bits_of name.now) result ≡ whole_bits nets.now name.now }
    ensures run { IfSome result (IsRunOf nets.now name.now) }
{
    match numbered_range(nets, name) {
        Some((net, range)) => Some(all_of(net, range)),
        None => None,
    }
}

fn bit_run(nets: &Nets<'_>, name: &Name, index: u32) -> Option<Run>
    ensures bits { option_map (bits_of name.now) result ≡ bit_with nets.now name.now index }
    ensures run { IfSome result (IsRunOf nets.now name.now) }
{
    match numbered_range(nets, name) {
        Some((net, range)) => bit_in(net, range, index),
        None => None,
    }
}

fn part_run(nets: &Nets<'_>, name: &Name, part: Range) -> Option<Run>
    ensures bits { option_map (bits_of name.now) result ≡ part_bits nets.now name.now part }
    ensures run { IfSome result (IsRunOf nets.now name.now) }
{
    match numbered_range(nets, name) {
        Some((net, range)) => part_in(net, range, part),
        None => None,
    }
}

// The number and the range of a name, if it is declared or implicit.
fn numbered_range(nets: &Nets<'_>, name: &Name) -> Option<(usize, Range)>
    ensures number { option_map (λ found. found.0) result ≡ number_of nets.now name.now }
    ensures range { option_map (λ found. found.1) result ≡ range_of nets.now name.now }
{
    match nets.index_of(name.bytes()) {
        Some(number) => {
            let (_, net) = nets.entry_at(number);
            Some((number, net.range()))
        }
        None => None,
    }
}

fn all_of(net: usize, range: Range) -> Run
    ensures bits { (name : Text) → bits_of name result ≡ bits_from name 0 (span range) }
    ensures run { (result.net ≡ net) × (result.first ≤ result.last) }
{
    Run {
        net,
        first: 0,
        last: range.left.abs_diff(range.right) as usize,
    }
}

fn bit_in(net: usize, range: Range, index: u32) -> Option<Run>
    ensures bits { (name : Text) → option_map (bits_of name) result ≡ option_map (λ place. bits_from name place 1) (place_of range index) }
    ensures run { IfSome result (λ run. (run.net ≡ net) × (run.first ≤ run.last)) }
{
    match place_of(range, index) {
        Some(place) => Some(Run {
            net,
            first: place as usize,
            last: place as usize,
        }),
        None => None,
    }
}

fn part_in(net: usize, range: Range, part: Range) -> Option<Run>
    ensures bits { (name : Text) → option_map (bits_of name) result ≡ part_of range name part }
    ensures run { IfSome result (λ run. (run.net ≡ net) × (run.first ≤ run.last)) }
{
    match (place_of(range, part.left), place_of(range, part.right)) {
        (Some(high), Some(low)) => between(net, high as usize, low as usize),
        _ => None,
    }
}

fn between(net: usize, high: usize, low: usize) -> Option<Run>
    ensures bits { (name : Text) → option_map (bits_of name) result ≡ bits_between name high low }
    ensures run { IfSome result (λ run. (run.net ≡ net) × (run.first ≤ run.last)) }
{
    if low <= high {
        Some(Run {
            net,
            first: low,
            last: high,
        })
    } else {
        None
    }
}
