//! The names that carry the clock of a design's top.
ghost use Rattle.std.specs.Prelude.{◌≡◌, IfOk};
ghost use Rattle.std.specs.Option.{option_to_list};
ghost use Rattle.clock_sets.specs.Numbers.{number_of};
ghost use Rattle.clock_sets.specs.Passing.{signal};
ghost use Rattle.clock_sets.specs.Sets.{clocked_by, is_clocked};

use crate::edges::add_number;
use crate::marks::{has_mark, spread};
use crate::numbers::Numbers;
use crate::passes::steps_of;
use bm_base::NoMemory;
use design_nets::DesignNets;
use sqlite_items::Items;
use std::alloc::Global;
use std::marker::Model;

/// The names to which the clock of a design's top passes on.
#[derive(Drop)]
pub struct ClockedNames<'d, 'a> {
    numbers: Numbers<'d, 'a>,
    clock: &'d [u8],
    marks: Vec<bool>,
}

impl<'d, 'a> Model for ClockedNames<'d, 'a> {
    ghost use Rattle.std.specs.Prelude.{◌≡◌};
    ghost use Rattle.std.specs.Coded.{codes};
    ghost use Rattle.vlog_tree.specs.contracts.design.Design as tree;
    ghost use Rattle.clock_sets.specs.Numbers.{number_of};
    ghost use Rattle.clock_sets.specs.Passing.{Signal};
    ghost use Rattle.clock_sets.specs.Sets.{Clocked, clocked_by, is_clocked};
    ghost use Rattle.clock_sets.specs.Steps.{has_mark};

    ghost Value = { Clocked };

    ghost coded = { Prim.hlevel (codes, tree.the_row.coded) };

    ghost view = { λ it. clocked_by it.numbers it.clock.now };

    ghost invariant = { λ it. (one : Signal) → has_mark it.marks.items (number_of it.numbers.design.modules one)
        ≡ is_clocked (clocked_by it.numbers it.clock.now) one };
}

impl<'d, 'a> ClockedNames<'d, 'a> {
    /// Takes time that grows with the size of the design.
    pub fn of(
        alloc: Global,
        design: &'d DesignNets<'a>,
        clock: &'d [u8],
    ) -> Result<ClockedNames<'d, 'a>, NoMemory>
        ensures { IfOk result (λ names. names ≡ clocked_by design.now clock.now) }
    {
        let numbers = Numbers::of(alloc, design)?;
        let steps = steps_of(alloc, &numbers)?;
        let start = clock_start(alloc, &numbers, clock)?;
        let marks = spread(alloc, numbers.count(), steps.as_slice(), start.as_slice())?;
        Ok(ClockedNames {
            numbers,
            clock,
            marks,
        })
    }

    /// Whether the name of the module is one of them.
    pub fn has(&self, module_name: &[u8], name: &[u8]) -> bool
        ensures { result ≡ is_clocked self.now (signal module_name.now name.now) }
    {
        has_mark(&self.marks, self.numbers.number_of(module_name, name))
    }
}

// The number of the top's clock alone, or none where that is no name of the top.
fn clock_start(alloc: Global, numbers: &Numbers, clock: &[u8]) -> Result<Items<usize>, NoMemory>
    ensures { IfOk result (λ start. start
        ≡ option_to_list (number_of numbers.now.design.modules (signal numbers.now.top clock.now))) }
{
    let mut start = Items::new(alloc);
    add_number(&mut start, clock_number(numbers, clock))?;
    Ok(start)
}

fn clock_number(numbers: &Numbers, clock: &[u8]) -> Option<usize>
    ensures { result ≡ number_of numbers.now.design.modules (signal numbers.now.top clock.now) }
{
    let design = numbers.design();
    let top = design.hierarchy().top();
    numbers.number_of(design.modules()[top].module().name.bytes(), clock)
}
