//! The names that are used as clocks.
ghost use Rattle.std.specs.Prelude.{◌≡◌, IfOk};
ghost use Rattle.clock_sets.specs.Passing.{signal};
ghost use Rattle.clock_sets.specs.Sets.{is_clock_use};

use crate::edges::edges_of;
use crate::marks::{has_mark, spread};
use crate::numbers::Numbers;
use crate::passes::steps_of;
use crate::steps::turned;
use bm_base::NoMemory;
use design_nets::DesignNets;
use std::alloc::Global;
use std::marker::Model;

/// The names of a design from which a clock passes on to a name after `posedge`. Contracts see it as the design and the
/// name of its top.
#[derive(Drop)]
pub struct ClockUses<'d, 'a> {
    numbers: Numbers<'d, 'a>,
    marks: Vec<bool>,
}

impl<'d, 'a> Model for ClockUses<'d, 'a> {
    ghost use Rattle.std.specs.Prelude.{◌≡◌};
    ghost use Rattle.std.specs.Coded.{codes};
    ghost use Rattle.vlog_tree.specs.contracts.design.Design as tree;
    ghost use Rattle.hierarchy.specs.Indexed.{Topped};
    ghost use Rattle.clock_sets.specs.Numbers.{number_of};
    ghost use Rattle.clock_sets.specs.Passing.{Signal};
    ghost use Rattle.clock_sets.specs.Sets.{is_clock_use};
    ghost use Rattle.clock_sets.specs.Steps.{has_mark};

    ghost Value = { Topped };

    ghost coded = { Prim.hlevel (codes, tree.the_row.coded) };

    ghost view = { λ it. it.numbers };

    ghost invariant = { λ it. (one : Signal) → has_mark it.marks.items (number_of it.numbers.design.modules one)
        ≡ is_clock_use it.numbers.design it.numbers.top one };
}

impl<'d, 'a> ClockUses<'d, 'a> {
    /// Takes time that grows with the size of the design.
    pub fn of(alloc: Global, design: &'d DesignNets<'a>) -> Result<ClockUses<'d, 'a>, NoMemory>
        ensures { IfOk result (λ uses. uses ≡ design.now) }
    {
        let numbers = Numbers::of(alloc, design)?;
        let steps = steps_of(alloc, &numbers)?;
        let back = turned(alloc, steps.as_slice())?;
        let edges = edges_of(alloc, &numbers)?;
        let marks = spread(alloc, numbers.count(), back.as_slice(), edges.as_slice())?;
        Ok(ClockUses { numbers, marks })
    }

    /// Whether the name of the module is one of them.
    pub fn has(&self, module_name: &[u8], name: &[u8]) -> bool
        ensures { result ≡ is_clock_use self.now.design self.now.top (signal module_name.now name.now) }
    {
        has_mark(&self.marks, self.numbers.number_of(module_name, name))
    }
}
