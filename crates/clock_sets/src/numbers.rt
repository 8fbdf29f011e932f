//! All names of all modules by numbers.
ghost use Rattle.std.specs.Prelude.{◌≡◌, ◌+◌, ◌<◌, IfOk, IfSome, length};
ghost use Rattle.clock_sets.specs.Numbers.{number_of};
ghost use Rattle.clock_sets.specs.Passing.{signal, signals};

use bm_base::NoMemory;
use design_nets::DesignNets;
use std::alloc::Global;
use std::marker::Model;

/// The names of the modules of a design, numbered from 0 on: those of the first module in their order, then those of the
/// second, and so on. Contracts see it as the design and the name of its top.
#[derive(Drop)]
pub(crate) struct Numbers<'d, 'a> {
    design: &'d DesignNets<'a>,
    // the number of each module's first name
    starts: Vec<usize>,
    count: usize,
}

impl<'d, 'a> Model for Numbers<'d, 'a> {
    ghost use Rattle.std.specs.Coded.{codes};
    ghost use Rattle.vlog_tree.specs.contracts.design.Design as tree;
    ghost use Rattle.hierarchy.specs.Indexed.{Topped};
    ghost use Rattle.clock_sets.specs.Numbers.{IsNumbered};

    ghost Value = { Topped };

    ghost coded = { Prim.hlevel (codes, tree.the_row.coded) };

    ghost view = { λ it. it.design.now };

    ghost invariant = { λ it. IsNumbered it.design.now.design.modules it.starts.items it.count };
}

impl<'d, 'a> Numbers<'d, 'a> {
    /// Takes time that grows with the number of modules.
    pub(crate) fn of(alloc: Global, design: &'d DesignNets<'a>) -> Result<Numbers<'d, 'a>, NoMemory>
        ensures { IfOk result (λ numbers. numbers ≡ design.now) }
    {
        let mut starts = Vec::new(alloc);
        let mut count = 0;
        for nets in design.modules() {
            starts.push(count)?;
            count = added(count, nets.len())?;
        }
        Ok(Numbers {
            design,
            starts,
            count,
        })
    }

    /// The design whose names are numbered.
    pub(crate) fn design(&self) -> &'d DesignNets<'a>
        ensures { result.now ≡ self.now }
    {
        self.design
    }

    /// How many names there are.
    pub(crate) fn count(&self) -> usize
        ensures { result ≡ length (signals self.now.design.modules) }
    {
        self.count
    }

    /// The number of a name of a module.
    pub(crate) fn number_of(&self, module_name: &[u8], name: &[u8]) -> Option<usize>
        ensures { result ≡ number_of self.now.design.modules (signal module_name.now name.now) }
    {
        match self.design.hierarchy().place_of(module_name) {
            Some(place) => match self.design.modules()[place].index_of(name) {
                Some(index) => Some(self.starts[place] + index),
                None => None,
            },
            None => None,
        }
    }
}

// The sum, where it fits: otherwise there are more names than memory has bytes.
fn added(one: usize, other: usize) -> Result<usize, NoMemory>
    ensures { IfOk result (λ sum. sum ≡ one + other) }
{
    match one.checked_add(other) {
        Some(sum) => Ok(sum),
        None => Err(NoMemory),
    }
}
