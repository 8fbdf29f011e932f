ghost use Rattle.std.specs.Prelude.{◌≡◌, ◌||◌, IfOk, OnOk, bytes_eq};
ghost use Rattle.vlog_tree.specs.Meaning.Uses.{Text};
ghost use Rattle.clock_sets.specs.Passing.{both, plain_assign, plain_left, plain_name};
ghost use Rattle.clock_rules.specs.Clocks.{is_assigned, is_plainly_assigned};
ghost use Rattle.clock_rules.specs.Kept.{has_left};

use bm_base::NoMemory;
use clock_sets::{plain_left, plain_name};
use nets::Nets;
use std::alloc::Global;
use std::collections::HashSet;
use vlog_tree::{Expr, Item, Left};

/// The left names of the plain assigns of a module.
#[derive(Drop)]
pub(crate) struct Assigned<'a> {
    names: HashSet<&'a [u8]>,
}

impl<'a> Assigned<'a> {
    pub(crate) fn of(alloc: Global, nets: &Nets<'a>) -> Result<Assigned<'a>, NoMemory>
        ensures { IfOk result (λ assigned. (name : Text) → has_left assigned name
            ≡ is_plainly_assigned nets.now name) }
    {
        let mut assigned = Assigned {
            names: HashSet::new(alloc),
        };
        let m = nets.module();
        for item in m.items.as_slice() {
            assigned.add_item(nets, item)?;
        }
        Ok(assigned)
    }

    fn add_item(&mut self, nets: &Nets<'a>, item: &'a Item) -> Result<(), NoMemory>
        ensures { OnOk result ((name : Text) → has_left self.new name
            ≡ (has_left self.old name || is_assigned name (plain_assign nets.now item.now))) }
    {
        match item {
            Item::Assign { left, right, .. } => self.add_assign(nets, left, right),
            _ => Ok(()),
        }
    }

    fn add_assign(
        &mut self,
        nets: &Nets<'a>,
        left: &'a Left,
        right: &'a Expr,
    ) -> Result<(), NoMemory>
        ensures { OnOk result ((name : Text) → has_left self.new name
            ≡ (has_left self.old name || is_assigned name (both (plain_left nets.now left.now) (plain_name nets.now right.now)))) }
    {
        match (plain_left(nets, left), plain_name(nets, right)) {
            (Some(name), Some(_)) => self.add(name),
            _ => Ok(()),
        }
    }

    fn add(&mut self, name: &'a [u8]) -> Result<(), NoMemory>
        ensures { OnOk result ((other : Text) → has_left self.new other
            ≡ (has_left self.old other || bytes_eq name.now other)) }
    {
        self.names.insert(name)?;
        Ok(())
    }

    pub(crate) fn has(&self, name: &[u8]) -> bool
        ensures { result ≡ has_left self.now name.now }
    {
        self.names.contains(name)
    }
}
