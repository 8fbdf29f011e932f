//! Rule E12: what a clock use may be.
ghost use Rattle.std.specs.Prelude.{◌≡◌, ◌<◌, ◌∷◌, ◌&&◌, ◌==◌, [], IfOk, IfSome, OnOk, Some, cond, filter, flat_map, fold, length, not};
ghost use Rattle.std.specs.List.{list_any};
ghost use Rattle.std.specs.Option.{option_map};
ghost use Rattle.hierarchy.specs.Failures.{earlier, failure};
ghost use Rattle.hierarchy.specs.Graph.{name_at};
ghost use Rattle.vlog_tree.specs.Meaning.Instances.{module_named};
ghost use Rattle.vlog_tree.specs.Meaning.Ranges.{span};
ghost use Rattle.vlog_tree.specs.Meaning.Uses.{Text};
ghost use Rattle.nets.specs.Nets.{net_of, nets as all_nets};
ghost use Rattle.clock_sets.specs.Passing.{signal};
ghost use Rattle.clock_sets.specs.Sets.{clocked_by, is_clock_use};
ghost use Rattle.clock_rules.specs.Clocks.{bad_clock, bad_clocking, bad_clocks, bad_clocks_in, can_be_clock, clock_ports, is_plainly_assigned, is_unplain};
ghost use Rattle.clock_rules.specs.Kept.{child_of_links, has_left};
ghost use Rattle.clock_rules.specs.Told.{Tells, can_be_by, is_other_by, is_reached};

use crate::assigned::Assigned;
use crate::port_lists::{ClockPorts, ports_of};
use crate::top::top_name;
use bm_base::{Name, NoMemory, Range};
use clock_sets::ClockUses;
use design_nets::DesignNets;
use hierarchy::{Earliest, note_if};
use nets::{Net, Nets};
use sqlite_items::Items;
use std::alloc::Global;
use vlog_tree::{Item, Link, Module};

/// Notes each clock use that is not one bit wide, that is a `reg`, that is neither an input of its module nor the left
/// name of a plain assign, or that is an input of the top other than its clock; and each instance that does not connect
/// plainly each input port that is a clock use. Takes time that grows with the size of the design.
pub fn note_bad_clocks<'a>(
    alloc: Global,
    design: &DesignNets<'a>,
    clock: &[u8],
    found: &mut Earliest<'a>,
) -> Result<(), NoMemory>
    ensures { OnOk result (found.new ≡ fold earlier found.old (bad_clocks (clocked_by design.now clock.now))) }
{
    let rule = ClockRule::of(alloc, design, clock)?;
    for (place, nets) in design.modules().iter().enumerate() {
        rule.note_if_reached(alloc, place, nets, found)?;
    }
    Ok(())
}

/// The rule, with what is looked up for it.
#[derive(Drop)]
pub(crate) struct ClockRule<'d, 'a> {
    design: &'d DesignNets<'a>,
    top: &'a [u8],
    clock: &'d [u8],
    uses: ClockUses<'d, 'a>,
    ports: Items<ClockPorts<'a>>,
    ghost told: { Tells design.now top.now uses ports },
}

impl<'d, 'a> ClockRule<'d, 'a> {
    ghost use Rattle.clock_rules.specs.Ruled.{ruled};

    fn of(
        alloc: Global,
        design: &'d DesignNets<'a>,
        clock: &'d [u8],
    ) -> Result<ClockRule<'d, 'a>, NoMemory>
        ensures { IfOk result (λ rule. ruled rule ≡ clocked_by design.now clock.now) }
    {
        let uses = ClockUses::of(alloc, design)?;
        let ports = ports_of(alloc, &uses, design.modules())?;
        Ok(ClockRule {
            design,
            top: top_name(design),
            clock,
            uses,
            ports,
        })
    }

    // Notes what is wrong in the module at a place, if it is reached.
    fn note_if_reached(
        &self,
        alloc: Global,
        place: usize,
        nets: &Nets<'a>,
        found: &mut Earliest<'a>,
    ) -> Result<(), NoMemory>
        requires within { place < length (ruled self.now).design.modules }
        requires name { name_at (ruled self.now).design.modules place ≡ nets.now.name }
        ensures { OnOk result (found.new ≡ fold earlier found.old
            (flat_map (bad_clocks_in (ruled self.now)) (filter (is_reached (ruled self.now)) (nets.now ∷ [])))) }
    {
        if self.design.is_reached(place) {
            self.note_in_module(alloc, nets, found)
        } else {
            Ok(())
        }
    }

    fn note_in_module(
        &self,
        alloc: Global,
        nets: &Nets<'a>,
        found: &mut Earliest<'a>,
    ) -> Result<(), NoMemory>
        ensures { OnOk result (found.new ≡ fold earlier found.old (bad_clocks_in (ruled self.now) nets.now)) }
    {
        self.note_names(alloc, nets, found)?;
        self.note_items(alloc, nets, found)
    }

    fn note_names(
        &self,
        alloc: Global,
        nets: &Nets<'a>,
        found: &mut Earliest<'a>,
    ) -> Result<(), NoMemory>
        ensures { OnOk result (found.new ≡ fold earlier found.old
            (flat_map (λ entry. bad_clock (ruled self.now) nets.now entry.0) (all_nets nets.now))) }
    {
        let assigned = Assigned::of(alloc, nets)?;
        for i in 0..nets.len() {
            let (name, net) = nets.entry_at(i);
            self.note_name(nets, &assigned, name, net, found);
        }
        Ok(())
    }

    fn note_name(
        &self,
        nets: &Nets<'a>,
        assigned: &Assigned<'a>,
        name: &'a [u8],
        net: &Net,
        found: &mut Earliest<'a>,
    )
        requires said { net_of nets.now name.now ≡ Some net.now }
        requires assigned { (name : Text) → has_left assigned.now name ≡ is_plainly_assigned nets.now name }
        ensures { found.new ≡ fold earlier found.old (bad_clock (ruled self.now) nets.now name.now) }
    {
        let is_bad = self.is_bad_clock(nets, assigned, name, net);
        note_if(is_bad, nets.module(), net.at(), name, found);
    }

    fn is_bad_clock(&self, nets: &Nets<'a>, assigned: &Assigned<'a>, name: &[u8], net: &Net) -> bool
        requires said { net_of nets.now name.now ≡ Some net.now }
        requires assigned { (name : Text) → has_left assigned.now name ≡ is_plainly_assigned nets.now name }
        ensures { result ≡ (is_clock_use (ruled self.now).design (ruled self.now).top (signal nets.now.name name.now)
            && not (can_be_clock (ruled self.now) nets.now name.now)) }
    {
        let m = nets.module();
        self.is_use(m, name) && !self.can_be_clock(m, name, net, assigned.has(name))
    }

    fn is_use(&self, m: &Module, name: &[u8]) -> bool
        ensures { result ≡ is_clock_use (ruled self.now).design (ruled self.now).top (signal m.now.name name.now) }
    {
        self.uses.has(m.name.bytes(), name)
    }

    // What a clock use may be, by what the module says of it.
    fn can_be_clock(&self, m: &Module, name: &[u8], net: &Net, is_assigned: bool) -> bool
        ensures { result ≡ can_be_by (ruled self.now) m.now.name name.now net.now is_assigned }
    {
        span(net.range()) == 1
            && (!net.is_register()
                && ((net.is_input() || is_assigned) && !self.is_other_input(m, name, net)))
    }

    // An input of the top other than its clock.
    fn is_other_input(&self, m: &Module, name: &[u8], net: &Net) -> bool
        ensures { result ≡ is_other_by (ruled self.now) m.now.name name.now net.now }
    {
        m.name.bytes() == self.top && (net.is_input() && name != self.clock)
    }

    fn note_items(
        &self,
        alloc: Global,
        nets: &Nets<'a>,
        found: &mut Earliest<'a>,
    ) -> Result<(), NoMemory>
        ensures { OnOk result (found.new ≡ fold earlier found.old
            (flat_map (bad_clocking (ruled self.now) nets.now) nets.now.items)) }
    {
        let m = nets.module();
        for item in m.items.as_slice() {
            self.note_item(alloc, nets, item, found)?;
        }
        Ok(())
    }

    fn note_item(
        &self,
        alloc: Global,
        nets: &Nets<'a>,
        item: &'a Item,
        found: &mut Earliest<'a>,
    ) -> Result<(), NoMemory>
        ensures { OnOk result (found.new ≡ fold earlier found.old (bad_clocking (ruled self.now) nets.now item.now)) }
    {
        match item {
            Item::Instance {
                at,
                module,
                name,
                links,
            } => match self.inner(module.bytes()) {
                Some((inner, ports)) => {
                    note_if_unplain(
                        alloc,
                        nets,
                        *at,
                        name,
                        links.as_slice(),
                        inner,
                        ports,
                        found,
                    )
                }
                None => Ok(()),
            },
            _ => Ok(()),
        }
    }

    // The module of a name, with its clock ports.
    fn inner(&self, name: &[u8]) -> Option<(&Nets<'a>, &ClockPorts<'a>)>
        ensures named { option_map (λ inner. inner.0.now) result ≡ module_named (ruled self.now).design name.now }
        ensures ports { IfSome result (λ inner. inner.1.now
            ≡ clock_ports (ruled self.now).design (ruled self.now).top inner.0.now) }
    {
        match self.design.hierarchy().place_of(name) {
            Some(place) => Some((&self.design.modules()[place], &self.ports.as_slice()[place])),
            None => None,
        }
    }
}

// Notes the instance, if it doesn't connect each of these ports of the module `inner` plainly.
fn note_if_unplain<'a>(
    alloc: Global,
    nets: &Nets<'a>,
    at: u64,
    name: &'a Name,
    links: &'a [Link],
    inner: &Nets<'a>,
    ports: &ClockPorts<'a>,
    found: &mut Earliest<'a>,
) -> Result<(), NoMemory>
    ensures { OnOk result (found.new ≡ fold earlier found.old
        (cond (list_any (is_unplain nets.now (child_of_links inner.now links.now)) ports.now)
        (failure at nets.now.name name.now ∷ []) [])) }
{
    let is_bad = ports.is_unplain(alloc, nets, inner.module(), links)?;
    note_if(is_bad, nets.module(), at, name.bytes(), found);
    Ok(())
}

// How many bits a range has.
fn span(range: Range) -> usize
    ensures { result ≡ span range }
{
    range.left.abs_diff(range.right) as usize + 1
}
