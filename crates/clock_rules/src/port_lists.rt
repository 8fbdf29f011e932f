//! The input ports of modules that are clock uses.
ghost use Rattle.std.specs.Prelude.{◌≡◌, ◌<◌, ◌++◌, ◌∷◌, [], IfOk, IfSome, IsTrue, OnOk, Some, filter, is_none, length, map};
ghost use Rattle.std.specs.List.{list_any};
ghost use Rattle.std.specs.Option.{option_map};
ghost use Rattle.vlog_tree.specs.Meaning.Uses.{Text};
ghost use Rattle.nets.specs.Nets.{net_of};
ghost use Rattle.clock_rules.specs.Clocks.{clock_ports, is_clock_port, is_unplain};
ghost use Rattle.clock_rules.specs.Kept.{child_of_links, is_unplain_by, plain_in};

use crate::connected::Connected;
use bm_base::NoMemory;
use clock_sets::ClockUses;
use nets::{Net, Nets};
use sqlite_items::Items;
use std::alloc::Global;
use std::marker::Model;
use vlog_tree::{Link, Module};

/// The input ports of a module that are clock uses.
#[derive(Drop)]
pub(crate) struct ClockPorts<'a> {
    names: Items<&'a [u8]>,
}

impl<'a> Model for ClockPorts<'a> {
    ghost use Rattle.std.specs.Prelude.{List, map};
    ghost use Rattle.vlog_tree.specs.Meaning.Uses.{Text};

    ghost Value = { List Text };

    ghost view = { λ it. map (λ name. name.now) it.names };
}

impl<'a> ClockPorts<'a> {
    pub(crate) fn of(
        alloc: Global,
        uses: &ClockUses<'_, 'a>,
        nets: &Nets<'a>,
    ) -> Result<ClockPorts<'a>, NoMemory>
        ensures { IfOk result (λ ports. ports ≡ clock_ports uses.now.design uses.now.top nets.now) }
    {
        let mut ports = ClockPorts {
            names: Items::new(alloc),
        };
        for i in 0..nets.len() {
            let (name, net) = nets.entry_at(i);
            ports.add(uses, nets, name, net)?;
        }
        Ok(ports)
    }

    fn add(
        &mut self,
        uses: &ClockUses<'_, 'a>,
        nets: &Nets<'a>,
        name: &'a [u8],
        net: &Net,
    ) -> Result<(), NoMemory>
        requires { net_of nets.now name.now ≡ Some net.now }
        ensures { OnOk result (self.new
            ≡ self.old ++ filter (is_clock_port uses.now.design uses.now.top nets.now) (name.now ∷ [])) }
    {
        if is_clock_port(uses, nets, name, net) {
            self.names.push(name)?;
        }
        Ok(())
    }

    /// An instance of the module `inner`, in that of `nets`, doesn't connect each of these ports plainly.
    pub(crate) fn is_unplain(
        &self,
        alloc: Global,
        nets: &Nets<'a>,
        inner: &'a Module,
        links: &'a [Link],
    ) -> Result<bool, NoMemory>
        ensures { IfOk result (λ is_bad. is_bad
            ≡ list_any (is_unplain nets.now (child_of_links inner.now links.now)) self.now) }
    {
        if self.names.is_empty() {
            return Ok(false);
        }
        let connected = Connected::of(alloc, nets, inner, links)?;
        Ok(has_unplain(&connected, self.names.as_slice()))
    }
}

fn has_unplain(connected: &Connected, ports: &[&[u8]]) -> bool
    ensures { result ≡ list_any (λ port. is_unplain_by (plain_in connected.now port.now)) ports.now }
{
    for port in ports {
        if connected.is_unplain(port) {
            return true;
        }
    }
    false
}

fn is_clock_port(uses: &ClockUses, nets: &Nets, name: &[u8], net: &Net) -> bool
    requires { net_of nets.now name.now ≡ Some net.now }
    ensures { result ≡ is_clock_port uses.now.design uses.now.top nets.now name.now }
{
    net.is_input() && uses.has(nets.module().name.bytes(), name)
}

/// The clock ports of each of these modules.
pub(crate) fn ports_of<'a>(
    alloc: Global,
    uses: &ClockUses<'_, 'a>,
    modules: &[Nets<'a>],
) -> Result<Items<ClockPorts<'a>>, NoMemory>
    ensures { IfOk result (λ ports. ports ≡ map (clock_ports uses.now.design uses.now.top) modules.now) }
{
    let mut ports = Items::new(alloc);
    for nets in modules {
        ports.push(ClockPorts::of(alloc, uses, nets)?)?;
    }
    Ok(ports)
}
