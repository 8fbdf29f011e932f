//! The labels of a design's traces.
ghost use Rattle.std.specs.Prelude.{◌≡◌, ◌≤◌, ◌++◌, IfOk, OnOk};
ghost use Rattle.vlog_tree.specs.Meaning.Keys.{bit_count};
ghost use Rattle.vlog_tree.specs.Meaning.Ranges.{span};
ghost use Rattle.vlog_tree.specs.Meaning.Uses.{Text};
ghost use Rattle.elab.specs.Placed.{label_of_net, label_unless_clock, labels_with};
ghost use Rattle.elab.specs.Plans.{port_labels};

use crate::names::Names;
use bm_base::{Name, NoMemory};
use nets::{Net, Nets};
use sqlite_items::Items;
use std::alloc::Global;
use trace_rows::{Labels, PortLabel};

/// The names that a command gives, and the labels of the top's ports.
pub(crate) fn labels_of(alloc: Global, top: &Nets, names: &Names) -> Result<Labels, NoMemory>
    requires { (name : Text) → bit_count top.now name ≤ 65536 }
    ensures { IfOk result (λ labels. labels ≡ labels_with names.now top.now) }
{
    let top_name = Name::new(alloc, names.top.bytes())?;
    let clock = Name::new(alloc, names.clock.bytes())?;
    let check = Name::new(alloc, names.check.bytes())?;
    let ports = port_labels(alloc, top, &names.clock)?;
    Ok(Labels {
        top: top_name,
        clock,
        check,
        ports,
    })
}

// The inputs of the top but its clock, in the order of its header.
fn port_labels(alloc: Global, top: &Nets, clock: &Name) -> Result<Items<PortLabel>, NoMemory>
    requires { (name : Text) → bit_count top.now name ≤ 65536 }
    ensures { IfOk result (λ ports. ports ≡ port_labels clock.now top.now) }
{
    let mut ports = Items::new(alloc);
    for place in 0..top.len() {
        let (name, net) = top.entry_at(place);
        add_unless_clock(alloc, name, net, clock, &mut ports)?;
    }
    Ok(ports)
}

// Adds the name, if it is an input other than the clock.
fn add_unless_clock(
    alloc: Global,
    name: &[u8],
    net: &Net,
    clock: &Name,
    ports: &mut Items<PortLabel>,
) -> Result<(), NoMemory>
    requires { span net.now.range ≤ 65536 }
    ensures { OnOk result (ports.new ≡ ports.old ++ label_unless_clock clock.now (name.now, net.now)) }
{
    if net.is_input() && *name != *clock.bytes() {
        ports.push(port_label(alloc, name, net)?)?;
    }
    Ok(())
}

fn port_label(alloc: Global, name: &[u8], net: &Net) -> Result<PortLabel, NoMemory>
    requires { span net.now.range ≤ 65536 }
    ensures { IfOk result (λ label. label ≡ label_of_net name.now net.now) }
{
    let name = Name::new(alloc, name)?;
    Ok(PortLabel {
        name,
        width: net.width() as u32,
        range: net.written(),
    })
}
