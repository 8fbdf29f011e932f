//! What instances assign by their output ports.
ghost use Rattle.std.specs.Prelude.{◌≡◌, ◌++◌, OnOk, Some};
ghost use Rattle.vlog_tree.specs.Meaning.Names.{is_output};
ghost use Rattle.driver_rules.specs.Groups.{instance_assigned, link_assigned, links_assigned, port_assigned};
ghost use Rattle.driver_rules.specs.Selects.{AreNumbered, shown};

use crate::assigned::add_target;
use crate::select::Select;
use bm_base::{Name, NoMemory};
use design_nets::{DesignNets, port_of};
use nets::Nets;
use sqlite_items::Items;
use vlog_tree::Link;

/// Adds what the connections of an instance to output ports assign, in source order.
pub(crate) fn add_instance<'a>(
    selects: &mut Items<Select<'a>>,
    design: &DesignNets<'a>,
    nets: &Nets<'a>,
    inner: &'a Name,
    links: &'a [Link],
) -> Result<(), NoMemory>
    ensures shown { OnOk result (shown selects.new
        ≡ shown selects.old ++ instance_assigned design.now.design nets.now inner.now links.now) }
    ensures numbered { OnOk result (AreNumbered nets.now selects.old → AreNumbered nets.now selects.new) }
{
    match design.named(inner.bytes()) {
        Some(inner) => add_links(selects, nets, inner, links),
        None => Ok(()),
    }
}

fn add_links<'a>(
    selects: &mut Items<Select<'a>>,
    nets: &Nets<'a>,
    inner: &Nets<'a>,
    links: &'a [Link],
) -> Result<(), NoMemory>
    ensures shown { OnOk result (shown selects.new ≡ shown selects.old ++ links_assigned nets.now links.now inner.now) }
    ensures numbered { OnOk result (AreNumbered nets.now selects.old → AreNumbered nets.now selects.new) }
{
    for (place, link) in links.iter().enumerate() {
        add_link(selects, nets, inner, place, link)?;
    }
    Ok(())
}

fn add_link<'a>(
    selects: &mut Items<Select<'a>>,
    nets: &Nets<'a>,
    inner: &Nets<'a>,
    place: usize,
    link: &'a Link,
) -> Result<(), NoMemory>
    ensures shown { OnOk result (shown selects.new ≡ shown selects.old ++ link_assigned nets.now inner.now (place, link.now)) }
    ensures numbered { OnOk result (AreNumbered nets.now selects.old → AreNumbered nets.now selects.new) }
{
    match port_of(inner.module(), place, link) {
        Some(port) => add_at_port(selects, nets, inner, port, link),
        None => Ok(()),
    }
}

fn add_at_port<'a>(
    selects: &mut Items<Select<'a>>,
    nets: &Nets<'a>,
    inner: &Nets<'a>,
    port: &[u8],
    link: &'a Link,
) -> Result<(), NoMemory>
    ensures shown { OnOk result (shown selects.new
        ≡ shown selects.old ++ port_assigned nets.now inner.now (Some port.now) link.now.expr) }
    ensures numbered { OnOk result (AreNumbered nets.now selects.old → AreNumbered nets.now selects.new) }
{
    match &link.expr {
        Some(expr) => {
            if inner.is_output(port) {
                add_target(selects, nets, expr)
            } else {
                Ok(())
            }
        }
        None => Ok(()),
    }
}
