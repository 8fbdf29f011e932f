//! The connections of an instance.
ghost use Rattle.std.specs.Prelude.{IfErr, OnOk};
ghost use Rattle.std.specs.List.{enumerate_from};
ghost use Rattle.flat_design.specs.Items.{connection_given, each, link_given};
ghost use Rattle.flat_items.specs.Linked.{Links, LinksTo, connection, to_given};

use crate::ports::{give_back, lower_into};
use design_nets::port_of;
use drives::Driven;
use flat_net::FlatFault;
use frames::Frame;
use lowering::Nodes;
use std::alloc::Global;
use vlog_tree::{Expr, Link};

/// Carries out what is connected to an instance, whose frame is `inner`, in that of `frame`.
pub(crate) fn lower_links(
    alloc: Global,
    frame: &Frame<'_>,
    inner: &Frame<'_>,
    nodes: &mut Nodes,
    driven: &mut Driven,
    links: &[Link],
) -> Result<(), FlatFault>
    ensures given { OnOk result (Links frame.now inner.now
        (λ setting instance child. each (link_given setting instance child) (enumerate_from 0 links.now))
        nodes.old nodes.new driven.old driven.new) }
    ensures fault { IfErr result (LinksTo frame.now inner.now
        (λ setting instance child. each (link_given setting instance child) (enumerate_from 0 links.now)) nodes.old) }
{
    for i in 0..links.len() {
        lower_link(alloc, frame, inner, nodes, driven, i, &links[i])?;
    }
    Ok(())
}

// A connection at this place of the list.
fn lower_link(
    alloc: Global,
    frame: &Frame<'_>,
    inner: &Frame<'_>,
    nodes: &mut Nodes,
    driven: &mut Driven,
    place: usize,
    link: &Link,
) -> Result<(), FlatFault>
    ensures given { OnOk result (Links frame.now inner.now
        (λ setting instance child. link_given setting instance child (place, link.now))
        nodes.old nodes.new driven.old driven.new) }
    ensures fault { IfErr result (LinksTo frame.now inner.now
        (λ setting instance child. link_given setting instance child (place, link.now)) nodes.old) }
{
    match port_of(inner.places().nets().module(), place, link) {
        Some(port) => lower_to(alloc, frame, inner, nodes, driven, port, &link.expr),
        None => Ok(()),
    }
}

// What is connected to a port, which may be blank.
fn lower_to(
    alloc: Global,
    frame: &Frame<'_>,
    inner: &Frame<'_>,
    nodes: &mut Nodes,
    driven: &mut Driven,
    port: &[u8],
    expr: &Option<Expr>,
) -> Result<(), FlatFault>
    ensures given { OnOk result (Links frame.now inner.now (to_given port.now expr.now)
        nodes.old nodes.new driven.old driven.new) }
    ensures fault { IfErr result (LinksTo frame.now inner.now (to_given port.now expr.now) nodes.old) }
{
    match expr {
        Some(expr) => lower_connection(alloc, frame, inner, nodes, driven, port, expr),
        None => Ok(()),
    }
}

fn lower_connection(
    alloc: Global,
    frame: &Frame<'_>,
    inner: &Frame<'_>,
    nodes: &mut Nodes,
    driven: &mut Driven,
    port: &[u8],
    expr: &Expr,
) -> Result<(), FlatFault>
    ensures given { OnOk result (Links frame.now inner.now
        (λ setting instance child. connection_given setting instance child (connection port.now expr.now))
        nodes.old nodes.new driven.old driven.new) }
    ensures fault { IfErr result (LinksTo frame.now inner.now
        (λ setting instance child. connection_given setting instance child (connection port.now expr.now)) nodes.old) }
{
    lower_into(alloc, frame, inner, nodes, driven, port, expr)?;
    give_back(alloc, frame, inner, driven, port, expr)
}
