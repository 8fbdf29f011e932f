//! The flat netlist of a netlist.
ghost use Rattle.std.specs.Prelude.{ℕ, List};
ghost use Rattle.vlog_tree.specs.Spelling.{Spells};

use crate::refused::{put_flat_fault, put_rule};
use crate::tree::design_of;
use crate::trouble::Trouble;
use bm_base::Bits;
use elab::{Names, elaborate};
use flat_net::{Edge, FlatNet, Node};
use flatten::flatten;
use std::alloc::{AllocError, Global};
use vlog_tree::Design;

/// The nodes of a netlist, each with its number, the edges that its registers have next, its checker, and what its
/// registers have at power-up. Or why it has no flat netlist.
pub fn said_of_flat(alloc: Global, source: &[u8], names: &Names) -> Result<String, Trouble> {
    match design_of(alloc, source) {
        Ok(design) => said_of_design(alloc, &design, names),
        Err(fault) => Ok(format!(in alloc; "{fault}\n")?),
    }
}

fn said_of_design(alloc: Global, design: &Design, names: &Names) -> Result<String, Trouble>
    requires { (bytes : List ℕ) × Spells bytes design.now }
{
    let mut says = String::new(alloc);
    match elaborate(alloc, design, names) {
        Ok(plan) => match flatten(alloc, design, &plan) {
            Ok(net) => put_net(&mut says, &net)?,
            Err(fault) => put_flat_fault(&mut says, fault)?,
        },
        Err(fault) => put_rule(&mut says, &fault)?,
    }
    Ok(says)
}

fn put_net(text: &mut String, net: &FlatNet) -> Result<(), AllocError> {
    for (number, node) in net.nodes().iter().enumerate() {
        put_node(text, number, *node)?;
    }
    if !net.next().is_empty() {
        put_next(text, net.next())?;
    }
    text.push_str("bad ")?;
    put_edge(text, net.bad())?;
    text.push('\n')?;
    if net.power_up().len() > 0 {
        put_power(text, net.power_up())?;
    }
    Ok(())
}

fn put_node(text: &mut String, number: usize, node: Node) -> Result<(), AllocError> {
    write!(text, "{number} ")?;
    match node {
        Node::Zero => text.push_str("Zero")?,
        Node::Input(place) => write!(text, "Input {place}")?,
        Node::Reg(place) => write!(text, "Reg {place}")?,
        Node::Buf(edge) => {
            text.push_str("Buf ")?;
            put_edge(text, edge)?;
        }
        Node::And(left, right) => put_pair(text, "And ", left, right)?,
        Node::Xor(left, right) => put_pair(text, "Xor ", left, right)?,
    }
    text.push('\n')
}

fn put_pair(text: &mut String, kind: &str, left: Edge, right: Edge) -> Result<(), AllocError> {
    text.push_str(kind)?;
    put_edge(text, left)?;
    text.push(' ')?;
    put_edge(text, right)
}

fn put_edge(text: &mut String, edge: Edge) -> Result<(), AllocError> {
    if edge.neg {
        text.push('~')?;
    }
    write!(text, "{}", edge.node)
}

fn put_next(text: &mut String, next: &[Edge]) -> Result<(), AllocError> {
    text.push_str("next")?;
    for edge in next {
        text.push(' ')?;
        put_edge(text, *edge)?;
    }
    text.push('\n')
}

fn put_power(text: &mut String, power: &Bits) -> Result<(), AllocError> {
    text.push_str("power ")?;
    for register in 0..power.len() {
        text.push(if power.get(register) { '1' } else { '0' })?;
    }
    text.push('\n')
}
