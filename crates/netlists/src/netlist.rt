//! From the bytes of a netlist to its machine.
ghost use Rattle.std.specs.Prelude.{◌≡◌, IfErr, IfOk};
ghost use Rattle.label_laws.specs.Spelled.{SpellsInProfile};
ghost use Rattle.netlists.specs.Faults.{IsFault};
ghost use Rattle.netlists.specs.Reading.{IsRead};

use crate::NetlistFault;
use crate::planned::{Netlist, netlist_of};
use elab::{Names, elaborate};
use std::alloc::Global;
use vlog_lexer::lex;
use vlog_parse::parse;
use vlog_tree::Design;

/// What the bytes are as a netlist with these names, or the first reason why they are none: that of the lexer, of the
/// parser, of the rules, of the sizes, of a loop.
pub fn read_netlist(alloc: Global, bytes: &[u8], names: &Names) -> Result<Netlist, NetlistFault>
    ensures read { IfOk result (λ netlist. IsRead names.now bytes.now netlist.level netlist.labels) }
    ensures fault { IfErr result (λ fault. IsFault names.now bytes.now fault) }
{
    design_laws::laws::grammar_gives();
    rule_laws::laws::ready();
    rule_laws::laws::reset();
    label_laws::laws::labels_are_writable();
    label_laws::laws::rows_are_inputs();
    loop_laws::laws::loop_free();
    machine_laws::laws::machines();
    let design = design_of(alloc, bytes)?;
    let plan = elaborate(alloc, &design, names)?;
    Ok(netlist_of(alloc, &design, plan)?)
}

// The design that the bytes spell.
fn design_of(alloc: Global, bytes: &[u8]) -> Result<Design, NetlistFault>
    ensures spelled { IfOk result (λ design. SpellsInProfile bytes.now design) }
    ensures fault { IfErr result (λ fault. (names : Names) → IsFault names bytes.now fault) }
{
    let tokens = lex(alloc, bytes)?;
    let design = parse(alloc, &tokens)?;
    Ok(design)
}
