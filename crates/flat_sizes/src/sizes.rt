//! From the text of a netlist to the sizes of its flat netlist.
ghost use Rattle.std.specs.Prelude.{ℕ, List, IfOk};
ghost use Rattle.vlog_tree.specs.Spelling.{Spells};

use crate::asked::Asked;
use crate::stop::Stop;
use elab::elaborate;
use flat_net::FlatNet;
use flatten::flatten;
use std::alloc::{AllocError, Global};
use vlog_lexer::lex;
use vlog_parse::parse;
use vlog_tree::Design;

/// The lines that say what the words ask of a netlist.
pub fn said_of(alloc: Global, source: &[u8], asked: &Asked) -> Result<String, Stop> {
    let design = design_of(alloc, source)?;
    said_of_design(alloc, &design, asked)
}

fn design_of(alloc: Global, source: &[u8]) -> Result<Design, Stop>
    ensures { IfOk result (Spells source.now) }
{
    let tokens = lex(alloc, source)?;
    let design = parse(alloc, &tokens)?;
    Ok(design)
}

fn said_of_design(alloc: Global, design: &Design, asked: &Asked) -> Result<String, Stop>
    requires { (bytes : List ℕ) × Spells bytes design.now }
{
    let plan = elaborate(alloc, design, &asked.names)?;
    if asked.rules_alone {
        return Ok(String::from_str(alloc, "rules kept\n")?);
    }
    let net = flatten(alloc, design, &plan)?;
    Ok(lines_of(alloc, &net)?)
}

fn lines_of(alloc: Global, net: &FlatNet) -> Result<String, AllocError> {
    let nodes = net.nodes().len();
    let registers = net.next().len();
    let inputs = net.inputs();
    format!(in alloc; "nodes {nodes}\nregisters {registers}\ninputs {inputs}\n")
}
