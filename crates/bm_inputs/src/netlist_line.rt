//! How a refused netlist is answered.
ghost use Rattle.std.specs.Prelude.{◌≡◌, ◌++◌, IfOk, OnOk, codes, decimal};
ghost use Rattle.std.specs.String.{string_bytes};
ghost use Rattle.bm_inputs.specs.Lines.{
  is_alone,
  lex_line,
  loop_line,
  netlist_line,
  netlist_status,
  parse_line,
  printed_name,
  rule_line,
};

use crate::line::{limit_line, placed_line};
use bm_base::{Name, NoMemory, Status};
use elab::ElabFault;
use netlists::NetlistFault;
use std::alloc::{AllocError, Global};
use vlog_lexer::LexFault;
use vlog_parse::ParseFault;

/// A size that passes its limit has the status of a limit.
pub(crate) fn netlist_status(fault: &NetlistFault) -> Status
    ensures { result ≡ netlist_status fault.now }
{
    match fault {
        NetlistFault::TooLarge { .. } => Status::Limit,
        _ => Status::Netlist,
    }
}

/// The line, with its newline.
pub(crate) fn netlist_line(alloc: Global, fault: &NetlistFault) -> Result<Vec<u8>, NoMemory>
    ensures { IfOk result (λ line. line.items ≡ netlist_line fault.now) }
{
    match fault {
        NetlistFault::Lex(fault) => Ok(lex_line(alloc, *fault)?.into_bytes()),
        NetlistFault::Parse(fault) => Ok(parse_line(alloc, *fault)?.into_bytes()),
        NetlistFault::Rule(fault) => rule_line(alloc, fault),
        NetlistFault::TooLarge { what } => Ok(limit_line(alloc, *what)?.into_bytes()),
        NetlistFault::Loop { key } => loop_line(alloc, key),
        NetlistFault::Memory => Ok(Vec::new(alloc)),
    }
}

fn lex_line(alloc: Global, fault: LexFault) -> Result<String, AllocError>
    ensures { IfOk result (λ line. string_bytes line ≡ lex_line fault) }
{
    match fault {
        LexFault::BadByte { at } => placed_line(alloc, "netlist", "L1", at),
        LexFault::OpenComment { at } => placed_line(alloc, "netlist", "L2", at),
        LexFault::OpenString { at } => placed_line(alloc, "netlist", "L3", at),
        LexFault::Directive { at } => placed_line(alloc, "netlist", "L4", at),
        LexFault::Memory => String::from_str(alloc, ""),
    }
}

fn parse_line(alloc: Global, fault: ParseFault) -> Result<String, AllocError>
    ensures { IfOk result (λ line. string_bytes line ≡ parse_line fault) }
{
    match fault {
        ParseFault::Outside { at } => placed_line(alloc, "netlist", "P1", at),
        ParseFault::Number { at } => placed_line(alloc, "netlist", "P2", at),
        ParseFault::TooDeep { at } => placed_line(alloc, "netlist", "P3", at),
        ParseFault::Syntax { at } => placed_line(alloc, "netlist", "P4", at),
        ParseFault::Memory => String::from_str(alloc, ""),
    }
}

fn rule_line(alloc: Global, fault: &ElabFault) -> Result<Vec<u8>, NoMemory>
    ensures { IfOk result (λ line. line.items ≡ rule_line fault.now) }
{
    match fault {
        ElabFault::Rule {
            rule,
            module_name,
            name,
        } => named(alloc, *rule, module_name, name),
        ElabFault::Memory => Ok(Vec::new(alloc)),
    }
}

fn named(alloc: Global, rule: u8, module_name: &Name, name: &Name) -> Result<Vec<u8>, NoMemory>
    ensures { IfOk result (λ line. line.items ≡ codes "netlist refused: E" ++ decimal rule ++ codes " "
        ++ printed_name rule module_name.now name.now ++ codes "\n") }
{
    let mut line = beginning(alloc, rule)?.into_bytes();
    add_name(&mut line, rule, module_name, name)?;
    line.extend_from_slice(b"\n")?;
    Ok(line)
}

fn beginning(alloc: Global, rule: u8) -> Result<String, AllocError>
    ensures { IfOk result (λ line. string_bytes line ≡ codes "netlist refused: E" ++ decimal rule ++ codes " ") }
{
    format!(in alloc; "netlist refused: E{rule} ")
}

// Adds the name, behind that of its module and a dot where the rule does not print it alone.
fn add_name(line: &mut Vec<u8>, rule: u8, module_name: &Name, name: &Name) -> Result<(), NoMemory>
    ensures { OnOk result (line.new.items ≡ line.old.items ++ printed_name rule module_name.now name.now) }
{
    if !is_alone(rule) {
        line.extend_from_slice(module_name.bytes())?;
        line.extend_from_slice(b".")?;
    }
    line.extend_from_slice(name.bytes())?;
    Ok(())
}

fn is_alone(rule: u8) -> bool
    ensures { result ≡ is_alone rule }
{
    rule == 1 || (rule == 2 || rule == 11)
}

fn loop_line(alloc: Global, key: &Name) -> Result<Vec<u8>, NoMemory>
    ensures { IfOk result (λ line. line.items ≡ loop_line key.now) }
{
    let mut line = Vec::new(alloc);
    line.extend_from_slice(b"netlist refused: loop ")?;
    line.extend_from_slice(key.bytes())?;
    line.extend_from_slice(b"\n")?;
    Ok(line)
}
