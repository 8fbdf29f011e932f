//! Syntax trees as text. Each part has its place behind an `@`, and each operation its parentheses.
mod design;
mod expr;
mod item;
mod left;
mod name;
mod stmt;

ghost use Rattle.std.specs.Prelude.{IfOk};
ghost use Rattle.vlog_tree.specs.Spelling.{Spells};

use crate::tree::design::put_design;
use crate::tree::expr::put_expr;
use std::alloc::{AllocError, Global};
use thiserror::Error;
use vlog_lexer::{LexFault, lex};
use vlog_parse::{ParseFault, parse};
use vlog_tree::{Design, Expr, Item, Module, width};

/// Why a text has no tree.
#[derive(Clone, Copy, Debug, PartialEq, Eq, Error)]
pub enum NoTree {
    #[error("{0}")]
    Tokens(LexFault),
    #[error("{0}")]
    Grammar(ParseFault),
}

/// The tree of a netlist.
pub fn design_of(alloc: Global, source: &[u8]) -> Result<Design, NoTree>
    ensures { IfOk result (Spells source.now) }
{
    match lex(alloc, source) {
        Err(fault) => Err(NoTree::Tokens(fault)),
        Ok(tokens) => match parse(alloc, &tokens) {
            Err(fault) => Err(NoTree::Grammar(fault)),
            Ok(design) => Ok(design),
        },
    }
}

/// The tree of a netlist, or why there is none.
pub fn said_of_tree(alloc: Global, source: &[u8]) -> Result<String, AllocError> {
    match design_of(alloc, source) {
        Ok(design) => design_text(alloc, &design),
        Err(fault) => format!(in alloc; "{fault}\n"),
    }
}

/// The width of each expression that a netlist assigns continuously, or why it has no tree.
pub fn said_of_widths(alloc: Global, source: &[u8]) -> Result<String, AllocError> {
    match design_of(alloc, source) {
        Ok(design) => widths_text(alloc, &design),
        Err(fault) => format!(in alloc; "{fault}\n"),
    }
}

/// That a netlist is a design, or why it is none.
pub fn said_of_design(alloc: Global, source: &[u8]) -> Result<String, AllocError> {
    match design_of(alloc, source) {
        Ok(_) => String::from_str(alloc, "a design\n"),
        Err(fault) => format!(in alloc; "{fault}\n"),
    }
}

/// The tree of what the first item of a netlist assigns or sets, or why there is none.
pub fn said_of_scrap(alloc: Global, source: &[u8]) -> Result<String, AllocError> {
    match design_of(alloc, source) {
        Ok(design) => scrap_text(alloc, &design),
        Err(fault) => format!(in alloc; "{fault}\n"),
    }
}

fn design_text(alloc: Global, design: &Design) -> Result<String, AllocError> {
    let mut text = String::new(alloc);
    put_design(&mut text, design)?;
    Ok(text)
}

fn widths_text(alloc: Global, design: &Design) -> Result<String, AllocError> {
    let mut text = String::new(alloc);
    for module in design.modules.as_slice() {
        put_widths(&mut text, module)?;
    }
    Ok(text)
}

fn put_widths(text: &mut String, module: &Module) -> Result<(), AllocError> {
    for item in module.items.as_slice() {
        if let Item::Assign { right, .. } = item {
            put_width(text, width(module, right))?;
        }
    }
    Ok(())
}

fn put_width(text: &mut String, width: Option<u32>) -> Result<(), AllocError> {
    match width {
        Some(width) => writeln!(text, "{width}"),
        None => text.push_str("none\n"),
    }
}

fn scrap_text(alloc: Global, design: &Design) -> Result<String, AllocError> {
    let mut text = String::new(alloc);
    if let Some(expr) = first_value(design) {
        put_expr(&mut text, expr)?;
    }
    text.push('\n')?;
    Ok(text)
}

fn first_value(design: &Design) -> Option<&Expr> {
    let module = design.modules.as_slice().first()?;
    match module.items.as_slice().first()? {
        Item::Assign { right, .. } => Some(right),
        Item::Initial { value, .. } => Some(value),
        _ => None,
    }
}
