use super::expr::put_expr;
use super::left::put_left;
use super::name::{put_name, put_range, put_whole};
use super::stmt::put_stmt;
use bm_base::{Name, Range};
use std::alloc::AllocError;
use vlog_tree::{Dir, Expr, GateKind, Item, Left, Link, NetKind};

/// Adds an item as a line.
pub fn put_item(text: &mut String, item: &Item) -> Result<(), AllocError> {
    text.push_str("  ")?;
    match item {
        Item::Decl {
            at,
            dir,
            kind,
            range,
            name,
        } => put_declaration(text, *at, *dir, *kind, *range, name)?,
        Item::Assign { at, left, right } => put_assignment(text, *at, left, right)?,
        Item::Gate {
            at,
            kind,
            name,
            outs,
            ins,
        } => {
            put_gate_kind(text, *at, *kind, name)?;
            put_gate_ends(text, outs.as_slice(), ins.as_slice())?;
        }
        Item::Instance {
            at,
            module,
            name,
            links,
        } => put_instance(text, *at, module, name, links.as_slice())?,
        Item::Always { at, clock, body } => {
            put_clock(text, *at, clock)?;
            put_stmt(text, body)?;
        }
        Item::Initial { at, name, value } => put_initial(text, *at, name, value)?,
    }
    text.push('\n')
}

fn put_declaration(
    text: &mut String,
    at: u64,
    dir: Option<Dir>,
    kind: NetKind,
    range: Option<Range>,
    name: &Name,
) -> Result<(), AllocError> {
    text.push_str(dir_word(dir))?;
    text.push_str(kind_word(kind))?;
    if let Some(range) = range {
        put_range(text, range)?;
        text.push(' ')?;
    }
    put_whole(text, at, name)
}

fn dir_word(dir: Option<Dir>) -> &'static str {
    match dir {
        None => "",
        Some(Dir::Input) => "input ",
        Some(Dir::Output) => "output ",
    }
}

fn kind_word(kind: NetKind) -> &'static str {
    match kind {
        NetKind::Plain => "",
        NetKind::Wire => "wire ",
        NetKind::Reg => "reg ",
    }
}

fn put_assignment(text: &mut String, at: u64, left: &Left, right: &Expr) -> Result<(), AllocError> {
    write!(text, "assign@{at} ")?;
    put_left(text, left)?;
    text.push_str(" = ")?;
    put_expr(text, right)
}

fn put_gate_kind(
    text: &mut String,
    at: u64,
    kind: GateKind,
    name: &Option<Name>,
) -> Result<(), AllocError> {
    write!(text, "{}@{at} ", gate_word(kind))?;
    match name {
        None => Ok(()),
        Some(name) => {
            put_name(text, name)?;
            text.push(' ')
        }
    }
}

fn gate_word(kind: GateKind) -> &'static str {
    match kind {
        GateKind::And => "and",
        GateKind::Nand => "nand",
        GateKind::Or => "or",
        GateKind::Nor => "nor",
        GateKind::Xor => "xor",
        GateKind::Xnor => "xnor",
        GateKind::Buf => "buf",
        GateKind::Not => "not",
    }
}

// The outputs, an arrow, and the inputs.
fn put_gate_ends(text: &mut String, outs: &[Left], ins: &[Expr]) -> Result<(), AllocError> {
    for left in outs {
        put_left(text, left)?;
        text.push(' ')?;
    }
    text.push_str("<-")?;
    for expr in ins {
        text.push(' ')?;
        put_expr(text, expr)?;
    }
    Ok(())
}

fn put_instance(
    text: &mut String,
    at: u64,
    module: &Name,
    name: &Name,
    links: &[Link],
) -> Result<(), AllocError> {
    put_name(text, module)?;
    write!(text, "@{at} ")?;
    put_name(text, name)?;
    for link in links {
        text.push(' ')?;
        put_link(text, link)?;
    }
    Ok(())
}

// A link as `.port(expression)` and its place. What it does not have is left out.
fn put_link(text: &mut String, link: &Link) -> Result<(), AllocError> {
    if let Some(port) = &link.port {
        text.push('.')?;
        put_name(text, port)?;
    }
    text.push('(')?;
    if let Some(expr) = &link.expr {
        put_expr(text, expr)?;
    }
    write!(text, ")@{}", link.at)
}

fn put_clock(text: &mut String, at: u64, clock: &Name) -> Result<(), AllocError> {
    write!(text, "always@{at} ")?;
    put_name(text, clock)?;
    text.push(' ')
}

fn put_initial(text: &mut String, at: u64, name: &Name, value: &Expr) -> Result<(), AllocError> {
    write!(text, "initial@{at} ")?;
    put_name(text, name)?;
    text.push_str(" = ")?;
    put_expr(text, value)
}
