//! What the lines of a transcript ask for.
use crate::asked::{Asked, Scrap};
use crate::change::Change;
use crate::deed::Deed;
use crate::device::{Failing, Kind};
use crate::escape::decoded;
use crate::trouble::Trouble;
use bm_base::Name;
use elab::Names;
use std::alloc::Global;

/// What a step asks for.
#[derive(Drop)]
pub enum Command {
    /// Prose, which is printed as it is.
    Prose,
    /// A file with the text below.
    File(String),
    /// A waveform of so many cycles, with the rows below.
    Waveform(String, usize),
    /// A command over the files.
    Ask(Asked),
    /// The last command again, with a change.
    Again(Change),
    /// A call of the device that is to fail in the next command.
    Fail(Failing),
}

/// Reads the first line of a step.
pub fn read(alloc: Global, head: &str) -> Result<Command, Trouble> {
    let (verb, rest) = head.split_once(' ').unwrap_or((head, ""));
    match verb {
        "#" => Ok(Command::Prose),
        "file" => Ok(Command::File(text(alloc, rest)?)),
        "waveform" => read_waveform(alloc, rest),
        "fail" => read_fail(rest),
        "edit" | "each" | "cuts" | "sweep" => Ok(Command::Again(read_change(alloc, verb, rest)?)),
        _ => Ok(Command::Ask(read_asked(alloc, verb, rest)?)),
    }
}

fn text(alloc: Global, text: &str) -> Result<String, Trouble> {
    Ok(String::from_str(alloc, text)?)
}

fn read_waveform(alloc: Global, rest: &str) -> Result<Command, Trouble> {
    let (name, cycles) = rest.split_once(' ').ok_or(Trouble::Words)?;
    Ok(Command::Waveform(text(alloc, name)?, number(cycles)?))
}

fn number(text: &str) -> Result<usize, Trouble> {
    match text.parse::<usize>() {
        Ok(number) => Ok(number),
        Err(_) => Err(Trouble::Words),
    }
}

// `append 0 keep 10`, or `append 0`
fn read_fail(rest: &str) -> Result<Command, Trouble> {
    let (kind, rest) = rest.split_once(' ').ok_or(Trouble::Words)?;
    let (nth, keep) = rest.split_once(" keep ").unwrap_or((rest, "0"));
    Ok(Command::Fail(Failing {
        kind: Kind::named(kind)?,
        nth: number(nth)? as u64,
        keep: number(keep)?,
    }))
}

fn read_asked(alloc: Global, verb: &str, rest: &str) -> Result<Asked, Trouble> {
    match verb {
        "run" => Ok(Asked::Deed(Deed::Run(run_words(alloc, rest)?))),
        "slice" => Ok(Asked::Deed(read_slice(alloc, rest)?)),
        "append" => Ok(Asked::Deed(read_append(alloc, rest)?)),
        "tree" => Ok(Asked::Tree(text(alloc, rest)?)),
        "widths" => Ok(Asked::Widths(text(alloc, rest)?)),
        "flat" => read_flat(alloc, rest),
        "rows" => read_rows(alloc, rest),
        "tokens" => Ok(Asked::Tokens(text(alloc, rest)?)),
        "design" => Ok(Asked::Design(text(alloc, rest)?)),
        "expression" => Ok(Asked::Scrap(Scrap::Expression, text(alloc, rest)?)),
        "number" => Ok(Asked::Scrap(Scrap::Number, text(alloc, rest)?)),
        _ => Err(Trouble::Command),
    }
}

// `top.v top clk bad`
fn read_flat(alloc: Global, rest: &str) -> Result<Asked, Trouble> {
    let (name, rest) = rest.split_once(' ').ok_or(Trouble::Words)?;
    let (top, rest) = rest.split_once(' ').ok_or(Trouble::Words)?;
    let (clock, check) = rest.split_once(' ').ok_or(Trouble::Words)?;
    let names = Names {
        top: Name::new(alloc, top.as_bytes())?,
        clock: Name::new(alloc, clock.as_bytes())?,
        check: Name::new(alloc, check.as_bytes())?,
        reset: None,
        reset_cycles: 0,
    };
    Ok(Asked::Flat(text(alloc, name)?, names))
}

// `top.vcd clk a data[7:0]`
fn read_rows(alloc: Global, rest: &str) -> Result<Asked, Trouble> {
    let (name, signals) = rest.split_once(' ').ok_or(Trouble::Words)?;
    Ok(Asked::Rows(text(alloc, name)?, text(alloc, signals)?))
}

// `top.v 10 5`
fn read_slice(alloc: Global, rest: &str) -> Result<Deed, Trouble> {
    let (name, rest) = rest.split_once(' ').ok_or(Trouble::Words)?;
    let (at, count) = rest.split_once(' ').ok_or(Trouble::Words)?;
    Ok(Deed::Slice {
        name: text(alloc, name)?,
        at: number(at)? as u64,
        count: number(count)?,
    })
}

// `top.v reg q;`
fn read_append(alloc: Global, rest: &str) -> Result<Deed, Trouble> {
    let (name, rest) = rest.split_once(' ').ok_or(Trouble::Words)?;
    Ok(Deed::Append {
        name: text(alloc, name)?,
        text: decoded(alloc, rest)?,
    })
}

fn read_change(alloc: Global, verb: &str, rest: &str) -> Result<Change, Trouble> {
    match verb {
        "edit" => read_edit(alloc, rest),
        "each" => Ok(Change::Each(words(alloc, rest)?)),
        "cuts" => Ok(Change::Cuts(text(alloc, rest)?)),
        _ => read_sweep(rest),
    }
}

// `top.v / reg q; / reg q; reg q;`
fn read_edit(alloc: Global, rest: &str) -> Result<Change, Trouble> {
    let (name, rest) = rest.split_once(" / ").ok_or(Trouble::Words)?;
    let (old, new) = match rest.split_once(" / ") {
        Some(parts) => parts,
        None => (rest.strip_suffix(" /").ok_or(Trouble::Words)?, ""),
    };
    Ok(Change::Edit {
        name: text(alloc, name)?,
        old: text(alloc, old)?,
        new: text(alloc, new)?,
    })
}

// `append keep 10`, or `append`
fn read_sweep(rest: &str) -> Result<Change, Trouble> {
    let (kind, keep) = rest.split_once(" keep ").unwrap_or((rest, "0"));
    Ok(Change::Sweep {
        kind: Kind::named(kind)?,
        keep: number(keep)?,
    })
}

// The words with the program's name before them.
fn run_words(alloc: Global, rest: &str) -> Result<Vec<String>, Trouble> {
    let line = format!(in alloc; "butramin {rest}")?;
    words(alloc, &line)
}

fn words(alloc: Global, rest: &str) -> Result<Vec<String>, Trouble> {
    let mut words = Vec::new(alloc);
    for word in rest.split_whitespace() {
        words.push(text(alloc, word)?)?;
    }
    Ok(words)
}
