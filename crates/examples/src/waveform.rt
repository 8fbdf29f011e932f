//! Waveforms that are written as rows of bits.
use crate::trouble::Trouble;
use std::alloc::{AllocError, Global};

// A variable of a waveform: its code, its name and its bit in each cycle, as `0` or `1`.
#[derive(Drop)]
struct Variable {
    code: u8,
    name: String,
    bits: Vec<u8>,
}

/// The text of a waveform of the module `top` with the clock `clk`. Each row is a name and its bits, as `1 0 01*3`. The
/// row `bad` has the checker's bits, and the others are ports in their order.
pub fn waveform(alloc: Global, cycles: usize, rows: &[String]) -> Result<String, Trouble> {
    let variables = read_variables(alloc, cycles, rows)?;
    let mut text = String::new(alloc);
    put_header(&mut text, &variables)?;
    for cycle in 0..cycles {
        put_cycle(&mut text, &variables, cycle)?;
    }
    Ok(text)
}

fn read_variables(alloc: Global, cycles: usize, rows: &[String]) -> Result<Vec<Variable>, Trouble> {
    let mut variables = Vec::new(alloc);
    let mut port = b'#';
    for row in rows {
        let (name, digits) = row.trim().split_once(' ').ok_or(Trouble::Row)?;
        let code = if name == "bad" { b'"' } else { port };
        if name != "bad" {
            port = port.saturating_add(1);
        }
        variables.push(read_variable(alloc, cycles, code, name, digits)?)?;
    }
    Ok(variables)
}

fn read_variable(
    alloc: Global,
    cycles: usize,
    code: u8,
    name: &str,
    digits: &str,
) -> Result<Variable, Trouble> {
    let bits = bits(alloc, digits)?;
    if bits.len() != cycles {
        return Err(Trouble::Row);
    }
    let name = String::from_str(alloc, name)?;
    Ok(Variable { code, name, bits })
}

fn bits(alloc: Global, digits: &str) -> Result<Vec<u8>, Trouble> {
    let mut bits = Vec::new(alloc);
    for part in digits.split_whitespace() {
        let (part, times) = repeated(part)?;
        for _ in 0..times {
            bits.extend_from_slice(part.as_bytes())?;
        }
    }
    if bits.iter().all(|bit| *bit == b'0' || *bit == b'1') {
        Ok(bits)
    } else {
        Err(Trouble::Row)
    }
}

// `01*3` is `01` three times.
fn repeated(part: &str) -> Result<(&str, u32), Trouble> {
    match part.split_once('*') {
        None => Ok((part, 1)),
        Some((part, times)) => match times.parse::<u32>() {
            Ok(times) => Ok((part, times)),
            Err(_) => Err(Trouble::Row),
        },
    }
}

fn put_header(text: &mut String, variables: &[Variable]) -> Result<(), AllocError> {
    text.push_str("$version butramin 1 $end\n$timescale 1ns $end\n$scope module top $end\n")?;
    text.push_str("$var wire 1 ! clk $end\n")?;
    for variable in variables {
        let code = char::from(variable.code);
        writeln!(text, "$var wire 1 {code} {} $end", variable.name)?;
    }
    text.push_str("$upscope $end\n$enddefinitions $end\n")
}

fn put_cycle(text: &mut String, variables: &[Variable], cycle: usize) -> Result<(), AllocError> {
    if cycle == 0 {
        text.push_str("#0\n$dumpvars\n0!\n")?;
    } else {
        let time = cycle.saturating_mul(10);
        let edge = time.saturating_sub(5);
        writeln!(text, "#{edge}\n1!\n#{time}\n0!")?;
    }
    for variable in variables {
        put_change(text, variable, cycle)?;
    }
    if cycle == 0 {
        text.push_str("$end\n")?;
    }
    Ok(())
}

fn put_change(text: &mut String, variable: &Variable, cycle: usize) -> Result<(), AllocError> {
    let bits = &variable.bits;
    let before = if cycle == 0 {
        None
    } else {
        bits.get(cycle - 1)
    };
    match bits.get(cycle) {
        Some(bit) if before != Some(bit) => {
            text.push(char::from(*bit))?;
            text.push(char::from(variable.code))?;
            text.push('\n')
        }
        _ => Ok(()),
    }
}
