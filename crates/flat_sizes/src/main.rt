//! The program that says how large the flat netlist of a real file is: its nodes, registers and inputs. The words name
//! the file, the top module, its clock and its checker. With a fifth word, `rules`, the work ends before the flat netlist,
//! so that what comes before it can be measured.
#![tactic(auto)]

mod asked;
mod sizes;
mod stop;

use asked::Asked;
use bm_base::Sink;
use os_files::OsSink;
use sizes::said_of;
use std::process::ExitCode;
use std::rt::{Env, Files};
use std::{env, fs};
use stop::Stop;

fn main(rt: HostRuntime) -> ExitCode {
    match perform(&rt) {
        Ok(true) => ExitCode::SUCCESS,
        _ => ExitCode::FAILURE,
    }
}

// Prints the sizes, or why there are none. Whether there are.
fn perform<R: Env + Files + Print + AllocGlobal>(rt: &R) -> Result<bool, Stop> {
    match said(rt) {
        Ok(lines) => {
            print(rt, &lines)?;
            Ok(true)
        }
        Err(stop) => {
            print(rt, &stop.line(rt.alloc())?)?;
            Ok(false)
        }
    }
}

fn said<R: Env + Files + AllocGlobal>(rt: &R) -> Result<String, Stop> {
    let words = words(rt)?;
    let asked = Asked::read(rt.alloc(), &words)?;
    let source = fs::read(rt, asked.file.as_str())?;
    said_of(rt.alloc(), &source, &asked)
}

fn words<R: Env + AllocGlobal>(rt: &R) -> Result<Vec<String>, Stop> {
    let mut words = Vec::new(rt.alloc());
    for word in env::args(rt)?.skip(1) {
        words.push(word)?;
    }
    Ok(words)
}

fn print<R: Print>(rt: &R, text: &str) -> Result<(), Stop> {
    OsSink::new(rt).put(text.as_bytes())?;
    Ok(())
}
