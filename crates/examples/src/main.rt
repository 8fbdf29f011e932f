//! The program that carries out transcripts: files, a command over them, and what it answers, over files in memory and
//! again over real files. The words name the transcripts, which are carried out in their order.
#![tactic(auto)]

mod again;
mod answer;
mod answers;
mod asked;
mod carry_out;
mod change;
mod command;
mod deed;
mod device;
mod disk;
mod escape;
mod files;
mod flat;
mod memory;
mod refused;
mod rows;
mod shown;
mod stage;
mod tokens;
mod transcript;
mod tree;
mod trouble;
mod waveform;

use bm_base::Sink;
use carry_out::carry_out;
use os_files::OsSink;
use stage::Stage;
use std::alloc::Global;
use std::process::ExitCode;
use std::rt::{Env, Files};
use std::{env, fs};
use transcript::{Step, steps};
use trouble::Trouble;

fn main(rt: HostRuntime) -> ExitCode {
    match carry_out_all(&rt) {
        Ok(()) => ExitCode::SUCCESS,
        Err(_) => ExitCode::FAILURE,
    }
}

fn carry_out_all<R: Env + Files + Print + AllocGlobal>(rt: &R) -> Result<(), Trouble> {
    for name in env::args(rt)?.skip(1) {
        carry_out_file(rt, &name)?;
    }
    Ok(())
}

fn carry_out_file<R: Files + Print + AllocGlobal>(rt: &R, name: &str) -> Result<(), Trouble> {
    let text = fs::read_to_string(rt, name)?;
    let steps = steps(rt.alloc(), &text)?;
    let mut stage = Stage::new(rt.alloc());
    print(rt, &format!(in rt.alloc(); "==== {name}\n\n")?)?;
    for step in &steps {
        let carried = carry_out(rt, &mut stage, step);
        print(rt, &stage.page)?;
        stage.page.clear();
        tell(rt, step, carried)?;
    }
    print(rt, &agreement(rt.alloc(), &stage)?)
}

// Says in which line a transcript went wrong.
fn tell<R: Print + AllocGlobal>(
    rt: &R,
    step: &Step,
    carried: Result<(), Trouble>,
) -> Result<(), Trouble> {
    match carried {
        Ok(()) => Ok(()),
        Err(trouble) => {
            let line = step.line;
            print(rt, &format!(in rt.alloc(); "line {line}: {trouble}\n")?)?;
            Err(trouble)
        }
    }
}

fn agreement(alloc: Global, stage: &Stage) -> Result<String, Trouble> {
    let Stage {
        agreed,
        differed,
        ..
    } = stage;
    Ok(format!(in alloc; "Over real files: {agreed} the same, {differed} otherwise.\n\n")?)
}

fn print<R: Print>(rt: &R, text: &str) -> Result<(), Trouble> {
    OsSink::new(rt).put(text.as_bytes())?;
    Ok(())
}
