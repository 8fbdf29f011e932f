//! A step of a transcript is carried out.
use crate::again::again;
use crate::answers::answers_to;
use crate::asked::Asked;
use crate::command::{Command, read};
use crate::device::Failing;
use crate::stage::Stage;
use crate::transcript::Step;
use crate::trouble::Trouble;
use crate::waveform::waveform;
use std::alloc::Global;
use std::rt;

/// Carries out a step, and adds to the page what it gives.
pub fn carry_out<R: rt::Files + AllocGlobal>(
    rt: &R,
    stage: &mut Stage,
    step: &Step,
) -> Result<(), Trouble> {
    writeln!(stage.page, "{}", step.head)?;
    match read(stage.alloc, &step.head)? {
        Command::Prose => Ok(()),
        Command::File(name) => put_text(stage, step, &name),
        Command::Waveform(name, cycles) => put_waveform(stage, step, &name, cycles),
        Command::Fail(failing) => plan(stage, failing),
        Command::Ask(asked) => ask(rt, stage, asked),
        Command::Again(change) => again(rt, stage, &change),
    }
}

fn put_text(stage: &mut Stage, step: &Step, name: &str) -> Result<(), Trouble> {
    let text = text_of(stage.alloc, &step.body)?;
    stage.files.put(stage.alloc, name, text.as_bytes())
}

// The lines without their marks, and each but those of `>` with a newline.
fn text_of(alloc: Global, body: &[String]) -> Result<String, Trouble> {
    let mut text = String::new(alloc);
    for line in body {
        put_line(&mut text, line)?;
    }
    Ok(text)
}

fn put_line(text: &mut String, line: &str) -> Result<(), Trouble> {
    if let Some(line) = line.strip_prefix('>') {
        text.push_str(line.strip_prefix(' ').unwrap_or(line))?;
    } else {
        let line = line.strip_prefix('|').unwrap_or(line);
        text.push_str(line.strip_prefix(' ').unwrap_or(line))?;
        text.push('\n')?;
    }
    Ok(())
}

fn put_waveform(stage: &mut Stage, step: &Step, name: &str, cycles: usize) -> Result<(), Trouble> {
    let text = waveform(stage.alloc, cycles, &step.body)?;
    stage.files.put(stage.alloc, name, text.as_bytes())
}

fn plan(stage: &mut Stage, failing: Failing) -> Result<(), Trouble> {
    stage.failing.push(failing)?;
    Ok(())
}

fn ask<R: rt::Files + AllocGlobal>(rt: &R, stage: &mut Stage, asked: Asked) -> Result<(), Trouble> {
    let found = stage.files.copy(stage.alloc)?;
    let answers = answers_to(rt, stage, &asked, &found)?;
    answers.put(&mut stage.page, "", &found, &found)?;
    stage.keep(asked, found, answers.memory)
}
