use crate::trouble::Trouble;
use std::alloc::Global;

/// A line of a transcript that is no text of a file, and the lines of text below it.
#[derive(Drop)]
pub struct Step {
    /// From 1.
    pub line: usize,
    pub head: String,
    /// As they stand, with the mark that each begins with.
    pub body: Vec<String>,
}

/// The steps of a transcript. Empty lines separate them, and mean nothing else.
pub fn steps(alloc: Global, text: &str) -> Result<Vec<Step>, Trouble> {
    let mut steps = Vec::new(alloc);
    for (number, line) in text.lines().enumerate() {
        if is_body(line) {
            add_line(alloc, &mut steps, line)?;
        } else if !line.is_empty() {
            add_step(alloc, &mut steps, number, line)?;
        }
    }
    Ok(steps)
}

// A line of text begins with `|`, one without a newline after it with `>`, and a row with a space.
fn is_body(line: &str) -> bool {
    line.starts_with('|') || line.starts_with('>') || line.starts_with(' ')
}

fn add_line(alloc: Global, steps: &mut Vec<Step>, line: &str) -> Result<(), Trouble> {
    let line = String::from_str(alloc, line)?;
    match steps.last_mut() {
        Some(step) => {
            step.body.push(line)?;
            Ok(())
        }
        None => Err(Trouble::Command),
    }
}

fn add_step(
    alloc: Global,
    steps: &mut Vec<Step>,
    number: usize,
    line: &str,
) -> Result<(), Trouble> {
    let head = String::from_str(alloc, line)?;
    steps.push(Step {
        line: number.saturating_add(1),
        head,
        body: Vec::new(alloc),
    })?;
    Ok(())
}
