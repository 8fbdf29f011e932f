//! What a command answers, in memory and over real files.
use crate::answer::Answer;
use crate::asked::{Asked, Scrap};
use crate::deed::Deed;
use crate::disk::on_disk;
use crate::escape::decoded;
use crate::files::Files;
use crate::flat::said_of_flat;
use crate::memory::in_memory;
use crate::rows::said_of_rows;
use crate::stage::Stage;
use crate::tokens::said_of_tokens;
use crate::tree::{said_of_design, said_of_scrap, said_of_tree, said_of_widths};
use crate::trouble::Trouble;
use elab::Names;
use std::alloc::{AllocError, Global};
use std::rt;

/// The answer in memory, and that over real files where it is another.
#[derive(Drop)]
pub struct Answers {
    pub memory: Answer,
    pub otherwise: Option<Answer>,
}

impl Answers {
    /// Adds what they say, each line with this label before it.
    pub fn put(
        &self,
        page: &mut String,
        label: &str,
        before: &Files,
        last: &Files,
    ) -> Result<(), AllocError> {
        self.memory.put(page, label, before, last)?;
        match &self.otherwise {
            None => Ok(()),
            Some(answer) => answer.put(page, "over real files: ", before, last),
        }
    }
}

/// What the command answers over these files. The calls that are to fail are used up.
pub fn answers_to<R: rt::Files + AllocGlobal>(
    rt: &R,
    stage: &mut Stage,
    asked: &Asked,
    files: &Files,
) -> Result<Answers, Trouble> {
    match asked {
        Asked::Deed(deed) => of_deed(rt, stage, deed, files),
        _ => {
            let says = says(stage.alloc, asked, files)?;
            let memory = Answer::of_text(stage.alloc, says, files)?;
            Ok(Answers {
                memory,
                otherwise: None,
            })
        }
    }
}

fn of_deed<R: rt::Files + AllocGlobal>(
    rt: &R,
    stage: &mut Stage,
    deed: &Deed,
    files: &Files,
) -> Result<Answers, Trouble> {
    let memory = in_memory(stage.alloc, deed, files, &stage.failing)?;
    let otherwise = if stage.failing.is_empty() {
        other(rt, stage, deed, files, &memory)?
    } else {
        None
    };
    stage.failing.clear();
    Ok(Answers { memory, otherwise })
}

// The answer over real files, where it is another.
fn other<R: rt::Files + AllocGlobal>(
    rt: &R,
    stage: &mut Stage,
    deed: &Deed,
    files: &Files,
    memory: &Answer,
) -> Result<Option<Answer>, Trouble> {
    let answer = on_disk(rt, deed, files)?;
    let same = answer.same(memory);
    stage.count(same);
    if same { Ok(None) } else { Ok(Some(answer)) }
}

fn says(alloc: Global, asked: &Asked, files: &Files) -> Result<String, Trouble> {
    match asked {
        Asked::Deed(_) => Err(Trouble::Command),
        Asked::Tree(name) => says_tree(alloc, files, name),
        Asked::Widths(name) => says_widths(alloc, files, name),
        Asked::Flat(name, names) => says_flat(alloc, files, name, names),
        Asked::Rows(name, signals) => says_rows(alloc, files, name, signals),
        Asked::Tokens(text) => says_tokens(alloc, text),
        Asked::Design(text) => says_design(alloc, text),
        Asked::Scrap(scrap, text) => says_scrap(alloc, *scrap, text),
    }
}

fn says_tree(alloc: Global, files: &Files, name: &str) -> Result<String, Trouble> {
    let source = files.get(name).ok_or(Trouble::File)?;
    Ok(said_of_tree(alloc, source)?)
}

fn says_widths(alloc: Global, files: &Files, name: &str) -> Result<String, Trouble> {
    let source = files.get(name).ok_or(Trouble::File)?;
    Ok(said_of_widths(alloc, source)?)
}

fn says_flat(alloc: Global, files: &Files, name: &str, names: &Names) -> Result<String, Trouble> {
    let source = files.get(name).ok_or(Trouble::File)?;
    said_of_flat(alloc, source, names)
}

fn says_rows(alloc: Global, files: &Files, name: &str, signals: &str) -> Result<String, Trouble> {
    let source = files.get(name).ok_or(Trouble::File)?;
    said_of_rows(alloc, source, signals)
}

fn says_tokens(alloc: Global, text: &str) -> Result<String, Trouble> {
    let source = decoded(alloc, text)?;
    Ok(said_of_tokens(alloc, &source)?)
}

fn says_design(alloc: Global, text: &str) -> Result<String, Trouble> {
    let source = decoded(alloc, text)?;
    Ok(said_of_design(alloc, &source)?)
}

fn says_scrap(alloc: Global, scrap: Scrap, text: &str) -> Result<String, Trouble> {
    let text = decoded(alloc, text)?;
    let mut source = Vec::from_slice(alloc, scrap.before().as_bytes())?;
    source.extend_from_slice(&text)?;
    source.extend_from_slice(b"; endmodule")?;
    Ok(said_of_scrap(alloc, &source)?)
}
