//! The last command, carried out again with a change. The files stay as they are.
use crate::answers::answers_to;
use crate::asked::Asked;
use crate::change::Change;
use crate::device::{Failing, Kind};
use crate::escape::decoded;
use crate::files::Files;
use crate::stage::{Last, Stage};
use crate::trouble::Trouble;
use std::alloc::Global;
use std::rt;

/// Carries out the last command with this change.
pub fn again<R: rt::Files + AllocGlobal>(
    rt: &R,
    stage: &mut Stage,
    change: &Change,
) -> Result<(), Trouble> {
    let Some(last) = stage.last.take() else {
        return Err(Trouble::Again);
    };
    let carried = changed(rt, stage, &last, change);
    stage.last = Some(last);
    carried
}

fn changed<R: rt::Files + AllocGlobal>(
    rt: &R,
    stage: &mut Stage,
    last: &Last,
    change: &Change,
) -> Result<(), Trouble> {
    match change {
        Change::Edit { name, old, new } => {
            let files = edited(stage.alloc, &last.found, name, old, new)?;
            row(rt, stage, last, &last.asked, &files, "")?;
            Ok(())
        }
        Change::Each(words) => each(rt, stage, last, words),
        Change::Cuts(name) => cuts(rt, stage, last, name),
        Change::Sweep { kind, keep } => sweep(rt, stage, last, *kind, *keep),
    }
}

// A row of a table: the command over these files. Whether it answers that a call of the device failed.
fn row<R: rt::Files + AllocGlobal>(
    rt: &R,
    stage: &mut Stage,
    last: &Last,
    asked: &Asked,
    files: &Files,
    label: &str,
) -> Result<bool, Trouble> {
    let answers = answers_to(rt, stage, asked, files)?;
    answers.put(&mut stage.page, label, files, &last.left)?;
    Ok(answers.memory.fault)
}

// The files with one text replaced.
fn edited(
    alloc: Global,
    files: &Files,
    name: &str,
    old: &str,
    new: &str,
) -> Result<Files, Trouble> {
    let old = decoded(alloc, old)?;
    let new = decoded(alloc, new)?;
    let bytes = files.get(name).ok_or(Trouble::File)?;
    let edited = replaced(alloc, bytes, &old, &new)?;
    let mut files = files.copy(alloc)?;
    files.put(alloc, name, &edited)?;
    Ok(files)
}

// The bytes with the new text in the place of the old one, which stands in them once.
fn replaced(alloc: Global, bytes: &[u8], old: &[u8], new: &[u8]) -> Result<Vec<u8>, Trouble> {
    let at = place_of(bytes, old).ok_or(Trouble::Edit)?;
    let (before, rest) = bytes.split_at_checked(at).ok_or(Trouble::Edit)?;
    let after = rest.strip_prefix(old).ok_or(Trouble::Edit)?;
    let mut made = Vec::from_slice(alloc, before)?;
    made.extend_from_slice(new)?;
    made.extend_from_slice(after)?;
    Ok(made)
}

// Where the text stands, if it stands in the bytes once.
fn place_of(bytes: &[u8], text: &[u8]) -> Option<usize> {
    let mut places = (0..bytes.len()).filter(|at| bytes[*at..].starts_with(text));
    match (places.next(), places.next()) {
        (Some(at), None) => Some(at),
        _ => None,
    }
}

// Each of the words in turn in the place of `WORD`.
fn each<R: rt::Files + AllocGlobal>(
    rt: &R,
    stage: &mut Stage,
    last: &Last,
    words: &[String],
) -> Result<(), Trouble> {
    for word in words {
        let asked = last.asked.with_word(stage.alloc, word)?;
        let label = format!(in stage.alloc; "{word}: ")?;
        row(rt, stage, last, &asked, &last.found, &label)?;
    }
    Ok(())
}

// The file up to each of its bytes but the first.
fn cuts<R: rt::Files + AllocGlobal>(
    rt: &R,
    stage: &mut Stage,
    last: &Last,
    name: &str,
) -> Result<(), Trouble> {
    let bytes = last.found.get(name).ok_or(Trouble::File)?;
    for len in 1..bytes.len() {
        let mut files = last.found.copy(stage.alloc)?;
        files.put(stage.alloc, name, &bytes[..len])?;
        let label = format!(in stage.alloc; "{len} bytes: ")?;
        row(rt, stage, last, &last.asked, &files, &label)?;
    }
    Ok(())
}

// The first call of this kind fails, then the second, and so on, until the command answers no fault.
fn sweep<R: rt::Files + AllocGlobal>(
    rt: &R,
    stage: &mut Stage,
    last: &Last,
    kind: Kind,
    keep: usize,
) -> Result<(), Trouble> {
    for nth in 0..u64::MAX {
        stage.failing.push(Failing { kind, nth, keep })?;
        let label = format!(in stage.alloc; "call {nth}: ")?;
        if !row(rt, stage, last, &last.asked, &last.found, &label)? {
            break;
        }
    }
    Ok(())
}
