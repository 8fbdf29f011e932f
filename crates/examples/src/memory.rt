//! A deed over files in memory.
use crate::answer::Answer;
use crate::deed::Deed;
use crate::device::Failing;
use crate::files::Files;
use crate::trouble::Trouble;
use bm_base::{MemShelf, MemSink};
use std::alloc::Global;

/// The deed over these files, where these calls fail.
pub fn in_memory(
    alloc: Global,
    deed: &Deed,
    files: &Files,
    failing: &[Failing],
) -> Result<Answer, Trouble> {
    let mut shelf = MemShelf::new(alloc);
    let mut sink = MemSink::new(alloc);
    lay_out(&mut shelf, files)?;
    for call in failing {
        call.plan(&mut shelf, &mut sink)?;
    }
    let said = deed.carry_out(alloc, &mut shelf, &mut sink)?;
    let files = left(alloc, &shelf, deed, files)?;
    Ok(Answer::of_deed(said, files))
}

fn lay_out(shelf: &mut MemShelf, files: &Files) -> Result<(), Trouble> {
    for file in files.list() {
        shelf.add(&file.name, &file.bytes)?;
    }
    Ok(())
}

// What the shelf has under the names of the files and those of the deed.
fn left(alloc: Global, shelf: &MemShelf, deed: &Deed, before: &Files) -> Result<Files, Trouble> {
    let mut files = Files::new(alloc);
    for file in before.list() {
        take(alloc, shelf, &file.name, &mut files)?;
    }
    for name in deed.names() {
        take(alloc, shelf, name, &mut files)?;
    }
    Ok(files)
}

fn take(alloc: Global, shelf: &MemShelf, name: &str, files: &mut Files) -> Result<(), Trouble> {
    match shelf.bytes(name) {
        Some(bytes) => files.put(alloc, name, bytes),
        None => Ok(()),
    }
}
