//! A deed over real files, in the folder in which the program runs.
use crate::answer::Answer;
use crate::deed::Deed;
use crate::files::Files;
use crate::trouble::Trouble;
use bm_base::MemSink;
use os_files::OsShelf;
use std::alloc::Global;
use std::{fs, rt};

/// The deed over these files, which are made before and removed after it.
pub fn on_disk<R: rt::Files + AllocGlobal>(
    rt: &R,
    deed: &Deed,
    files: &Files,
) -> Result<Answer, Trouble> {
    let alloc = rt.alloc();
    lay_out(rt, files)?;
    let mut sink = MemSink::new(alloc);
    let mut shelf = OsShelf::new(alloc, rt);
    let said = deed.carry_out(alloc, &mut shelf, &mut sink)?;
    let files = left(rt, deed, files)?;
    Ok(Answer::of_deed(said, files))
}

fn lay_out<R: rt::Files>(rt: &R, files: &Files) -> Result<(), Trouble> {
    for file in files.list() {
        fs::write(rt, file.name.as_str(), file.bytes.as_slice())?;
    }
    Ok(())
}

// What there is under the names of the files and those of the deed. It is taken away.
fn left<R: rt::Files + AllocGlobal>(rt: &R, deed: &Deed, before: &Files) -> Result<Files, Trouble> {
    let mut files = Files::new(rt.alloc());
    for file in before.list() {
        take(rt, &file.name, &mut files)?;
    }
    for name in deed.names() {
        take(rt, name, &mut files)?;
    }
    remove(rt, &files);
    Ok(files)
}

fn take<R: rt::Files + AllocGlobal>(rt: &R, name: &str, files: &mut Files) -> Result<(), Trouble> {
    match fs::read(rt, name) {
        Ok(bytes) => files.put(rt.alloc(), name, &bytes),
        Err(_) => Ok(()),
    }
}

fn remove<R: rt::Files>(rt: &R, files: &Files) {
    for file in files.list() {
        let _ = fs::remove_file(rt, file.name.as_str());
    }
}
