//! The program: the top call over real files and standard output.
#![tactic(auto)]

use bm_base::Status;
use bm_cli::run;
use os_files::{OsShelf, OsSink};
use std::process::ExitCode;
use std::rt::{Env, Files};
use std::{env, io};

fn main(rt: HostRuntime) -> ExitCode {
    ExitCode::from(perform(&rt).code())
}

fn perform<R: Env + Files + Print + AllocGlobal>(rt: &R) -> Status {
    let words = match words(rt) {
        Ok(words) => words,
        Err(error) if error.kind() == io::ErrorKind::OutOfMemory => return Status::Memory,
        // A word that is no text asks for nothing that there is.
        Err(_) => Vec::new(rt.alloc()),
    };
    let mut shelf = OsShelf::new(rt.alloc(), rt);
    let mut sink = OsSink::new(rt);
    run(rt.alloc(), &words, &mut shelf, &mut sink)
}

fn words<R: Env + AllocGlobal>(rt: &R) -> io::Result<Vec<String>> {
    let mut words = Vec::new(rt.alloc());
    for word in env::args(rt)? {
        words.push(word)?;
    }
    Ok(words)
}
