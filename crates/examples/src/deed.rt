use crate::shown::put_shown;
use crate::trouble::Trouble;
use bm_base::{Fault, MemSink, Shelf, Status};
use bm_cli::run;
use std::alloc::{AllocError, Global};
use std::slice::from_ref;

/// A command that a shelf takes part in.
#[derive(Drop)]
pub enum Deed {
    /// A command of `butramin`. The program's name stands before its words.
    Run(Vec<String>),
    /// The length of a file, and so many of its bytes from this place on.
    Slice { name: String, at: u64, count: usize },
    /// A text is appended to a file.
    Append { name: String, text: Vec<u8> },
}

/// What a deed says, a line that ends with a newline, and whether it is that a call of the device failed.
#[derive(Drop)]
pub struct Said {
    pub says: String,
    pub fault: bool,
}

impl Deed {
    /// The names under which it may change a file.
    pub fn names(&self) -> &[String] {
        match self {
            Deed::Run(words) => words,
            Deed::Slice { name, .. } | Deed::Append { name, .. } => from_ref(name),
        }
    }

    /// Does it over this shelf.
    pub fn carry_out<F: Shelf>(
        &self,
        alloc: Global,
        shelf: &mut F,
        sink: &mut MemSink,
    ) -> Result<Said, Trouble> {
        match self {
            Deed::Run(words) => {
                let status = run(alloc, words, shelf, sink);
                said_of_status(alloc, status, sink.bytes())
            }
            Deed::Slice { name, at, count } => slice(alloc, shelf, name, *at, *count),
            Deed::Append { name, text } => append(alloc, shelf, name, text),
        }
    }
}

// The status and what was printed, without the newline at the end.
fn said_of_status(alloc: Global, status: Status, printed: &[u8]) -> Result<Said, Trouble> {
    let says = status_line(alloc, status, printed)?;
    let fault = status == Status::ReadFault || status == Status::WriteFault;
    Ok(Said { says, fault })
}

fn status_line(alloc: Global, status: Status, printed: &[u8]) -> Result<String, AllocError> {
    let code = status.code();
    let mut says = format!(in alloc; "{code}")?;
    match printed {
        [] => {}
        [line @ .., b'\n'] => put_printed(&mut says, line, "")?,
        _ => put_printed(&mut says, printed, " (without a newline)")?,
    }
    says.push('\n')?;
    Ok(says)
}

fn put_printed(says: &mut String, line: &[u8], end: &str) -> Result<(), AllocError> {
    says.push_str(": ")?;
    put_shown(says, line)?;
    says.push_str(end)
}

fn slice<F: Shelf>(
    alloc: Global,
    shelf: &mut F,
    name: &str,
    at: u64,
    count: usize,
) -> Result<Said, Trouble> {
    let mut buffer = vec![in alloc; 0; count]?;
    match read_slice(shelf, name, at, &mut buffer) {
        Ok((len, found)) => {
            buffer.truncate(found);
            said_of_slice(alloc, len, &buffer)
        }
        Err(_) => failed(alloc),
    }
}

fn read_slice<F: Shelf>(
    shelf: &mut F,
    name: &str,
    at: u64,
    buffer: &mut [u8],
) -> Result<(u64, usize), Fault> {
    let len = shelf.len(name)?;
    let found = shelf.read_at(name, at, buffer)?;
    Ok((len, found))
}

fn said_of_slice(alloc: Global, len: u64, bytes: &[u8]) -> Result<Said, Trouble> {
    let mut says = format!(in alloc; "{} of {len} bytes: ", bytes.len())?;
    put_shown(&mut says, bytes)?;
    says.push('\n')?;
    Ok(Said { says, fault: false })
}

fn append<F: Shelf>(
    alloc: Global,
    shelf: &mut F,
    name: &str,
    text: &[u8],
) -> Result<Said, Trouble> {
    match shelf.append(name, text) {
        Ok(()) => {
            let says = String::from_str(alloc, "appended\n")?;
            Ok(Said { says, fault: false })
        }
        Err(_) => failed(alloc),
    }
}

fn failed(alloc: Global) -> Result<Said, Trouble> {
    let says = String::from_str(alloc, "failed\n")?;
    Ok(Said { says, fault: true })
}
