ghost use Rattle.std.specs.Prelude.{None, IfOk, ◌≡◌, ◌≤◌, length};
ghost use Rattle.std.specs.FinMap.{empty};

use bm_base::{Counts, Fault, Shelf};
use std::alloc::Global;
use std::fs::OpenOptions;
use std::io::{Read, Seek, SeekFrom, Write};
use std::rt::Files;
use std::{fs, io};

/// Real files under their paths. It tells nothing of what they hold, and counts each error of the system by the file's
/// name and by whether it came in reading or in writing. The room for a count is made before the system is called, and
/// where there is none the answer is want of memory.
#[derive(Drop)]
pub struct OsShelf<'r, R> {
    rt: &'r R,
    reads: Counts,
    writes: Counts,
}

impl<'r, R: Files> OsShelf<'r, R> {
    /// A shelf that has counted no fault.
    pub fn new(alloc: Global, rt: &'r R) -> OsShelf<'r, R>
        ensures reads { result.reads ≡ empty }
        ensures writes { result.writes ≡ empty }
    {
        OsShelf {
            rt,
            reads: Counts::new(alloc),
            writes: Counts::new(alloc),
        }
    }
}

impl<'r, R: Files> Shelf for OsShelf<'r, R> {
    ghost held = { λ _. None };

    ghost reads = { λ shelf. shelf.reads };

    ghost writes = { λ shelf. shelf.writes };

    fn len(&mut self, name: &str) -> Result<u64, Fault> {
        self.reads.enter(name)?;
        match fs::metadata(self.rt, name) {
            Ok(found) => Ok(found.len()),
            Err(_) => {
                self.reads.raise(name);
                Err(Fault::Failed)
            }
        }
    }

    fn read_at(&mut self, name: &str, at: u64, buf: &mut [u8]) -> Result<usize, Fault> {
        self.reads.enter(name)?;
        match read_part(self.rt, name, at, buf) {
            Ok(count) => Ok(count),
            Err(_) => {
                self.reads.raise(name);
                Err(Fault::Failed)
            }
        }
    }

    fn create(&mut self, name: &str) -> Result<(), Fault> {
        self.writes.enter(name)?;
        match fs::create(self.rt, name) {
            Ok(_) => Ok(()),
            Err(_) => {
                self.writes.raise(name);
                Err(Fault::Failed)
            }
        }
    }

    fn append(&mut self, name: &str, piece: &[u8]) -> Result<(), Fault> {
        self.writes.enter(name)?;
        match write_piece(self.rt, name, piece) {
            Ok(()) => Ok(()),
            Err(_) => {
                self.writes.raise(name);
                Err(Fault::Failed)
            }
        }
    }
}

fn read_part<R: Files>(rt: &R, name: &str, at: u64, buf: &mut [u8]) -> io::Result<usize>
    ensures { IfOk result (λ count. count ≤ length buf.old) }
{
    let mut file = fs::open(rt, name)?;
    file.seek(SeekFrom::Start(at))?;
    file.read(buf)
}

fn write_piece<R: Files>(rt: &R, name: &str, piece: &[u8]) -> io::Result<()> {
    let mut file = OpenOptions::new().append(true).create(true).open(rt, name)?;
    file.write_all(piece)
}
