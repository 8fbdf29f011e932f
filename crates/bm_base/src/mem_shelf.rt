ghost use Rattle.std.specs.Prelude.{◌≡◌, ◌≤◌, length, is_err, IsSome, IfOk, OnOk, OnErr, IsErrOf, IsSomeAnd, Some};
ghost use Rattle.std.specs.Option.{option_copied};
ghost use Rattle.std.specs.FinMap.{get};
ghost use Rattle.bm_base.specs.Counts.{count_of, Rose, RisesOnlyAt};
ghost use Rattle.bm_base.specs.Held.{holding, bytes_under, Reads, Fills};
ghost use Rattle.bm_base.specs.Script.{planned};
ghost use Rattle.bm_base.specs.MemShelf.{empty_shelf, failing, reading_fails, after_len, after_failed_len, after_read_at, after_failed_read_at, after_create, after_failed_create, after_append, after_failed_append, SameButEntered};

use crate::copy::copy_from;
use crate::files::Files;
use crate::script::Script;
use crate::{Call, Counts, Fault, NoMemory, Shelf};
use std::alloc::Global;
use std::marker::Model;

/// Bytes in memory under names, whose calls fail where told. `len` and `read_at` also fail for a name that is not
/// there, which stays absent. A call that is answered `Memory` is not counted and leaves the shelf as it was, but that
/// an `append` which was to fail may have entered the name, at 0, into the counts of failed writes.
#[derive(Debug, Drop)]
pub struct MemShelf {
    files: Files,
    reads: Counts,
    writes: Counts,
    lens: Script,
    read_ats: Script,
    creates: Script,
    appends: Script,
}

impl Model for MemShelf {
    ghost use Rattle.bm_base.specs.MemShelf.{ShelfState, shelf_code};

    ghost Value = { ShelfState };

    ghost coded = { shelf_code };

    ghost view = { λ a. record {
      held = a.files;
      reads = a.reads;
      writes = a.writes;
      lens = a.lens;
      read_ats = a.read_ats;
      creates = a.creates;
      appends = a.appends;
    } };
}

impl MemShelf {
    /// A shelf that holds nothing, and of which no call is to fail.
    pub fn new(alloc: Global) -> MemShelf
        ensures { result ≡ empty_shelf }
    {
        MemShelf {
            files: Files::new(alloc),
            reads: Counts::new(alloc),
            writes: Counts::new(alloc),
            lens: Script::new(alloc),
            read_ats: Script::new(alloc),
            creates: Script::new(alloc),
            appends: Script::new(alloc),
        }
    }

    /// Puts the bytes under the name, in the place of what was there. It is no call of the shelf, and does not fail.
    pub fn add(&mut self, name: &str, bytes: &[u8]) -> Result<(), NoMemory>
        ensures ok { OnOk result (self.new ≡ record self.old { held = holding name.now bytes.now self.old.held }) }
        ensures err { OnErr result (self.new ≡ self.old) }
    {
        self.files.put(name, bytes)
    }

    /// The bytes under the name, if it is there.
    pub fn bytes(&self, name: &str) -> Option<&[u8]>
        ensures { option_copied result ≡ get self.now.held name.now }
    {
        self.files.get(name)
    }

    /// Plans that the nth call of this kind, counted from 0, fails. An `append` that fails adds the first `keep` bytes
    /// of its piece, or the whole piece if it is shorter; for the other kinds `keep` means nothing. The newest plan for
    /// a call wins.
    pub fn fail(&mut self, call: Call, nth: u64, keep: usize) -> Result<(), NoMemory>
        ensures ok { OnOk result (self.new ≡ failing call nth keep self.old) }
        ensures err { OnErr result (self.new ≡ self.old) }
    {
        match call {
            Call::Len => self.lens.fail(nth, keep),
            Call::Read => self.read_ats.fail(nth, keep),
            Call::Create => self.creates.fail(nth, keep),
            Call::Append => self.appends.fail(nth, keep),
        }
    }
}

impl Shelf for MemShelf {
    ghost held = { λ shelf. Some shelf.held };

    ghost reads = { λ shelf. shelf.reads };

    ghost writes = { λ shelf. shelf.writes };

    fn len(&mut self, name: &str) -> Result<u64, Fault>
        ensures fails { is_err result ≡ reading_fails self.old.lens name.now self.old.held }
        ensures length { IfOk result (λ len. len ≡ length (bytes_under self.old.held name.now)) }
        ensures ok { OnOk result (self.new ≡ after_len self.old) }
        ensures failed { IsErrOf result Fault.Failed → self.new ≡ after_failed_len name.now self.old }
        ensures memory { IsErrOf result Fault.Memory → self.new ≡ self.old }
        ensures cause { IsErrOf result Fault.Failed
            → Rose (count_of self.old.reads name.now) (count_of self.new.reads name.now) }
        ensures reads { RisesOnlyAt name.now self.old.reads self.new.reads }
    {
        match (self.lens.planned(), self.files.get(name)) {
            (None, Some(bytes)) => {
                let len = bytes.len() as u64;
                self.lens.pass();
                Ok(len)
            }
            _ => {
                self.reads.rise(name)?;
                self.lens.pass();
                Err(Fault::Failed)
            }
        }
    }

    fn read_at(&mut self, name: &str, at: u64, buf: &mut [u8]) -> Result<usize, Fault>
        ensures fails { is_err result ≡ reading_fails self.old.read_ats name.now self.old.held }
        ensures within { IfOk result (λ count. count ≤ length buf.old) }
        ensures fills { IfOk result (λ count. Fills (bytes_under self.old.held name.now) at count buf.old buf.new) }
        ensures bytes { IfOk result (λ count. Reads (bytes_under self.old.held name.now) at count buf.new) }
        ensures untouched { OnErr result (buf.new ≡ buf.old) }
        ensures ok { OnOk result (self.new ≡ after_read_at self.old) }
        ensures failed { IsErrOf result Fault.Failed → self.new ≡ after_failed_read_at name.now self.old }
        ensures memory { IsErrOf result Fault.Memory → self.new ≡ self.old }
        ensures cause { IsErrOf result Fault.Failed
            → Rose (count_of self.old.reads name.now) (count_of self.new.reads name.now) }
        ensures reads { RisesOnlyAt name.now self.old.reads self.new.reads }
    {
        match (self.read_ats.planned(), self.files.get(name)) {
            (None, Some(bytes)) => {
                let count = copy_from(bytes, at, buf);
                self.read_ats.pass();
                Ok(count)
            }
            _ => {
                self.reads.rise(name)?;
                self.read_ats.pass();
                Err(Fault::Failed)
            }
        }
    }

    fn create(&mut self, name: &str) -> Result<(), Fault>
        ensures unplanned { OnOk result (planned self.old.creates ≡ None) }
        ensures ok { OnOk result (self.new ≡ after_create name.now self.old) }
        ensures failed { IsErrOf result Fault.Failed
            → IsSome (planned self.old.creates) × (self.new ≡ after_failed_create name.now self.old) }
        ensures memory { IsErrOf result Fault.Memory → self.new ≡ self.old }
        ensures cause { IsErrOf result Fault.Failed
            → Rose (count_of self.old.writes name.now) (count_of self.new.writes name.now) }
        ensures writes { RisesOnlyAt name.now self.old.writes self.new.writes }
    {
        if self.creates.planned().is_some() {
            self.writes.rise(name)?;
            self.creates.pass();
            return Err(Fault::Failed);
        }
        self.files.put(name, &[])?;
        self.creates.pass();
        Ok(())
    }

    fn append(&mut self, name: &str, piece: &[u8]) -> Result<(), Fault>
        ensures unplanned { OnOk result (planned self.old.appends ≡ None) }
        ensures ok { OnOk result (self.new ≡ after_append name.now piece.now self.old) }
        ensures failed { IsErrOf result Fault.Failed
            → IsSomeAnd (planned self.old.appends)
            (λ keep. self.new ≡ after_failed_append name.now piece.now keep self.old) }
        ensures memory { IsErrOf result Fault.Memory → SameButEntered self.old self.new }
        ensures cause { IsErrOf result Fault.Failed
            → Rose (count_of self.old.writes name.now) (count_of self.new.writes name.now) }
        ensures writes { RisesOnlyAt name.now self.old.writes self.new.writes }
    {
        match self.appends.planned() {
            None => {
                self.files.append(name, piece)?;
                self.appends.pass();
                Ok(())
            }
            Some(keep) => {
                let kept = &piece[..keep.min(piece.len())];
                self.writes.enter(name)?;
                self.files.append(name, kept)?;
                self.writes.raise(name);
                self.appends.pass();
                Err(Fault::Failed)
            }
        }
    }
}
