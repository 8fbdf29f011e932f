ghost use Rattle.std.specs.Prelude.{◌≡◌, ◌⊎◌, ◌<◌, ◌≤◌, length, take, IfOk, IfSome, IsErrOf, OnOk, OnErr};
ghost use Rattle.std.specs.Option.{option_map};
ghost use Rattle.bm_base.specs.Counts.{count_of, Rose, RisesOnlyAt, SameCounts};
ghost use Rattle.bm_base.specs.Held.{bytes_under, holding};
ghost use Rattle.bm_files.specs.Files.{IsWithin, Fills, HoldsPrefix};

use bm_base::{Fault, Shelf};
use std::alloc::Global;

/// The bytes of a file of at most `limit` bytes. None where it is longer.
pub fn read_file<F: Shelf>(
    alloc: Global,
    shelf: &mut F,
    name: &str,
    limit: u64,
) -> Result<Option<Vec<u8>>, Fault>
    ensures bytes { IfOk result (λ found. IfSome (F.held shelf.old)
        (λ held. IsWithin limit (bytes_under held name.now) found)) }
    ensures held { F.held shelf.new ≡ F.held shelf.old }
    ensures cause { IsErrOf result Fault.Failed → Rose (count_of (F.reads shelf.old) name.now)
        (count_of (F.reads shelf.new) name.now) }
    ensures reads { RisesOnlyAt name.now (F.reads shelf.old) (F.reads shelf.new) }
    ensures writes { SameCounts (F.writes shelf.old) (F.writes shelf.new) }
{
    let len = shelf.len(name)?;
    if len > limit {
        return Ok(None);
    }
    let bytes = read_front(alloc, shelf, name, len)?;
    Ok(Some(bytes))
}

/// The first `size` bytes of a file, or all where they are fewer.
pub fn read_front<F: Shelf>(
    alloc: Global,
    shelf: &mut F,
    name: &str,
    size: u64,
) -> Result<Vec<u8>, Fault>
    ensures bytes { IfOk result (λ bytes. IfSome (F.held shelf.old)
        (λ held. bytes.items ≡ take size (bytes_under held name.now))) }
    ensures held { F.held shelf.new ≡ F.held shelf.old }
    ensures cause { IsErrOf result Fault.Failed → Rose (count_of (F.reads shelf.old) name.now)
        (count_of (F.reads shelf.new) name.now) }
    ensures reads { RisesOnlyAt name.now (F.reads shelf.old) (F.reads shelf.new) }
    ensures writes { SameCounts (F.writes shelf.old) (F.writes shelf.new) }
{
    let mut bytes = vec![in alloc; 0; size as usize]?;
    let count = fill(shelf, name, &mut bytes)?;
    bytes.truncate(count);
    Ok(bytes)
}

// Reads the file's front into the buffer until that is full or the file ends, and says how many bytes it read.
fn fill<F: Shelf>(shelf: &mut F, name: &str, buffer: &mut [u8]) -> Result<usize, Fault>
    ensures bytes { IfOk result (λ count. IfSome (F.held shelf.old)
        (λ held. Fills (bytes_under held name.now) count buffer.new)) }
    ensures within { IfOk result (λ count. count ≤ length buffer.new) }
    ensures held { F.held shelf.new ≡ F.held shelf.old }
    ensures cause { IsErrOf result Fault.Failed → Rose (count_of (F.reads shelf.old) name.now)
        (count_of (F.reads shelf.new) name.now) }
    ensures reads { RisesOnlyAt name.now (F.reads shelf.old) (F.reads shelf.new) }
    ensures writes { SameCounts (F.writes shelf.old) (F.writes shelf.new) }
{
    let mut at = 0;
    while at < buffer.len() {
        let count = shelf.read_at(name, at as u64, &mut buffer[at..])?;
        if count == 0 {
            break;
        }
        at += count;
    }
    Ok(at)
}

/// Empties the file, or makes it, and writes the text into it in one piece.
pub fn write_file<F: Shelf>(shelf: &mut F, name: &str, text: &[u8]) -> Result<(), Fault>
    ensures ok { OnOk result (F.held shelf.new ≡ option_map (holding name.now text.now) (F.held shelf.old)) }
    ensures err { OnErr result (HoldsPrefix name.now text.now (F.held shelf.old) (F.held shelf.new)) }
    ensures cause { IsErrOf result Fault.Failed → Rose (count_of (F.writes shelf.old) name.now)
        (count_of (F.writes shelf.new) name.now) }
    ensures writes { RisesOnlyAt name.now (F.writes shelf.old) (F.writes shelf.new) }
    ensures reads { SameCounts (F.reads shelf.old) (F.reads shelf.new) }
{
    shelf.create(name)?;
    shelf.append(name, text)
}
