//! The netlist of a command, from its file.
ghost use Rattle.std.specs.Prelude.{IfErr, IfOk, IfSome};
ghost use Rattle.bm_base.specs.Held.{bytes_under};
ghost use Rattle.bm_files.specs.Files.{IsWithin};
ghost use Rattle.bm_words.specs.Asked.{given_inputs};
ghost use Rattle.bm_inputs.specs.Reading.{ReadsNetlist, ReadsOnly, StopsAtNetlist, StopsFilling};

use crate::given::given_names;
use crate::stop::{InputRefusal, InputStop};
use bm_base::{Fault, Shelf, Size};
use bm_files::read_file;
use bm_words::Inputs;
use netlists::Netlist;
use std::alloc::Global;

/// Reads the netlist.
pub(crate) fn read_netlist<F: Shelf>(
    alloc: Global,
    asked: &Inputs<'_>,
    shelf: &mut F,
) -> Result<Netlist, InputStop>
    ensures only_reads { ReadsOnly asked.now.netlist.now (F.held shelf.old) (F.held shelf.new) (F.reads shelf.old)
        (F.reads shelf.new) (F.writes shelf.old) (F.writes shelf.new) }
    ensures stops { IfErr result (StopsAtNetlist (given_inputs asked.now) (F.held shelf.old) (F.reads shelf.old)
        (F.reads shelf.new)) }
    ensures read { IfOk result (λ netlist. ReadsNetlist (given_inputs asked.now) (F.held shelf.old) netlist.level
        netlist.labels) }
{
    let Some(bytes) = read_text(alloc, shelf, asked.netlist, Size::Netlist.limit())? else {
        return Err(InputStop::Refused(InputRefusal::Limit(Size::Netlist)));
    };
    let names = given_names(alloc, &asked.names)?;
    Ok(netlists::read_netlist(alloc, &bytes, &names)?)
}

// The bytes of a file, or None where they are more than the limit.
fn read_text<F: Shelf>(
    alloc: Global,
    shelf: &mut F,
    name: &str,
    limit: u64,
) -> Result<Option<Vec<u8>>, InputStop>
    ensures only_reads { ReadsOnly name.now (F.held shelf.old) (F.held shelf.new) (F.reads shelf.old)
        (F.reads shelf.new) (F.writes shelf.old) (F.writes shelf.new) }
    ensures stops { IfErr result (StopsFilling name.now (F.reads shelf.old) (F.reads shelf.new)) }
    ensures bytes { IfOk result (λ found. IfSome (F.held shelf.old)
        (λ held. IsWithin limit (bytes_under held name.now) found)) }
{
    match read_file(alloc, shelf, name, limit) {
        Ok(found) => Ok(found),
        Err(Fault::Failed) => Err(InputStop::ReadFault),
        Err(Fault::Memory) => Err(InputStop::Memory),
    }
}
