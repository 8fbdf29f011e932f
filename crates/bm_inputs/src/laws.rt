//! Laws of the files that a command reads. Each is the contract of a function that does nothing.
ghost use Rattle.bm_inputs.specs.Laws.{FilesExclude};

use netlists::laws::{netlist_or_fault, one_fault};
use vlog_parse::laws::bytes_spell_one_design;

/// What two files are excludes that they are refused, and they are refused with one status.
pub fn files_exclude()
    ensures { FilesExclude }
{
    bytes_spell_one_design();
    netlist_or_fault();
    one_fault();
}
