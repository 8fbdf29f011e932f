//! Rule E10: a bit has one driver, no bit stands twice in one left side or connection, and a register has one initial
//! value. One `always` may assign a bit more than once, in different left sides.
ghost use Rattle.std.specs.Prelude.{◌≡◌, OnOk, fold};
ghost use Rattle.hierarchy.specs.Failures.{earlier};
ghost use Rattle.driver_rules.specs.Doubles.{double_drivers};

use crate::doubles::note_doubles;
use crate::initials::note_second_initials;
use bm_base::NoMemory;
use design_nets::DesignNets;
use hierarchy::Earliest;
use nets::Nets;
use std::alloc::Global;

/// Notes each name or select that is assigned where one of its bits has a driver already, by an assignment, a gate, an
/// instance or another `always`, or stands before it in the same left side or connection; and each second `initial` of a
/// register. Takes time that grows with the size of the module, and no more for wide names.
pub fn note_double_drivers<'a>(
    alloc: Global,
    design: &DesignNets<'a>,
    nets: &Nets<'a>,
    found: &mut Earliest<'a>,
) -> Result<(), NoMemory>
    ensures { OnOk result (found.new ≡ fold earlier found.old (double_drivers design.now.design nets.now)) }
{
    note_doubles(alloc, design, nets, found)?;
    note_second_initials(alloc, nets.module(), found)
}
