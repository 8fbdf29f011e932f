//! The machine of a design is that of its flat netlist.
ghost use Rattle.machine_laws.specs.Machines.{MachinesAgree};
ghost use Rattle.machine_laws.specs.Runs.{SameHaveRuns};

/// A loop-free design and its flat netlist start alike, and in the same state under the same row they go to the same next
/// one, and violate or not.
pub fn machines()
    ensures { MachinesAgree }
{
    loop_laws::laws::loop_free();
    flat_design::laws::values();
    flat_design::laws::next();
}

/// Machines that are the same go through the same states under the same rows, and violate in the same cycles.
pub fn runs()
    ensures { SameHaveRuns }
{}
