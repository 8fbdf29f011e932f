//! What loops of the flat netlist are to the design.
ghost use Rattle.loop_laws.specs.Loops.{LoopsAreOfNodes};

/// A design is loop-free exactly where no node of its flat netlist reads itself, and then every node has a value. The
/// least node that reads itself stands for a bit.
pub fn loop_free()
    ensures { LoopsAreOfNodes }
{}
