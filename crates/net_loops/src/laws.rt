//! What loops are to values.
ghost use Rattle.net_loops.specs.Loops.{Loops};

/// A node that reads itself has no value, and where a node has none, some node reads itself.
pub fn loops()
    ensures { Loops }
{}
