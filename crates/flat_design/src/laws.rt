//! What the definition of the flat netlist says of the meaning.
ghost use Rattle.flat_design.specs.Means.{MeansDrives};
ghost use Rattle.flat_design.specs.Net.{FlatIsNet};
ghost use Rattle.flat_design.specs.Next.{FlatHasNext};
ghost use Rattle.flat_design.specs.Order.{ExpressionsAreOrdered};
ghost use Rattle.flat_design.specs.Values.{FlatHasValues};

/// The edge that a bit is given has the value of what drives it.
pub fn drives()
    ensures { MeansDrives }
{}

/// The nodes of a flat netlist have the values of the bits of its design, and the checker is that of the design.
pub fn values()
    ensures { FlatHasValues }
{}

/// The nodes of expressions read nodes before them, so that what reads itself does so through the node of a bit.
pub fn order()
    ensures { ExpressionsAreOrdered }
{}

/// The flat netlist of a design is a net: its sources stand in front, and every edge names a node.
pub fn is_net()
    ensures { FlatIsNet }
{}

/// Where all bits of a design have values, a next edge that has one has the register's bit after the cycle.
pub fn next()
    ensures { FlatHasNext }
{}
