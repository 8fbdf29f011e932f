//! Laws of the values of nodes. Each is the contract of a function that does nothing.
ghost use Rattle.flat_net.specs.Settling.{Settles};

/// A value stays with more steps, as many steps as there are nodes suffice, and the values then solve the equations of
/// the nodes.
pub fn settling()
    ensures { Settles }
{}
