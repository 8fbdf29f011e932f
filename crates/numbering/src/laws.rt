//! What the numbers of nodes say of the bits of a design.
ghost use Rattle.numbering.specs.Numbers.{NumbersBits};

/// Each bit has the number that the order of the instances, of their names and of the bits of these gives it.
pub fn numbers()
    ensures { NumbersBits }
{}
