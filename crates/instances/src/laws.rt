//! Laws of the instances of a design. Each is the contract of a function that does nothing.
ghost use Rattle.instances.specs.Standing.{SameDefinitions, StandByChildren};

/// The shapes go with the instances, and the children of an instance stand right behind it, one after another.
pub fn instances_stand()
    ensures definitions { SameDefinitions }
    ensures children { StandByChildren }
{}
