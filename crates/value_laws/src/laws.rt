//! Laws of the values of bits. Each is the contract of a function that does nothing.
ghost use Rattle.value_laws.specs.Settling.{ValuesSettle};

/// A value stays with more steps, as many steps as there are bits suffice, and the values then solve the equations of
/// the design.
pub fn values_settle()
    ensures { ValuesSettle }
{}
