//! What the definitions of the lowering say of the meaning.
ghost use Rattle.lowering.specs.Meaning.{MeansExpressions};

/// The edges of an expression have the values of its bits.
pub fn meaning()
    ensures { MeansExpressions }
{}
