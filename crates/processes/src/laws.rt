//! What the definitions of statements say of the meaning.
ghost use Rattle.processes.specs.Means.{StatementsMean};

/// After statements the edges of registers have no values but those that the statements give.
pub fn statements()
    ensures { StatementsMean }
{}
