//! What the definitions of the meaning say, at examples.
ghost use Rattle.vlog_tree.specs.Meaning.Examples.{MeansExamples};

/// What small expressions and left sides mean, where a wrong reading would give something else.
pub fn examples()
    ensures { MeansExamples }
{}
