//! What a design that is spelled has, and one that keeps the rules.
ghost use Rattle.design_laws.specs.Grammar.{GrammarGives};
ghost use Rattle.design_laws.specs.Sound.{KeptIsSound};

/// In a design that some bytes spell `buf` and `not` have one input, and an initial value is a number.
pub fn grammar_gives()
    ensures { GrammarGives }
{}

/// A design that keeps the rules on modules, names, connections and widths is sound: each instance has one path, which
/// leads to its module, and all that stands in its items has bits.
pub fn kept_is_sound()
    ensures { KeptIsSound }
{}
