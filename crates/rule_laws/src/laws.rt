//! What the rules of elaboration say together.
ghost use Rattle.rule_laws.specs.Names.{RulesGiveNames};
ghost use Rattle.rule_laws.specs.Ready.{RulesGiveReady};
ghost use Rattle.rule_laws.specs.Reset.{RulesGiveReset};

/// A design that keeps the rules of elaboration is ready to be flattened.
pub fn ready()
    ensures { RulesGiveReady }
{}

/// The reset of a design that keeps the rules is an input of one bit, and not the clock.
pub fn reset()
    ensures { RulesGiveReset }
{}

/// The declarations and the header of its top are right.
pub fn names()
    ensures { RulesGiveNames }
{}
