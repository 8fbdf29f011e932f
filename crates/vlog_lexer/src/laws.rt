//! What the definitions say of every source.
ghost use Rattle.vlog_tokens.specs.Attributes.{DropsAttributes, KeepsOpenMarks};
ghost use Rattle.vlog_tokens.specs.Tokens.{IsOneTokenList, IsOrdered};
ghost use Rattle.vlog_lexer.specs.Faults.{IsOneFault, IsTokensOrFault};

/// A source has one list of tokens at most.
pub fn one_token_list()
    ensures { IsOneTokenList }
{}

/// A source has one fault at most.
pub fn one_fault()
    ensures { IsOneFault }
{}

/// No source has both tokens and a fault.
pub fn tokens_or_fault()
    ensures { IsTokensOrFault }
{}

/// The tokens of a source are slices of it, in order and without overlap.
pub fn tokens_are_slices()
    ensures { IsOrdered }
{}

/// What an attribute is, and that a `(*` without `*)` is none.
pub fn attributes_are_dropped()
    ensures drops { DropsAttributes }
    ensures keeps { KeepsOpenMarks }
{}
