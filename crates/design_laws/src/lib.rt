//! What the definitions of the grammar, of the rules and of the meaning say together: a design that is spelled and keeps
//! the rules has all that its meaning asks for.
#![tactic(auto)]

pub mod laws;
