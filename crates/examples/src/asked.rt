use crate::deed::Deed;
use crate::trouble::Trouble;
use elab::Names;
use std::alloc::Global;

/// A command over the files.
#[derive(Drop)]
pub enum Asked {
    /// A command that a shelf takes part in.
    Deed(Deed),
    /// The tree of a file.
    Tree(String),
    /// The width of each expression that a file assigns.
    Widths(String),
    /// The flat netlist of a file, with these names of its top, clock and checker.
    Flat(String, Names),
    /// The rows of a file of this name, of these signals.
    Rows(String, String),
    /// The tokens of a text.
    Tokens(String),
    /// Whether a text is a design.
    Design(String),
    /// The tree of a text that is a part of a module.
    Scrap(Scrap, String),
}

impl Asked {
    /// The same with this word in the place of `WORD` in its text.
    pub fn with_word(&self, alloc: Global, word: &str) -> Result<Asked, Trouble> {
        match self {
            Asked::Tokens(text) => Ok(Asked::Tokens(text.replace(alloc, "WORD", word)?)),
            Asked::Design(text) => Ok(Asked::Design(text.replace(alloc, "WORD", word)?)),
            Asked::Scrap(scrap, text) => {
                Ok(Asked::Scrap(*scrap, text.replace(alloc, "WORD", word)?))
            }
            Asked::Deed(_)
            | Asked::Tree(_)
            | Asked::Widths(_)
            | Asked::Flat(..)
            | Asked::Rows(..) => Err(Trouble::Again),
        }
    }
}

/// The part of a module that a text is.
#[derive(Clone, Copy)]
pub enum Scrap {
    /// What `assign x = ..;` assigns.
    Expression,
    /// What `initial q = ..;` sets.
    Number,
}

impl Scrap {
    /// The module up to the text.
    pub fn before(self) -> &'static str {
        match self {
            Scrap::Expression => "module m; assign x = ",
            Scrap::Number => "module m; initial q = ",
        }
    }
}
