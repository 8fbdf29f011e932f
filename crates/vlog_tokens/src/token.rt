/// What a token is: a row of the table of tokens. A string is a `Text`.
#[derive(Clone, Copy, Debug, PartialEq, Eq)]
pub enum TokenKind {
    Word,
    Escaped,
    System,
    Decimal,
    Based,
    Text,
    Mark,
}

/// A slice of the source with its byte offset.
#[derive(Clone, Copy)]
pub struct Token<'a> {
    pub kind: TokenKind,
    pub at: u64,
    pub text: &'a [u8],
}
