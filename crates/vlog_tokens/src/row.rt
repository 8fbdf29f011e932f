use crate::token::TokenKind;

/// What a place of a source begins, told by its first two bytes.
#[derive(Clone, Copy)]
pub enum Row {
    Space,
    LineComment,
    BlockComment,
    Directive,
    Token(TokenKind),
}
