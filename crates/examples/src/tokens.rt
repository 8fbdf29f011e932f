//! The tokens of a text.
use crate::shown::put_shown;
use std::alloc::{AllocError, Global};
use vlog_lexer::{Tokens, lex};
use vlog_tokens::{Token, TokenKind};

/// The kind, the place and the text of each token, or why there is none.
pub fn said_of_tokens(alloc: Global, source: &[u8]) -> Result<String, AllocError> {
    match lex(alloc, source) {
        Ok(tokens) => said_of_list(alloc, &tokens),
        Err(fault) => format!(in alloc; "{fault}\n"),
    }
}

fn said_of_list(alloc: Global, tokens: &Tokens) -> Result<String, AllocError> {
    let mut says = String::new(alloc);
    for token in tokens.list() {
        put_token(&mut says, *token)?;
    }
    if says.is_empty() {
        says.push_str("no tokens\n")?;
    }
    Ok(says)
}

fn put_token(says: &mut String, token: Token) -> Result<(), AllocError> {
    write!(says, "{} {} ", token.at, kind_name(token.kind))?;
    put_shown(says, token.text)?;
    says.push('\n')
}

fn kind_name(kind: TokenKind) -> &'static str {
    match kind {
        TokenKind::Word => "word",
        TokenKind::Escaped => "escaped",
        TokenKind::System => "system",
        TokenKind::Decimal => "decimal",
        TokenKind::Based => "based",
        TokenKind::Text => "text",
        TokenKind::Mark => "mark",
    }
}
