//! Tokens are slices of their source.
use std::test::Fail;
use vlog_lexer::lex;

#[test]
fn gives_slices_and_the_length(rt: HostRuntime) -> Result<(), Fail> {
    let tokens = lex(rt.alloc(), b"\\wire wire")?;
    assert_eq!(rt; tokens.source_len(), 10);
    let list = tokens.list();
    assert_eq!(rt; list.len(), 2);
    let (escaped, word) = (list[0], list[1]);
    assert_eq!(rt; escaped.text, b"\\wire".as_slice());
    assert_eq!(rt; &escaped.text[1..], word.text);
    Ok(())
}
