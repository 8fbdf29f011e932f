ghost use Rattle.std.specs.Prelude.{◌≡◌, ◌↔◌, IsTrue};
ghost use Rattle.std.specs.List.{list_all};
ghost use Rattle.vlog_words.specs.Words.{IsWord, is_space, is_word_byte, is_word_start, is_word_text};

/// Whether the text is a word: a letter or `_`, then letters, digits, `_` and `$`.
pub fn is_word(text: &[u8]) -> bool
    ensures value { result ≡ is_word_text text.now }
    ensures meaning { IsTrue result ↔ IsWord text.now }
{
    match text {
        [first, rest @ ..] => is_word_start(*first) && are_parts(rest),
        [] => false,
    }
}

/// Whether the byte is white space: a space, a tab, a newline, a form feed or a carriage return.
pub fn is_space(byte: u8) -> bool
    ensures { result ≡ is_space byte }
{
    matches!(byte, b' ' | b'\t' | b'\n' | 0x0c | b'\r')
}

/// Whether a word may start with the byte: a letter or `_`.
pub fn is_word_start(byte: u8) -> bool
    ensures { result ≡ is_word_start byte }
{
    byte.is_ascii_alphabetic() || byte == b'_'
}

fn are_parts(bytes: &[u8]) -> bool
    ensures { result ≡ list_all is_word_byte bytes.now }
{
    bytes.iter().all(|byte| is_word_byte(*byte))
}

/// Whether the byte may stand in a word: a letter, a digit, `_` or `$`.
pub fn is_word_byte(byte: u8) -> bool
    ensures { result ≡ is_word_byte byte }
{
    byte.is_ascii_alphanumeric() || byte == b'_' || byte == b'$'
}
