ghost use Rattle.std.specs.Prelude.{◌≡◌, map};
ghost use Rattle.vlog_words.specs.Words.{is_text_among};

/// Whether the text is one of these words.
pub fn is_among(words: &[&str], text: &[u8]) -> bool
    ensures { result ≡ is_text_among (map (λ word. word.now) words.now) text.now }
{
    words.iter().any(|word| word.as_bytes() == text)
}
