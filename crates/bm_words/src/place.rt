ghost use Rattle.std.specs.Prelude.{◌≡◌, ◌≢◌, ◌<◌, ◌↔◌, ◌∷◌, ℕ, IsTrue, IfNone, IfSome, List, Some, length, slice_get};
ghost use Rattle.bm_words.specs.Words.{texts};

pub fn is_word(words: &[String], i: usize, text: &str) -> bool
    requires { i < length words.now }
    ensures { IsTrue result ↔ (slice_get (texts words.now) i ≡ Some text.now) }
{
    word(words, i) == text
}

pub fn word(words: &[String], i: usize) -> &str
    requires { i < length words.now }
    ensures { slice_get (texts words.now) i ≡ Some result.now }
{
    words[i].as_str()
}

/// What stands behind the option's own word, and the words behind that, where the words begin with the option.
pub fn take_value<'a>(words: &'a [String], option: &str) -> Option<(&'a str, &'a [String])>
    ensures taken { IfSome result
        (λ found. texts words.now ≡ option.now ∷ found.0.now ∷ texts found.1.now) }
    ensures refused { IfNone result ((value : List ℕ) (rest : List (List ℕ))
        → texts words.now ≢ option.now ∷ value ∷ rest) }
{
    if words.len() < 2 || !is_word(words, 0, option) {
        return None;
    }
    Some((word(words, 1), &words[2..]))
}
