ghost use Rattle.std.specs.Prelude.{
  ◌≡◌,
  ◌≢◌,
  ◌∷◌,
  ◌++◌,
  ℕ,
  IfNone,
  IfSome,
  List,
  Option,
  option_copied,
};
ghost use Rattle.bm_words.specs.Options.{further_options, option_words};
ghost use Rattle.bm_words.specs.Words.{texts};

use crate::place::take_value;

/// What the options are given that may be missing.
#[derive(Clone, Copy)]
pub struct Further<'a> {
    pub reset: Option<&'a str>,
    pub cycles: Option<&'a str>,
    pub scope: Option<&'a str>,
}

/// Reads the options that may be missing, behind which there is no word more.
pub fn read_further<'a>(words: &'a [String]) -> Option<Further<'a>>
    ensures read { IfSome result (λ found. texts words.now
        ≡ further_options (option_copied found.reset) (option_copied found.cycles) (option_copied found.scope)) }
    ensures refused { IfNone result ((reset cycles scope : Option (List ℕ))
        → texts words.now ≢ further_options reset cycles scope) }
{
    let (reset, after_reset) = take_option(words, "--reset");
    let (cycles, after_cycles) = take_option(after_reset, "--reset-cycles");
    let (scope, rest) = take_option(after_cycles, "--scope");
    if rest.is_empty() {
        Some(Further {
            reset,
            cycles,
            scope,
        })
    } else {
        None
    }
}

// What the option is given, if the words begin with it, and the words behind it.
fn take_option<'a>(words: &'a [String], option: &str) -> (Option<&'a str>, &'a [String])
    ensures split { texts words.now ≡ option_words option.now (option_copied result.0) ++ texts result.1.now }
    ensures absent { IfNone (option_copied result.0) ((value : List ℕ) (rest : List (List ℕ))
        → texts result.1.now ≢ option.now ∷ value ∷ rest) }
{
    match take_value(words, option) {
        Some((value, rest)) => (Some(value), rest),
        None => (None, words),
    }
}
