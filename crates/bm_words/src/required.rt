ghost use Rattle.std.specs.Prelude.{◌≡◌, ◌≢◌, ◌++◌, ℕ, IfNone, IfSome, List};
ghost use Rattle.bm_words.specs.Options.{required_options};
ghost use Rattle.bm_words.specs.Words.{texts};

use crate::place::take_value;

/// The options that are always given, and the words behind them.
#[derive(Clone, Copy)]
pub struct Required<'a> {
    pub top: &'a str,
    pub clock: &'a str,
    pub check: &'a str,
    pub rest: &'a [String],
}

/// Reads the options that are always given. None where the words don't begin with them.
pub fn read_required<'a>(words: &'a [String]) -> Option<Required<'a>>
    ensures read { IfSome result (λ found. texts words.now
        ≡ required_options found.top.now found.clock.now found.check.now ++ texts found.rest.now) }
    ensures refused { IfNone result ((top clock check : List ℕ) (rest : List (List ℕ))
        → texts words.now ≢ required_options top clock check ++ rest) }
{
    let Some((top, after_top)) = take_value(words, "--top") else {
        return None;
    };
    let Some((clock, after_clock)) = take_value(after_top, "--clock") else {
        return None;
    };
    let Some((check, rest)) = take_value(after_clock, "--check") else {
        return None;
    };
    Some(Required {
        top,
        clock,
        check,
        rest,
    })
}
