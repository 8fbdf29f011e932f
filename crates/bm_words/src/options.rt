ghost use Rattle.std.specs.Prelude.{◌<◌, ◌^◌, ℕ, IfNone, IfSome, List, Option, option_copied};
ghost use Rattle.bm_words.specs.Names.{TopNames, names_of};
ghost use Rattle.bm_words.specs.Options.{AreOptions};
ghost use Rattle.bm_words.specs.Words.{texts};

use crate::cycles::read_cycles;
use crate::further::read_further;
use crate::names::Names;
use crate::required::read_required;
use crate::reset::read_reset;

/// Reads the options: the names, and the scope if there is one. None where the words are no options.
pub fn read_options<'a>(words: &'a [String]) -> Option<(Names<'a>, Option<&'a str>)>
    ensures read { IfSome result
        (λ found. AreOptions (texts words.now) (names_of found.0) (option_copied found.1)) }
    ensures refused { IfNone result ((names : TopNames) (scope : Option (List ℕ)) → names.reset_cycles < 2 ^ 32
        → AreOptions (texts words.now) names scope → ⊥) }
{
    let Some(required) = read_required(words) else {
        return None;
    };
    let Some(further) = read_further(required.rest) else {
        return None;
    };
    let Some(reset) = read_reset(further.reset) else {
        return None;
    };
    let Some(reset_cycles) = read_cycles(further.cycles) else {
        return None;
    };
    let names = Names {
        top: required.top,
        clock: required.clock,
        check: required.check,
        reset,
        reset_cycles,
    };
    Some((names, further.scope))
}
