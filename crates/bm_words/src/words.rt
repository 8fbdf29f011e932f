ghost use Rattle.std.specs.Prelude.{◌≡◌, ◌<◌, ◌^◌, IfNone, IfSome};
ghost use Rattle.bm_words.specs.Asked.{command_of, given_inputs, request_of};
ghost use Rattle.bm_words.specs.Words.{
  AskNothing,
  Asks,
  Command,
  HasForm,
  Inputs as InputNames,
  Request,
  check,
  inputs_of,
  minimise,
  texts,
};

use crate::asked::{Asked, Inputs, Minimise};
use crate::fit::is_fit;
use crate::options::read_options;
use crate::place::{is_word, word};

/// Reads the words, the program's name first. None where they ask for nothing.
pub fn read_words<'a>(words: &'a [String]) -> Option<Asked<'a>>
    ensures asked { IfSome result (λ found. Asks (texts words.now) (command_of found)) }
    ensures refused { IfNone result (AskNothing (texts words.now)) }
{
    let found = match read_form(words) {
        Some(found) => found,
        None => return None,
    };
    if is_fit(&found) { Some(found) } else { None }
}

// None too where the number of the reset cycles is far from fit.
fn read_form<'a>(words: &'a [String]) -> Option<Asked<'a>>
    ensures form { IfSome result (λ found. HasForm (texts words.now) (command_of found)) }
    ensures refused { IfNone result ((command : Command) → HasForm (texts words.now) command
        → (inputs_of command).names.reset_cycles < 2 ^ 32 → ⊥) }
{
    match read_minimise(words) {
        Some(found) => Some(Asked::Minimise(found)),
        None => match read_check(words) {
            Some(found) => Some(Asked::Check(found)),
            None => None,
        },
    }
}

fn read_minimise<'a>(words: &'a [String]) -> Option<Minimise<'a>>
    ensures form { IfSome result (λ found. HasForm (texts words.now) (minimise (request_of found))) }
    ensures refused { IfNone result ((request : Request) → HasForm (texts words.now) (minimise request)
        → request.inputs.names.reset_cycles < 2 ^ 32 → ⊥) }
{
    if words.len() < 5 || !is_word(words, 1, "minimise") {
        return None;
    }
    match read_options(&words[5..]) {
        Some((names, scope)) => Some(Minimise {
            inputs: Inputs {
                netlist: word(words, 2),
                waveform: word(words, 3),
                names,
                scope,
            },
            out: word(words, 4),
        }),
        None => None,
    }
}

fn read_check<'a>(words: &'a [String]) -> Option<Inputs<'a>>
    ensures form { IfSome result (λ found. HasForm (texts words.now) (check (given_inputs found))) }
    ensures refused { IfNone result ((inputs : InputNames) → HasForm (texts words.now) (check inputs)
        → inputs.names.reset_cycles < 2 ^ 32 → ⊥) }
{
    if words.len() < 4 || !is_word(words, 1, "check") {
        return None;
    }
    match read_options(&words[4..]) {
        Some((names, scope)) => Some(Inputs {
            netlist: word(words, 2),
            waveform: word(words, 3),
            names,
            scope,
        }),
        None => None,
    }
}
