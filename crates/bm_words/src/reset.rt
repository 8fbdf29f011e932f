ghost use Rattle.std.specs.Prelude.{◌≡◌, ◌≢◌, ℕ, Bool, IfNone, IfSome, List, Option, option_copied};
ghost use Rattle.std.specs.Option.{option_map};
ghost use Rattle.bm_words.specs.Names.{reset_of};
ghost use Rattle.bm_words.specs.Options.{level, reset_text};

use crate::names::Reset;

/// The reset that the option's text gives, or none where there is no such option. None where the text isn't one.
pub fn read_reset<'a>(text: Option<&'a str>) -> Option<Option<Reset<'a>>>
    ensures read { IfSome result
        (λ reset. option_copied text.entry ≡ option_map reset_text (option_map reset_of reset)) }
    ensures refused { IfNone result ((reset : Option (List ℕ × Bool))
        → option_copied text.entry ≢ option_map reset_text reset) }
{
    match text {
        None => Some(None),
        Some(text) => match cut_reset(text) {
            Some(reset) => Some(Some(reset)),
            None => None,
        },
    }
}

fn cut_reset<'a>(text: &'a str) -> Option<Reset<'a>>
    ensures read { IfSome result (λ reset. text.now ≡ reset_text (reset_of reset)) }
    ensures refused { IfNone result ((reset : List ℕ × Bool) → text.now ≢ reset_text reset) }
{
    match text.rsplit_once('=') {
        Some((name, value)) => match read_level(value) {
            Some(active) => Some(Reset { name, active }),
            None => None,
        },
        None => None,
    }
}

fn read_level(text: &str) -> Option<bool>
    ensures read { IfSome result (λ active. text.now ≡ level active) }
    ensures refused { IfNone result ((active : Bool) → text.now ≢ level active) }
{
    if text == "0" {
        Some(false)
    } else if text == "1" {
        Some(true)
    } else {
        None
    }
}
