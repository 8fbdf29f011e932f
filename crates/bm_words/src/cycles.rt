ghost use Rattle.std.specs.Prelude.{◌<◌, ◌^◌, ℕ, IfNone, IfSome, option_copied};
ghost use Rattle.bm_words.specs.Options.{IsCycles, IsDecimal};

/// How many cycles the reset is held for, as the option's text gives it. None where the text isn't a number, or one of
/// more than 32 bits.
pub fn read_cycles(text: Option<&str>) -> Option<u32>
    ensures read { IfSome result (λ number. IsCycles (option_copied text.entry) number) }
    ensures refused { IfNone result ((number : ℕ) → number < 2 ^ 32
        → IsCycles (option_copied text.entry) number → ⊥) }
{
    match text {
        Some(text) => read_decimal(text),
        None => Some(1),
    }
}

fn read_decimal(text: &str) -> Option<u32>
    ensures read { IfSome result (λ number. IsDecimal text.now number) }
    ensures refused { IfNone result ((number : ℕ) → number < 2 ^ 32 → IsDecimal text.now number → ⊥) }
{
    // `parse` takes a plus in front too.
    if text.len() > 10 || text.starts_with('+') {
        return None;
    }
    match text.parse::<u32>() {
        Ok(number) => Some(number),
        Err(_) => None,
    }
}
