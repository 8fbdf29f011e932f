ghost use Rattle.std.specs.Prelude.{◌≡◌, ◌∷◌};
ghost use Rattle.std.specs.List.{list_all};
ghost use Rattle.vcd_reader.specs.Body.{form_by, form_of, is_digit, is_passed, time_form};

use vcd_header::number_up_to;

/// What a token of the body is, told by its text.
#[derive(Clone, Copy, Debug, PartialEq, Eq)]
pub enum Form {
    /// `#` and a decimal.
    Time(u64),
    /// A digit with its code directly after it.
    Scalar,
    /// `b` or `B` and digits; the code is the next token.
    Vector,
    /// `r`, `R`, `s` or `S`, whose value is skipped with its code, the next token.
    Real,
    /// `$end`, or what opens a section whose values count like all others.
    Passed,
    /// What opens a section that is skipped.
    Section,
    /// None of these.
    Wrong,
}

/// What the token of the body is.
pub(crate) fn form_of(text: &[u8]) -> Form
    ensures { result ≡ form_of text.now }
{
    match text.split_first() {
        Some((first, later)) => form_by(*first, later, text),
        None => Form::Wrong,
    }
}

fn form_by(first: u8, later: &[u8], text: &[u8]) -> Form
    requires { text.now ≡ first ∷ later.now }
    ensures { result ≡ form_by first later.now }
{
    if first == b'#' {
        time_form(number_up_to(u64::MAX, later))
    } else if is_digit(first) && !later.is_empty() {
        Form::Scalar
    } else if (first == b'b' || first == b'B') && (!later.is_empty() && are_digits(later)) {
        Form::Vector
    } else if first == b'r' || first == b'R' || first == b's' || first == b'S' {
        Form::Real
    } else if is_passed(text) {
        Form::Passed
    } else if first == b'$' {
        Form::Section
    } else {
        Form::Wrong
    }
}

fn time_form(time: Option<u64>) -> Form
    ensures { result ≡ time_form time }
{
    match time {
        Some(time) => Form::Time(time),
        None => Form::Wrong,
    }
}

fn is_digit(byte: u8) -> bool
    ensures { result ≡ is_digit byte }
{
    byte == b'0' || byte == b'1' || byte == b'x' || byte == b'X' || byte == b'z' || byte == b'Z'
}

fn are_digits(text: &[u8]) -> bool
    ensures { result ≡ list_all is_digit text.now }
{
    text.iter().all(|byte| is_digit(*byte))
}

fn is_passed(text: &[u8]) -> bool
    ensures { result ≡ is_passed text.now }
{
    text == b"$dumpvars".as_slice()
        || text == b"$dumpall".as_slice()
        || text == b"$dumpon".as_slice()
        || text == b"$dumpoff".as_slice()
        || text == b"$end".as_slice()
}
