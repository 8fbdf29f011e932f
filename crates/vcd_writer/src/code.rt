ghost use Rattle.std.specs.Prelude.{◌≡◌, ◌+◌, ◌++◌, ◌<◌, OnOk};
ghost use Rattle.vcd_writer.specs.Code.{code_of};

use bm_base::NoMemory;

const BASE: usize = 94;

/// The number of the clock's variable.
pub(crate) const CLOCK: usize = 0;

/// The number of the checker's variable.
pub(crate) const CHECK: usize = 1;

/// The number of the first port's variable; the others' follow.
pub(crate) const FIRST_PORT: usize = 2;

/// Appends the code of the variable with this number.
#[tactic(auto, using(crate::proofs::CodeSteps::code_of_step, crate::proofs::CodeSteps::code_of_last, std::proofs::lemmas::List::append_assoc))]
pub(crate) fn put_code(text: &mut Vec<u8>, number: usize) -> Result<(), NoMemory>
    ensures { OnOk result (text.new.items ≡ text.old.items ++ code_of number) }
{
    let mut rest = number;
    while rest >= BASE {
        text.push(digit_byte(rest % BASE))?;
        rest /= BASE;
    }
    text.push(digit_byte(rest))?;
    Ok(())
}

fn digit_byte(digit: usize) -> u8
    requires { digit < 94 }
    ensures { result ≡ 33 + digit }
{
    b'!' + digit as u8
}
