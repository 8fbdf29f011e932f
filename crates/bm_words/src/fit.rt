ghost use Rattle.std.specs.Prelude.{◌↔◌, IsTrue, IfSome, option_copied};
ghost use Rattle.std.specs.Option.{option_map};
ghost use Rattle.bm_words.specs.Asked.{command_of, given_inputs, request_of};
ghost use Rattle.bm_words.specs.Names.{names_of, reset_of};
ghost use Rattle.bm_words.specs.Words.{HasFit, HasFitNames, HasFitOptions, HasFitOut, IsFileName, IsName};

use crate::asked::{Asked, Inputs, Minimise};
use crate::names::{Names, Reset};

const MOST_RESET_CYCLES: u32 = 1000;

pub fn is_fit(asked: &Asked) -> bool
    ensures { IsTrue result ↔ HasFit (command_of asked.now) }
{
    match asked {
        Asked::Minimise(found) => has_fit_names(&found.inputs) && has_fit_out(found),
        Asked::Check(found) => has_fit_names(found),
    }
}

fn has_fit_names(found: &Inputs) -> bool
    ensures { IsTrue result ↔ HasFitNames (given_inputs found.now) }
{
    is_file_name(found.netlist)
        && is_file_name(found.waveform)
        && found.netlist != found.waveform
        && has_fit_options(&found.names)
        && is_fit_scope(found.scope)
}

fn has_fit_out(found: &Minimise) -> bool
    ensures { IsTrue result ↔ HasFitOut (request_of found.now) }
{
    let inputs = found.inputs;
    is_file_name(found.out) && inputs.netlist != found.out && inputs.waveform != found.out
}

fn has_fit_options(names: &Names) -> bool
    ensures { IsTrue result ↔ HasFitOptions (names_of names.now) }
{
    are_names(names.top, names.clock, names.check)
        && is_fit_reset(names.reset)
        && names.reset_cycles <= MOST_RESET_CYCLES
}

fn are_names(a: &str, b: &str, c: &str) -> bool
    ensures { IsTrue result ↔ (IsName a.now × IsName b.now × IsName c.now) }
{
    !a.is_empty() && !b.is_empty() && !c.is_empty()
}

fn is_fit_reset(reset: Option<Reset>) -> bool
    ensures { IsTrue result ↔ IfSome (option_map reset_of reset.entry) (λ reset. IsName reset.0) }
{
    match reset {
        Some(reset) => !reset.name.is_empty(),
        None => true,
    }
}

fn is_fit_scope(scope: Option<&str>) -> bool
    ensures { IsTrue result ↔ IfSome (option_copied scope.entry) IsName }
{
    match scope {
        Some(scope) => !scope.is_empty(),
        None => true,
    }
}

fn is_file_name(name: &str) -> bool
    ensures { IsTrue result ↔ IsFileName name.now }
{
    match name.as_bytes() {
        [] => false,
        [first, ..] => *first != b'-',
    }
}
