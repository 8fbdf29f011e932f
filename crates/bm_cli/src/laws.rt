//! Laws of the commands. Each is the contract of a function that does nothing.
ghost use Rattle.bm_cli.specs.Agreement.{IsAcceptedAgain};
ghost use Rattle.bm_cli.specs.Commands.{HasOneStatus};
ghost use Rattle.bm_words.specs.Words.{Inputs, Request, check, minimise};

use bm_inputs::laws::files_exclude;
use vcd_reader::laws::{shorter_fits, waveforms_fit};

/// What `minimise` wrote, `check` accepts, where it is no longer than a waveform may be.
pub fn check_accepts_what_minimise_wrote()
    ensures { IsAcceptedAgain }
{
    waveforms_fit();
    shorter_fits();
}

/// What `minimise` answers on given bytes has one status.
pub fn minimise_has_one_status()
    ensures { (request : Request) → HasOneStatus (minimise request) }
{
    files_exclude();
}

/// What `check` answers on given bytes has one status.
pub fn check_has_one_status()
    ensures { (inputs : Inputs) → HasOneStatus (check inputs) }
{
    files_exclude();
}
