//! The commands, each in a file of its own.
ghost use Rattle.bm_inputs.specs.Counts.{OthersStay};
ghost use Rattle.bm_words.specs.Asked.{command_of};
ghost use Rattle.bm_cli.specs.Commands.{reads_of, writes_of};
ghost use Rattle.bm_cli.specs.Ends.{Ends, counted};

mod check;
mod minimise;

use crate::answer::{Answer, Stop};
use bm_base::Shelf;
use bm_words::Asked;
use std::alloc::Global;

/// Does what is asked for.
pub fn carry_out<F: Shelf>(alloc: Global, asked: &Asked<'_>, shelf: &mut F) -> Result<Answer, Stop>
    ensures ends { Ends (command_of asked.now) (F.held shelf.old) (F.held shelf.new)
        (counted (F.reads shelf.old) (F.reads shelf.new) (F.writes shelf.old) (F.writes shelf.new)) result }
    ensures reads { OthersStay (reads_of (command_of asked.now)) (F.reads shelf.old) (F.reads shelf.new) }
    ensures writes { OthersStay (writes_of (command_of asked.now)) (F.writes shelf.old) (F.writes shelf.new) }
{
    match asked {
        Asked::Minimise(asked) => match minimise::minimise(alloc, asked, shelf) {
            Ok(summary) => Ok(Answer::Minimised(summary)),
            Err(stop) => Err(stop),
        },
        Asked::Check(asked) => match check::check(alloc, asked, shelf) {
            Ok(accepted) => Ok(Answer::Accepted(accepted)),
            Err(stop) => Err(stop),
        },
    }
}
