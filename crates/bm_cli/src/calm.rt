//! The top call over a shelf and a sink that never fail.
ghost use Rattle.std.specs.Prelude.{◌≡◌, ◌≢◌, ◌⊎◌, Some};
ghost use Rattle.std.specs.FinMap.{empty};
ghost use Rattle.bm_base.specs.Held.{Held};
ghost use Rattle.bm_cli.specs.Answer.{status_of};
ghost use Rattle.bm_cli.specs.Commands.{Answers};
ghost use Rattle.bm_cli.specs.Keeps.{Keeps};
ghost use Rattle.bm_cli.specs.Outside.{outside};
ghost use Rattle.bm_words.specs.Words.{AskNothing, Asks, Command, texts};
ghost use Rattle.bm_cli.specs.declared.answer.Answer.{Answer};

use crate::run;
use bm_base::{CalmShelf, CalmSink, Status};
use std::alloc::Global;

/// `run`, where no fault can come from outside. So neither a read fault nor a write fault is answered, and where what
/// the words ask for has an answer, it comes, but for want of memory.
pub fn run_calmly(
    alloc: Global,
    words: &[String],
    shelf: &mut CalmShelf,
    out: &mut CalmSink,
) -> Status
    ensures no_read_fault { result ≢ Status.ReadFault }
    ensures no_write_fault { result ≢ Status.WriteFault }
    ensures words { result ≡ Status.Words → AskNothing (texts words.now) }
    ensures words_refused { AskNothing (texts words.now) → (result ≡ Status.Words) ⊎ (result ≡ Status.Memory) }
    ensures keeps { (command : Command) → Asks (texts words.now) command → Keeps command
        (outside (Some shelf.old) empty empty (Some out.old) 0) result
        (outside (Some shelf.new) empty empty (Some out.new) 0) }
    ensures comes { (command : Command) (answer : Answer) (whole : Held) → Asks (texts words.now) command
        → Answers command shelf.old answer whole → (result ≡ status_of answer) ⊎ (result ≡ Status.Memory) }
{
    run(alloc, words, shelf, out)
}
