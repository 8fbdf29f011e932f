//! The top call.
ghost use Rattle.std.specs.Prelude.{◌≡◌, IfSome};
ghost use Rattle.bm_base.specs.Counts.{Rose};
ghost use Rattle.bm_cli.specs.Answer.{line_of, status_of};
ghost use Rattle.bm_cli.specs.Headline.{IsDone, SaysYes};
ghost use Rattle.bm_cli.specs.Keeps.{Keeps, RefusesWords};
ghost use Rattle.bm_cli.specs.Outside.{outside};
ghost use Rattle.bm_cli.specs.Prints.{Prints, PrintsEnd};
ghost use Rattle.bm_words.specs.Words.{AskNothing, Asks, Command, Inputs, Request, check, minimise, texts};

use crate::answer::{Answer, Stop};
use crate::commands::carry_out;
use crate::laws::{check_has_one_status, minimise_has_one_status};
use bm_base::{Fault, Shelf, Sink, Status};
use bm_words::laws::one_command;
use bm_words::read_words;
use std::alloc::Global;

/// Does what the words ask for, the program's name being the first of them, and prints its line.
pub fn run<F: Shelf, S: Sink>(alloc: Global, words: &[String], shelf: &mut F, out: &mut S) -> Status
    // Status 2 comes only where the words ask for nothing, and then nothing else is done.
    ensures words { result ≡ Status.Words → AskNothing (texts words.now) }
    ensures words_refused { AskNothing (texts words.now) → RefusesWords
        (outside (F.held shelf.old) (F.reads shelf.old) (F.writes shelf.old) (S.taken out.old) (S.faults out.old))
        result
        (outside (F.held shelf.new) (F.reads shelf.new) (F.writes shelf.new) (S.taken out.new) (S.faults out.new)) }

    // What the words ask for is answered as its relation says, but for faults that the counts show and want of memory.
    ensures keeps { (command : Command) → Asks (texts words.now) command → Keeps command
        (outside (F.held shelf.old) (F.reads shelf.old) (F.writes shelf.old) (S.taken out.old) (S.faults out.old))
        result
        (outside (F.held shelf.new) (F.reads shelf.new) (F.writes shelf.new) (S.taken out.new) (S.faults out.new)) }

    // Where `minimise` answers 0, OUT holds the text of a trace that drives the netlist to a violation, first at its
    // last cycle, and that no longer violates without any one of its cycles.
    ensures minimised { (request : Request) → Asks (texts words.now) (minimise request) → result ≡ Status.Done →
        IfSome (F.held shelf.old) (λ held. IsDone request held
        (outside (F.held shelf.old) (F.reads shelf.old) (F.writes shelf.old) (S.taken out.old) (S.faults out.old))
        (outside (F.held shelf.new) (F.reads shelf.new) (F.writes shelf.new) (S.taken out.new) (S.faults out.new))) }

    // Where `check` answers 0, TRACE is such a trace.
    ensures says_yes { (inputs : Inputs) → Asks (texts words.now) (check inputs) → result ≡ Status.Done →
        IfSome (F.held shelf.old) (λ held. SaysYes inputs held
        (outside (F.held shelf.old) (F.reads shelf.old) (F.writes shelf.old) (S.taken out.old) (S.faults out.old))
        (outside (F.held shelf.new) (F.reads shelf.new) (F.writes shelf.new) (S.taken out.new) (S.faults out.new))) }
{
    one_command();
    minimise_has_one_status();
    check_has_one_status();
    let Some(asked) = read_words(words) else {
        return put(Status::Words, b"words refused\n", out);
    };
    let outcome = carry_out(alloc, &asked, shelf);
    finish(alloc, outcome, out)
}

// Prints the line of how a command ended, if it has one, and gives its status.
fn finish<S: Sink>(alloc: Global, outcome: Result<Answer, Stop>, out: &mut S) -> Status
    ensures { PrintsEnd outcome result (Rose (S.faults out.old) (S.faults out.new)) (S.taken out.old)
        (S.taken out.new) }
{
    match outcome {
        Ok(answer) => print(alloc, &answer, out),
        Err(Stop::Refused(why)) => print(alloc, &Answer::Refused(why), out),
        Err(Stop::ReadFault) => put(Status::ReadFault, b"read fault\n", out),
        Err(Stop::WriteFault) => Status::WriteFault,
        Err(Stop::Memory) => Status::Memory,
    }
}

// Prints the answer's line.
fn print<S: Sink>(alloc: Global, answer: &Answer, out: &mut S) -> Status
    ensures { Prints (status_of answer.now) (line_of answer.now) result (Rose (S.faults out.old) (S.faults out.new))
        (S.taken out.old) (S.taken out.new) }
{
    match answer.line(alloc) {
        Ok(line) => put(answer.status(), &line, out),
        Err(_) => Status::Memory,
    }
}

// Prints a line in one piece.
fn put<S: Sink>(status: Status, line: &[u8], out: &mut S) -> Status
    ensures { Prints status line.now result (Rose (S.faults out.old) (S.faults out.new)) (S.taken out.old)
        (S.taken out.new) }
{
    match out.put(line) {
        Ok(()) => status,
        Err(Fault::Failed) => Status::WriteFault,
        Err(Fault::Memory) => Status::Memory,
    }
}
