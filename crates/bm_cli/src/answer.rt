//! What a command answers, and the line that it prints.
ghost use Rattle.std.specs.Prelude.{◌≡◌, IfOk};
ghost use Rattle.std.specs.String.{string_bytes};
ghost use Rattle.bm_cli.specs.Answer.{reason_line};

use bm_base::{NoMemory, Status};
use bm_check::Reason;
use bm_inputs::{InputRefusal, InputStop};
use bm_minimise::MinFault;
use std::alloc::{AllocError, AllocFailed, Global};

/// What `minimise` made of a stimulus.
#[derive(Clone, Copy, Debug)]
pub struct Summary {
    /// Cycles and events of the whole stimulus.
    pub cycles_before: usize,
    pub events_before: u64,
    /// Cycles and events of the trace that was written.
    pub cycles: usize,
    pub events: u64,
    /// How many bits the stimulus gives as `x` or `z`.
    pub unknown: u64,
}

impl Summary {
    ghost use Rattle.bm_cli.specs.Answer.{summary_line};

    fn line(&self, alloc: Global) -> Result<String, AllocError>
        ensures { IfOk result (λ line. string_bytes line ≡ summary_line self.now) }
    {
        let Summary {
            cycles_before,
            events_before,
            cycles,
            events,
            unknown,
        } = *self;
        format!(in alloc;
            "minimised: cycles {cycles_before} to {cycles}, events {events_before} to {events}, windows 0 certified, 0 open, x {unknown}\n"
        )
    }
}

/// What `check` counts in a trace that it accepts.
#[derive(Clone, Copy, Debug)]
pub struct Accepted {
    pub cycles: u64,
    pub events: u64,
}

impl Accepted {
    ghost use Rattle.bm_cli.specs.Answer.{accepted_line};

    fn line(&self, alloc: Global) -> Result<String, AllocError>
        ensures { IfOk result (λ line. string_bytes line ≡ accepted_line self.now) }
    {
        let Accepted { cycles, events } = *self;
        format!(in alloc; "yes: cycles {cycles}, events {events}, windows 0 certified, 0 open\n")
    }
}

/// Why a command's work was not done, where a line says so.
#[derive(Debug, Drop)]
pub enum Refusal {
    /// A file that it reads is refused.
    Inputs(InputRefusal),
    /// No cycle of the stimulus violates.
    NoViolation,
    /// The trace is not accepted.
    Judged(Reason),
}

impl Refusal {
    ghost use Rattle.bm_cli.specs.Answer.{refusal_line, refusal_status};

    fn status(&self) -> Status
        ensures { result ≡ refusal_status self.now }
    {
        match self {
            Refusal::Inputs(refusal) => refusal.status(),
            Refusal::NoViolation | Refusal::Judged(_) => Status::No,
        }
    }

    fn line(&self, alloc: Global) -> Result<Vec<u8>, NoMemory>
        ensures { IfOk result (λ line. line.items ≡ refusal_line self.now) }
    {
        match self {
            Refusal::Inputs(refusal) => refusal.line(alloc),
            Refusal::NoViolation => Ok(String::from_str(alloc, "no violation\n")?.into_bytes()),
            Refusal::Judged(reason) => Ok(reason_line(alloc, *reason)?.into_bytes()),
        }
    }
}

fn reason_line(alloc: Global, reason: Reason) -> Result<String, AllocError>
    ensures { IfOk result (λ line. string_bytes line ≡ reason_line reason) }
{
    match reason {
        Reason::NotFirstAtLast => String::from_str(alloc, "no: N1\n"),
        Reason::Cut { cycle } => format!(in alloc; "no: N2 cycle {cycle}\n"),
    }
}

/// What a command answers.
#[derive(Debug, Drop)]
pub enum Answer {
    /// The trace that was made is written.
    Minimised(Summary),
    /// The trace is accepted.
    Accepted(Accepted),
    Refused(Refusal),
}

impl Answer {
    ghost use Rattle.bm_cli.specs.Answer.{line_of, status_of};

    pub fn status(&self) -> Status
        ensures { result ≡ status_of self.now }
    {
        match self {
            Answer::Minimised(_) | Answer::Accepted(_) => Status::Done,
            Answer::Refused(refusal) => refusal.status(),
        }
    }

    /// The line, with its newline.
    pub fn line(&self, alloc: Global) -> Result<Vec<u8>, NoMemory>
        ensures { IfOk result (λ line. line.items ≡ line_of self.now) }
    {
        match self {
            Answer::Minimised(summary) => Ok(summary.line(alloc)?.into_bytes()),
            Answer::Accepted(accepted) => Ok(accepted.line(alloc)?.into_bytes()),
            Answer::Refused(refusal) => refusal.line(alloc),
        }
    }
}

/// Why a command ends before its work is done.
#[derive(Debug, Drop)]
pub enum Stop {
    /// It is refused, and a line says why.
    Refused(Refusal),
    /// Reading failed.
    ReadFault,
    /// Writing failed.
    WriteFault,
    /// There is no memory.
    Memory,
}

impl From<InputStop> for Stop {
    ghost use Rattle.std.specs.Prelude.{◌≡◌};
    ghost use Rattle.bm_cli.specs.Stops.{stop_of_inputs};

    ghost from_gives = { λ inputs stop. stop ≡ stop_of_inputs inputs };

    fn from(stop: InputStop) -> Stop {
        match stop {
            InputStop::Refused(refusal) => Stop::Refused(Refusal::Inputs(refusal)),
            InputStop::ReadFault => Stop::ReadFault,
            InputStop::Memory => Stop::Memory,
        }
    }
}

impl From<MinFault> for Stop {
    ghost use Rattle.std.specs.Prelude.{◌≡◌};
    ghost use Rattle.bm_cli.specs.Stops.{stop_of_shortening};

    ghost from_gives = { λ fault stop. stop ≡ stop_of_shortening fault };

    fn from(fault: MinFault) -> Stop {
        match fault {
            MinFault::NoViolation => Stop::Refused(Refusal::NoViolation),
            MinFault::Memory => Stop::Memory,
        }
    }
}

impl From<NoMemory> for Stop {
    ghost use Rattle.std.specs.Prelude.{◌≡◌};
    ghost use Rattle.bm_cli.specs.declared.answer.Stop.TheVariants.{Memory};

    ghost from_gives = { λ _ stop. stop ≡ Memory };

    fn from(_: NoMemory) -> Stop {
        Stop::Memory
    }
}

impl From<AllocError> for Stop {
    ghost use Rattle.std.specs.Prelude.{◌≡◌};
    ghost use Rattle.bm_cli.specs.declared.answer.Stop.TheVariants.{Memory};

    ghost from_gives = { λ _ stop. stop ≡ Memory };

    fn from(_: AllocError) -> Stop {
        Stop::Memory
    }
}

impl<T: Drop> From<AllocFailed<T>> for Stop {
    ghost use Rattle.std.specs.Prelude.{◌≡◌};
    ghost use Rattle.bm_cli.specs.declared.answer.Stop.TheVariants.{Memory};

    ghost from_gives = { λ _ stop. stop ≡ Memory };

    fn from(_: AllocFailed<T>) -> Stop {
        Stop::Memory
    }
}
