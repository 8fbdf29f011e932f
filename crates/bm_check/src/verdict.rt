/// Why a trace is not accepted. Cycles are numbered from 0.
#[derive(Clone, Copy, Debug, PartialEq, Eq)]
pub enum Reason {
    /// The last cycle does not violate, or an earlier one does.
    NotFirstAtLast,
    /// Without this cycle, and without no earlier one, the trace still violates.
    Cut { cycle: u64 },
}

/// What is found of a trace.
#[derive(Clone, Copy, Debug, PartialEq, Eq)]
pub enum Verdict {
    /// It is accepted, and has so many cycles and events.
    Yes { cycles: u64, events: u64 },
    No(Reason),
}
