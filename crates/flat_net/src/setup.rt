/// The input that resets the registers.
#[derive(Clone, Copy, Debug, PartialEq, Eq)]
pub struct Reset {
    /// Its place among the input bits.
    pub bit: u64,
    /// Its value in the reset cycles. Elsewhere it has the other one, until a trace says otherwise.
    pub active: bool,
}

/// How a run begins.
#[derive(Clone, Copy, Debug, PartialEq, Eq)]
pub struct Setup {
    pub reset: Option<Reset>,
    /// How many reset cycles come before the start state. Without a reset there is none.
    pub cycles: u32,
}
