use bm_base::Name;

/// What a command names of a design.
#[derive(Debug, Drop)]
pub struct Names {
    /// The top module.
    pub top: Name,
    /// Its clock, a port.
    pub clock: Name,
    /// Its checker, a port.
    pub check: Name,
    /// Its reset, a port, with the value that it has in the reset cycles.
    pub reset: Option<(Name, bool)>,
    /// How many reset cycles come first, if there is a reset.
    pub reset_cycles: u32,
}
