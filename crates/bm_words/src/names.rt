/// The reset of a design.
#[derive(Clone, Copy)]
pub struct Reset<'a> {
    pub name: &'a str,
    /// Its value where it is active.
    pub active: bool,
}

/// The names of the top module, its clock, its checker and its reset.
#[derive(Clone, Copy)]
pub struct Names<'a> {
    pub top: &'a str,
    pub clock: &'a str,
    pub check: &'a str,
    pub reset: Option<Reset<'a>>,
    /// For how many cycles the reset is held, which is 1 where the words don't say.
    pub reset_cycles: u32,
}
