use crate::names::Names;

/// What a command reads: the files of its netlist and its waveform, and the names that it is given.
#[derive(Clone, Copy)]
pub struct Inputs<'a> {
    pub netlist: &'a str,
    pub waveform: &'a str,
    pub names: Names<'a>,
    /// The scope of the waveform, its names joined by dots.
    pub scope: Option<&'a str>,
}

/// What `minimise` is asked for.
#[derive(Clone, Copy)]
pub struct Minimise<'a> {
    pub inputs: Inputs<'a>,
    pub out: &'a str,
}

/// What the words ask for.
#[derive(Clone, Copy)]
pub enum Asked<'a> {
    Minimise(Minimise<'a>),
    Check(Inputs<'a>),
}
