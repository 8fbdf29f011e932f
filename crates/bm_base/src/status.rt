ghost use Rattle.std.specs.Prelude.{◌≡◌};
ghost use Rattle.bm_base.specs.Status.{code_of};

/// How a command ended.
#[derive(Clone, Copy, Debug, PartialEq, Eq)]
pub enum Status {
    /// The work is done, or the verdict is yes.
    Done,
    /// The verdict is no.
    No,
    /// The words of the command line are refused.
    Words,
    /// The netlist is refused.
    Netlist,
    /// The waveform is refused.
    Waveform,
    /// A read failed.
    ReadFault,
    /// A write failed.
    WriteFault,
    /// A limit is passed.
    Limit,
    /// There is no memory.
    Memory,
    /// The certificate is refused.
    Certificate,
}

impl Status {
    /// The exit code, 0 to 9.
    pub fn code(&self) -> u8
        ensures { result ≡ code_of self.now }
    {
        match self {
            Status::Done => 0,
            Status::No => 1,
            Status::Words => 2,
            Status::Netlist => 3,
            Status::Waveform => 4,
            Status::ReadFault => 5,
            Status::WriteFault => 6,
            Status::Limit => 7,
            Status::Memory => 8,
            Status::Certificate => 9,
        }
    }
}
