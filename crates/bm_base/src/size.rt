ghost use Rattle.std.specs.Prelude.{◌≡◌, Some};
ghost use Rattle.bm_base.specs.Size.{limit_of, name_of_size};

use std::fmt;

/// What a limit bounds. It is printed as its name.
#[derive(Clone, Copy, Debug, PartialEq, Eq)]
pub enum Size {
    /// Bytes of a netlist.
    Netlist,
    /// Instances of a design, the top among them.
    Instances,
    /// Nodes of a flat netlist.
    Nodes,
    /// Register bits.
    Registers,
    /// Input bits, without the clock.
    Inputs,
    /// Bytes of a waveform.
    Waveform,
    /// Rows of a waveform.
    Cycles,
    /// Cycles times input bits.
    Bits,
    /// Cycles and one more, times register bits.
    States,
    /// Bytes of a certificate.
    Certificate,
    /// Nodes times the window.
    Window,
}

impl Size {
    /// The greatest count that is accepted.
    pub fn limit(&self) -> u64
        ensures { result ≡ limit_of self.now }
    {
        match self {
            Size::Netlist => 16_777_216,
            Size::Instances | Size::Nodes => 1_048_576,
            Size::Registers => 65_536,
            Size::Inputs => 4_096,
            Size::Waveform => 268_435_456,
            Size::Cycles => 1_000_000,
            Size::Bits => 1_073_741_824,
            Size::States => 4_294_967_296,
            Size::Certificate => 536_870_912,
            Size::Window => 4_194_304,
        }
    }

    fn name(&self) -> &str
        ensures { result.now ≡ name_of_size self.now }
    {
        match self {
            Size::Netlist => "netlist",
            Size::Instances => "instances",
            Size::Nodes => "nodes",
            Size::Registers => "registers",
            Size::Inputs => "inputs",
            Size::Waveform => "waveform",
            Size::Cycles => "cycles",
            Size::Bits => "bits",
            Size::States => "states",
            Size::Certificate => "certificate",
            Size::Window => "window",
        }
    }
}

impl fmt::Display for Size {
    ghost output = { λ size. Some (name_of_size size) };

    fn fmt<W: fmt::Write>(&self, f: &mut fmt::Formatter<W>) -> fmt::Result {
        f.write_str(self.name())
    }
}
