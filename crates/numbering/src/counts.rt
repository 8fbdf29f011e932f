ghost use Rattle.std.specs.Prelude.{◌≡◌, ◌≤◌, ◌+◌, IfErr, OnOk};
ghost use Rattle.bm_base.specs.declared.size.Size.TheVariants.{Nodes};
ghost use Rattle.bm_base.specs.Size.{limit_of};
ghost use Rattle.lowering.specs.Limits.{Excuses};
ghost use Rattle.numbering.specs.Placed.{counts_with, place_by, total, with_bits};

use crate::Place;
use crate::kind::Kind;
use bm_base::Size;
use flat_net::FlatFault;

/// How many bits the names of each kind have.
#[derive(Clone, Copy, Debug, PartialEq, Eq)]
pub(crate) struct Counts {
    pub(crate) inputs: usize,
    pub(crate) registers: usize,
    pub(crate) driven: usize,
}

impl Counts {
    pub(crate) fn new() -> Counts
        ensures { result ≡ counts_with 0 0 0 }
    {
        Counts {
            inputs: 0,
            registers: 0,
            driven: 0,
        }
    }

    /// The place of a name behind these.
    pub(crate) fn place(&self, kind: Kind) -> Place
        ensures { result ≡ place_by self.now kind }
    {
        match kind {
            Kind::Clock => Place::Clock,
            Kind::Input => Place::Input(self.inputs),
            Kind::Register => Place::Register(self.registers),
            Kind::Driven => Place::Driven(self.driven),
        }
    }

    /// Counts the bits of one name more.
    pub(crate) fn add(&mut self, kind: Kind, width: usize) -> Result<(), FlatFault>
        requires { total self.old ≤ limit_of Nodes }
        ensures counts { OnOk result (self.new ≡ with_bits self.old kind width) }
        ensures within { OnOk result (total self.new ≤ limit_of Nodes) }
        ensures fault { IfErr result (Excuses (total (with_bits self.old kind width))) }
    {
        let Counts {
            inputs,
            registers,
            driven,
        } = *self;
        if let Kind::Clock = kind {
            return Ok(());
        }
        room_for(inputs + registers + driven, width)?;
        match kind {
            Kind::Clock => {}
            Kind::Input => self.inputs = inputs + width,
            Kind::Register => self.registers = registers + width,
            Kind::Driven => self.driven = driven + width,
        }
        Ok(())
    }
}

// Whether so many bits more are not too many.
fn room_for(count: usize, width: usize) -> Result<(), FlatFault>
    requires { count ≤ limit_of Nodes }
    ensures room { OnOk result (count + width ≤ limit_of Nodes) }
    ensures fault { IfErr result (Excuses (count + width)) }
{
    if width as u64 > Size::Nodes.limit() - count as u64 {
        return Err(FlatFault::TooLarge { what: Size::Nodes });
    }
    Ok(())
}
