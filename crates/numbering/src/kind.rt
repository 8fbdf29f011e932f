ghost use Rattle.std.specs.Prelude.{◌≡◌};
ghost use Rattle.std.specs.Option.{option_copied};
ghost use Rattle.numbering.specs.Placed.{input_kind, kind_by};

use nets::Net;

/// What gives the bits of a name their values.
#[derive(Clone, Copy, Debug, PartialEq, Eq)]
pub(crate) enum Kind {
    Clock,
    Input,
    Register,
    Driven,
}

impl Kind {
    /// The kind of a name by what its module says of it, and by the clock where the module is the top.
    pub(crate) fn of(name: &[u8], net: &Net, clock: Option<&[u8]>) -> Kind
        ensures { result ≡ kind_by (option_copied clock.entry) net.now.is_register net.now.is_input name.now }
    {
        if net.is_register() {
            Kind::Register
        } else if net.is_input() {
            input_kind(name, clock)
        } else {
            Kind::Driven
        }
    }
}

fn input_kind(name: &[u8], clock: Option<&[u8]>) -> Kind
    ensures { result ≡ input_kind (option_copied clock.entry) name.now }
{
    match clock {
        Some(clock) => {
            if name == clock {
                Kind::Clock
            } else {
                Kind::Input
            }
        }
        None => Kind::Driven,
    }
}
