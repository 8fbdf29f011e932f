//! The kinds of bits that have nodes.
ghost use Rattle.std.specs.Prelude.{◌≡◌, ◌<◌, length};
ghost use Rattle.frames.specs.Numbered.{setting_with};
ghost use Rattle.vlog_tree.specs.Meaning.Instances.{instances};
ghost use Rattle.keys.specs.Kinds.{before, is_of};

use frames::Frames;
use nets::Nets;

/// The kind of a bit that has a node.
#[derive(Clone, Copy, Debug, PartialEq, Eq)]
pub(crate) enum Kind {
    /// A bit of an input of the top, without the clock.
    Input,
    Register,
    /// A bit that has the value that drives it.
    Driven,
}

impl Kind {
    /// Whether the bits of a name are of this kind, in a module that is the top or not.
    pub(crate) fn is_of(self, is_top: bool, clock: &[u8], nets: &Nets<'_>, name: &[u8]) -> bool
        ensures { result ≡ is_of self is_top clock.now nets.now name.now }
    {
        match self {
            Kind::Input => nets.is_input(name) && name != clock,
            Kind::Register => nets.is_register(name),
            Kind::Driven => !(nets.is_register(name) || (is_top && nets.is_input(name))),
        }
    }

    /// How many bits of this kind the instances before the one at a place have. The inputs are those of the first.
    pub(crate) fn before(self, frames: &Frames<'_>, place: usize) -> usize
        requires { place < length (instances (setting_with frames.now)) }
        ensures { result ≡ before self (instances (setting_with frames.now)) place }
    {
        match self {
            Kind::Input => 0,
            Kind::Register => frames.registers_before(place),
            Kind::Driven => frames.driven_before(place),
        }
    }
}
