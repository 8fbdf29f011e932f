//! The bits of an instance, by their numbers among all driven bits.
ghost use Rattle.std.specs.Prelude.{◌≡◌};
ghost use Rattle.flat_items.specs.Framing.{counts};

use frames::Frame;
use nets::Nets;
use targets::Numbers;

/// From where a bit is driven.
#[derive(Clone, Copy, Debug, PartialEq, Eq)]
pub(crate) enum Side {
    /// By what stands in the instance. So are all bits but those of input ports.
    Inside,
    /// By what is connected to the instance. So are the bits of input ports.
    Outside,
}

impl Side {
    // Whether the bits of an input port are of this side, or those of another name.
    fn counts(self, is_input: bool) -> bool
        ensures { result ≡ counts self is_input }
    {
        match self {
            Side::Inside => !is_input,
            Side::Outside => is_input,
        }
    }
}

/// The bits that are driven from one side have numbers.
#[derive(Drop)]
pub(crate) struct Sided<'f> {
    pub(crate) side: Side,
    pub(crate) frame: &'f Frame<'f>,
}

impl<'f> Numbers for Sided<'f> {
    ghost use Rattle.flat_items.specs.Framing.{number_by};

    ghost module_of = { λ it. it.frame.now.placing.definition };

    ghost number_of = { λ it bit. number_by it.side it.frame.now bit };

    fn nets(&self) -> &Nets<'_> {
        self.frame.places().nets()
    }

    fn first_of(&self, name: &[u8]) -> Option<usize> {
        if self.side.counts(self.frame.places().nets().is_input(name)) {
            self.frame.driven_at(name)
        } else {
            None
        }
    }
}
