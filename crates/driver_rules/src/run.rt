ghost use Rattle.std.specs.Prelude.{◌≡◌, min, max};

/// Neighbouring bits of one name of a module.
#[derive(Clone, Copy, Debug, PartialEq, Eq)]
pub(crate) struct Run {
    /// The number of the name among those of the module.
    pub(crate) net: usize,
    pub(crate) first: usize,
    pub(crate) last: usize,
}

impl Run {
    /// All bits from the first of both to the last of both, where they are of one name.
    pub(crate) fn with(self, other: Run) -> Run
        ensures { result ≡ record { net = self.net; first = min self.first other.first; last = max self.last other.last } }
    {
        Run {
            net: self.net,
            first: self.first.min(other.first),
            last: self.last.max(other.last),
        }
    }
}
