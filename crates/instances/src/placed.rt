/// An instance in the list.
#[derive(Clone, Copy, Debug)]
pub(crate) struct Placed {
    /// The place of its module among the modules of the design.
    pub(crate) module: usize,
    /// How many instances stand in it, with itself.
    pub(crate) size: usize,
}
