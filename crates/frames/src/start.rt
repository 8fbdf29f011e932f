/// How many bits the instances before one have.
#[derive(Clone, Copy, Debug, PartialEq, Eq)]
pub(crate) struct Start {
    pub(crate) registers: usize,
    pub(crate) driven: usize,
}
