/// A scope that a header opens.
#[derive(Clone, Copy)]
pub(crate) struct Scope<'a> {
    /// The number of the scope that it stands in, if it stands in one.
    pub parent: Option<usize>,
    pub name: &'a [u8],
}
