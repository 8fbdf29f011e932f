/// A kind of call of a shelf.
#[derive(Clone, Copy, Debug, PartialEq, Eq)]
pub enum Call {
    Len,
    Read,
    Create,
    Append,
}
