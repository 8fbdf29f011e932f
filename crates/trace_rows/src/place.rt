/// A bit of a row: the cycle, from 0, and the bit within its row, from 0. Places are ordered by row, then by bit.
#[derive(Clone, Copy, Debug, PartialEq, Eq, PartialOrd, Ord)]
pub struct Place {
    pub row: usize,
    pub bit: usize,
}
