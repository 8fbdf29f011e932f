/// The range `[left:right]` of a declaration or a select (IEEE 1364-2005, clause 4.3). Either end may be the
/// greater one.
#[derive(Clone, Copy, Debug, PartialEq, Eq)]
pub struct Range {
    pub left: u32,
    pub right: u32,
}
