/// Where the bits of a name stand among those of its kind: the first of them, by number.
#[derive(Clone, Copy, Debug, PartialEq, Eq)]
pub enum Place {
    /// The name is the clock of the top. Its bits stand nowhere.
    Clock,
    /// It is another input of the top.
    Input(usize),
    Register(usize),
    /// Its bits have the values that drive them.
    Driven(usize),
}
