use crate::device::Kind;

/// What is different where the last command is carried out again.
#[derive(Drop)]
pub enum Change {
    /// A text of a file, which stands there once.
    Edit {
        name: String,
        old: String,
        new: String,
    },
    /// `WORD` in the command's text is each of these in turn.
    Each(Vec<String>),
    /// The file is cut off before each of its bytes in turn, from the second on.
    Cuts(String),
    /// Each call of this kind fails in turn, until the command meets no failing call.
    Sweep {
        kind: Kind,
        keep: usize,
    },
}
