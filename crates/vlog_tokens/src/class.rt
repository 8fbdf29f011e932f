/// A set of bytes, of which tokens and comments have runs.
#[derive(Clone, Copy)]
pub enum Class {
    /// White space.
    SpaceByte,
    /// What may stand in a word.
    WordByte,
    /// What may stand in a line, all but a newline.
    LineByte,
    /// What may stand in an escaped name.
    NameByte,
    /// What may stand in a decimal.
    DecimalByte,
    /// The digits of base `b`.
    BinaryDigit,
    /// The digits of base `o`.
    OctalDigit,
    /// The digits of base `d`.
    DecimalDigit,
    /// The digits of base `h`.
    HexDigit,
}
