//! The operators by their text (IEEE 1364-2005, clause 5.1).
ghost use Rattle.std.specs.Prelude.{◌≡◌};
ghost use Rattle.vlog_tree.specs.Spelling.Operators as table;
ghost use Rattle.vlog_parse.specs.Chains as spec;

use vlog_tree::{BinOp, UnOp};

/// The unary operator with this text.
pub fn unary_operator(text: &[u8]) -> Option<UnOp>
    ensures { result ≡ table.unary_operator text.now }
{
    if text == b"~".as_slice() {
        Some(UnOp::Inv)
    } else if text == b"!".as_slice() {
        Some(UnOp::Not)
    } else if text == b"&".as_slice() {
        Some(UnOp::RedAnd)
    } else if text == b"~&".as_slice() {
        Some(UnOp::RedNand)
    } else if text == b"|".as_slice() {
        Some(UnOp::RedOr)
    } else if text == b"~|".as_slice() {
        Some(UnOp::RedNor)
    } else if text == b"^".as_slice() {
        Some(UnOp::RedXor)
    } else if text == b"~^".as_slice() || text == b"^~".as_slice() {
        Some(UnOp::RedXnor)
    } else {
        None
    }
}

/// The binary operator with this text, if it is of this level.
pub fn binary_operator(text: &[u8], level: u8) -> Option<BinOp>
    ensures { result ≡ spec.of_level level (table.binary_operator text.now) }
{
    match any_binary_operator(text) {
        Some((found, op)) if found == level => Some(op),
        _ => None,
    }
}

/// The binary operator with this text and its level, of which 1 binds tightest.
fn any_binary_operator(text: &[u8]) -> Option<(u8, BinOp)>
    ensures { result ≡ table.binary_operator text.now }
{
    if text == b"==".as_slice() {
        Some((1, BinOp::Eq))
    } else if text == b"!=".as_slice() {
        Some((1, BinOp::Ne))
    } else if text == b"&".as_slice() {
        Some((2, BinOp::And))
    } else if text == b"^".as_slice() {
        Some((3, BinOp::Xor))
    } else if text == b"~^".as_slice() || text == b"^~".as_slice() {
        Some((3, BinOp::Xnor))
    } else if text == b"|".as_slice() {
        Some((4, BinOp::Or))
    } else if text == b"&&".as_slice() {
        Some((5, BinOp::LogAnd))
    } else if text == b"||".as_slice() {
        Some((6, BinOp::LogOr))
    } else {
        None
    }
}
