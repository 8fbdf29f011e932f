use super::name::{comma_before, put_bit, put_part, put_whole};
use std::alloc::AllocError;
use vlog_tree::Left;

/// Adds what is assigned.
pub fn put_left(text: &mut String, left: &Left) -> Result<(), AllocError> {
    match left {
        Left::Whole { at, name } => put_whole(text, *at, name),
        Left::Bit { at, name, index } => put_bit(text, *at, name, *index),
        Left::Part { at, name, range } => put_part(text, *at, name, *range),
        Left::Join(parts) => {
            text.push('{')?;
            for (number, part) in parts.as_slice().iter().enumerate() {
                text.push_str(comma_before(number))?;
                put_left(text, part)?;
            }
            text.push('}')
        }
    }
}
