use crate::shown::put_shown;
use bm_base::{Name, Range};
use std::alloc::AllocError;

/// Adds the name.
pub fn put_name(text: &mut String, name: &Name) -> Result<(), AllocError> {
    put_shown(text, name.bytes())
}

/// Adds a name with its place.
pub fn put_whole(text: &mut String, at: u64, name: &Name) -> Result<(), AllocError> {
    put_name(text, name)?;
    write!(text, "@{at}")
}

/// Adds a bit of a name with its place.
pub fn put_bit(text: &mut String, at: u64, name: &Name, index: u32) -> Result<(), AllocError> {
    put_name(text, name)?;
    write!(text, "[{index}]@{at}")
}

/// Adds a part of a name with its place.
pub fn put_part(text: &mut String, at: u64, name: &Name, range: Range) -> Result<(), AllocError> {
    put_name(text, name)?;
    put_range(text, range)?;
    write!(text, "@{at}")
}

/// Adds a range.
pub fn put_range(text: &mut String, range: Range) -> Result<(), AllocError> {
    let Range { left, right } = range;
    write!(text, "[{left}:{right}]")
}

/// What stands before a part of a list, by its number from 0.
pub fn comma_before(number: usize) -> &'static str {
    if number == 0 { "" } else { ", " }
}
