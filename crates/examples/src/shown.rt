//! Bytes as they are printed.
use std::alloc::AllocError;

/// Adds the bytes as a text in one line, written as in a transcript. A space is itself.
pub fn put_shown(page: &mut String, bytes: &[u8]) -> Result<(), AllocError> {
    for byte in bytes {
        put_byte(page, *byte)?;
    }
    Ok(())
}

fn put_byte(page: &mut String, byte: u8) -> Result<(), AllocError> {
    match byte {
        b'\n' => page.push_str("\\n"),
        b'\r' => page.push_str("\\r"),
        b'\t' => page.push_str("\\t"),
        b'\\' => page.push_str("\\\\"),
        b' '..=b'~' => page.push(char::from(byte)),
        _ => write!(page, "\\x{byte:02x}"),
    }
}

/// Adds the bytes as lines of text, each with its mark as in a transcript.
pub fn put_lines(page: &mut String, bytes: &[u8]) -> Result<(), AllocError> {
    for piece in bytes.split_inclusive(|byte| *byte == b'\n') {
        put_line(page, piece)?;
    }
    Ok(())
}

fn put_line(page: &mut String, piece: &[u8]) -> Result<(), AllocError> {
    match piece {
        [line @ .., b'\n'] => put_marked(page, "  | ", line),
        _ => put_marked(page, "  > ", piece),
    }
}

fn put_marked(page: &mut String, mark: &str, line: &[u8]) -> Result<(), AllocError> {
    page.push_str(mark)?;
    put_shown(page, line)?;
    page.push('\n')
}
