//! Texts in one line, as they are written in a transcript.
use crate::trouble::Trouble;
use std::alloc::Global;

// What the next byte is read as.
#[derive(Clone, Copy)]
enum State {
    Plain,
    Escape,
    High,
    Low(u8),
    Count(u32),
}

#[derive(Drop)]
struct Decoder {
    made: Vec<u8>,
    // What is repeated, while it is read, and how often.
    part: Vec<u8>,
    count: Option<u32>,
    state: State,
}

/// The bytes that a text stands for: `\\` is a backslash, `\n`, `\r`, `\t` and `\s` are a newline, a carriage return, a
/// tab and a space, `\x0c` is the byte of this hexadecimal number, `\}` is a brace that ends nothing, and `\501{..}` is
/// what stands between the braces, so many times.
pub fn decoded(alloc: Global, text: &str) -> Result<Vec<u8>, Trouble> {
    let mut decoder = Decoder {
        made: Vec::new(alloc),
        part: Vec::new(alloc),
        count: None,
        state: State::Plain,
    };
    for byte in text.bytes() {
        decoder.take(byte)?;
    }
    decoder.end()
}

impl Decoder {
    fn take(&mut self, byte: u8) -> Result<(), Trouble> {
        match self.state {
            State::Plain => self.plain(byte),
            State::Escape => self.escaped(byte),
            State::High => self.high(byte),
            State::Low(high) => self.low(high, byte),
            State::Count(count) => self.counted(count, byte),
        }
    }

    fn plain(&mut self, byte: u8) -> Result<(), Trouble> {
        match (byte, self.count) {
            (b'\\', _) => {
                self.state = State::Escape;
                Ok(())
            }
            (b'}', Some(count)) => self.repeat(count),
            _ => self.push(byte),
        }
    }

    fn escaped(&mut self, byte: u8) -> Result<(), Trouble> {
        if byte.is_ascii_digit() && self.count.is_none() {
            return self.counted(0, byte);
        }
        self.state = State::Plain;
        match byte {
            b'n' => self.push(b'\n'),
            b'r' => self.push(b'\r'),
            b't' => self.push(b'\t'),
            b's' => self.push(b' '),
            b'\\' | b'}' => self.push(byte),
            b'x' => {
                self.state = State::High;
                Ok(())
            }
            _ => Err(Trouble::Escape),
        }
    }

    fn high(&mut self, byte: u8) -> Result<(), Trouble> {
        self.state = State::Low(hex_digit(byte)?);
        Ok(())
    }

    fn low(&mut self, high: u8, byte: u8) -> Result<(), Trouble> {
        self.state = State::Plain;
        let low = hex_digit(byte)?;
        self.push(high.wrapping_mul(16).wrapping_add(low))
    }

    fn counted(&mut self, count: u32, byte: u8) -> Result<(), Trouble> {
        match byte {
            b'0'..=b'9' => {
                let digit = u32::from(byte - b'0');
                self.state = State::Count(count.saturating_mul(10).saturating_add(digit));
                Ok(())
            }
            b'{' => {
                self.count = Some(count);
                self.state = State::Plain;
                Ok(())
            }
            _ => Err(Trouble::Escape),
        }
    }

    fn push(&mut self, byte: u8) -> Result<(), Trouble> {
        if self.count.is_some() {
            self.part.push(byte)?;
        } else {
            self.made.push(byte)?;
        }
        Ok(())
    }

    fn repeat(&mut self, count: u32) -> Result<(), Trouble> {
        for _ in 0..count {
            self.made.extend_from_slice(&self.part)?;
        }
        self.part.clear();
        self.count = None;
        Ok(())
    }

    fn end(self) -> Result<Vec<u8>, Trouble> {
        match (self.state, self.count) {
            (State::Plain, None) => Ok(self.made),
            _ => Err(Trouble::Escape),
        }
    }
}

fn hex_digit(byte: u8) -> Result<u8, Trouble> {
    match byte {
        b'0'..=b'9' => Ok(byte - b'0'),
        b'a'..=b'f' => Ok(byte - b'a' + 10),
        _ => Err(Trouble::Escape),
    }
}
