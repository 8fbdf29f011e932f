ghost use Rattle.std.specs.Prelude.{◌≡◌, ◌++◌, OnOk, decimal};
ghost use Rattle.vcd_writer.specs.WrittenName.{is_plain, written_name};

use bm_base::{Name, NoMemory};
use itoa::Buffer;
use vlog_words::{is_reserved, is_word};

/// Appends the bytes.
pub(crate) fn put(text: &mut Vec<u8>, bytes: &[u8]) -> Result<(), NoMemory>
    ensures { OnOk result (text.new.items ≡ text.old.items ++ bytes.now) }
{
    text.extend_from_slice(bytes)?;
    Ok(())
}

/// Appends the number's decimal digits.
pub(crate) fn put_number(text: &mut Vec<u8>, number: u128) -> Result<(), NoMemory>
    ensures { OnOk result (text.new.items ≡ text.old.items ++ decimal number) }
{
    let mut buffer = Buffer::new();
    put(text, buffer.format(number).as_bytes())
}

/// Appends the name, with a backslash where it needs one.
pub(crate) fn put_name(text: &mut Vec<u8>, name: &Name) -> Result<(), NoMemory>
    ensures { OnOk result (text.new.items ≡ text.old.items ++ written_name name.now) }
{
    let bytes = name.bytes();
    if !is_plain(bytes) {
        put(text, b"\\")?;
    }
    put(text, bytes)
}

fn is_plain(name: &[u8]) -> bool
    ensures { result ≡ is_plain name.now }
{
    is_word(name) && !is_reserved(name)
}
