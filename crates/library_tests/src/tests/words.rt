//! Which texts are words and reserved words, and which bytes are white space.
use vlog_words::{is_reserved, is_space, is_word};

#[test]
fn tells_words(rt: HostRuntime) {
    let table = [
        ("a", true),
        ("_", true),
        ("clk_2$", true),
        ("Module", true),
        ("module", true),
        ("", false),
        ("2a", false),
        ("$a", false),
        ("a b", false),
        ("a-b", false),
        ("\\a", false),
    ];
    for (text, want) in table {
        assert_eq!(rt; is_word(text.as_bytes()), want, "at {text}");
    }
}

#[test]
fn tells_reserved_words(rt: HostRuntime) {
    let table = [
        ("module", true),
        ("not", true),
        ("and", true),
        ("negedge", true),
        ("pulsestyle_ondetect", true),
        ("uwire", true),
        ("wor", true),
        ("xnor", true),
        ("", false),
        ("Module", false),
        ("modul", false),
        ("modules", false),
        ("clk", false),
        ("logic", false),
    ];
    for (text, want) in table {
        assert_eq!(rt; is_reserved(text.as_bytes()), want, "at {text}");
    }
}

#[test]
fn tells_spaces(rt: HostRuntime) {
    for byte in [b' ', b'\t', b'\n', b'\r', 0x0c] {
        assert!(rt; is_space(byte), "at {byte}");
    }
    for byte in [0x0b, 0, b'a', 0xa0] {
        assert!(rt; !is_space(byte), "at {byte}");
    }
}
