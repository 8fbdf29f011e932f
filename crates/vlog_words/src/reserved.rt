//! Which texts are reserved words, told by the words that begin with the text's first byte.
ghost use Rattle.std.specs.Prelude.{◌≡◌, ◌↔◌, IsTrue, filter, map};
ghost use Rattle.vlog_words.specs.Reserved.{outside_words, profile_words};
ghost use Rattle.vlog_words.specs.Words.{IsReserved, begins_with, is_reserved_text, is_text_among};

use crate::among::is_among;

/// Whether the text is a reserved word.
pub fn is_reserved(text: &[u8]) -> bool
    ensures value { result ≡ is_reserved_text text.now }
    ensures meaning { IsTrue result ↔ IsReserved text.now }
{
    is_profile_word(text) || is_outside_word(text)
}

/// Whether the text is a reserved word that netlists do not use.
pub fn is_outside_word(text: &[u8]) -> bool
    ensures { result ≡ is_text_among outside_words text.now }
{
    match text {
        [first, ..] => is_among(outside_row(*first), text),
        [] => false,
    }
}

fn is_profile_word(text: &[u8]) -> bool
    ensures { result ≡ is_text_among profile_words text.now }
{
    match text {
        [first, ..] => is_among(profile_row(*first), text),
        [] => false,
    }
}

// The reserved words that netlists use and that begin with this byte.
fn profile_row(first: u8) -> &'static [&'static str]
    ensures { map (λ word. word.now) result.now ≡ filter (begins_with first) profile_words }
{
    match first {
        b'a' => &["assign", "always", "and"],
        b'b' => &["begin", "buf"],
        b'e' => &["endmodule", "else", "end"],
        b'i' => &["input", "if", "initial"],
        b'm' => &["module"],
        b'n' => &["nand", "nor", "not"],
        b'o' => &["output", "or"],
        b'p' => &["posedge"],
        b'r' => &["reg"],
        b'w' => &["wire"],
        b'x' => &["xor", "xnor"],
        _ => &[],
    }
}

// The other reserved words that begin with this byte.
fn outside_row(first: u8) -> &'static [&'static str]
    ensures { map (λ word. word.now) result.now ≡ filter (begins_with first) outside_words }
{
    match first {
        b'a' => &["automatic"],
        b'b' => &["bufif0", "bufif1"],
        b'c' => &["case", "casex", "casez", "cell", "cmos", "config"],
        b'd' => &["deassign", "default", "defparam", "design", "disable"],
        b'e' => &[
            "edge",
            "endcase",
            "endconfig",
            "endfunction",
            "endgenerate",
            "endprimitive",
            "endspecify",
            "endtable",
            "endtask",
            "event",
        ],
        b'f' => &["for", "force", "forever", "fork", "function"],
        b'g' => &["generate", "genvar"],
        b'h' => &["highz0", "highz1"],
        b'i' => &[
            "ifnone", "incdir", "include", "inout", "instance", "integer",
        ],
        b'j' => &["join"],
        b'l' => &["large", "liblist", "library", "localparam"],
        b'm' => &["macromodule", "medium"],
        b'n' => &["negedge", "nmos", "noshowcancelled", "notif0", "notif1"],
        b'p' => &[
            "parameter",
            "pmos",
            "primitive",
            "pull0",
            "pull1",
            "pulldown",
            "pullup",
            "pulsestyle_ondetect",
            "pulsestyle_onevent",
        ],
        b'r' => &[
            "rcmos", "real", "realtime", "release", "repeat", "rnmos", "rpmos", "rtran",
            "rtranif0", "rtranif1",
        ],
        b's' => &[
            "scalared",
            "showcancelled",
            "signed",
            "small",
            "specify",
            "specparam",
            "strong0",
            "strong1",
            "supply0",
            "supply1",
        ],
        b't' => &[
            "table", "task", "time", "tran", "tranif0", "tranif1", "tri", "tri0", "tri1", "triand",
            "trior", "trireg",
        ],
        b'u' => &["unsigned", "use", "uwire"],
        b'v' => &["vectored"],
        b'w' => &["wait", "wand", "weak0", "weak1", "while", "wor"],
        _ => &[],
    }
}
