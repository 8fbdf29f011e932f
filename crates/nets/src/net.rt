ghost use Rattle.std.specs.Prelude.{◌≡◌};
ghost use Rattle.vlog_tree.specs.Meaning.Ranges.{span};
ghost use Rattle.nets.specs.Declaring.{declared_again, first_declared, implicit_net};

use crate::marks::Marks;
use crate::ranges::span;
use bitflags::Flags;
use bm_base::Range;
use std::marker::Model;
use vlog_tree::{Dir, NetKind};

/// What a module says of a name that is declared or implicit.
#[derive(Debug, Drop)]
pub struct Net {
    at: u64,
    range: Range,
    written: Option<Range>,
    marks: Marks,
}

impl Model for Net {
    ghost use Rattle.nets.specs.Nets.{Net as Said};
    ghost use Rattle.nets.specs.Marks.{has_mark};

    ghost Value = { Said };

    ghost view = { λ net. record {
      at = net.at;
      range = net.range;
      written = net.written;
      is_declared = has_mark net.marks.0 8;
      is_input = has_mark net.marks.0 1;
      is_output = has_mark net.marks.0 2;
      is_register = has_mark net.marks.0 4;
    } };
}

impl Net {
    /// The net of a name with one declaration.
    pub(crate) fn declared(at: u64, dir: Option<Dir>, kind: NetKind, range: Option<Range>) -> Net
        ensures { result ≡ first_declared at dir kind range }
    {
        Net {
            at,
            range: range.unwrap_or(Range { left: 0, right: 0 }),
            written: range,
            marks: Marks::from_bits_retain(0).with_declaration(dir, kind),
        }
    }

    /// The net of a name that is not declared, which is used here first.
    pub(crate) fn implicit(at: u64) -> Net
        ensures { result ≡ implicit_net at }
    {
        Net {
            at,
            range: Range { left: 0, right: 0 },
            written: None,
            marks: Marks::from_bits_retain(0),
        }
    }

    /// The same net after one declaration more.
    pub(crate) fn with_declaration(
        &self,
        dir: Option<Dir>,
        kind: NetKind,
        range: Option<Range>,
    ) -> Net
        ensures { result ≡ declared_again self.now dir kind range }
    {
        Net {
            at: self.at,
            range: self.range,
            written: self.written.or(range),
            marks: self.marks.with_declaration(dir, kind),
        }
    }

    /// The same net once more.
    pub(crate) fn copy(&self) -> Net
        ensures { result ≡ self.now }
    {
        let Net {
            at,
            range,
            written,
            marks,
        } = self;
        Net {
            at: *at,
            range: *range,
            written: *written,
            marks: *marks,
        }
    }

    /// The byte offset of the name's first declaration, or of its first use where it has none.
    pub fn at(&self) -> u64
        ensures { result ≡ self.now.at }
    {
        self.at
    }

    /// The range of the first declaration. A name that has none there, or no declaration, is one bit wide.
    pub fn range(&self) -> Range
        ensures { result ≡ self.now.range }
    {
        self.range
    }

    /// How many bits it has.
    pub fn width(&self) -> usize
        ensures { result ≡ span self.now.range }
    {
        span(self.range)
    }

    /// The first range that one of the declarations writes.
    pub fn written(&self) -> Option<Range>
        ensures { result ≡ self.now.written }
    {
        self.written
    }

    pub fn is_declared(&self) -> bool
        ensures { result ≡ self.now.is_declared }
    {
        self.marks.contains(Marks::DECLARED)
    }

    /// Some declaration says `input`.
    pub fn is_input(&self) -> bool
        ensures { result ≡ self.now.is_input }
    {
        self.marks.contains(Marks::INPUT)
    }

    /// Some declaration says `output`.
    pub fn is_output(&self) -> bool
        ensures { result ≡ self.now.is_output }
    {
        self.marks.contains(Marks::OUTPUT)
    }

    /// Some declaration says `reg`.
    pub fn is_register(&self) -> bool
        ensures { result ≡ self.now.is_register }
    {
        self.marks.contains(Marks::REGISTER)
    }
}
