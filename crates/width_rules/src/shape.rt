ghost use Rattle.std.specs.Prelude.{◌≡◌, ◌*◌, fold, None, Some};
ghost use Rattle.hierarchy.specs.Failures.{earlier};
ghost use Rattle.width_rules.specs.Capped.{beside, cap, failure_of, repeated, width_failures, with_width};

use hierarchy::Earliest;
use nets::Nets;
use std::marker::Model;
use vlog_tree::{BinOp, UnOp};

/// Right above the greatest width, in bits, that an expression or a left side may have.
pub(crate) const TOO_WIDE: usize = 65_537;

/// The place, the first name and the width of an expression or a left side.
#[derive(Debug, Drop)]
pub(crate) struct Shape<'a> {
    /// The byte offset of the first name or number.
    pub(crate) at: u64,
    pub(crate) name: Option<&'a [u8]>,
    /// In bits, `TOO_WIDE` where it is wider.
    pub(crate) width: usize,
}

impl<'a> Model for Shape<'a> {
    ghost use Rattle.std.specs.Prelude.{option_map};
    ghost use Rattle.width_rules.specs.Capped.{Capped};

    ghost Value = { Capped };

    ghost view = { λ shape. record { at = shape.at; name = option_map (λ name. name.now) shape.name; width = shape.width } };
}

impl<'a> Shape<'a> {
    /// That of a number with so many bits.
    pub(crate) fn of_number(at: u64, width: usize) -> Shape<'a>
        ensures { result ≡ record { at = at; name = None; width = cap width } }
    {
        Shape {
            at,
            name: None,
            width: width.min(TOO_WIDE),
        }
    }

    /// That of a name, or of a select of it, with so many bits.
    pub(crate) fn of_name(at: u64, name: &'a [u8], width: usize) -> Shape<'a>
        ensures { result ≡ record { at = at; name = Some name.now; width = cap width } }
    {
        Shape {
            at,
            name: Some(name),
            width: width.min(TOO_WIDE),
        }
    }

    /// That of this part with the one to the right of it.
    pub(crate) fn beside(&self, right: &Shape<'a>) -> Shape<'a>
        ensures { result ≡ beside self.now right.now }
    {
        Shape {
            at: self.at,
            name: self.name.or(right.name),
            width: self.width.saturating_add(right.width).min(TOO_WIDE),
        }
    }

    /// That of so many of these one beside the other.
    pub(crate) fn repeated(&self, count: u32) -> Shape<'a>
        ensures { result ≡ repeated count self.now }
    {
        self.with_width((count as usize).saturating_mul(self.width).min(TOO_WIDE))
    }

    pub(crate) fn with_width(&self, width: usize) -> Shape<'a>
        ensures { result ≡ with_width self.now width }
    {
        Shape {
            at: self.at,
            name: self.name,
            width,
        }
    }

    /// Notes where it is too wide.
    pub(crate) fn judged(self, nets: &Nets<'a>, found: &mut Earliest<'a>) -> Shape<'a>
        ensures same { result ≡ self.entry }
        ensures failures { found.new ≡ fold earlier found.old (width_failures nets.now self.entry) }
    {
        if self.width >= TOO_WIDE {
            self.note(nets, found);
        }
        self
    }

    /// Notes a failure of the whole, by its first name, or the empty name where it has none.
    pub(crate) fn note(&self, nets: &Nets<'a>, found: &mut Earliest<'a>)
        ensures { found.new ≡ earlier found.old (failure_of nets.now self.now) }
    {
        found.note(
            self.at,
            nets.module().name.bytes(),
            self.name.unwrap_or(b""),
        );
    }
}
