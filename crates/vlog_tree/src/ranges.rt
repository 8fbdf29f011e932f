ghost use Rattle.std.specs.Prelude.{◌≡◌, ℕ, List, Option, find, option_map};
ghost use Rattle.bm_base.specs.declared.range.Range.{Range};
ghost use Rattle.vlog_tree.specs.Meaning.Names.{declares};
ghost use Rattle.vlog_tree.specs.Meaning.Ranges.{declared_range, range_of};
ghost use Rattle.vlog_tree.specs.WholeUses.{implicit_range};

use crate::implicit::is_implied;
use crate::{Item, Module};
use bm_base::{Name, Range};

// The range of a name of one bit.
const SCALAR: Range = Range { left: 0, right: 0 };

/// Where the ranges of names are looked up.
pub trait Ranges {
    /// The range of each name that has one.
    ghost ranges: { Self → List ℕ → Option Range };

    /// The range of a name, none where it is neither declared nor implicit.
    fn range_of(&self, name: &Name) -> Option<Range>
        ensures { result ≡ ranges self.now name.now };
}

/// By going through the items, which takes time for each look-up and no memory. A name that is declared more than once
/// has the range of its first declaration.
impl Ranges for Module {
    ghost ranges = { range_of };

    fn range_of(&self, name: &Name) -> Option<Range> {
        let items = self.items.as_slice();
        let text = name.bytes();
        match declared_range(items, text) {
            Some(range) => Some(range),
            None => implicit_range(items, text),
        }
    }
}

// The range of a name that is not declared: one bit where some use of it stands for its declaration.
fn implicit_range(items: &[Item], name: &[u8]) -> Option<Range>
    ensures { result ≡ implicit_range name.now items.now }
{
    if is_implied(items, name) {
        Some(SCALAR)
    } else {
        None
    }
}

// The range of the first declaration of the name.
fn declared_range(items: &[Item], name: &[u8]) -> Option<Range>
    ensures { result ≡ option_map declared_range (find (declares name.now) items.now) }
{
    for item in items {
        if declares(item, name) {
            return Some(range_in(item));
        }
    }
    None
}

fn declares(item: &Item, name: &[u8]) -> bool
    ensures { result ≡ declares name.now item.now }
{
    match item {
        Item::Decl { name: declared, .. } => declared.bytes() == name,
        _ => false,
    }
}

// The range that a declaration gives, one bit where it gives none.
fn range_in(item: &Item) -> Range
    ensures { result ≡ declared_range item.now }
{
    match item {
        Item::Decl {
            range: Some(range),
            ..
        } => *range,
        _ => SCALAR,
    }
}
