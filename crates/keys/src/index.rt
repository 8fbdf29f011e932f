//! The index by which a bit is printed.
ghost use Rattle.std.specs.Prelude.{◌≡◌, IfOk, filter_map, option_and_then};
ghost use Rattle.std.specs.Option.{option_map};
ghost use Rattle.std.specs.String.{string_bytes};
ghost use Rattle.elab.specs.Plans.{written_range};
ghost use Rattle.nets.specs.Nets.{first_of, written_in};
ghost use Rattle.keys.specs.Printed.{index_in, index_text};

use bm_base::Range;
use std::alloc::{AllocError, Global};
use vlog_tree::{Item, Module};

/// The first range that one of a name's declarations writes, in this module if there is one.
pub(crate) fn written_range(m: Option<&Module>, name: &[u8]) -> Option<Range>
    ensures { result ≡ option_and_then (λ m. written_range m name.now) (option_map (λ m. m.now) m.entry) }
{
    match m {
        Some(m) => first_written(m.items.as_slice(), name),
        None => None,
    }
}

fn first_written(items: &[Item], name: &[u8]) -> Option<Range>
    ensures { result ≡ first_of (filter_map (written_in name.now) items.now) }
{
    for item in items {
        if let Some(range) = written_in(item, name) {
            return Some(range);
        }
    }
    None
}

// The range that the item writes, where it declares the name.
fn written_in(item: &Item, name: &[u8]) -> Option<Range>
    ensures { result ≡ written_in name.now item.now }
{
    match item {
        Item::Decl {
            range,
            name: own,
            ..
        } => { if *own.bytes() == *name { *range } else { None } }
        _ => None,
    }
}

/// The index, in brackets, of the bit at a place from the right end of a range. Nothing where there is no range.
pub(crate) fn index_text(
    alloc: Global,
    range: Option<Range>,
    place: u32,
) -> Result<String, AllocError>
    ensures { IfOk result (λ text. string_bytes text ≡ index_text range place) }
{
    match range {
        Some(range) => {
            let index = index_in(range, place);
            format!(in alloc; "[{index}]")
        }
        None => Ok(String::new(alloc)),
    }
}

fn index_in(range: Range, place: u32) -> u64
    ensures { result ≡ index_in range place }
{
    if range.right <= range.left {
        u64::from(range.right) + u64::from(place)
    } else {
        u64::from(range.right.saturating_sub(place))
    }
}
