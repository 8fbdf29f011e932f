//! Uses that stand for the declaration of a wire of one bit (IEEE 1364-2005, clause 4.5).
ghost use Rattle.std.specs.Prelude.{◌≡◌, flat_map};
ghost use Rattle.std.specs.List.{list_any};
ghost use Rattle.vlog_tree.specs.Meaning.Names.{is_named};
ghost use Rattle.vlog_tree.specs.Meaning.Uses.{implicit_uses};
ghost use Rattle.vlog_tree.specs.WholeUses.{implies};

use crate::whole_uses::{any_expr_has, any_left_has, any_link_has};
use crate::{Item, Left};

/// Whether some use of the name stands for its declaration.
pub fn is_implied(items: &[Item], name: &[u8]) -> bool
    ensures { result ≡ list_any (implies name.now) items.now }
{
    items.iter().any(|item| implies(item, name))
}

// Whether some use of the name in the item stands for its declaration.
#[tactic(auto, using(crate::proofs::UseLemmas::whole_in_two, crate::proofs::UseLemmas::whole_in_all))]
fn implies(item: &Item, name: &[u8]) -> bool
    ensures { result ≡ implies name.now item.now }
{
    match item {
        Item::Assign {
            left: Left::Whole { name: other, .. },
            ..
        } => other.bytes() == name,
        Item::Gate { outs, ins, .. } => {
            any_left_has(outs.as_slice(), name) || any_expr_has(ins.as_slice(), name)
        }
        Item::Instance { links, .. } => any_link_has(links.as_slice(), name),
        _ => false,
    }
}
