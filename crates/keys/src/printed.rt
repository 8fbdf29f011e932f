//! The printed name of a bit.
ghost use Rattle.std.specs.Prelude.{◌≡◌, ◌++◌, ℕ, IfOk, List, None, OnOk, codes};
ghost use Rattle.std.specs.Option.{option_map};
ghost use Rattle.flat_design.specs.Sizes.{too_large};
ghost use Rattle.flatten.specs.Planned.{IsPlanned};
ghost use Rattle.numbering.specs.Numbering.{key_at};
ghost use Rattle.vlog_tree.specs.Meaning.Setting.{Setting};
ghost use Rattle.vlog_tree.specs.Spelling.{Spells};
ghost use Rattle.keys.specs.Printed.{key_text, path_text};
ghost use Rattle.keys.specs.Under.{range_under, text_under};

use crate::index::{index_text, written_range};
use crate::planned::key_of;
use crate::under::module_under;
use bm_base::{Name, NoMemory, Range};
use elab::Plan;
use std::alloc::Global;
use vlog_tree::{Design, Key};

/// The printed name of the bit for which a node of the design's flat netlist stands, as `inner.count[3]`: the names of
/// the instances on the way to it and its own, with dots between them, and its index where a declaration of its name
/// writes a range. None exactly where the node stands for none.
pub fn printed_key(
    alloc: Global,
    design: &Design,
    plan: &Plan,
    node: u32,
) -> Result<Option<Name>, NoMemory>
    requires spelled { (bytes : List ℕ) × Spells bytes design.now }
    requires planned { (setting : Setting) × IsPlanned setting design.now plan.now }
    requires within { (setting : Setting) → IsPlanned setting design.now plan.now → too_large setting ≡ None }
    ensures { IfOk result (λ text. (setting : Setting) → IsPlanned setting design.now plan.now
        → text ≡ option_map (key_text setting) (key_at setting node)) }
{
    let key = key_of(alloc, design, plan, node)?;
    name_of(alloc, design, plan.labels.top.bytes(), key)
}

// The printed name of a bit that may be there, where the top of the design has this name.
fn name_of(
    alloc: Global,
    design: &Design,
    top: &[u8],
    key: Option<Key>,
) -> Result<Option<Name>, NoMemory>
    ensures { IfOk result (λ text. text ≡ option_map (text_under design.now top.now) key) }
{
    match key {
        Some(key) => Ok(Some(text_of(alloc, design, top, &key)?)),
        None => Ok(None),
    }
}

// That of a bit.
fn text_of(alloc: Global, design: &Design, top: &[u8], key: &Key) -> Result<Name, NoMemory>
    ensures { IfOk result (λ text. text ≡ text_under design.now top.now key.now) }
{
    let index = index_text(alloc, range_of(design, top, key), key.bit)?;
    let mut text = Vec::new(alloc);
    add_path(&mut text, key.path.as_slice())?;
    text.extend_from_slice(key.name.bytes())?;
    text.extend_from_slice(index.as_bytes())?;
    Name::new(alloc, &text)
}

// The range that is written for the name of the bit in its module.
fn range_of(design: &Design, top: &[u8], key: &Key) -> Option<Range>
    ensures { result ≡ range_under design.now top.now key.now }
{
    let m = module_under(design, top, key.path.as_slice());
    written_range(m, key.name.bytes())
}

// Adds the names, a dot behind each.
fn add_path(text: &mut Vec<u8>, path: &[Name]) -> Result<(), NoMemory>
    ensures { OnOk result (text.new.items ≡ text.old.items ++ path_text path.now) }
{
    for name in path {
        add_name(text, name)?;
    }
    Ok(())
}

fn add_name(text: &mut Vec<u8>, name: &Name) -> Result<(), NoMemory>
    ensures { OnOk result (text.new.items ≡ text.old.items ++ (name.now ++ codes ".")) }
{
    text.extend_from_slice(name.bytes())?;
    text.extend_from_slice(b".")?;
    Ok(())
}
