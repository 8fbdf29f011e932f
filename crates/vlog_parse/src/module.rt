//! Modules (IEEE 1364-2005, clause 12.1).
ghost use Rattle.std.specs.Prelude.{◌<◌, ◌≤◌, length, codes, OnOk};
ghost use Rattle.vlog_parse.specs.Gathers as gathers;
ghost use Rattle.vlog_parse.specs.Items as rule;
ghost use Rattle.vlog_parse.specs.Modules as spec;
ghost use Rattle.vlog_parse.specs.Reads as reads;
ghost use Rattle.vlog_parse.specs.Reads.{Reads, ReadsInto};

use crate::cursor::Cursor;
use crate::header::any_header;
use crate::item::item;
use sqlite_items::Items;
use std::alloc::Global;
use vlog_numbers::Fault;
use vlog_tree::{Design, Item, Module};

/// A design up to the end of the tokens, in which expressions and statements may nest so deep.
#[tactic(auto, unfolding(crate::specs::Modules::design))]
pub fn design(alloc: Global, cursor: &mut Cursor<'_, '_>, depth: usize) -> Result<Design, Fault>
    ensures reads { Reads (spec.design depth cursor.old) result cursor.new }
{
    let modules = modules(alloc, cursor, depth)?;
    Ok(Design { modules })
}

#[tactic(auto, unfolding(crate::specs::Modules::modules))]
fn modules(alloc: Global, cursor: &mut Cursor<'_, '_>, depth: usize) -> Result<Items<Module>, Fault>
    ensures reads { Reads (spec.modules depth cursor.old) result cursor.new }
{
    let mut found = Items::new(alloc);
    while !cursor.is_empty() {
        one_more(alloc, cursor, depth, &mut found)?;
    }
    Ok(found)
}

#[tactic(auto, unfolding(crate::specs::Reads::one_more))]
fn one_more(
    alloc: Global,
    cursor: &mut Cursor<'_, '_>,
    depth: usize,
    found: &mut Items<Module>,
) -> Result<(), Fault>
    ensures reads { ReadsInto (reads.one_more (spec.module_rule depth) found.old cursor.old)
        result found.new cursor.new }
    ensures consumes { OnOk result (length cursor.new < length cursor.old) }
{
    let next = module_rule(alloc, cursor, depth)?;
    found.push(next)?;
    Ok(())
}

#[tactic(auto, unfolding(crate::specs::Modules::module_rule))]
fn module_rule(alloc: Global, cursor: &mut Cursor<'_, '_>, depth: usize) -> Result<Module, Fault>
    ensures reads { Reads (spec.module_rule depth cursor.old) result cursor.new }
    ensures consumes { OnOk result (length cursor.new < length cursor.old) }
{
    let at = cursor.place();
    cursor.expect("module")?;
    let name = cursor.name(alloc)?;
    let ports = any_header(alloc, cursor)?;
    cursor.expect(";")?;
    let mut items = ports.items;
    body(alloc, cursor, depth, &mut items)?;
    cursor.expect("endmodule")?;
    Ok(Module {
        at,
        name,
        ports: ports.names,
        items,
    })
}

// Adds the items up to `endmodule`.
#[tactic(auto, unfolding(crate::specs::Gathers::gathered_until))]
fn body(
    alloc: Global,
    cursor: &mut Cursor<'_, '_>,
    depth: usize,
    items: &mut Items<Item>,
) -> Result<(), Fault>
    ensures reads { ReadsInto
        (gathers.gathered_until (codes "endmodule") (λ group. group) (rule.item depth) items.old cursor.old)
        result items.new cursor.new }
    ensures shrinks { OnOk result (length cursor.new ≤ length cursor.old) }
{
    while !cursor.sees("endmodule") {
        add_item(alloc, cursor, depth, items)?;
    }
    Ok(())
}

#[tactic(auto, unfolding(crate::specs::Gathers::add))]
fn add_item(
    alloc: Global,
    cursor: &mut Cursor<'_, '_>,
    depth: usize,
    items: &mut Items<Item>,
) -> Result<(), Fault>
    ensures reads { ReadsInto (gathers.add (λ group. group) (rule.item depth) items.old cursor.old)
        result items.new cursor.new }
    ensures consumes { OnOk result (length cursor.new < length cursor.old) }
{
    let group = item(alloc, cursor, depth)?;
    items.append(group)?;
    Ok(())
}
