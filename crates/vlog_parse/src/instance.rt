//! Instances of modules (IEEE 1364-2005, clause 12.3).

ghost use Rattle.std.specs.Prelude.{◌≡◌, ◌<◌, ◌≤◌, codes, length, OnOk};
ghost use Rattle.vlog_parse.specs.Gates as spec;
ghost use Rattle.vlog_parse.specs.Reads as reads;
ghost use Rattle.vlog_parse.specs.Reads.{Reads, ReadsInto, loop, one_more, one_more_after_comma, sees};

use crate::cursor::Cursor;
use crate::expr::expr;
use crate::list::separated;
use bm_base::Name;
use sqlite_items::Items;
use std::alloc::Global;
use vlog_numbers::Fault;
use vlog_tree::{Expr, Item, Link};

/// One instance, after the name of its module.
#[tactic(auto, unfolding(crate::specs::Gates::instance))]
pub fn instance(
    alloc: Global,
    cursor: &mut Cursor<'_, '_>,
    depth: usize,
    definition: &Name,
) -> Result<Item, Fault>
    ensures reads { Reads (spec.instance depth definition.now cursor.old) result cursor.new }
    ensures consumes { OnOk result (length cursor.new < length cursor.old) }
{
    let at = cursor.place();
    let name = cursor.name(alloc)?;
    cursor.expect("(")?;
    let links = links(alloc, cursor, depth)?;
    cursor.expect(")")?;
    Ok(Item::Instance {
        at,
        module: definition.clone()?,
        name,
        links,
    })
}

#[tactic(auto, unfolding(crate::specs::Gates::links))]
fn links(alloc: Global, cursor: &mut Cursor<'_, '_>, depth: usize) -> Result<Items<Link>, Fault>
    ensures reads { Reads (spec.links depth cursor.old) result cursor.new }
    ensures shrinks { OnOk result (length cursor.new ≤ length cursor.old) }
{
    if cursor.sees(")") {
        return Ok(Items::new(alloc));
    }
    if cursor.sees(".") {
        return separated(alloc, cursor, |cursor: &mut Cursor<'_, '_>| {
            named_link(alloc, cursor, depth)
        });
    }
    ordered_links(alloc, cursor, depth)
}

#[tactic(auto, unfolding(crate::specs::Gates::named_link))]
fn named_link(alloc: Global, cursor: &mut Cursor<'_, '_>, depth: usize) -> Result<Link, Fault>
    ensures reads { Reads (spec.named_link depth cursor.old) result cursor.new }
    ensures consumes { OnOk result (length cursor.new < length cursor.old) }
{
    let at = cursor.place();
    cursor.expect(".")?;
    let port = cursor.name(alloc)?;
    cursor.expect("(")?;
    let expr = connection(alloc, cursor, depth)?;
    cursor.expect(")")?;
    Ok(Link {
        at,
        port: Some(port),
        expr,
    })
}

#[tactic(auto, unfolding(crate::specs::Reads::separated))]
fn ordered_links(
    alloc: Global,
    cursor: &mut Cursor<'_, '_>,
    depth: usize,
) -> Result<Items<Link>, Fault>
    ensures reads { Reads (reads.separated (spec.ordered_link depth) cursor.old) result cursor.new }
    ensures shrinks { OnOk result (length cursor.new ≤ length cursor.old) }
{
    let mut found = Items::new(alloc);
    one_link(alloc, cursor, depth, &mut found)?;
    more_links(alloc, cursor, depth, &mut found)?;
    Ok(found)
}

// A loop of its own, since a blank link takes no token.
fn more_links(
    alloc: Global,
    cursor: &mut Cursor<'_, '_>,
    depth: usize,
    found: &mut Items<Link>,
) -> Result<(), Fault>
    ensures reads { ReadsInto
        (loop (sees (codes ",")) (one_more_after_comma (spec.ordered_link depth)) found.old cursor.old)
        result found.new cursor.new }
    ensures shrinks { OnOk result (length cursor.new ≤ length cursor.old) }
{
    while cursor.sees(",") {
        next_link(alloc, cursor, depth, found)?;
    }
    Ok(())
}

#[tactic(auto, unfolding(crate::specs::Reads::one_more_after_comma))]
fn next_link(
    alloc: Global,
    cursor: &mut Cursor<'_, '_>,
    depth: usize,
    found: &mut Items<Link>,
) -> Result<(), Fault>
    ensures reads { ReadsInto (one_more_after_comma (spec.ordered_link depth) found.old cursor.old)
        result found.new cursor.new }
    ensures consumes { OnOk result (length cursor.new < length cursor.old) }
{
    cursor.expect(",")?;
    one_link(alloc, cursor, depth, found)
}

#[tactic(auto, unfolding(crate::specs::Reads::one_more))]
fn one_link(
    alloc: Global,
    cursor: &mut Cursor<'_, '_>,
    depth: usize,
    found: &mut Items<Link>,
) -> Result<(), Fault>
    ensures reads { ReadsInto (one_more (spec.ordered_link depth) found.old cursor.old) result found.new cursor.new }
    ensures shrinks { OnOk result (length cursor.new ≤ length cursor.old) }
{
    let next = ordered_link(alloc, cursor, depth)?;
    found.push(next)?;
    Ok(())
}

#[tactic(auto, unfolding(crate::specs::Gates::ordered_link))]
fn ordered_link(alloc: Global, cursor: &mut Cursor<'_, '_>, depth: usize) -> Result<Link, Fault>
    ensures reads { Reads (spec.ordered_link depth cursor.old) result cursor.new }
    ensures shrinks { OnOk result (length cursor.new ≤ length cursor.old) }
{
    let at = cursor.place();
    let expr = connection(alloc, cursor, depth)?;
    Ok(Link {
        at,
        port: None,
        expr,
    })
}

#[tactic(auto, unfolding(crate::specs::Gates::connection))]
fn connection(
    alloc: Global,
    cursor: &mut Cursor<'_, '_>,
    depth: usize,
) -> Result<Option<Expr>, Fault>
    ensures reads { Reads (spec.connection depth cursor.old) result cursor.new }
    ensures shrinks { OnOk result (length cursor.new ≤ length cursor.old) }
{
    if cursor.sees(",") || cursor.sees(")") {
        return Ok(None);
    }
    Ok(Some(expr(alloc, cursor, depth)?))
}
