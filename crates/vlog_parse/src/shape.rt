//! What a declaration says of all its names.
ghost use Rattle.std.specs.Prelude.{◌≡◌, ◌<◌, ◌≤◌, length, OnOk};
ghost use Rattle.vlog_parse.specs.Declarations as spec;
ghost use Rattle.vlog_parse.specs.Reads.{Reads};

use crate::cursor::Cursor;
use crate::select::range;
use bm_base::Range;
use std::marker::Model;
use vlog_numbers::Fault;
use vlog_tree::{Dir, NetKind};

/// Direction, kind and range (IEEE 1364-2005, clauses 4.2 and 12.3.3).
#[derive(Clone, Copy)]
pub struct Shape {
    pub dir: Option<Dir>,
    pub kind: NetKind,
    pub range: Option<Range>,
}

impl Model for Shape {
    ghost use Rattle.vlog_tree.specs.Spelling.Declarations as spelling;

    ghost Value = { spelling.Shape };

    ghost view = { λ shape. record { dir = shape.dir; kind = shape.kind; range = shape.range } };

    ghost inverse = { λ shape. record { dir = shape.dir; kind = shape.kind; range = shape.range } };
}

/// `input` or `output`, perhaps a kind, perhaps a range.
#[tactic(auto, unfolding(crate::specs::Declarations::port_shape))]
pub fn port_shape(cursor: &mut Cursor<'_, '_>) -> Result<Shape, Fault>
    ensures reads { Reads (spec.port_shape cursor.old) result cursor.new }
    ensures consumes { OnOk result (length cursor.new < length cursor.old) }
{
    let dir = direction(cursor)?;
    let kind = net_kind(cursor)?;
    let range = any_range(cursor)?;
    Ok(Shape {
        dir: Some(dir),
        kind,
        range,
    })
}

/// Whether a direction is next.
pub fn is_direction(cursor: &Cursor<'_, '_>) -> bool
    ensures { result ≡ spec.is_direction cursor.now }
{
    cursor.sees("input") || cursor.sees("output")
}

#[tactic(auto, unfolding(crate::specs::Declarations::direction))]
fn direction(cursor: &mut Cursor<'_, '_>) -> Result<Dir, Fault>
    ensures reads { Reads (spec.direction cursor.old) result cursor.new }
    ensures consumes { OnOk result (length cursor.new < length cursor.old) }
{
    if cursor.sees("input") {
        cursor.expect("input")?;
        return Ok(Dir::Input);
    }
    if cursor.sees("output") {
        cursor.expect("output")?;
        return Ok(Dir::Output);
    }
    Err(Fault::Token)
}

#[tactic(auto, unfolding(crate::specs::Declarations::net_kind))]
fn net_kind(cursor: &mut Cursor<'_, '_>) -> Result<NetKind, Fault>
    ensures reads { Reads (spec.net_kind cursor.old) result cursor.new }
    ensures shrinks { OnOk result (length cursor.new ≤ length cursor.old) }
{
    if cursor.sees("wire") {
        cursor.expect("wire")?;
        return Ok(NetKind::Wire);
    }
    if cursor.sees("reg") {
        cursor.expect("reg")?;
        return Ok(NetKind::Reg);
    }
    Ok(NetKind::Plain)
}

/// Perhaps a range.
#[tactic(auto, unfolding(crate::specs::Declarations::any_range))]
pub fn any_range(cursor: &mut Cursor<'_, '_>) -> Result<Option<Range>, Fault>
    ensures reads { Reads (spec.any_range cursor.old) result cursor.new }
    ensures shrinks { OnOk result (length cursor.new ≤ length cursor.old) }
{
    if !cursor.sees("[") {
        return Ok(None);
    }
    Ok(Some(range(cursor)?))
}
