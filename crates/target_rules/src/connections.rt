//! What is connected to output ports.
ghost use Rattle.std.specs.Prelude.{◌≡◌, flat_map, fold};
ghost use Rattle.std.specs.List.{enumerate_from};
ghost use Rattle.hierarchy.specs.Failures.{earlier};
ghost use Rattle.target_rules.specs.Judged.{bad_link, bad_port, bad_target, bad_whole};

use crate::assignable::is_assignable;
use crate::assignment::Assignment;
use crate::exprs::note_expr;
use design_nets::port_of;
use hierarchy::Earliest;
use nets::Nets;
use vlog_tree::{Expr, Link};
use width_rules::note_whole;

/// Notes what is wrong with the connections to output ports of an instance of the module `inner`.
pub(crate) fn note_links<'a>(
    nets: &Nets<'a>,
    found: &mut Earliest<'a>,
    inner: &Nets<'a>,
    links: &'a [Link],
)
    ensures { found.new ≡ fold earlier found.old (flat_map (bad_link nets.now inner.now) (enumerate_from 0 links.now)) }
{
    for (place, link) in links.iter().enumerate() {
        note_link(nets, found, inner, place, link);
    }
}

fn note_link<'a>(
    nets: &Nets<'a>,
    found: &mut Earliest<'a>,
    inner: &Nets<'a>,
    place: usize,
    link: &'a Link,
)
    ensures { found.new ≡ fold earlier found.old (bad_link nets.now inner.now (place, link.now)) }
{
    match (port_of(inner.module(), place, link), &link.expr) {
        (Some(port), Some(expr)) => note_connection(nets, found, inner, port, expr),
        _ => {}
    }
}

fn note_connection<'a>(
    nets: &Nets<'a>,
    found: &mut Earliest<'a>,
    inner: &Nets<'a>,
    port: &[u8],
    expr: &'a Expr,
)
    ensures { found.new ≡ fold earlier found.old (bad_port nets.now inner.now port.now expr.now) }
{
    if inner.is_output(port) {
        note_target(nets, found, expr);
    }
}

fn note_target<'a>(nets: &Nets<'a>, found: &mut Earliest<'a>, expr: &'a Expr)
    ensures { found.new ≡ fold earlier found.old (bad_target nets.now expr.now) }
{
    note_unless_assignable(nets, found, expr);
    note_expr(Assignment::Continuous, nets, found, expr);
}

fn note_unless_assignable<'a>(nets: &Nets<'a>, found: &mut Earliest<'a>, expr: &'a Expr)
    ensures { found.new ≡ fold earlier found.old (bad_whole nets.now expr.now) }
{
    if !is_assignable(expr) {
        note_whole(nets, found, expr);
    }
}
