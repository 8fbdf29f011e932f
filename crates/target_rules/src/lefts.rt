//! The names of left sides.
ghost use Rattle.std.specs.Prelude.{◌≡◌, flat_map, fold};
ghost use Rattle.hierarchy.specs.Failures.{earlier};
ghost use Rattle.target_rules.specs.Judged.{bad_left};

use crate::assignment::Assignment;
use hierarchy::Earliest;
use nets::Nets;
use vlog_tree::Left;

/// Notes each name of a left side that may not be assigned so.
#[cycle(lefts)]
#[tactic(auto, using(crate::proofs::UseLemmas::left_join))]
pub(crate) fn note_left<'a>(
    way: Assignment,
    nets: &Nets<'a>,
    found: &mut Earliest<'a>,
    left: &'a Left,
)
    ensures { found.new ≡ fold earlier found.old (bad_left way nets.now left.now) }
{
    match left {
        Left::Whole { at, name } => way.note_name(nets, found, *at, name),
        Left::Bit { at, name, .. } => way.note_name(nets, found, *at, name),
        Left::Part { at, name, .. } => way.note_name(nets, found, *at, name),
        Left::Join(parts) => note_lefts(way, nets, found, parts.as_slice()),
    }
}

/// The same of several left sides.
#[cycle(lefts)]
pub(crate) fn note_lefts<'a>(
    way: Assignment,
    nets: &Nets<'a>,
    found: &mut Earliest<'a>,
    lefts: &'a [Left],
)
    ensures { found.new ≡ fold earlier found.old (flat_map (bad_left way nets.now) lefts.now) }
{
    for left in lefts {
        note_left(way, nets, found, left);
    }
}
