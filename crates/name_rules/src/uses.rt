//! Rule E5: each name that is used is declared or implicit.
ghost use Rattle.std.specs.Prelude.{◌≡◌, flat_map, fold};
ghost use Rattle.hierarchy.specs.Failures.{earlier};
ghost use Rattle.nets.specs.Used.{use_shown};
ghost use Rattle.name_rules.specs.Uses.{unknown_names, unknown_use};

use hierarchy::Earliest;
use nets::{Nets, Use};

/// Notes each use of a name that the module neither declares nor has as an implicit wire.
pub fn note_unknown_names<'a>(nets: &Nets<'a>, found: &mut Earliest<'a>)
    ensures { found.new ≡ fold earlier found.old (unknown_names nets.now) }
{
    for one in nets.uses() {
        note_if_unknown(nets, one, found);
    }
}

fn note_if_unknown<'a>(nets: &Nets<'a>, one: &Use<'a>, found: &mut Earliest<'a>)
    ensures { found.new ≡ fold earlier found.old (unknown_use nets.now (use_shown one.now)) }
{
    if nets.find(one.name).is_none() {
        found.note(one.at, nets.module().name.bytes(), one.name);
    }
}
