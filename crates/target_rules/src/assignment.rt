//! Names that may not be assigned as they are.
ghost use Rattle.std.specs.Prelude.{◌≡◌, fold, true};
ghost use Rattle.hierarchy.specs.Failures.{earlier};
ghost use Rattle.vlog_tree.specs.Meaning.Uses.{use_of};
ghost use Rattle.target_rules.specs.Judged.{bad_name};
ghost use Rattle.target_rules.specs.Targets.{held_use, plain_use};

use bm_base::Name;
use hierarchy::Earliest;
use nets::Nets;

/// How a name is assigned.
#[derive(Clone, Copy, Debug, PartialEq, Eq)]
pub(crate) enum Assignment {
    /// By an `assign`, a gate or the output port of an instance, as any name may be that is neither an input nor a
    /// `reg`.
    Continuous,
    /// By an `always` or an `initial`, as any `reg` may be.
    Procedural,
}

impl Assignment {
    /// Notes the name at this place, if it may not be assigned so.
    pub(crate) fn note_name<'a>(
        self,
        nets: &Nets<'a>,
        found: &mut Earliest<'a>,
        at: u64,
        name: &'a Name,
    )
        ensures { found.new ≡ fold earlier found.old (bad_name self nets.now at name.now) }
    {
        match self {
            Assignment::Continuous => note_if_held(nets, found, at, name),
            Assignment::Procedural => note_if_plain(nets, found, at, name),
        }
    }
}

// Notes an input or a `reg`.
fn note_if_held<'a>(nets: &Nets<'a>, found: &mut Earliest<'a>, at: u64, name: &'a Name)
    ensures { found.new ≡ fold earlier found.old (held_use nets.now (use_of at name.now true)) }
{
    if nets.is_input(name.bytes()) || nets.is_register(name.bytes()) {
        found.note(at, nets.module().name.bytes(), name.bytes());
    }
}

// Notes what is no `reg`.
fn note_if_plain<'a>(nets: &Nets<'a>, found: &mut Earliest<'a>, at: u64, name: &'a Name)
    ensures { found.new ≡ fold earlier found.old (plain_use nets.now (use_of at name.now true)) }
{
    if !nets.is_register(name.bytes()) {
        found.note(at, nets.module().name.bytes(), name.bytes());
    }
}
