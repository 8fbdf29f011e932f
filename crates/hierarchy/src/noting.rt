ghost use Rattle.std.specs.Prelude.{◌≡◌, ◌∷◌, [], cond, fold};
ghost use Rattle.hierarchy.specs.Failures.{earlier, failure};

use crate::failure::Earliest;
use vlog_tree::Module;

/// Notes the name at this place of the module `m`, if it is bad.
pub fn note_if<'a>(is_bad: bool, m: &'a Module, at: u64, name: &'a [u8], found: &mut Earliest<'a>)
    ensures { found.new ≡ fold earlier found.old (cond is_bad (failure at m.now.name name.now ∷ []) []) }
{
    if is_bad {
        found.note(at, m.name.bytes(), name);
    }
}
