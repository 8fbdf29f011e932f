//! Rule E1: no two modules have one name.
ghost use Rattle.std.specs.Prelude.{◌≡◌, ◌∷◌, [], IfOk, None, OnOk, Some, bytes_eq, cond, fold, is_some};
ghost use Rattle.std.specs.Option.{option_or};
ghost use Rattle.hierarchy.specs.Failures.{earlier, earliest, failure};
ghost use Rattle.hierarchy.specs.Graph.{place_among};
ghost use Rattle.hierarchy.specs.Places.{place_in};
ghost use Rattle.hierarchy.specs.Rules.{repeated_after};
ghost use Rattle.vlog_tree.specs.Meaning.Uses.{Text};

use crate::failure::Earliest;
use crate::places::Places;
use bm_base::NoMemory;
use std::alloc::Global;
use vlog_tree::Module;

/// The first place of each name, and the modules that have the name of an earlier one.
pub(crate) fn numbered<'a>(
    alloc: Global,
    modules: &'a [Module],
) -> Result<(Places<'a>, Earliest<'a>), NoMemory>
    ensures places { IfOk result (λ numbered. place_in numbered.0 ≡ place_among modules.now) }
    ensures repeated { IfOk result (λ numbered. numbered.1 ≡ earliest (repeated_after [] modules.now)) }
{
    let mut places = Places::new(alloc);
    let mut repeated = Earliest::new();
    for (place, module) in modules.iter().enumerate() {
        number(&mut places, &mut repeated, place, module)?;
    }
    Ok((places, repeated))
}

// Gives the module this place, or notes it where its name has one.
fn number<'a>(
    places: &mut Places<'a>,
    repeated: &mut Earliest<'a>,
    place: usize,
    added: &'a Module,
) -> Result<(), NoMemory>
    ensures places { OnOk result ((name : Text) → place_in places.new name
        ≡ option_or (place_in places.old name) (cond (bytes_eq added.now.name name) (Some place) None)) }
    ensures repeated { OnOk result (repeated.new ≡ fold earlier repeated.old
        (cond (is_some (place_in places.old added.now.name)) (failure added.now.at [] added.now.name ∷ []) [])) }
{
    let name = added.name.bytes();
    match places.get(name) {
        Some(_) => {
            repeated.note(added.at, b"", name);
            Ok(())
        }
        None => places.insert(name, place),
    }
}
