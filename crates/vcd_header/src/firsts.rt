//! Which scopes are one: those that are opened by the same path.
ghost use Rattle.std.specs.Prelude.{◌≡◌, ◌∷◌, ◌++◌, [], IfOk, OnOk, Some, if◌then◌else◌, length};
ghost use Rattle.std.specs.Option.{unwrap_or};
ghost use Rattle.vcd_header.specs.Declares.{AreNested, IsBelow, firsts_of, paths_of, place_by};
ghost use Rattle.vcd_header.specs.Names.{Place, number_in, same_place};

use crate::names::Names;
use crate::scope::Scope;
use bm_base::NoMemory;
use std::alloc::Global;

/// For each opened scope the number of the first that was opened by its path.
pub(crate) fn firsts(alloc: Global, scopes: &[Scope]) -> Result<Vec<usize>, NoMemory>
    requires { AreNested 0 scopes.now }
    ensures { IfOk result (λ firsts. firsts.items ≡ firsts_of (paths_of scopes.now)) }
{
    let mut firsts = Vec::new(alloc);
    let mut names = Names::new(alloc);
    for scope in scopes {
        push_first(&mut firsts, &mut names, scope)?;
    }
    Ok(firsts)
}

// The same of the next scope, where those before it are named by these.
fn push_first<'a>(
    firsts: &mut Vec<usize>,
    names: &mut Names<'a>,
    scope: &Scope<'a>,
) -> Result<(), NoMemory>
    requires { IsBelow (length firsts.old.items) scope.now.parent }
    ensures firsts { OnOk result (firsts.new.items ≡ firsts.old.items
        ++ unwrap_or (number_in names.old (place_by firsts.old.items scope.now)) (length firsts.old.items) ∷ []) }
    ensures names { OnOk result ((other : Place) → number_in names.new other
        ≡ (if same_place (place_by firsts.old.items scope.now) other
        then Some (unwrap_or (number_in names.old (place_by firsts.old.items scope.now)) (length firsts.old.items))
        else number_in names.old other)) }
{
    let number = firsts.len();
    let parent = match scope.parent {
        Some(parent) => Some(firsts[parent]),
        None => None,
    };
    firsts.push(names.get_or_insert((parent, scope.name), number)?)?;
    Ok(())
}
