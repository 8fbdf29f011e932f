//! Which variables stand in which scope.
ghost use Rattle.std.specs.Prelude.{◌≡◌, ◌<◌, ◌==◌, ℕ, ◌∷◌, ◌++◌, [], All, IfOk, OnOk, if◌then◌else◌, length};
ghost use Rattle.std.specs.List.{filter};
ghost use Rattle.vcd_header.specs.Declares.{IsBelow};
ghost use Rattle.vcd_header.specs.Contents.{list_at, stands_at};

use crate::declaration::Declaration;
use bm_base::NoMemory;
use std::alloc::Global;

/// For each number the declarations of scopes that have it as their first number, in their order.
pub(crate) fn contents<'a>(
    alloc: Global,
    firsts: &[usize],
    declarations: &[Declaration<'a>],
) -> Result<Vec<Vec<Declaration<'a>>>, NoMemory>
    requires firsts { All (λ first. first < length firsts.now) firsts.now }
    requires kept { All (λ declaration. IsBelow (length firsts.now) declaration.scope) declarations.now }
    ensures count { IfOk result (λ lists. length lists.items ≡ length firsts.now) }
    ensures lists { IfOk result (λ lists. (number : ℕ) → list_at lists.items number
        ≡ filter (stands_at firsts.now number) declarations.now) }
{
    let mut lists = empty_lists(alloc, firsts.len())?;
    for declaration in declarations {
        if let Some(scope) = declaration.scope {
            put(&mut lists, firsts[scope], *declaration)?;
        }
    }
    Ok(lists)
}

fn empty_lists<'a>(alloc: Global, count: usize) -> Result<Vec<Vec<Declaration<'a>>>, NoMemory>
    ensures count { IfOk result (λ lists. length lists.items ≡ count) }
    ensures empty { IfOk result (λ lists. (number : ℕ) → list_at lists.items number ≡ []) }
{
    let mut lists = Vec::new(alloc);
    for _ in 0..count {
        lists.push(Vec::new(alloc))?;
    }
    Ok(lists)
}

fn put<'a>(
    lists: &mut Vec<Vec<Declaration<'a>>>,
    number: usize,
    declaration: Declaration<'a>,
) -> Result<(), NoMemory>
    requires { number < length lists.old.items }
    ensures count { OnOk result (length lists.new.items ≡ length lists.old.items) }
    ensures put { OnOk result ((other : ℕ) → list_at lists.new.items other
        ≡ (if number == other then list_at lists.old.items other ++ declaration.entry ∷ []
        else list_at lists.old.items other)) }
{
    lists[number].push(declaration)?;
    Ok(())
}
