//! The name of a scope, as it is asked for.
ghost use Rattle.std.specs.Prelude.{◌≡◌, ◌<◌, ◌++◌, ◌∷◌, [], IfOk, OnOk, Some, if◌then◌else◌, length, map, reverse};
ghost use Rattle.vcd_header.specs.Declares.{AreNested, path_in, paths_of, texts};
ghost use Rattle.vcd_header.specs.Scopes.{dotted};

use crate::scope::Scope;
use bm_base::NoMemory;
use std::alloc::Global;

/// The names of the scope and of those that it stands in, joined by dots.
pub(crate) fn dotted(alloc: Global, scopes: &[Scope], number: usize) -> Result<Vec<u8>, NoMemory>
    requires nested { AreNested 0 scopes.now }
    requires there { number < length scopes.now }
    ensures { IfOk result (λ text. text.items ≡ dotted (path_in (paths_of scopes.now) (Some number))) }
{
    let names = names_of(alloc, scopes, number)?;
    joined(alloc, &names)
}

// The names, from the scope's own outwards.
fn names_of<'a>(
    alloc: Global,
    scopes: &[Scope<'a>],
    number: usize,
) -> Result<Vec<&'a [u8]>, NoMemory>
    requires nested { AreNested 0 scopes.now }
    requires there { number < length scopes.now }
    ensures { IfOk result (λ names. reverse (texts names.items) ≡ path_in (paths_of scopes.now) (Some number)) }
{
    let mut names = Vec::new(alloc);
    let mut next = Some(number);
    while let Some(scope) = next {
        names.push(scopes[scope].name)?;
        next = scopes[scope].parent;
    }
    Ok(names)
}

// The last name, and then those before it, with dots between them.
fn joined(alloc: Global, names: &[&[u8]]) -> Result<Vec<u8>, NoMemory>
    ensures { IfOk result (λ text. text.items ≡ dotted (reverse (texts names.now))) }
{
    let mut text = Vec::new(alloc);
    let mut left = names.len();
    while left > 0 {
        left -= 1;
        put_name(&mut text, names[left], left == 0)?;
    }
    Ok(text)
}

fn put_name(text: &mut Vec<u8>, name: &[u8], last: bool) -> Result<(), NoMemory>
    ensures { OnOk result (text.new.items ≡ text.old.items ++ (name.now ++ (if last then [] else 46 ∷ []))) }
{
    text.extend_from_slice(name)?;
    if last {
        return Ok(());
    }
    text.push(b'.')?;
    Ok(())
}
