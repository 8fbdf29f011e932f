//! The module that a path leads to.
ghost use Rattle.std.specs.Prelude.{◌≡◌, [], ◌∷◌};
ghost use Rattle.std.specs.Option.{option_map};
ghost use Rattle.vlog_tree.specs.Meaning.Instances.{module_named};
ghost use Rattle.keys.specs.Under.{inner_among, inner_named, module_under};

use bm_base::Name;
use vlog_tree::{Design, Item, Module};

/// The module of the instance with a path, where the top has this name. Takes time in step with the length of the path
/// times that of the design.
pub(crate) fn module_under<'a>(design: &'a Design, top: &[u8], path: &[Name]) -> Option<&'a Module>
    ensures { option_map (λ m. m.now) result ≡ module_under design.now top.now path.now }
{
    let mut found = module_named(design, top);
    for name in path {
        found = inner_named(design, name.bytes(), found);
    }
    found
}

// The module of the first instance of a name.
fn inner_named<'a>(design: &'a Design, name: &[u8], outer: Option<&'a Module>) -> Option<&'a Module>
    ensures { option_map (λ m. m.now) result ≡ inner_named design.now name.now (option_map (λ m. m.now) outer.entry) }
{
    match outer {
        Some(outer) => inner_among(design, name, outer.items.as_slice()),
        None => None,
    }
}

fn inner_among<'a>(design: &'a Design, name: &[u8], items: &[Item]) -> Option<&'a Module>
    ensures { option_map (λ m. m.now) result ≡ inner_among design.now name.now items.now }
{
    for item in items {
        if let Some(inner) = inner_of(design, name, item) {
            return Some(inner);
        }
    }
    None
}

// The module of the item, where it is an instance of the name.
fn inner_of<'a>(design: &'a Design, name: &[u8], item: &Item) -> Option<&'a Module>
    ensures { option_map (λ m. m.now) result ≡ inner_among design.now name.now (item.now ∷ []) }
{
    match item {
        Item::Instance {
            module,
            name: own,
            ..
        } => {
            if *own.bytes() == *name {
                module_named(design, module.bytes())
            } else {
                None
            }
        }
        _ => None,
    }
}

// The first module of a name.
fn module_named<'a>(design: &'a Design, name: &[u8]) -> Option<&'a Module>
    ensures { option_map (λ m. m.now) result ≡ module_named design.now name.now }
{
    design
        .modules
        .as_slice()
        .iter()
        .find(|module| *module.name.bytes() == *name)
}
