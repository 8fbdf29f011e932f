//! Which modules have instances of which, by their places.
ghost use Rattle.std.specs.Prelude.{◌≡◌, ◌++◌, IfOk, OnOk, [], map, vec_items};
ghost use Rattle.std.specs.List.{cons_option};
ghost use Rattle.hierarchy.specs.Graph.{graph_of, inner_place, inner_places, place_among};

use bm_base::NoMemory;
use hierarchy::Hierarchy;
use std::alloc::Global;
use vlog_tree::Item;

/// For each module the places of the modules of its instances, without those that have none.
pub(crate) fn graph_of(alloc: Global, hierarchy: &Hierarchy) -> Result<Vec<Vec<usize>>, NoMemory>
    ensures { let modules = hierarchy.now.design.modules in
        IfOk result (λ graph. map vec_items graph.items ≡ graph_of (place_among modules) modules) }
{
    let mut graph = Vec::new(alloc);
    for module in hierarchy.modules() {
        graph.push(inner_places(alloc, hierarchy, module.items.as_slice())?)?;
    }
    Ok(graph)
}

fn inner_places(
    alloc: Global,
    hierarchy: &Hierarchy,
    items: &[Item],
) -> Result<Vec<usize>, NoMemory>
    ensures { IfOk result
        (λ inner. inner.items ≡ inner_places (place_among hierarchy.now.design.modules) items.now) }
{
    let mut inner = Vec::new(alloc);
    for item in items {
        push_some(&mut inner, inner_place(hierarchy, item))?;
    }
    Ok(inner)
}

fn inner_place(hierarchy: &Hierarchy, item: &Item) -> Option<usize>
    ensures { result ≡ inner_place (place_among hierarchy.now.design.modules) item.now }
{
    match item {
        Item::Instance { module, .. } => hierarchy.place_of(module.bytes()),
        _ => None,
    }
}

fn push_some(places: &mut Vec<usize>, place: Option<usize>) -> Result<(), NoMemory>
    ensures { OnOk result (places.new.items ≡ places.old.items ++ cons_option place []) }
{
    if let Some(place) = place {
        places.push(place)?;
    }
    Ok(())
}
