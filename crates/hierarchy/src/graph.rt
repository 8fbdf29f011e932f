//! Which modules have instances of which, by their places.
ghost use Rattle.std.specs.Prelude.{◌≡◌, ◌++◌, IfOk, OnOk, [], map, vec_items};
ghost use Rattle.std.specs.List.{cons_option};
ghost use Rattle.hierarchy.specs.Graph.{graph_of, inner_place, inner_places};
ghost use Rattle.hierarchy.specs.Places.{place_in};

use crate::places::Places;
use bm_base::NoMemory;
use std::alloc::Global;
use vlog_tree::{Item, Module};

/// For each module the places of the modules of its instances, without those that have none.
pub(crate) fn graph_of(
    alloc: Global,
    places: &Places,
    modules: &[Module],
) -> Result<Vec<Vec<usize>>, NoMemory>
    ensures { IfOk result (λ graph. map vec_items graph.items ≡ graph_of (place_in places.now) modules.now) }
{
    let mut graph = Vec::new(alloc);
    for module in modules {
        graph.push(inner_places(alloc, places, module.items.as_slice())?)?;
    }
    Ok(graph)
}

fn inner_places(alloc: Global, places: &Places, items: &[Item]) -> Result<Vec<usize>, NoMemory>
    ensures { IfOk result (λ inner. inner.items ≡ inner_places (place_in places.now) items.now) }
{
    let mut inner = Vec::new(alloc);
    for item in items {
        push_some(&mut inner, inner_place(places, item))?;
    }
    Ok(inner)
}

fn inner_place(places: &Places, item: &Item) -> Option<usize>
    ensures { result ≡ inner_place (place_in places.now) item.now }
{
    match item {
        Item::Instance { module, .. } => places.get(module.bytes()),
        _ => None,
    }
}

fn push_some(places: &mut Vec<usize>, place: Option<usize>) -> Result<(), NoMemory>
    ensures { OnOk result (places.new.items ≡ places.old.items ++ cons_option place []) }
{
    if let Some(place) = place {
        places.push(place)?;
    }
    Ok(())
}
