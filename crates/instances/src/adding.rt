//! The instances below a module, added to a list in pre-order.
ghost use Rattle.std.specs.Prelude.{◌≡◌, ◌+◌, ◌≤◌, ◌<◌, ◌++◌, ◌∷◌, [], ℕ, IfErr, OnOk, flat_map, length, map, true, vec_items};
ghost use Rattle.bm_base.specs.Size.{limit_of};
ghost use Rattle.bm_base.specs.declared.size.Size.TheVariants.{Instances};
ghost use Rattle.hierarchy.specs.Graph.{IsClosed, has};
ghost use Rattle.instances.specs.Adding.{placed_from};
ghost use Rattle.instances.specs.Placing.{IsRefused};

use crate::placed::Placed;
use bm_base::Size;
use flat_net::FlatFault;
use sqlite_items::Items;

/// Adds an instance of the module at a place, and those that stand in it, down to a depth: the instance itself is at
/// depth 1.
#[cycle(adding)]
pub(crate) fn add_instance(
    graph: &[Vec<usize>],
    depth: usize,
    place: usize,
    list: &mut Items<Placed>,
) -> Result<(), FlatFault>
    requires closed { IsClosed (map vec_items graph.now) }
    requires within { place < length graph.now }
    requires limited { length list.old ≤ limit_of Instances }
    ensures added { OnOk result (list.new ≡ list.old ++ placed_from (map vec_items graph.now) depth place) }
    ensures limited { OnOk result (length list.new ≤ limit_of Instances) }
    ensures refused { IfErr result
        (IsRefused (length list.old + length (placed_from (map vec_items graph.now) depth place))) }
{
    if depth == 0 {
        return Ok(());
    }
    let at = list.len();
    push_within(list, place)?;
    add_instances(graph, depth - 1, &graph[place], list)?;
    list.set(
        at,
        Placed {
            module: place,
            size: list.len() - at,
        },
    );
    Ok(())
}

// The same of the modules at these places, one after another.
#[cycle(adding)]
fn add_instances(
    graph: &[Vec<usize>],
    depth: usize,
    places: &[usize],
    list: &mut Items<Placed>,
) -> Result<(), FlatFault>
    requires closed { IsClosed (map vec_items graph.now) }
    requires within { (place : ℕ) → has places.now place ≡ true → place < length graph.now }
    requires limited { length list.old ≤ limit_of Instances }
    ensures added { OnOk result
        (list.new ≡ list.old ++ flat_map (placed_from (map vec_items graph.now) depth) places.now) }
    ensures limited { OnOk result (length list.new ≤ limit_of Instances) }
    ensures refused { IfErr result
        (IsRefused (length list.old + length (flat_map (placed_from (map vec_items graph.now) depth) places.now))) }
{
    for place in places {
        add_instance(graph, depth, *place, list)?;
    }
    Ok(())
}

// Adds an instance of the module at a place, whose size is not known yet.
fn push_within(list: &mut Items<Placed>, place: usize) -> Result<(), FlatFault>
    requires limited { length list.old ≤ limit_of Instances }
    ensures added { OnOk result (list.new ≡ list.old ++ record { «module» = place; size = 1 } ∷ []) }
    ensures limited { OnOk result (length list.new ≤ limit_of Instances) }
    ensures refused { IfErr result (IsRefused (length list.old + 1)) }
{
    if list.len() as u64 >= Size::Instances.limit() {
        return Err(FlatFault::TooLarge {
            what: Size::Instances,
        });
    }
    list.push(Placed {
        module: place,
        size: 1,
    })?;
    Ok(())
}
