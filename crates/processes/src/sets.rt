//! Assignments.
ghost use Rattle.std.specs.Prelude.{◌≡◌, IfErr, OnOk};
ghost use Rattle.processes.specs.Carried.{Carried, CarriesTo};
ghost use Rattle.processes.specs.Statements.{process, set};
ghost use Rattle.vlog_tree.specs.Meaning.Lefts.{left_bits};

use crate::numbers::left_numbers;
use crate::writing::write_down;
use flat_net::{Edge, FlatFault};
use lowering::{Nodes, Scope, lower_assigned};
use numbering::ModulePlaces;
use sqlite_items::Items;
use std::alloc::Global;
use vlog_tree::{Expr, Left};

/// The bits of the left side have the edges of the right side.
pub(crate) fn set<S: Scope>(
    alloc: Global,
    nodes: &mut Nodes,
    scope: &S,
    places: &ModulePlaces<'_>,
    current: &mut Items<Edge>,
    left: &Left,
    right: &Expr,
) -> Result<(), FlatFault>
    requires { S.module_of scope.now ≡ places.now.definition }
    ensures carried { OnOk result (Carried (S.module_of scope.now)
        (process (left_bits (S.module_of scope.now) left.now) (set (S.module_of scope.now) (S.wires scope.now) left.now right.now))
        nodes.old nodes.new current.old current.new) }
    ensures fault { IfErr result (CarriesTo (S.module_of scope.now)
        (process (left_bits (S.module_of scope.now) left.now) (set (S.module_of scope.now) (S.wires scope.now) left.now right.now))
        nodes.old current.old) }
{
    let numbers = left_numbers(alloc, places, left)?;
    let edges = lower_assigned(alloc, nodes, scope, numbers.len(), right)?;
    write_down(current, numbers.as_slice(), edges.as_slice());
    Ok(())
}
