//! Statements give edges to registers.
ghost use Rattle.std.specs.Prelude.{◌≡◌, ◌+◌, [], IfErr, IfOk, OnOk, length, map};
ghost use Rattle.std.specs.Option.{option_map};
ghost use Rattle.lowering.specs.Limits.{Excuses, next_of, with_more};
ghost use Rattle.lowering.specs.Lowered.{lowered};
ghost use Rattle.numbering.specs.Bits.{register_bits};
ghost use Rattle.processes.specs.Carried.{Carried, CarriesTo, Tried};
ghost use Rattle.processes.specs.Statements.{Registers, block, other_process, process_of};

use crate::assigned::assigned_numbers;
use crate::branches::choose_at;
use crate::sets::set;
use crate::writing::{edges_at, write_at};
use flat_net::{Edge, FlatFault};
use lowering::{Nodes, Scope, lower_condition};
use numbering::ModulePlaces;
use sqlite_items::{Boxed, Items};
use std::alloc::Global;
use vlog_tree::Stmt;

/// Carries out a statement of the module: `current` has the edge of each register bit so far, in the order of these, and
/// then the edge that the statement gives it. Takes time that grows with the bits that are assigned, at each `if` once
/// more, and with the nodes that are added.
pub fn lower_statement<S: Scope>(
    alloc: Global,
    nodes: &mut Nodes,
    scope: &S,
    places: &ModulePlaces<'_>,
    current: &mut Items<Edge>,
    stmt: &Stmt,
) -> Result<(), FlatFault>
    requires { S.module_of scope.now ≡ places.now.definition }
    ensures current { OnOk result ((before : Registers) → current.old ≡ map before (register_bits (S.module_of scope.now))
        → current.new ≡ map ((process_of (S.module_of scope.now) (S.wires scope.now) stmt.now).change before (next_of nodes.old)).registers
        (register_bits (S.module_of scope.now))) }
    ensures nodes { OnOk result ((before : Registers) → current.old ≡ map before (register_bits (S.module_of scope.now))
        → nodes.new ≡ with_more nodes.old
        (lowered ((process_of (S.module_of scope.now) (S.wires scope.now) stmt.now).change before (next_of nodes.old)).nodes [])) }
    ensures fault { IfErr result (λ fault. (before : Registers) → current.old ≡ map before (register_bits (S.module_of scope.now))
        → Excuses (next_of nodes.old
        + length ((process_of (S.module_of scope.now) (S.wires scope.now) stmt.now).change before (next_of nodes.old)).nodes) fault) }
{
    carry_out(alloc, nodes, scope, places, current, stmt)
}

#[cycle(statements)]
fn carry_out<S: Scope>(
    alloc: Global,
    nodes: &mut Nodes,
    scope: &S,
    places: &ModulePlaces<'_>,
    current: &mut Items<Edge>,
    stmt: &Stmt,
) -> Result<(), FlatFault>
    requires { S.module_of scope.now ≡ places.now.definition }
    ensures carried { OnOk result (Carried (S.module_of scope.now)
        (process_of (S.module_of scope.now) (S.wires scope.now) stmt.now) nodes.old nodes.new current.old current.new) }
    ensures fault { IfErr result (CarriesTo (S.module_of scope.now)
        (process_of (S.module_of scope.now) (S.wires scope.now) stmt.now) nodes.old current.old) }
{
    match stmt {
        Stmt::Empty => Ok(()),
        Stmt::Block(body) => {
            carry_out_all(alloc, nodes, scope, places, current, body.as_slice())
        }
        Stmt::If { cond, first, other } => {
            let first = first.get();
            let choice = lower_condition(alloc, nodes, scope, cond)?;
            let numbers = assigned_numbers(alloc, places, first, other)?;
            let numbers = numbers.as_slice();
            let firsts = first_edges(alloc, nodes, scope, places, current, numbers, first)?;
            carry_out_other(alloc, nodes, scope, places, current, other)?;
            choose_at(alloc, nodes, current, choice, numbers, firsts.as_slice())
        }
        Stmt::Set { left, right, .. } => set(alloc, nodes, scope, places, current, left, right),
    }
}

// Statements one after another.
#[cycle(statements)]
fn carry_out_all<S: Scope>(
    alloc: Global,
    nodes: &mut Nodes,
    scope: &S,
    places: &ModulePlaces<'_>,
    current: &mut Items<Edge>,
    body: &[Stmt],
) -> Result<(), FlatFault>
    requires { S.module_of scope.now ≡ places.now.definition }
    ensures carried { OnOk result (Carried (S.module_of scope.now)
        (block (map (process_of (S.module_of scope.now) (S.wires scope.now)) body.now))
        nodes.old nodes.new current.old current.new) }
    ensures fault { IfErr result (CarriesTo (S.module_of scope.now)
        (block (map (process_of (S.module_of scope.now) (S.wires scope.now)) body.now)) nodes.old current.old) }
{
    for stmt in body {
        carry_out(alloc, nodes, scope, places, current, stmt)?;
    }
    Ok(())
}

// Carries out the first branch, takes its edges at the numbers, and puts those from before it back.
#[cycle(statements)]
fn first_edges<S: Scope>(
    alloc: Global,
    nodes: &mut Nodes,
    scope: &S,
    places: &ModulePlaces<'_>,
    current: &mut Items<Edge>,
    numbers: &[usize],
    stmt: &Stmt,
) -> Result<Items<Edge>, FlatFault>
    requires { S.module_of scope.now ≡ places.now.definition }
    ensures tried { IfOk result (λ edges. Tried (S.module_of scope.now)
        (process_of (S.module_of scope.now) (S.wires scope.now) stmt.now) numbers.now nodes.old nodes.new current.old current.new edges) }
    ensures fault { IfErr result (CarriesTo (S.module_of scope.now)
        (process_of (S.module_of scope.now) (S.wires scope.now) stmt.now) nodes.old current.old) }
{
    let old = edges_at(alloc, current.as_slice(), numbers)?;
    carry_out(alloc, nodes, scope, places, current, stmt)?;
    let edges = edges_at(alloc, current.as_slice(), numbers)?;
    write_at(current, numbers, old.as_slice());
    Ok(edges)
}

// The other branch, which may be left out.
#[cycle(statements)]
fn carry_out_other<S: Scope>(
    alloc: Global,
    nodes: &mut Nodes,
    scope: &S,
    places: &ModulePlaces<'_>,
    current: &mut Items<Edge>,
    other: &Option<Boxed<Stmt>>,
) -> Result<(), FlatFault>
    requires { S.module_of scope.now ≡ places.now.definition }
    ensures carried { OnOk result (Carried (S.module_of scope.now)
        (other_process (option_map (process_of (S.module_of scope.now) (S.wires scope.now)) other.now))
        nodes.old nodes.new current.old current.new) }
    ensures fault { IfErr result (CarriesTo (S.module_of scope.now)
        (other_process (option_map (process_of (S.module_of scope.now) (S.wires scope.now)) other.now)) nodes.old current.old) }
{
    match other {
        Some(other) => carry_out(alloc, nodes, scope, places, current, other.get()),
        None => Ok(()),
    }
}
