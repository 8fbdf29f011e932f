//! The registers that statements assign.
ghost use Rattle.std.specs.Prelude.{◌≡◌, ◌++◌, IfOk, OnOk, flat_map, map};
ghost use Rattle.std.specs.Option.{option_map};
ghost use Rattle.lowering.specs.Expressions.{Wires};
ghost use Rattle.processes.specs.Numbers.{Adds, ordered_numbers};
ghost use Rattle.processes.specs.Statements.{block, other_process, process_of};

use crate::numbers::add_left;
use crate::sorting::sorted;
use numbering::ModulePlaces;
use sqlite_items::{Boxed, Items};
use std::alloc::{AllocError, Global};
use vlog_tree::Stmt;

/// The numbers of the register bits that one of two statements assigns, in their order.
pub(crate) fn assigned_numbers(
    alloc: Global,
    places: &ModulePlaces<'_>,
    first: &Stmt,
    other: &Option<Boxed<Stmt>>,
) -> Result<Vec<usize>, AllocError>
    ensures { IfOk result (λ numbers. (wires : Wires) → numbers.items ≡ ordered_numbers places.now.definition
        ((process_of places.now.definition wires first.now).assigns
        ++ (other_process (option_map (process_of places.now.definition wires) other.now)).assigns)) }
{
    let mut numbers = Items::new(alloc);
    add_assigned(&mut numbers, places, first)?;
    add_other(&mut numbers, places, other)?;
    Ok(sorted(alloc, numbers.as_slice())?)
}

// Adds the numbers of the bits that a statement assigns.
#[cycle(assigned)]
fn add_assigned(
    numbers: &mut Items<Option<usize>>,
    places: &ModulePlaces<'_>,
    stmt: &Stmt,
) -> Result<(), AllocError>
    ensures { OnOk result ((wires : Wires) → Adds places.now.definition
        (process_of places.now.definition wires stmt.now).assigns numbers.old numbers.new) }
{
    match stmt {
        Stmt::Empty => Ok(()),
        Stmt::Block(body) => add_block(numbers, places, body.as_slice()),
        Stmt::If { first, other, .. } => {
            add_assigned(numbers, places, first.get())?;
            match other {
                Some(other) => add_assigned(numbers, places, other.get()),
                None => Ok(()),
            }
        }
        Stmt::Set { left, .. } => add_left(numbers, places, left),
    }
}

#[cycle(assigned)]
fn add_block(
    numbers: &mut Items<Option<usize>>,
    places: &ModulePlaces<'_>,
    body: &[Stmt],
) -> Result<(), AllocError>
    ensures { OnOk result ((wires : Wires) → Adds places.now.definition
        (block (map (process_of places.now.definition wires) body.now)).assigns numbers.old numbers.new) }
{
    for stmt in body {
        add_assigned(numbers, places, stmt)?;
    }
    Ok(())
}

// The same of a statement that may be left out.
fn add_other(
    numbers: &mut Items<Option<usize>>,
    places: &ModulePlaces<'_>,
    other: &Option<Boxed<Stmt>>,
) -> Result<(), AllocError>
    ensures { OnOk result ((wires : Wires) → Adds places.now.definition
        (other_process (option_map (process_of places.now.definition wires) other.now)).assigns numbers.old numbers.new) }
{
    match other {
        Some(other) => add_assigned(numbers, places, other.get()),
        None => Ok(()),
    }
}
