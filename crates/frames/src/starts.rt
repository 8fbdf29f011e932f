//! Where the bits of each instance start.
ghost use Rattle.std.specs.Prelude.{◌≡◌, ◌≤◌, ◌+◌, ◌*◌, IfErr, IfOk, OnOk, length};
ghost use Rattle.bm_base.specs.declared.size.Size.TheVariants.{Nodes};
ghost use Rattle.bm_base.specs.Size.{limit_of};
ghost use Rattle.lowering.specs.Limits.{Excuses};
ghost use Rattle.numbering.specs.Numbering.{first_of_expressions};
ghost use Rattle.numbering.specs.Places.{placed_driven, placed_registers};
ghost use Rattle.frames.specs.Numbered.{IsReady, setting_with};
ghost use Rattle.frames.specs.Standing.{AreStarts, count_to, start_with};

use crate::ground::Ground;
use crate::start::Start;
use bm_base::Size;
use flat_net::FlatFault;
use numbering::ModulePlaces;
use sqlite_items::Items;
use std::alloc::Global;

/// How many bits the inputs have, where the bits of each instance start, and where those of the last one end.
#[derive(Drop)]
pub(crate) struct Starts {
    pub(crate) inputs: usize,
    pub(crate) list: Items<Start>,
    pub(crate) end: Start,
}

pub(crate) fn starts_of(alloc: Global, ground: &Ground) -> Result<Starts, FlatFault>
    requires { IsReady (setting_with ground.now) }
    ensures starts { IfOk result (λ starts. AreStarts ground.now starts.inputs starts.list starts.end) }
    ensures fault { IfErr result (Excuses (first_of_expressions (setting_with ground.now))) }
{
    let inputs = ground.inputs()?;
    let mut list = Items::new(alloc);
    let mut end = with_room(
        inputs,
        Start {
            registers: 0,
            driven: 0,
        },
    )?;
    for i in 0..ground.len() {
        list.push(end)?;
        end = next_start(inputs, end, ground.places_at(i)?)?;
    }
    Ok(Starts { inputs, list, end })
}

// Where the bits of the next instance start, behind one of a module with these places.
fn next_start(inputs: usize, start: Start, places: &ModulePlaces) -> Result<Start, FlatFault>
    requires { count_to inputs start ≤ limit_of Nodes }
    ensures next { IfOk result (λ next. next ≡ start_with (start.registers + length (placed_registers places.now))
        (start.driven + length (placed_driven places.now))) }
    ensures within { IfOk result (λ next. count_to inputs next ≤ limit_of Nodes) }
    ensures fault { IfErr result (Excuses (count_to inputs (start_with (start.registers + length (placed_registers places.now))
        (start.driven + length (placed_driven places.now))))) }
{
    with_room(
        inputs,
        Start {
            registers: start.registers + places.registers(),
            driven: start.driven + places.driven(),
        },
    )
}

// The start, where the nodes before those of expressions are not too many.
fn with_room(inputs: usize, start: Start) -> Result<Start, FlatFault>
    requires { count_to inputs start ≤ 4 * limit_of Nodes }
    ensures same { IfOk result (λ same. same ≡ start) }
    ensures within { OnOk result (count_to inputs start ≤ limit_of Nodes) }
    ensures fault { IfErr result (Excuses (count_to inputs start)) }
{
    if (1 + inputs + start.registers + start.driven) as u64 > Size::Nodes.limit() {
        return Err(FlatFault::TooLarge { what: Size::Nodes });
    }
    Ok(start)
}
