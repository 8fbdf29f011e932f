//! Steps between the numbers of names.
ghost use Rattle.std.specs.Prelude.{◌≡◌, ◌++◌, IfOk, OnOk, map};
ghost use Rattle.std.specs.Option.{option_to_list};
ghost use Rattle.clock_sets.specs.Steps.{joined, turned};

use bm_base::NoMemory;
use sqlite_items::Items;
use std::alloc::Global;

/// The clock passes from the name with the one number to that with the other.
#[derive(Clone, Copy, Debug, PartialEq, Eq)]
pub(crate) struct Step {
    pub(crate) from: usize,
    pub(crate) to: usize,
}

/// Adds the step from the one number to the other, if there are both.
pub(crate) fn add_step(
    steps: &mut Items<Step>,
    from: Option<usize>,
    to: Option<usize>,
) -> Result<(), NoMemory>
    ensures { OnOk result (steps.new ≡ steps.old ++ option_to_list (joined from to)) }
{
    if let Some(from) = from {
        if let Some(to) = to {
            steps.push(Step { from, to })?;
        }
    }
    Ok(())
}

/// The same steps, each from its end to where it begins.
pub(crate) fn turned(alloc: Global, steps: &[Step]) -> Result<Items<Step>, NoMemory>
    ensures { IfOk result (λ others. others ≡ map turned steps.now) }
{
    let mut others = Items::new(alloc);
    for step in steps {
        others.push(turned_step(*step))?;
    }
    Ok(others)
}

fn turned_step(step: Step) -> Step
    ensures { result ≡ turned step }
{
    Step {
        from: step.to,
        to: step.from,
    }
}
