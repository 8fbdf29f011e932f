ghost use Rattle.std.specs.Prelude.{◌≡◌, IfOk, None, OnOk, Some, if◌then◌else◌};
ghost use Rattle.std.specs.Option.{unwrap_or};
ghost use Rattle.vcd_header.specs.Names.{Place, number_in, same_place};

use bm_base::NoMemory;
use std::alloc::Global;
use std::collections::HashMap;

/// A number for each scope, by the number of the scope that it stands in and its name.
#[derive(Drop)]
pub(crate) struct Names<'a> {
    numbers: HashMap<(Option<usize>, &'a [u8]), usize>,
}

impl<'a> Names<'a> {
    pub(crate) fn new(alloc: Global) -> Names<'a>
        ensures { (place : Place) → number_in result place ≡ None }
    {
        Names {
            numbers: HashMap::new(alloc),
        }
    }

    /// The number of the scope of this place, which is this one where it has none yet.
    pub(crate) fn get_or_insert(
        &mut self,
        place: (Option<usize>, &'a [u8]),
        number: usize,
    ) -> Result<usize, NoMemory>
        ensures number { IfOk result (λ kept. kept ≡ unwrap_or (number_in self.old place.entry) number) }
        ensures names { OnOk result ((other : Place) → number_in self.new other
            ≡ (if same_place place.entry other then Some (unwrap_or (number_in self.old place.entry) number)
            else number_in self.old other)) }
    {
        match self.numbers.get(&place).copied() {
            Some(known) => Ok(known),
            None => {
                self.numbers.insert(place, number)?;
                Ok(number)
            }
        }
    }
}
