ghost use Rattle.std.specs.Prelude.{◌≡◌, ◌∷◌, IfOk, length, map};
ghost use Rattle.vcd_header.specs.Bits.{source_shown};

use crate::digit::Target;
use crate::targets::Targets;
use bm_base::NoMemory;
use std::alloc::Global;
use std::marker::Model;
use vcd_header::BitSource;

/// Where the clock and the inputs come from.
#[derive(Drop)]
pub(crate) struct Sources<'a, 's> {
    clock: BitSource<'a>,
    inputs: &'s [BitSource<'a>],
    targets: Targets<'a>,
}

impl<'a, 's> Model for Sources<'a, 's> {
    ghost use Rattle.std.specs.Prelude.{◌≡◌, ℕ, List, map};
    ghost use Rattle.vcd_header.specs.Bits.{source_shown};
    ghost use Rattle.vcd_reader.specs.Sources.{Clocked};
    ghost use Rattle.vcd_reader.specs.Targets.{targets_from, targets_in};

    ghost Value = { Clocked };

    ghost view = { λ it. record { clock = source_shown it.clock; inputs = map source_shown it.inputs.now } };

    ghost invariant = { λ it. (code : List ℕ) → targets_in it.targets code
        ≡ targets_from 0 code (map source_shown it.inputs.now) };
}

impl<'a, 's> Sources<'a, 's> {
    ghost use Rattle.vcd_reader.specs.Targets.{targets_from};

    pub(crate) fn new(
        alloc: Global,
        clock: BitSource<'a>,
        inputs: &'s [BitSource<'a>],
    ) -> Result<Sources<'a, 's>, NoMemory>
        ensures { IfOk result (λ sources. sources
            ≡ record { clock = source_shown clock.entry; inputs = map source_shown inputs.now }) }
    {
        let targets = Targets::new(alloc, inputs)?;
        Ok(Sources {
            clock,
            inputs,
            targets,
        })
    }

    /// How many inputs there are.
    pub(crate) fn input_count(&self) -> usize
        ensures { result ≡ length self.now.inputs }
    {
        self.inputs.len()
    }

    /// Where the clock comes from.
    pub(crate) fn clock(&self) -> BitSource<'a>
        ensures { source_shown result ≡ self.now.clock }
    {
        self.clock
    }

    /// The inputs that a code gives.
    pub(crate) fn targets(&self, code: &[u8]) -> &[Target]
        ensures { result.now ≡ targets_from 0 code.now self.now.inputs }
    {
        self.targets.of_code(code)
    }
}
