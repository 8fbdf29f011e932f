ghost use Rattle.std.specs.Prelude.{◌≡◌, [], IfOk};
ghost use Rattle.name_rules.specs.Declarations.{bad_names};
ghost use Rattle.elab.specs.Plans.{IsPlan};
ghost use Rattle.elab.specs.Refusals.{in_reached};
ghost use Rattle.elab.specs.Settings.{setting_of};

use crate::beginning::setup_of;
use crate::labels::labels_of;
use crate::names::Names;
use bm_base::NoMemory;
use design_nets::DesignNets;
use flat_net::Setup;
use std::alloc::Global;
use trace_rows::Labels;

/// What the rest of the work needs of a design that keeps the rules.
#[derive(Debug, Drop)]
pub struct Plan {
    /// The place of the top among the modules.
    pub top: usize,
    /// What the bits of a trace's rows are.
    pub labels: Labels,
    /// How a run begins.
    pub setup: Setup,
}

impl Plan {
    /// That of a design in which no name of a module that is reached is wrong.
    pub(crate) fn of(alloc: Global, design: &DesignNets, names: &Names) -> Result<Plan, NoMemory>
        requires top { design.now.top ≡ names.now.top }
        requires kept { in_reached design.now.design design.now.top bad_names ≡ [] }
        ensures { IfOk result (IsPlan (setting_of design.now.design names.now)) }
    {
        let top = design.hierarchy().top();
        let labels = labels_of(alloc, design.top(), names)?;
        let setup = setup_of(labels.ports.as_slice(), names)?;
        Ok(Plan { top, labels, setup })
    }
}
