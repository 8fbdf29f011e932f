ghost use Rattle.std.specs.Prelude.{◌≡◌, ◌≤◌, ◌++◌, ◌∷◌, [], List, IfSome, IfNone, OnOk, ◌≢◌};
ghost use Rattle.std.specs.List.{list_any};
ghost use Rattle.driver_rules.specs.declared.run.Run.{Run};
ghost use Rattle.driver_rules.specs.Runs.{AreApart, IsLastUpTo, IsOverlapped, Keeps, kept_at, meets};

use crate::run::Run;
use bm_base::NoMemory;
use std::alloc::Global;
use std::collections::BTreeMap;

/// Bits of the names of a module, as runs that are apart from one another: where each begins, and its last bit.
#[derive(Drop)]
pub(crate) struct BitSet {
    runs: BTreeMap<(usize, usize), usize>,
    ghost apart: { AreApart (kept_at runs) },
}

impl BitSet {
    pub(crate) fn new(alloc: Global) -> BitSet
        ensures { Keeps (kept_at result.runs) [] }
    {
        BitSet {
            runs: BTreeMap::new(alloc),
        }
    }

    // Of the runs of a name that begin at this bit or before it, the one that begins last.
    fn last_up_to(&self, net: usize, bit: usize) -> Option<Run>
        ensures { IsLastUpTo (kept_at self.now.runs) net bit result }
    {
        match self.runs.range(..=(net, bit)).next_back() {
            Some((key, last)) => run_of(net, *key, *last),
            None => None,
        }
    }

    // A run that has one of these bits.
    fn overlapped(&self, bits: Run) -> Option<Run>
        ensures { IsOverlapped (kept_at self.now.runs) bits result }
    {
        match self.last_up_to(bits.net, bits.last) {
            Some(run) => {
                if bits.first <= run.last {
                    Some(run)
                } else {
                    None
                }
            }
            None => None,
        }
    }

    /// Whether one of these bits is among those of the set.
    pub(crate) fn overlaps(&self, bits: Run) -> bool
        requires { bits.first ≤ bits.last }
        ensures { (all : List Run) → Keeps (kept_at self.now.runs) all → result ≡ list_any (meets bits) all }
    {
        self.overlapped(bits).is_some()
    }

    /// Adds these bits.
    pub(crate) fn add(&mut self, bits: Run) -> Result<(), NoMemory>
        requires { bits.first ≤ bits.last }
        ensures { OnOk result ((all : List Run) → Keeps (kept_at self.old.runs) all → Keeps (kept_at self.new.runs) (all ++ bits ∷ [])) }
    {
        let mut whole = bits;
        while let Some(run) = self.overlapped(whole) {
            self.runs.remove(&(run.net, run.first));
            whole = whole.with(run);
        }
        self.runs.insert((whole.net, whole.first), whole.last)?;
        Ok(())
    }
}

// The run, if it is of the name with this number.
fn run_of(net: usize, key: (usize, usize), last: usize) -> Option<Run>
    ensures net { IfSome result (λ run. (run.net ≡ net) × (key.0 ≡ net)) }
    ensures bits { IfSome result (λ run. (run.first ≡ key.1) × (run.last ≡ last)) }
    ensures none { IfNone result (key.0 ≢ net) }
{
    if key.0 == net {
        Some(Run {
            net,
            first: key.1,
            last,
        })
    } else {
        None
    }
}
