ghost use Rattle.std.specs.Prelude.{◌≡◌, ◌≤◌, IsTrue, OnOk, OnErr};
ghost use Rattle.std.specs.FinMap.{empty, contains_key};
ghost use Rattle.bm_base.specs.Counts.{count_of, up, entered, risen, Rose, RisesOnlyAt, SameCounts};

use crate::NoMemory;
use std::alloc::Global;
use std::collections::BTreeMap;
use std::marker::Model;

/// Counts of faults by name. A name that is not in it has the count 0.
#[derive(Debug, Drop)]
pub struct Counts {
    alloc: Global,
    counts: BTreeMap<String, u64>,
}

impl Model for Counts {
    ghost use Rattle.bm_base.specs.Counts.{FaultCounts, counts_code};
    ghost use Rattle.bm_base.specs.TextMap.{text_map};

    ghost Value = { FaultCounts };

    ghost coded = { counts_code };

    ghost view = { λ a. text_map (λ count. count) a.counts };
}

impl Counts {
    /// Counts with no name in them.
    pub fn new(alloc: Global) -> Counts
        ensures { result ≡ empty }
    {
        Counts {
            alloc,
            counts: BTreeMap::new(alloc),
        }
    }

    /// The name's count.
    pub fn count(&self, name: &str) -> u64
        ensures { result ≡ count_of self.now name.now }
    {
        self.counts.get(name).copied().unwrap_or(0)
    }

    /// Makes room for the name's count, which stays 0 where the name is new. Only this takes memory.
    pub fn enter(&mut self, name: &str) -> Result<(), NoMemory>
        ensures ok { OnOk result (self.new ≡ entered name.now self.old) }
        ensures there { OnOk result (IsTrue (contains_key self.new name.now)) }
        ensures same { OnOk result (SameCounts self.old self.new) }
        ensures err { OnErr result (self.new ≡ self.old) }
    {
        let count = self.count(name);
        let name = String::from_str(self.alloc, name)?;
        self.counts.insert(name, count)?;
        Ok(())
    }

    /// Counts one more for a name that has been entered.
    pub fn raise(&mut self, name: &str)
        requires { IsTrue (contains_key self.old name.now) }
        ensures risen { self.new ≡ risen name.now self.old }
        ensures rose { Rose (count_of self.old name.now) (count_of self.new name.now) }
        ensures only { RisesOnlyAt name.now self.old self.new }
    {
        if let Some(count) = self.counts.get_mut(name) {
            *count = one_more(*count);
        }
    }

    /// Counts one more for the name. A count at 2^64 - 1 stays there.
    pub fn rise(&mut self, name: &str) -> Result<(), NoMemory>
        ensures ok { OnOk result (self.new ≡ risen name.now self.old) }
        ensures rose { OnOk result (Rose (count_of self.old name.now) (count_of self.new name.now)) }
        ensures only { RisesOnlyAt name.now self.old self.new }
        ensures err { OnErr result (self.new ≡ self.old) }
    {
        self.enter(name)?;
        self.raise(name);
        Ok(())
    }
}

fn one_more(count: u64) -> u64
    ensures up { result ≡ up count }
    ensures grows { count ≤ result }
{
    count.saturating_add(1)
}
