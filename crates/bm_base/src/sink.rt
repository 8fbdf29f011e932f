ghost use Rattle.std.specs.Prelude.{◌≡◌, ◌≤◌, ◌++◌, ℕ, List, Option, IsErrOf, OnOk, OnErr};
ghost use Rattle.std.specs.Option.{option_map};
ghost use Rattle.bm_base.specs.Counts.{Rose};
ghost use Rattle.bm_base.specs.Taken.{TakesPrefix};

use crate::Fault;

/// Where lines are printed. Its count of faults never falls, and one that stands at 2^64 - 1 stays there and is taken
/// as risen.
pub trait Sink {
    /// The bytes so far, where the sink tells them.
    ghost taken: { Self → Option (List ℕ) };

    /// How often a `put` has failed.
    ghost faults: { Self → ℕ };

    /// Adds a piece. After a fault a prefix of it is added.
    fn put(&mut self, piece: &[u8]) -> Result<(), Fault>
        ensures ok { OnOk result (taken self.new ≡ option_map (λ bytes. bytes ++ piece.now) (taken self.old)) }
        ensures err { OnErr result (TakesPrefix piece.now (taken self.old) (taken self.new)) }
        ensures cause { IsErrOf result Fault.Failed → Rose (faults self.old) (faults self.new) }
        ensures grows { faults self.old ≤ faults self.new };
}
