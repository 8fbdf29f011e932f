ghost use Rattle.std.specs.Prelude.{◌≡◌, ◌⊎◌, ◌≤◌, ℕ, List, [], Option, length, IfOk, IfSome, IsErrOf, OnOk, OnErr};
ghost use Rattle.std.specs.Option.{option_map};
ghost use Rattle.bm_base.specs.Counts.{FaultCounts, count_of, Rose, RisesOnlyAt, SameCounts};
ghost use Rattle.bm_base.specs.Held.{Held, bytes_under, holding, appended, Reads, GainsPrefix};

use crate::Fault;

/// Bytes under names, as a folder of files has them. A name that is not there counts as empty.
///
/// A shelf may tell what it holds, as one in memory does, or not, as one over real files. For each name it counts
/// the faults of reading (`len` and `read_at`) and of writing (`create` and `append`). A count never falls, and one
/// that stands at 2^64 - 1 stays there and is taken as risen.
pub trait Shelf {
    /// The bytes under each name that is there, where the shelf tells them.
    ghost held: { Self → Option Held };

    /// For each name, how often reading it has failed.
    ghost reads: { Self → FaultCounts };

    /// For each name, how often writing it has failed.
    ghost writes: { Self → FaultCounts };

    /// How many bytes are under the name.
    fn len(&mut self, name: &str) -> Result<u64, Fault>
        ensures length { IfOk result
            (λ len. IfSome (held self.old) (λ held. len ≡ length (bytes_under held name.now))) }
        ensures held { held self.new ≡ held self.old }
        ensures cause { IsErrOf result Fault.Failed
            → Rose (count_of (reads self.old) name.now) (count_of (reads self.new) name.now) }
        ensures reads { RisesOnlyAt name.now (reads self.old) (reads self.new) }
        ensures writes { SameCounts (writes self.old) (writes self.new) };

    /// Reads bytes under the name from byte offset `at` on into the front of `buf`, and says how many. None are read
    /// only at or past the end, or into no room.
    fn read_at(&mut self, name: &str, at: u64, buf: &mut [u8]) -> Result<usize, Fault>
        ensures within { IfOk result (λ count. count ≤ length buf.old) }
        ensures bytes { IfOk result
            (λ count. IfSome (held self.old) (λ held. Reads (bytes_under held name.now) at count buf.new)) }
        ensures held { held self.new ≡ held self.old }
        ensures cause { IsErrOf result Fault.Failed
            → Rose (count_of (reads self.old) name.now) (count_of (reads self.new) name.now) }
        ensures reads { RisesOnlyAt name.now (reads self.old) (reads self.new) }
        ensures writes { SameCounts (writes self.old) (writes self.new) };

    /// Empties the name, or adds it with no bytes. After a fault it is as before or empty.
    fn create(&mut self, name: &str) -> Result<(), Fault>
        ensures ok { OnOk result (held self.new ≡ option_map (holding name.now []) (held self.old)) }
        ensures err { OnErr result
            ((held self.new ≡ held self.old) ⊎ (held self.new ≡ option_map (holding name.now []) (held self.old))) }
        ensures cause { IsErrOf result Fault.Failed
            → Rose (count_of (writes self.old) name.now) (count_of (writes self.new) name.now) }
        ensures writes { RisesOnlyAt name.now (writes self.old) (writes self.new) }
        ensures reads { SameCounts (reads self.old) (reads self.new) };

    /// Adds a piece at the end of the bytes under the name. After a fault a prefix of it is added.
    fn append(&mut self, name: &str, piece: &[u8]) -> Result<(), Fault>
        ensures ok { OnOk result (held self.new ≡ option_map (appended name.now piece.now) (held self.old)) }
        ensures err { OnErr result (GainsPrefix name.now piece.now (held self.old) (held self.new)) }
        ensures cause { IsErrOf result Fault.Failed
            → Rose (count_of (writes self.old) name.now) (count_of (writes self.new) name.now) }
        ensures writes { RisesOnlyAt name.now (writes self.old) (writes self.new) }
        ensures reads { SameCounts (reads self.old) (reads self.new) };
}
