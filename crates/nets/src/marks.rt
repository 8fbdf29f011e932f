ghost use Rattle.std.specs.Prelude.{⊤, ◌≡◌, ◌||◌, [], ◌∷◌, codes, IsTrue};
ghost use Rattle.nets.specs.Marks.{calls_input, calls_output, calls_register, has_mark};

use bitflags::{Flag, Flags, bitflag_items};
use vlog_tree::{Dir, NetKind};

/// What a module's declarations call a name.
#[derive(Clone, Copy, Debug, PartialEq, Eq)]
pub(crate) struct Marks(u8);

bitflag_items! {
    impl Marks: u8 {
        const INPUT = 1;
        const OUTPUT = 2;
        const REGISTER = 4;
        const DECLARED = 8;
    }
}

impl Flags for Marks {
    type Bits = u8;

    ghost exact = { ⊤ };

    ghost table = { (codes "INPUT", 1)
        ∷ (codes "OUTPUT", 2)
        ∷ (codes "REGISTER", 4)
        ∷ (codes "DECLARED", 8)
        ∷ [] };

    ghost set_of = { λ marks. marks.0 };

    fn flags<'a>() -> &'a [Flag<Marks>] {
        Marks::FLAGS
    }

    fn bits(&self) -> u8 {
        self.0
    }

    fn from_bits_retain(bits: u8) -> Marks {
        Marks(bits)
    }
}

impl Marks {
    /// The marks of a name that is called these and what a declaration calls it.
    pub(crate) fn with_declaration(self, dir: Option<Dir>, kind: NetKind) -> Marks
        ensures input { has_mark result.0 1 ≡ (has_mark self.0 1 || calls_input dir) }
        ensures output { has_mark result.0 2 ≡ (has_mark self.0 2 || calls_output dir) }
        ensures register { has_mark result.0 4 ≡ (has_mark self.0 4 || calls_register kind) }
        ensures declared { IsTrue (has_mark result.0 8) }
    {
        self.with_direction(dir)
            .with_kind(kind)
            .union(Marks::DECLARED)
    }

    // Adds what the direction calls the name.
    fn with_direction(self, dir: Option<Dir>) -> Marks
        ensures input { has_mark result.0 1 ≡ (has_mark self.0 1 || calls_input dir) }
        ensures output { has_mark result.0 2 ≡ (has_mark self.0 2 || calls_output dir) }
        ensures register { has_mark result.0 4 ≡ has_mark self.0 4 }
    {
        match dir {
            Some(Dir::Input) => self.union(Marks::INPUT),
            Some(Dir::Output) => self.union(Marks::OUTPUT),
            None => self,
        }
    }

    // Adds what the kind calls the name.
    fn with_kind(self, kind: NetKind) -> Marks
        ensures input { has_mark result.0 1 ≡ has_mark self.0 1 }
        ensures output { has_mark result.0 2 ≡ has_mark self.0 2 }
        ensures register { has_mark result.0 4 ≡ (has_mark self.0 4 || calls_register kind) }
    {
        match kind {
            NetKind::Reg => self.union(Marks::REGISTER),
            NetKind::Plain | NetKind::Wire => self,
        }
    }
}
