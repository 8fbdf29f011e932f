//! Names whose bits have numbers.
ghost use Rattle.std.specs.Prelude.{◌≡◌, ◌+◌, ◌<◌, ◌≤◌, ℕ, IfSome, Option};
ghost use Rattle.bm_base.specs.declared.size.Size.TheVariants.{Nodes};
ghost use Rattle.bm_base.specs.Size.{limit_of};
ghost use Rattle.vlog_tree.specs.declared.design.Module.{Module};
ghost use Rattle.vlog_tree.specs.Meaning.Keys.{bit_count};
ghost use Rattle.vlog_tree.specs.Meaning.Lefts.{Bit, bit_of};
ghost use Rattle.targets.specs.Numbers.{number_at};

use nets::Nets;

/// The names of a module, whose bits have numbers or none.
pub trait Numbers {
    /// The module that the names stand in.
    ghost module_of: { Self → Module };

    /// The number of each bit that has one.
    ghost number_of: { Self → Bit → Option ℕ };

    fn nets(&self) -> &Nets<'_>
        ensures { result.now ≡ module_of self.now };

    /// The number of the right end of a name: the other bits have those behind it. None where its bits have none.
    fn first_of(&self, name: &[u8]) -> Option<usize>
        ensures numbers { (bit : ℕ) → bit < bit_count (module_of self.now) name.now
            → number_of self.now (bit_of name.now bit) ≡ number_at result bit }
        ensures within { IfSome result (λ first. first + bit_count (module_of self.now) name.now ≤ limit_of Nodes) };
}
