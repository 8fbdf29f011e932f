ghost use Rattle.std.specs.Prelude.{◌≡◌, ◌==◌, ◌<◌, [], IfOk, length, slice_index_or};
ghost use Rattle.std.specs.Option.{option_map};
ghost use Rattle.std.specs.Str.{bytes_eq};
ghost use Rattle.vcd_header.specs.Bits.{source_shown, wanted_of};
ghost use Rattle.vcd_header.specs.Declares.{first_of};
ghost use Rattle.vcd_header.specs.Matching.{source_of, within};
ghost use Rattle.vcd_header.specs.Scopes.{dotted};

use crate::declaration::Declaration;
use crate::declarations::Declarations;
use crate::source::{BitSource, source_among};
use crate::wanted::WantedBit;
use bm_base::NoMemory;
use std::alloc::Global;
use std::marker::Model;

/// What a header declares, with the variables of each scope together.
#[derive(Drop)]
pub(crate) struct ScopeTable<'d, 'a> {
    declarations: &'d Declarations<'a>,
    // for each opened scope the number of the first that was opened by its path
    firsts: Vec<usize>,
    // for each of these numbers the variables of that scope
    lists: Vec<Vec<Declaration<'a>>>,
}

impl<'d, 'a> Model for ScopeTable<'d, 'a> {
    ghost use Rattle.vcd_header.specs.Declares.{Declared};
    ghost use Rattle.vcd_header.specs.Contents.{IsTable};

    ghost Value = { Declared };

    ghost view = { λ it. it.declarations.now };

    ghost invariant = { λ it. IsTable it.declarations.now it.firsts.items it.lists.items };
}

impl<'d, 'a> ScopeTable<'d, 'a> {
    pub(crate) fn new(
        alloc: Global,
        declarations: &'d Declarations<'a>,
    ) -> Result<ScopeTable<'d, 'a>, NoMemory>
        ensures { IfOk result (λ table. table ≡ declarations.now) }
    {
        let firsts = declarations.firsts(alloc)?;
        let lists = declarations.contents(alloc, &firsts)?;
        Ok(ScopeTable {
            declarations,
            firsts,
            lists,
        })
    }

    /// How often a scope was opened.
    pub(crate) fn scope_count(&self) -> usize
        ensures { result ≡ length self.now.scopes }
    {
        self.declarations.scope_count()
    }

    /// Whether no scope was opened by the same path before the scope of this number.
    pub(crate) fn is_first(&self, number: usize) -> bool
        requires { number < length self.now.scopes }
        ensures { result ≡ (first_of self.now.scopes (slice_index_or self.now.scopes number []) == number) }
    {
        self.firsts[number] == number
    }

    /// Where the bit comes from, if a variable directly in the scope of this number gives it.
    pub(crate) fn source_of(&self, number: usize, bit: &WantedBit) -> Option<BitSource<'a>>
        requires { number < length self.now.scopes }
        ensures { option_map source_shown result
            ≡ source_of (within (slice_index_or self.now.scopes number []) self.now.variables) (wanted_of bit.now) }
    {
        source_among(&self.lists[self.firsts[number]], bit)
    }

    /// Whether the scope of this number has this name, its own behind those that it stands in, with dots between them.
    pub(crate) fn is_named(
        &self,
        alloc: Global,
        number: usize,
        name: &str,
    ) -> Result<bool, NoMemory>
        requires { number < length self.now.scopes }
        ensures { IfOk result (λ named. named ≡ bytes_eq (dotted (slice_index_or self.now.scopes number [])) name.now) }
    {
        self.declarations.is_named(alloc, number, name)
    }
}
