ghost use Rattle.std.specs.Prelude.{◌≡◌, ◌<◌, ◌↔◌, [], IfOk, IfSome, IsTrue, Some, bytes_eq, flat_map, is_some, length, position, slice_get};
ghost use Rattle.std.specs.Option.{option_copied, option_map};
ghost use Rattle.vlog_tree.specs.Meaning.Ranges.{range_of};
ghost use Rattle.vlog_tree.specs.Meaning.Uses.{item_uses};
ghost use Rattle.vlog_tree.specs.Meaning.Names.{is_input, is_output, is_register};
ghost use Rattle.nets.specs.Nets.{is_one_bit, net_of, net_with, nets};
ghost use Rattle.nets.specs.Used.{shown};

use crate::Net;
use crate::facts::Facts;
use crate::placing::nets_of;
use crate::uses::Use;
use bm_base::{Name, NoMemory, Range};
use indexmap::IndexMap;
use sqlite_items::Items;
use std::alloc::Global;
use std::marker::Model;
use vlog_tree::{Module, Ranges};

/// The names of a module in their order, each with what the module says of it: the ports by the header, then the other
/// declared names by their first declaration, then the implicit ones by their first use. A name that stands in the
/// header alone is none of them. Contracts see a table as its module.
#[derive(Drop)]
pub struct Nets<'a> {
    m: &'a Module,
    entries: IndexMap<&'a [u8], Net>,
    uses: Items<Use<'a>>,
}

impl<'a> Model for Nets<'a> {
    ghost use Rattle.std.specs.Prelude.{◌≡◌, flat_map};
    ghost use Rattle.std.specs.Coded.{codes};
    ghost use Rattle.vlog_tree.specs.contracts.design.Module as tree;
    ghost use Rattle.vlog_tree.specs.declared.design.Module.{Module};
    ghost use Rattle.nets.specs.Nets.{nets};
    ghost use Rattle.nets.specs.Placed.{entries_shown};
    ghost use Rattle.nets.specs.Used.{shown};
    ghost use Rattle.vlog_tree.specs.Meaning.Uses.{item_uses};

    ghost Value = { Module };

    ghost coded = { Prim.hlevel (codes, tree.the_row.coded) };

    ghost view = { λ table. table.m.now };

    ghost invariant = { λ table. (entries_shown table.entries.entries ≡ nets table.m.now)
        × (shown table.uses ≡ flat_map item_uses table.m.now.items) };
}

impl<'a> Nets<'a> {
    /// Takes time that grows with the size of the module.
    pub fn of(alloc: Global, m: &'a Module) -> Result<Nets<'a>, NoMemory>
        ensures { IfOk result (λ table. table ≡ m.now) }
    {
        let facts = Facts::of(alloc, m)?;
        let entries = nets_of(alloc, &facts)?;
        let uses = facts.into_uses();
        Ok(Nets { m, entries, uses })
    }

    pub fn module(&self) -> &'a Module
        ensures { result.now ≡ self.now }
    {
        self.m
    }

    /// What the module says of the name. Nothing where it is neither declared nor implicit.
    pub fn get(&self, name: &Name) -> Option<&Net>
        ensures value { option_copied result ≡ net_of self.now name.now }
        ensures range { option_map (λ net. net.now.range) result ≡ range_of self.now name.now }
        ensures said { IfSome result (λ net. net.now ≡ net_with self.now name.now net.now.range) }
    {
        self.entries.get(name.bytes())
    }

    /// The same of a name that is given by its bytes.
    pub fn find(&self, name: &[u8]) -> Option<&Net>
        ensures { option_copied result ≡ net_of self.now name.now }
    {
        self.entries.get(name)
    }

    /// The place of a name in the order.
    pub fn index_of(&self, name: &[u8]) -> Option<usize>
        ensures place { result ≡ position (λ entry. bytes_eq name.now entry.0) (nets self.now) }
        ensures within { IfSome result (λ place. place < length (nets self.now)) }
        ensures found { is_some result ≡ is_some (range_of self.now name.now) }
    {
        self.entries.get_index_of(name)
    }

    /// Some declaration says `input` of the name.
    pub fn is_input(&self, name: &[u8]) -> bool
        ensures { result ≡ is_input self.now name.now }
    {
        match self.find(name) {
            Some(net) => net.is_input(),
            None => false,
        }
    }

    /// Some declaration says `output` of it.
    pub fn is_output(&self, name: &[u8]) -> bool
        ensures { result ≡ is_output self.now name.now }
    {
        match self.find(name) {
            Some(net) => net.is_output(),
            None => false,
        }
    }

    /// Some declaration says `reg` of it.
    pub fn is_register(&self, name: &[u8]) -> bool
        ensures { result ≡ is_register self.now name.now }
    {
        match self.find(name) {
            Some(net) => net.is_register(),
            None => false,
        }
    }

    /// It has one bit.
    pub fn is_one_bit(&self, name: &[u8]) -> bool
        ensures { result ≡ is_one_bit self.now name.now }
    {
        match self.find(name) {
            Some(net) => net.width() == 1,
            None => false,
        }
    }

    /// All uses of names in the module, in source order.
    pub fn uses(&self) -> &[Use<'a>]
        ensures { shown result.now ≡ flat_map item_uses self.now.items }
    {
        self.uses.as_slice()
    }

    /// How many names there are.
    pub fn len(&self) -> usize
        ensures { result ≡ length (nets self.now) }
    {
        self.entries.len()
    }

    pub fn is_empty(&self) -> bool
        ensures { IsTrue result ↔ (nets self.now ≡ []) }
    {
        self.entries.is_empty()
    }

    /// The name at this place of the order, with what the module says of it.
    pub fn entry_at(&self, i: usize) -> (&'a [u8], &Net)
        requires { i < length (nets self.now) }
        ensures entry { slice_get (nets self.now) i ≡ Some (result.0.now, result.1.now) }
        ensures value { net_of self.now result.0.now ≡ Some result.1.now }
    {
        let (name, net) = self.entries.get_index(i).unwrap();
        (*name, net)
    }

    /// The name at this place of the order.
    pub fn name_at(&self, i: usize) -> &'a [u8]
        requires { i < length (nets self.now) }
        ensures { option_map (λ entry. entry.0) (slice_get (nets self.now) i) ≡ Some result.now }
    {
        let (name, _) = self.entries.get_index(i).unwrap();
        *name
    }

    /// What the module says of the name at this place of the order.
    pub fn net_at(&self, i: usize) -> &Net
        requires { i < length (nets self.now) }
        ensures { option_map (λ entry. entry.1) (slice_get (nets self.now) i) ≡ Some result.now }
    {
        let (_, net) = self.entries.get_index(i).unwrap();
        net
    }
}

impl<'a> Ranges for Nets<'a> {
    ghost use Rattle.vlog_tree.specs.Meaning.Ranges.{range_of};

    ghost ranges = { range_of };

    fn range_of(&self, name: &Name) -> Option<Range> {
        match self.get(name) {
            Some(net) => Some(net.range()),
            None => None,
        }
    }
}
