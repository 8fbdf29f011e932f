//! The header of a module: each name once, and each with a direction.
ghost use Rattle.std.specs.Prelude.{◌≡◌, ◌||◌, IfOk, OnOk, bytes_eq, fold};
ghost use Rattle.std.specs.List.{list_any};
ghost use Rattle.hierarchy.specs.Failures.{earlier};
ghost use Rattle.vlog_tree.specs.Meaning.Uses.{Text};
ghost use Rattle.name_rules.specs.Declarations.{bad_ports, directs, is_among};
ghost use Rattle.name_rules.specs.Headers.{bad_port_by, has_in};

use bm_base::{Name, NoMemory};
use hierarchy::{Earliest, note_if};
use nets::{Net, Nets};
use std::alloc::Global;
use std::collections::HashMap;

/// The names of a header.
#[derive(Drop)]
pub(crate) struct Header<'a> {
    names: HashMap<&'a [u8], ()>,
}

impl<'a> Header<'a> {
    /// Notes each name that the header lists twice or that has no direction.
    pub(crate) fn of(
        alloc: Global,
        nets: &Nets<'a>,
        found: &mut Earliest<'a>,
    ) -> Result<Header<'a>, NoMemory>
        ensures found { OnOk result (found.new ≡ fold earlier found.old (bad_ports nets.now)) }
        ensures names { IfOk result (λ header. (name : Text) → has_in header name ≡ is_among nets.now.ports name) }
    {
        let m = nets.module();
        let mut header = Header {
            names: HashMap::new(alloc),
        };
        for name in m.ports.as_slice() {
            header.add(nets, name, found)?;
        }
        Ok(header)
    }

    fn add(
        &mut self,
        nets: &Nets<'a>,
        name: &'a Name,
        found: &mut Earliest<'a>,
    ) -> Result<(), NoMemory>
        ensures found { OnOk result (found.new
            ≡ fold earlier found.old (bad_port_by nets.now (has_in self.old) name.now)) }
        ensures added { OnOk result ((other : Text) → has_in self.new other
            ≡ (has_in self.old other || bytes_eq name.now other)) }
    {
        let m = nets.module();
        let is_bad = self.has(name.bytes()) || !has_direction(nets, name.bytes());
        note_if(is_bad, m, m.at, name.bytes(), found);
        self.names.insert(name.bytes(), ())?;
        Ok(())
    }

    pub(crate) fn has(&self, name: &[u8]) -> bool
        ensures { result ≡ has_in self.now name.now }
    {
        self.names.contains_key(name)
    }
}

// Whether a declaration says `input` or `output` of the name.
fn has_direction(nets: &Nets, name: &[u8]) -> bool
    ensures { result ≡ list_any (directs name.now) nets.now.items }
{
    match nets.find(name) {
        Some(net) => is_directed(net),
        None => false,
    }
}

fn is_directed(net: &Net) -> bool
    ensures { result ≡ (net.now.is_input || net.now.is_output) }
{
    net.is_input() || net.is_output()
}
