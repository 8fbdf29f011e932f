//! The ports of a module, of which connections name some.
ghost use Rattle.std.specs.Prelude.{◌≡◌, ◌∷◌, [], IfOk, None, OnOk, Some, bytes_eq, cond, false, fold};
ghost use Rattle.hierarchy.specs.Failures.{earlier, failure};
ghost use Rattle.vlog_tree.specs.Meaning.Uses.{Text};
ghost use Rattle.name_rules.specs.Declarations.{is_among};
ghost use Rattle.name_rules.specs.Ports.{bad_by, is_free, linked_after, named_after, state_in};

use bm_base::{Name, NoMemory};
use hierarchy::Earliest;
use std::alloc::Global;
use std::collections::HashMap;
use vlog_tree::{Link, Module};

/// The names of a module's ports, each with whether a connection names it.
#[derive(Drop)]
pub(crate) struct Ports<'a> {
    named: HashMap<&'a [u8], bool>,
}

impl<'a> Ports<'a> {
    /// None of the ports is named yet.
    pub(crate) fn of(alloc: Global, names: &'a [Name]) -> Result<Ports<'a>, NoMemory>
        ensures { IfOk result (λ ports. (name : Text) → state_in ports name
            ≡ cond (is_among names.now name) (Some false) None) }
    {
        let mut ports = Ports {
            named: HashMap::new(alloc),
        };
        for name in names {
            ports.set(name.bytes(), false)?;
        }
        Ok(ports)
    }

    fn set(&mut self, port: &'a [u8], is_named: bool) -> Result<(), NoMemory>
        ensures { OnOk result ((name : Text) → state_in self.new name
            ≡ cond (bytes_eq port.now name) (Some is_named) (state_in self.old name)) }
    {
        self.named.insert(port, is_named)?;
        Ok(())
    }

    // A port of the module that no connection names yet.
    fn is_free(&self, name: &[u8]) -> bool
        ensures { result ≡ is_free (state_in self.now name.now) }
    {
        match self.named.get(name) {
            Some(is_named) => !*is_named,
            None => false,
        }
    }

    /// Takes a connection in the module `m`. One that names no port, or a port that is named already, is noted.
    pub(crate) fn connect(
        &mut self,
        m: &'a Module,
        link: &'a Link,
        found: &mut Earliest<'a>,
    ) -> Result<(), NoMemory>
        ensures found { OnOk result (found.new
            ≡ fold earlier found.old (bad_by m.now (state_in self.old) link.now link.now.port)) }
        ensures named { OnOk result ((name : Text) → state_in self.new name
            ≡ linked_after (state_in self.old) link.now.port name) }
    {
        match &link.port {
            Some(port) => self.name(m, link.at, port, found),
            None => Ok(()),
        }
    }

    fn name(
        &mut self,
        m: &'a Module,
        at: u64,
        port: &'a Name,
        found: &mut Earliest<'a>,
    ) -> Result<(), NoMemory>
        ensures found { OnOk result (found.new ≡ fold earlier found.old
            (cond (is_free (state_in self.old port.now)) [] (failure at m.now.name port.now ∷ []))) }
        ensures named { OnOk result ((name : Text) → state_in self.new name
            ≡ named_after (state_in self.old) port.now name) }
    {
        if self.is_free(port.bytes()) {
            self.set(port.bytes(), true)
        } else {
            found.note(at, m.name.bytes(), port.bytes());
            Ok(())
        }
    }
}
