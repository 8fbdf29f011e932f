ghost use Rattle.std.specs.Prelude.{◌≡◌, IfOk, None, OnOk, Some, bytes_eq, cond, not};
ghost use Rattle.std.specs.Option.{option_or, option_to_list};
ghost use Rattle.vlog_tree.specs.Meaning.Instances.{connection_of};
ghost use Rattle.vlog_tree.specs.Meaning.Uses.{Text};
ghost use Rattle.clock_rules.specs.Kept.{connected_from, first_plain, is_unplain_by, plain_in};

use bm_base::NoMemory;
use clock_sets::plain_name;
use design_nets::port_of;
use nets::Nets;
use std::alloc::Global;
use std::collections::HashMap;
use vlog_tree::{Link, Module};

/// The ports that an instance connects, each with whether its first connection is plain.
#[derive(Drop)]
pub(crate) struct Connected<'a> {
    plain: HashMap<&'a [u8], bool>,
}

impl<'a> Connected<'a> {
    /// Those of an instance of the module `inner` in that of `nets`.
    pub(crate) fn of(
        alloc: Global,
        nets: &Nets<'a>,
        inner: &'a Module,
        links: &'a [Link],
    ) -> Result<Connected<'a>, NoMemory>
        ensures { IfOk result (λ connected. (port : Text) → plain_in connected port
            ≡ first_plain nets.now port (connected_from inner.now 0 links.now)) }
    {
        let mut connected = Connected {
            plain: HashMap::new(alloc),
        };
        for (place, link) in links.iter().enumerate() {
            connected.add_link(nets, inner, place, link)?;
        }
        Ok(connected)
    }

    fn add_link(
        &mut self,
        nets: &Nets<'a>,
        inner: &'a Module,
        place: usize,
        link: &'a Link,
    ) -> Result<(), NoMemory>
        ensures { OnOk result ((port : Text) → plain_in self.new port ≡ option_or (plain_in self.old port)
            (first_plain nets.now port (option_to_list (connection_of inner.now (place, link.now))))) }
    {
        match (port_of(inner, place, link), &link.expr) {
            (Some(port), Some(expr)) => self.add(port, plain_name(nets, expr).is_some()),
            _ => Ok(()),
        }
    }

    fn add(&mut self, port: &'a [u8], is_plain: bool) -> Result<(), NoMemory>
        ensures { OnOk result ((other : Text) → plain_in self.new other
            ≡ option_or (plain_in self.old other) (cond (bytes_eq port.now other) (Some is_plain) None)) }
    {
        match self.get(port) {
            Some(_) => Ok(()),
            None => {
                self.plain.insert(port, is_plain)?;
                Ok(())
            }
        }
    }

    fn get(&self, port: &[u8]) -> Option<bool>
        ensures { result ≡ plain_in self.now port.now }
    {
        self.plain.get(port).copied()
    }

    /// The port isn't connected plainly.
    pub(crate) fn is_unplain(&self, port: &[u8]) -> bool
        ensures { result ≡ is_unplain_by (plain_in self.now port.now) }
    {
        match self.get(port) {
            Some(is_plain) => !is_plain,
            None => true,
        }
    }
}
