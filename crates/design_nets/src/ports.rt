//! The ports to which the connections of an instance lead.
ghost use Rattle.std.specs.Prelude.{◌≡◌, slice_get};
ghost use Rattle.std.specs.Option.{option_map};
ghost use Rattle.vlog_tree.specs.Meaning.Instances.{port_of};

use vlog_tree::{Link, Module};

/// The port of the connection at this place of an instance of the module `inner`: the one that it names, or that which
/// stands in the header where it stands in the list. None where there are more connections than ports.
pub fn port_of<'a>(inner: &'a Module, place: usize, link: &'a Link) -> Option<&'a [u8]>
    ensures { option_map (λ port. port.now) result ≡ port_of inner.now (place, link.now) }
{
    match &link.port {
        Some(port) => Some(port.bytes()),
        None => ordered_port(inner, place),
    }
}

fn ordered_port<'a>(inner: &'a Module, place: usize) -> Option<&'a [u8]>
    ensures { option_map (λ port. port.now) result ≡ slice_get inner.now.ports place }
{
    match inner.ports.as_slice().get(place) {
        Some(port) => Some(port.bytes()),
        None => None,
    }
}
