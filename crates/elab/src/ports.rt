//! Rule E11: the clock and the reset are inputs of one bit, the checker is an output of one bit, and clock and reset are
//! two.
ghost use Rattle.std.specs.Prelude.{◌≡◌, ◌&&◌, bytes_eq, fold, not};
ghost use Rattle.hierarchy.specs.Failures.{earlier, earliest};
ghost use Rattle.vlog_tree.specs.declared.design.Design.{Design};
ghost use Rattle.vlog_tree.specs.Meaning.Names.{is_input, is_output};
ghost use Rattle.elab.specs.Ports.{bad_ports_of, bad_reset, bad_setting, unless_fit};
ghost use Rattle.nets.specs.Nets.{is_one_bit};
ghost use Rattle.elab.specs.Settings.{setting_of};

use crate::names::Names;
use bm_base::Name;
use design_nets::DesignNets;
use hierarchy::Earliest;
use nets::Nets;

/// The first of the clock, the checker and the reset that is no such port.
pub(crate) fn bad_setting<'a>(design: &DesignNets<'a>, names: &'a Names) -> Earliest<'a>
    requires { design.now.top ≡ names.now.top }
    ensures { result ≡ earliest (bad_setting (setting_of design.now.design names.now)) }
{
    let mut found = Earliest::new();
    note_bad_ports(design.top(), names, &mut found);
    found
}

fn note_bad_ports<'a>(top: &Nets<'a>, names: &'a Names, found: &mut Earliest<'a>)
    ensures { (design : Design) → found.new ≡ fold earlier found.old (bad_ports_of (setting_of design names.now) top.now) }
{
    note_unless(is_input_bit(top, &names.clock), &names.clock, found);
    note_unless(is_output_bit(top, &names.check), &names.check, found);
    note_bad_reset(top, names, found);
}

fn note_bad_reset<'a>(top: &Nets<'a>, names: &'a Names, found: &mut Earliest<'a>)
    ensures { found.new ≡ fold earlier found.old (bad_reset top.now names.now.clock names.now.reset) }
{
    if let Some((reset, _)) = &names.reset {
        note_unless(is_reset_bit(top, reset, &names.clock), reset, found);
    }
}

fn note_unless<'a>(is_fit: bool, name: &'a Name, found: &mut Earliest<'a>)
    ensures { found.new ≡ fold earlier found.old (unless_fit is_fit name.now) }
{
    if !is_fit {
        found.note(0, b"", name.bytes());
    }
}

fn is_input_bit(top: &Nets, name: &Name) -> bool
    ensures { result ≡ (is_input top.now name.now && is_one_bit top.now name.now) }
{
    let name = name.bytes();
    top.is_input(name) && top.is_one_bit(name)
}

fn is_output_bit(top: &Nets, name: &Name) -> bool
    ensures { result ≡ (is_output top.now name.now && is_one_bit top.now name.now) }
{
    let name = name.bytes();
    top.is_output(name) && top.is_one_bit(name)
}

fn is_reset_bit(top: &Nets, name: &Name, clock: &Name) -> bool
    ensures { result ≡ (is_input top.now name.now && (is_one_bit top.now name.now && not (bytes_eq name.now clock.now))) }
{
    let name = name.bytes();
    top.is_input(name) && (top.is_one_bit(name) && *name != *clock.bytes())
}
