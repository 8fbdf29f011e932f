//! Why a design has no flat netlist, as lines.
use crate::shown::put_shown;
use crate::trouble::Trouble;
use elab::ElabFault;
use flat_net::FlatFault;

/// Adds the rule that a design breaks, with the name at its first place.
pub fn put_rule(says: &mut String, fault: &ElabFault) -> Result<(), Trouble> {
    match fault {
        ElabFault::Rule {
            rule,
            module_name,
            name,
        } => {
            write!(says, "netlist refused: E{rule} ")?;
            if !module_name.bytes().is_empty() {
                put_shown(says, module_name.bytes())?;
                says.push('.')?;
            }
            put_shown(says, name.bytes())?;
            says.push('\n')?;
            Ok(())
        }
        ElabFault::Memory => Err(Trouble::Memory),
    }
}

/// Adds the size that passes its limit, with the limit.
pub fn put_flat_fault(says: &mut String, fault: FlatFault) -> Result<(), Trouble> {
    match fault {
        FlatFault::TooLarge { what } => {
            let limit = what.limit();
            writeln!(says, "limit: {what} {limit}")?;
            Ok(())
        }
        FlatFault::Memory => Err(Trouble::Memory),
    }
}
