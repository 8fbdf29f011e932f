//! Why bytes are no netlist.
ghost use Rattle.std.specs.Prelude.{◌≡◌};
ghost use Rattle.netlists.specs.Stops.{fault_of_flat, fault_of_lex, fault_of_parse, fault_of_rule};
ghost use Rattle.netlists.specs.declared.fault.NetlistFault.TheVariants.{Memory};

use bm_base::{Name, NoMemory, Size};
use elab::ElabFault;
use flat_net::FlatFault;
use vlog_lexer::LexFault;
use vlog_parse::ParseFault;

/// Why a netlist is refused, the first of these that applies, or want of memory.
#[derive(Debug, Drop)]
pub enum NetlistFault {
    /// The bytes have no tokens.
    Lex(LexFault),
    /// The tokens give no design.
    Parse(ParseFault),
    /// The design breaks a rule.
    Rule(ElabFault),
    /// A size of its flat netlist passes its limit.
    TooLarge { what: Size },
    /// A bit reads itself, in one cycle: this is the printed name of the first such bit.
    Loop { key: Name },
    Memory,
}

impl From<LexFault> for NetlistFault {
    ghost from_gives = { λ why fault. fault ≡ fault_of_lex why };

    fn from(fault: LexFault) -> NetlistFault {
        match fault {
            LexFault::Memory => NetlistFault::Memory,
            _ => NetlistFault::Lex(fault),
        }
    }
}

impl From<ParseFault> for NetlistFault {
    ghost from_gives = { λ why fault. fault ≡ fault_of_parse why };

    fn from(fault: ParseFault) -> NetlistFault {
        match fault {
            ParseFault::Memory => NetlistFault::Memory,
            _ => NetlistFault::Parse(fault),
        }
    }
}

impl From<ElabFault> for NetlistFault {
    ghost from_gives = { λ why fault. fault ≡ fault_of_rule why };

    fn from(fault: ElabFault) -> NetlistFault {
        match fault {
            ElabFault::Memory => NetlistFault::Memory,
            _ => NetlistFault::Rule(fault),
        }
    }
}

impl From<FlatFault> for NetlistFault {
    ghost from_gives = { λ why fault. fault ≡ fault_of_flat why };

    fn from(fault: FlatFault) -> NetlistFault {
        match fault {
            FlatFault::Memory => NetlistFault::Memory,
            FlatFault::TooLarge { what } => NetlistFault::TooLarge { what },
        }
    }
}

impl From<NoMemory> for NetlistFault {
    ghost from_gives = { λ _ fault. fault ≡ Memory };

    fn from(_: NoMemory) -> NetlistFault {
        NetlistFault::Memory
    }
}
