use bm_base::{Fault, Name, NoMemory};
use elab::ElabFault;
use flat_net::FlatFault;
use std::alloc::{AllocError, AllocFailed, Global};
use std::io;
use vlog_lexer::LexFault;
use vlog_parse::ParseFault;

/// Why there are no sizes.
#[derive(Debug, Drop)]
pub enum Stop {
    /// The words ask for nothing that there is.
    Words,
    Lex(LexFault),
    Parse(ParseFault),
    Rule(ElabFault),
    Flat(FlatFault),
    /// The system failed.
    System,
    Memory,
}

impl Stop {
    /// The line that says so, with its newline.
    pub fn line(&self, alloc: Global) -> Result<String, AllocError> {
        match self {
            Stop::Words => String::from_str(alloc, "words refused\n"),
            Stop::Lex(fault) => format!(in alloc; "{fault}\n"),
            Stop::Parse(fault) => format!(in alloc; "{fault}\n"),
            Stop::Rule(fault) => rule_line(alloc, fault),
            Stop::Flat(fault) => flat_line(alloc, *fault),
            Stop::System => String::from_str(alloc, "the system failed\n"),
            Stop::Memory => String::from_str(alloc, "out of memory\n"),
        }
    }
}

fn rule_line(alloc: Global, fault: &ElabFault) -> Result<String, AllocError> {
    match fault {
        ElabFault::Rule {
            rule,
            module_name,
            name,
        } => {
            let mut line = format!(in alloc; "netlist refused: E{rule} ")?;
            if !module_name.bytes().is_empty() {
                put_name(&mut line, module_name)?;
                line.push('.')?;
            }
            put_name(&mut line, name)?;
            line.push('\n')?;
            Ok(line)
        }
        ElabFault::Memory => String::from_str(alloc, "out of memory\n"),
    }
}

// Names of a netlist are printable.
fn put_name(line: &mut String, name: &Name) -> Result<(), AllocError> {
    for byte in name.bytes() {
        line.push(char::from(*byte))?;
    }
    Ok(())
}

fn flat_line(alloc: Global, fault: FlatFault) -> Result<String, AllocError> {
    match fault {
        FlatFault::TooLarge { what } => {
            let limit = what.limit();
            format!(in alloc; "limit: {what} {limit}\n")
        }
        FlatFault::Memory => String::from_str(alloc, "out of memory\n"),
    }
}

impl From<LexFault> for Stop {
    fn from(fault: LexFault) -> Stop {
        Stop::Lex(fault)
    }
}

impl From<ParseFault> for Stop {
    fn from(fault: ParseFault) -> Stop {
        Stop::Parse(fault)
    }
}

impl From<ElabFault> for Stop {
    fn from(fault: ElabFault) -> Stop {
        Stop::Rule(fault)
    }
}

impl From<FlatFault> for Stop {
    fn from(fault: FlatFault) -> Stop {
        Stop::Flat(fault)
    }
}

impl From<NoMemory> for Stop {
    fn from(_: NoMemory) -> Stop {
        Stop::Memory
    }
}

impl From<AllocError> for Stop {
    fn from(_: AllocError) -> Stop {
        Stop::Memory
    }
}

impl<T: Drop> From<AllocFailed<T>> for Stop {
    fn from(_: AllocFailed<T>) -> Stop {
        Stop::Memory
    }
}

impl From<Fault> for Stop {
    fn from(_: Fault) -> Stop {
        Stop::System
    }
}

impl From<io::Error> for Stop {
    fn from(_: io::Error) -> Stop {
        Stop::System
    }
}
