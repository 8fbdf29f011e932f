ghost use Rattle.std.specs.Prelude.{◌≡◌, ◌⊎◌, Err, Ok, IfErr, IfOk, option_copied};
ghost use Rattle.vcd_reader.specs.Body.{items};
ghost use Rattle.vcd_reader.specs.Waveform.{body_of, limited, waveform};
ghost use Rattle.vcd_header.specs.declared.fault.VcdFault.TheVariants.{Memory};

use crate::body::read_body;
use std::alloc::Global;
use trace_rows::{Labels, Trace};
use vcd_header::{Declarations, Tokens, VcdFault, matched, take_header};

/// What the bytes are as a waveform of these labels, in the scope of this name or, without one, in the first scope
/// that gives every bit: the rows, and how many bits were given as `x` or `z`. If they are none, the first fault from
/// the left, and else the first limit that the rows pass, where a state has so many registers.
pub fn read_bytes(
    alloc: Global,
    bytes: &[u8],
    labels: &Labels,
    scope: Option<&str>,
    registers: u32,
) -> Result<(Trace, u64), VcdFault>
    ensures ok { IfOk result
        (λ read. limited registers (waveform bytes.now labels.now (option_copied scope.entry))
        ≡ Ok (record { trace = read.0; unknown = read.1 })) }
    ensures err { IfErr result
        (λ fault. (limited registers (waveform bytes.now labels.now (option_copied scope.entry)) ≡ Err fault)
        ⊎ (fault ≡ Memory)) }
{
    let mut tokens = Tokens::new(bytes);
    match take_header(alloc, bytes.len() as u64, &mut tokens) {
        Ok(declarations) => {
            read_behind(alloc, &declarations, &mut tokens, labels, scope, registers)
        }
        Err(fault) => Err(fault),
    }
}

// The same of what stands behind a header that declares this.
fn read_behind(
    alloc: Global,
    declarations: &Declarations,
    tokens: &mut Tokens,
    labels: &Labels,
    scope: Option<&str>,
    registers: u32,
) -> Result<(Trace, u64), VcdFault>
    ensures ok { IfOk result (λ read. limited registers
        (body_of declarations.now (items tokens.old) labels.now (option_copied scope.entry))
        ≡ Ok (record { trace = read.0; unknown = read.1 })) }
    ensures err { IfErr result (λ fault. (limited registers
        (body_of declarations.now (items tokens.old) labels.now (option_copied scope.entry)) ≡ Err fault)
        ⊎ (fault ≡ Memory)) }
{
    match matched(alloc, declarations, labels, scope) {
        Ok(sources) => read_body(alloc, declarations, tokens, &sources, registers),
        Err(fault) => Err(fault),
    }
}
